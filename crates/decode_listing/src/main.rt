// The decode listing program: reads an input, and writes the listing of its decode. A read or a write that fails ends it with that error.
#![tactic(auto)]

ghost use Rattle.std.specs.Prelude.{◌<◌, ◌≤◌, IfOk, length, take};
ghost use Rattle.std.specs.Io.KnownBytes.{Consumes, IsAtEnd};

use listing::sizes;
use std::io;
use std::io::Read;

// Reads until `buffer` is full or the input ends, and answers how many bytes came, the first of the buffer. The buffer is fixed:
// `read_to_end` reads into a `Vec`, and `read_exact` tells nothing of an input that ends before the buffer is full.
fn fill<R: Read>(input: &mut R, buffer: &mut [u8]) -> io::Result<usize>
    ensures bound { IfOk result (λ n. n ≤ length buffer.new) }
    ensures bytes { IfOk result (λ n. Consumes (R.remaining input.old) (R.remaining input.new) (take n buffer.new)) }
    ensures end { IfOk result (λ n. n < length buffer.new → IsAtEnd (R.remaining input.new)) }
{
    let mut got = 0;
    while got < buffer.len() {
        let n = input.read(&mut buffer[got..])?;
        if n == 0 {
            break;
        }
        got += n;
    }
    Ok(got)
}

fn main(rt: HostRuntime) -> io::Result<()> {
    let mut input = [0u8; sizes::INPUT_ROOM];
    let mut output = [0u8; sizes::OUTPUT_ROOM];
    let got = fill(&mut rt.stdin(), &mut input)?;
    let n = listing::list_read(&input, got, &mut output);
    rt.write_all(&output[..n])
}
