// A decode listing. The part has 44 bytes: the length of an input, a word; a seed, 16 bits; a header of 38 bytes. The input is the header
// and bytes made by a rule from the seed, cut to the length. The answer has the listing's length and a sum over all of its bytes, words,
// and the last of it, at most 1,024 bytes.
ghost use Rattle.std.specs.Prelude.{◌<◌, ◌≤◌, ◌^◌, length, IfSome};
ghost use Rattle.listing.specs.Sizes.{input_room};

use crate::sizes::ROOM;
use listing::sizes::{HEADER, INPUT_ROOM, OUTPUT_ROOM};
use replaying::held::{put_each, read};
use replaying::sum;

const PART: usize = 44;

const SHOWN: usize = 1024;

// The next number of the rule, of 16 bits.
fn next(state: u32) -> u32
    ensures { result < 2 ^ 16 }
{
    state.wrapping_mul(25173).wrapping_add(13849) % 65536
}

// Makes the bytes after the header.
fn make_frames(seed: u16, frames: &mut [u8]) {
    let mut state = u32::from(seed);
    for byte in frames {
        state = next(state);
        *byte = (state / 256) as u8;
    }
}

// Puts what an answer has of a listing.
fn shown<'a>(text: &[u8], out: &'a mut [u8; ROOM]) -> Option<&'a [u8]>
    requires { length text.now < 2 ^ 32 }
    ensures { IfSome result (λ s. length s.now ≤ 1032) }
{
    let words = [text.len() as u32, sum(text)];
    put_each(&words, out);
    let last = &text[text.len().saturating_sub(SHOWN)..];
    let end = 8 + last.len();
    out.get_mut(8..end)?.copy_from_slice(last);
    out.get(..end)
}

// Lists what was read of an input.
fn list<'a>(buffer: &[u8; INPUT_ROOM], got: usize, out: &'a mut [u8; ROOM]) -> Option<&'a [u8]>
    requires { got ≤ input_room }
    ensures { IfSome result (λ s. length s.now ≤ 1032) }
{
    let mut output = [0u8; OUTPUT_ROOM];
    let n = listing::list_read(buffer, got, &mut output);
    shown(&output[..n], out)
}

pub fn answer<'a>(part: &[u8], out: &'a mut [u8; ROOM]) -> Option<&'a [u8]>
    ensures { IfSome result (λ s. length s.now ≤ 1032) }
{
    let part = part.as_array::<PART>()?;
    let mut buffer = [0u8; INPUT_ROOM];
    buffer[..HEADER].copy_from_slice(&part[6..]);
    make_frames(read(&part[4..]), &mut buffer[HEADER..]);
    let got = (read::<4, u32>(part) as usize).min(INPUT_ROOM);
    list(&buffer, got, out)
}
