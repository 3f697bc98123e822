// The decode listing: the samples and the history of an ADPCM decode as two tables of text. `listing` takes the bytes of an input (header:
// coefficients, history, count; then the frames) and a buffer for the longest listing. It fills the buffer's start and gives the length;
// where bytes are missing or left over that is the 9 of a refusal, alone in its column. `list_read` does it for a program that read into a
// buffer. The bytes go through `input` to the decoder, and its samples through `table` and `text` into columns.
#![tactic(auto)]

pub mod input;
pub mod sizes;
mod table;
mod text;

ghost use Rattle.std.specs.Prelude.{◌≡◌, List, ◌++◌, ℕ, ◌≤◌, length, take, drop, IfOk, OnErr, false};
ghost use Rattle.listing.specs.Sizes.{input_room, most_samples, output_room};
ghost use Rattle.listing.specs.Inner.{DecodesTo, Put};
ghost use Rattle.listing.specs.Listing.{count_in, complete, read_of, listed};

use adpcm::History;
use refusals::Refusal;
use sizes::{HEADER, MOST_SAMPLES, OUTPUT_ROOM};

// Decodes the frames behind a header, as many samples as there are places for, and gives the history after them. How many these are at
// most is asked where they are taken: a slice that is no longer than a number has no type.
fn decode(header: &[u8; HEADER], frames: &[u8], samples: &mut [i16]) -> Result<History, Refusal>
    requires counted { length samples.old ≡ count_in header.now }
    requires few { length samples.old ≤ most_samples }
    ensures decoded { IfOk result (λ h. DecodesTo (header.now ++ frames.now) samples.new h) }
    ensures refused { OnErr result (complete (header.now ++ frames.now) ≡ false) }
{
    let coefficients = input::coefficients(header);
    let mut history = input::history(header);
    adpcm::decode_adpcm(frames, samples.len(), &coefficients, &mut history, samples)?;
    Ok(history)
}

// Decodes the frames behind a header and puts both tables, or 9 where the decode is refused. The places for the samples are made here, so
// that an input whose length alone refuses it costs none.
fn put_decoded(header: &[u8; HEADER], frames: &[u8], output: &mut [u8; OUTPUT_ROOM]) -> usize
    ensures put { Put output.old 0 (listed (header.now ++ frames.now)) output.new result }
    ensures next { result ≤ output_room }
{
    let count = input::count(header);
    let mut places = [0i16; MOST_SAMPLES];
    let samples = &mut places[..count];
    match decode(header, frames, samples) {
        Ok(last) => table::put_tables(samples, last, output),
        Err(_) => table::put_nine(output),
    }
}

// Lists the decode of an input, or prints 9 where bytes are missing or left over, and answers how many bytes of the output that takes.
pub fn listing(input: &[u8], output: &mut [u8; OUTPUT_ROOM]) -> usize
    ensures length { result ≡ length (listed input.now) }
    ensures output { output.new ≡ listed input.now ++ drop result output.old }
    ensures within { result ≤ length output.new }
{
    let Some((header, frames)) = input.split_first_chunk::<HEADER>() else {
        return table::put_nine(output);
    };
    let whole = adpcm::bytes_of(input::count(header));
    if frames.len() != whole {
        return table::put_nine(output);
    }
    put_decoded(header, frames, output)
}

// Lists an input of which `got` bytes were read into a buffer, all of it or as many as the buffer holds. What was not read changes nothing.
// The buffer is a slice whose length is asked, so that a program with a shorter one is refused by the proof of its call.
pub fn list_read(buffer: &[u8], got: usize, output: &mut [u8; OUTPUT_ROOM]) -> usize
    requires buffer_len { length buffer.now ≡ input_room }
    requires got_le_input_room { got ≤ input_room }
    ensures length { (input : List ℕ) → take got buffer.now ≡ read_of input → result ≡ length (listed input) }
    ensures output { (input : List ℕ) → take got buffer.now ≡ read_of input
        → output.new ≡ listed input ++ drop result output.old }
    ensures within { result ≤ length output.new }
{
    listing(&buffer[..got], output)
}
