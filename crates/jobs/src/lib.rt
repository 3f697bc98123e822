// Test only: what the replay program answers, bytes to bytes. `answer` takes a job's kind and its part and answers with bytes of the room
// that it is lent, or with none where there is no such kind or the part has not its kind's form. Words have 32 bits; every number is
// little-endian.
#![tactic(auto)]

ghost use Rattle.std.specs.Prelude.{◌≡◌, ◌≤◌, length, IfSome};

mod decode;
mod listed;
mod number;
pub mod sizes;

use sizes::ROOM;

// What a job asks for.
#[derive(Clone, Copy)]
enum Kind {
    // a call of a function on numbers alone (number.rt)
    Number,
    // an ADPCM decode (decode.rt)
    Decode,
    // a decode listing (listed.rt)
    Listing,
    // a call of the mixer (crate mixer_jobs)
    Mixer,
}

// The kinds, each at its number: a table says no number twice, as discriminants and a `TryFrom` would.
const KINDS: [Kind; 4] = [Kind::Number, Kind::Decode, Kind::Listing, Kind::Mixer];

// An answer put where the room begins.
fn placed<'a>(answer: &[u8], out: &'a mut [u8; ROOM]) -> Option<&'a [u8]>
    ensures { IfSome result (λ s. length s.now ≡ length answer.now) }
{
    let place = out.get_mut(..answer.len())?;
    place.copy_from_slice(answer);
    Some(place)
}

pub fn answer<'a>(kind: u32, part: &[u8], out: &'a mut [u8; ROOM]) -> Option<&'a [u8]>
    ensures { IfSome result (λ s. length s.now ≤ 131074) }
{
    match KINDS.get(kind as usize)? {
        Kind::Number => placed(&number::answer(part)?, out),
        Kind::Decode => decode::answer(part, out),
        Kind::Listing => listed::answer(part, out),
        Kind::Mixer => placed(&mixer_jobs::answer(part)?, out),
    }
}
