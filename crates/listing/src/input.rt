// The input's header, read of bytes that begin with it: what follows it changes nothing.
ghost use Rattle.std.specs.Prelude.{◌≡◌, ◌≤◌, ◌<◌, length};
ghost use Rattle.listing.specs.Sizes.{header};
ghost use Rattle.listing.specs.Listing.{coefficients_in, history_in, count_in};

use adpcm::History;
use little::{read16, signed_halves};
use numbers::sizes::COEFFICIENTS;

// Where the history stands, behind the coefficients, and where the count, behind both.
const HISTORY: usize = COEFFICIENTS * 2;

const COUNT: usize = HISTORY + 2 * 2;

// The 16 coefficients.
#[tactic(auto, unfolding(crate::specs::Listing::coefficients_in))]
pub fn coefficients(bytes: &[u8]) -> [i16; COEFFICIENTS]
    requires { header ≤ length bytes.now }
    ensures { result ≡ coefficients_in bytes.now }
{
    signed_halves(bytes)
}

// The history to go on from.
pub fn history(bytes: &[u8]) -> History
    requires { header ≤ length bytes.now }
    ensures { result ≡ history_in bytes.now }
{
    let [yn1, yn2] = signed_halves::<2>(&bytes[HISTORY..]);
    History { yn1, yn2 }
}

// How many samples the frames hold.
pub fn count(bytes: &[u8]) -> usize
    requires { header ≤ length bytes.now }
    ensures value { result ≡ count_in bytes.now }
    ensures upper_bound { result < 65536 }
{
    usize::from(read16(bytes, COUNT))
}
