// When a lent record is malformed, number 7.
ghost use Rattle.std.specs.Prelude.{◌≡◌};
ghost use Rattle.voice.specs.Long.{is_adpcm, too_long, any_too_long};
ghost use Rattle.voice.specs.Malformed.{malformed};

use crate::blank::LIMIT;
use crate::record::{Entry, Format, Voice};
use filters::range::filters_in_range;
use numbers::tests::{is_fraction, is_rate};

// The derived equality, tied to the definition that others cite.
pub fn is_adpcm(format: Format) -> bool
    ensures { result ≡ is_adpcm format }
{
    format == Format::Adpcm
}

// An ADPCM entry that is longer than the lane.
#[tactic(auto, unfolding(crate::specs::Long::too_long))]
pub fn too_long(e: &Entry, lane: usize) -> bool
    ensures { result ≡ too_long lane e.now }
{
    e.format == Format::Adpcm && e.length as usize > lane
}

// Whether one of some entries is.
pub fn any_too_long(entries: &[Entry], lane: usize) -> bool
    ensures { result ≡ any_too_long lane entries.now }
{
    entries.iter().any(|e| too_long(e, lane))
}

#[tactic(auto, unfolding(crate::specs::Malformed::malformed))]
pub fn malformed(v: &Voice, lane: usize) -> bool
    ensures { result ≡ malformed lane v.now }
{
    v.queued > LIMIT
        || v.remaining > v.length
        || v.decoded as usize > lane
        || any_too_long(&v.queue[..v.queued], lane)
        || !is_rate(v.rate)
        || !is_fraction(v.fraction)
        || !filters_in_range(&v.filters)
}
