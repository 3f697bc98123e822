// The seven places of a region, and the numbers 1, 2 and 3. `accept` takes the lengths of the two regions and the offsets that a caller
// lends, for any values of these, and refuses them by the lowest number that applies. It reads no memory. A call that is not refused here
// knows that each place lies in both regions and that no two share a byte (`Sound`, `accepted`).
#![tactic(auto)]

ghost use Rattle.std.specs.List.{list_all};
ghost use Rattle.std.specs.Prelude.{◌≡◌, leb};
ghost use Rattle.refusals.specs.Numbers.{number_of};
ghost use Rattle.layout.specs.Places.{end, places_of, apart_two, apart, layout_number};

use fields::{config, mixer_config, status};
use numbers::sizes;
use refusals::Refusal;

// Where each place begins, the same in both regions.
#[derive(Clone, Copy)]
pub struct Layout {
    pub configurations: u32,
    pub statuses: u32,
    pub coefficients: u32,
    pub frame_counter: u32,
    pub mixer_configuration: u32,
    pub final_samples: u32,
    pub intermediate_samples: u32,
}

// A place: so many bytes from an offset on.
#[derive(Clone, Copy)]
pub struct Place {
    pub at: u32,
    pub size: u32,
}

impl Place {
    // The offset of the byte after its last.
    fn end(self) -> u64
        ensures { result ≡ end self }
    {
        u64::from(self.at) + u64::from(self.size)
    }

    // Whether it shares no byte with another place.
    fn is_apart(self, other: Place) -> bool
        ensures { result ≡ apart_two self other }
    {
        self.end() <= u64::from(other.at) || other.end() <= u64::from(self.at)
    }

    // Whether it shares no byte with any of these.
    fn is_apart_from(self, others: &[Place]) -> bool
        ensures { result ≡ list_all (apart_two self) others.now }
    {
        others.iter().all(|other| self.is_apart(*other))
    }
}

const VOICES: u32 = sizes::VOICES as u32;

const CONFIGURATIONS: u32 = VOICES * (config::CONFIG_SIZE as u32);

const STATUSES: u32 = VOICES * (status::STATUS_SIZE as u32);

// Of 2 bytes each.
const COEFFICIENTS: u32 = VOICES * (sizes::COEFFICIENTS as u32) * 2;

const FRAME_COUNTER: u32 = 2;

const MIXER_CONFIGURATION: u32 = mixer_config::CONFIG_SIZE as u32;

// Of 2 bytes each.
const FINAL_SAMPLES: u32 = (sizes::FRAME as u32) * 2;

// The values of 2 mixes, of 4 bytes each.
const INTERMEDIATE_SAMPLES: u32 = 2 * (sizes::MIX as u32) * 4;

const REGION_MOST: usize = 65536;

// The places of a layout, each with its size.
fn places_of(l: Layout) -> [Place; 7]
    ensures { result ≡ places_of l }
{
    [
        Place {
            at: l.configurations,
            size: CONFIGURATIONS,
        },
        Place {
            at: l.statuses,
            size: STATUSES,
        },
        Place {
            at: l.coefficients,
            size: COEFFICIENTS,
        },
        Place {
            at: l.frame_counter,
            size: FRAME_COUNTER,
        },
        Place {
            at: l.mixer_configuration,
            size: MIXER_CONFIGURATION,
        },
        Place {
            at: l.final_samples,
            size: FINAL_SAMPLES,
        },
        Place {
            at: l.intermediate_samples,
            size: INTERMEDIATE_SAMPLES,
        },
    ]
}

// Whether every place ends within a region of n bytes.
fn all_inside(n: usize, places: &[Place]) -> bool
    ensures { result ≡ list_all (λ p. leb (end p) n) places.now }
{
    places.iter().all(|p| p.end() <= n as u64)
}

// Whether no two places share a byte. A loop and no `all`: the places that are left get fewer, as the definition has it.
fn all_apart(places: &[Place]) -> bool
    ensures { result ≡ apart places.now }
{
    let mut rest = places;
    while let Some((first, others)) = rest.split_first() {
        if !first.is_apart_from(others) {
            return false;
        }
        rest = others;
    }
    true
}

// Refuses, by the lowest of 1, 2 and 3 that applies, two regions of so many bytes.
pub fn accept(first: usize, second: usize, l: Layout) -> Result<(), Refusal>
    ensures { number_of result ≡ layout_number first second l }
{
    if first != second || first > REGION_MOST {
        return Err(Refusal::RegionLengths);
    }
    let places = places_of(l);
    if !all_inside(first, &places) {
        return Err(Refusal::PlaceOutside);
    }
    if !all_apart(&places) {
        return Err(Refusal::PlacesShare);
    }
    Ok(())
}
