// One sample's step through an entry: each produced sample consumes `rate` samples.
ghost use Rattle.std.specs.Prelude.{◌≡◌};
ghost use Rattle.steps.specs.Step.{moved};

use numbers::casts::{at_least_0, cast_u32};

// Where playing is in an entry: how many of its samples remain, and how far it is past the first of them.
#[derive(Clone, Copy)]
pub struct Cursor {
    pub remaining: u32,
    pub fraction: f64,
}

// One step at a rate.
pub fn step(c: Cursor, rate: f64) -> Cursor
    ensures { result ≡ moved rate c }
{
    let input = c.fraction + rate;
    let consumed = cast_u32(input).min(c.remaining);
    Cursor {
        remaining: c.remaining - consumed,
        fraction: at_least_0(input - f64::from(consumed)),
    }
}
