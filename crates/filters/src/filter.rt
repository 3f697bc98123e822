// One sample of one channel through a filter, whichever of the two it is: a sum, its value, and what the filter keeps of them.
ghost use Rattle.std.specs.Prelude.{◌≡◌, ◌<◌, ◌*ℤ◌, ℕ, ℤ, Bool, T};
ghost use Rattle.numbers.specs.Within.{Is};
ghost use Rattle.filters.specs.Range.{in_range, all_in_range, simple_in_range, biquad_in_range};
ghost use Rattle.filters.specs.Filter.{simple_sum, simple_value, biquad_sum, biquad_value};
ghost use Rattle.filters.specs.Inner.{simple_next, biquad_next};

use crate::state::{BiquadFilter, SimpleFilter};
use crate::step::{biquad_after, simple_after};
use numbers::whole::{clamped, wrapped};

pub trait Filter: Copy {
    // whether its numbers are such as a well-formed record has
    ghost in_range: { Self → Bool };

    // the value for a sample of a channel, and the filter once it gave it
    ghost value: { ℕ → Self → ℤ → ℤ };

    ghost next: { ℕ → Self → ℤ → Self };

    fn is_in_range(&self) -> bool
        ensures { result ≡ in_range self.now };

    // Puts a sample of a channel, 0 or 1, through, in its place. A filter in range stays so.
    // That it is in range is asked for and is no ghost fact of a filter: a lent record may be malformed.
    // The channel is a number, as in the definitions, and the index of what a filter keeps: an enum would be turned back into it.
    fn pass(&mut self, channel: usize, sample: &mut i16)
        requires range { T (in_range self.old) }
        requires channel_bound { channel < 2 }
        ensures value { sample.new ≡ value channel self.old sample.old }
        ensures filter { self.new ≡ next channel self.old sample.old }
        ensures stays { T (in_range self.new) };
}

#[tactic(auto, unfolding(crate::specs::Range::in_range))]
fn in_range(z: i32) -> bool
    ensures { result ≡ in_range z }
{
    z.unsigned_abs() <= 32768
}

fn all_in_range(zs: &[i32]) -> bool
    ensures { result ≡ all_in_range zs.now }
{
    zs.iter().all(|z| in_range(*z))
}

// A coefficient times a value, with its bound.
fn term(a: i32, x: i32) -> i64
    requires a_in_range { T (in_range a) }
    requires x_in_range { T (in_range x) }
    ensures { Is 1073741824 (a *ℤ x) result }
{
    i64::from(a) * i64::from(x)
}

impl SimpleFilter {
    // The sum, as a whole number.
    fn sum(&self, channel: usize, x: i16) -> i64
        requires range { T (simple_in_range self.now) }
        requires channel_bound { channel < 2 }
        ensures { Is 2147483648 (simple_sum channel self.now x) result }
    {
        term(self.b0, i32::from(x)) + term(self.a1, self.y1[channel])
    }
}

impl Filter for SimpleFilter {
    ghost in_range = { simple_in_range };

    ghost value = { simple_value };

    ghost next = { simple_next };

    fn is_in_range(&self) -> bool {
        in_range(self.b0) && in_range(self.a1) && all_in_range(&self.y1)
    }

    fn pass(&mut self, channel: usize, sample: &mut i16) {
        let value = clamped(wrapped(self.sum(channel, *sample)) >> 15);
        *self = simple_after(*self, channel, value);
        *sample = value;
    }
}

impl BiquadFilter {
    // The sum, as a whole number.
    fn sum(&self, channel: usize, x: i16) -> i64
        requires range { T (biquad_in_range self.now) }
        requires channel_bound { channel < 2 }
        ensures { Is 5368709120 (biquad_sum channel self.now x) result }
    {
        let older = channel + 2;
        let forward = term(self.b[0], i32::from(x))
            + term(self.b[1], self.x[channel])
            + term(self.b[2], self.x[older]);
        forward + term(self.a[0], self.y[channel]) + term(self.a[1], self.y[older])
    }
}

impl Filter for BiquadFilter {
    ghost in_range = { biquad_in_range };

    ghost value = { biquad_value };

    ghost next = { biquad_next };

    fn is_in_range(&self) -> bool {
        all_in_range(&self.b)
            && all_in_range(&self.a)
            && all_in_range(&self.x)
            && all_in_range(&self.y)
    }

    fn pass(&mut self, channel: usize, sample: &mut i16) {
        let x = *sample;
        let value = clamped(wrapped(self.sum(channel, x)) >> 14);
        *self = biquad_after(*self, channel, x, value);
        *sample = value;
    }
}
