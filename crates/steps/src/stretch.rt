// A walk through an entry: where each produced sample lies in it, and how far it is from there to the next, for as many as there is room
// and the entry has two left.
ghost use Rattle.std.specs.Prelude.{◌≡◌, ◌+◌, ◌-◌, ◌*◌, ◌≤◌, ◌<◌, cond, pos};
ghost use Rattle.std.specs.Float.Ieee.{lt};
ghost use Rattle.numbers.specs.Casts.{cast_u32, double};
ghost use Rattle.numbers.specs.Literals.{+0, +1};
ghost use Rattle.numbers.specs.Sizes.{FRAME_SAMPLES};
ghost use Rattle.steps.specs.Steady.{Part, Slow, is_part, is_slow, steady, quick_way};
ghost use Rattle.steps.specs.Stretch.{Walked, Stretched};

use crate::step::Cursor;
use numbers::casts::{at_least_0, whole_u32};
use numbers::sizes::FRAME_SAMPLES;

// How far a stretch came: where it left off, and how many samples it made.
#[derive(Clone, Copy)]
pub struct Reached {
    pub cursor: Cursor,
    pub count: usize,
}

// A whole number as a count. (`cast_u32` would find the whole part again.)
fn counted(w: f64) -> usize
    requires { w ≡ double (pos (cast_u32 w)) }
    ensures value { result ≡ cast_u32 w }
    ensures upper_bound { result < 4294967296 }
{
    (w as i64) as usize
}

fn whole_part(x: f64) -> usize
    ensures value { result ≡ cast_u32 x }
    ensures upper_bound { result < 4294967296 }
{
    counted(whole_u32(x))
}

// The course of a walk through an entry of `size` samples, at a rate: where it begins, and for how many samples there is room.
#[derive(Clone, Copy)]
pub struct Course {
    pub size: u32,
    pub rate: f64,
    pub start: Cursor,
    pub room: usize,
    pub ghost room_in_frame: { room ≤ FRAME_SAMPLES },
    pub ghost two_left: { 1 < start.remaining },
    pub ghost start_in_entry: { start.remaining ≤ size },
}

// 1 from a number on, else 0.
fn one_from(x: f64, above: f64) -> f64
    ensures { result ≡ cond (lt x above) +0 +1 }
{
    if x < above { 0.0 } else { 1.0 }
}

// Two comparisons each, as the definitions have them.
fn is_part(fraction: f64) -> bool
    ensures { result ≡ is_part fraction }
{
    fraction >= 0.0 && fraction < 1.0
}

fn is_slow(rate: f64) -> bool
    ensures { result ≡ is_slow rate }
{
    rate > 0.0 && rate < 2147483648.0
}

// Places and fractions lie in two arrays: the loops that read them take several of each at a time, and one array of pairs was slower.
impl Course {
    // Where the walk is with so many samples left, after so many steps.
    fn reached(self, at: usize, fraction: f64, count: usize) -> Reached
        requires { at ≤ self.size }
        ensures { result ≡ record { cursor = record { remaining = self.size - at; fraction = fraction }; count = count } }
    {
        let remaining = self.size - (at as u32);
        Reached {
            cursor: Cursor {
                remaining,
                fraction,
            },
            count,
        }
    }

    // Where each sample lies and its fraction, until the entry has no two left.
    fn any(self, places: &mut [u32; FRAME_SAMPLES], fractions: &mut [f64; FRAME_SAMPLES]) -> Reached
        ensures stretched { Stretched self.rate self.start self.room result }
        ensures walked { Walked self.rate self.start self.size places.new fractions.new result.count }
    {
        let last = (self.size as usize) - 1;
        let mut at = (self.size - self.start.remaining) as usize;
        let mut fraction = self.start.fraction;
        for k in 0..self.room {
            let input = fraction + self.rate;
            let next = at + whole_part(input);
            if next >= last {
                return self.reached(at, fraction, k);
            }
            places[k] = at as u32;
            fractions[k] = fraction;
            fraction = at_least_0(input - whole_u32(input));
            at = next;
        }
        self.reached(at, fraction, self.room)
    }

    // The same from a fraction below 1 at a rate below 2^31: a step takes the whole part of the rate, or one more. Even at one more each
    // time the entry has two left, so its end needs no test. Were what is left not below 1, it stops.
    fn steady(
        self,
        places: &mut [u32; FRAME_SAMPLES],
        fractions: &mut [f64; FRAME_SAMPLES],
    ) -> Reached
        requires part { Part self.start.fraction }
        requires slow { Slow self.rate }
        requires two_left_after { self.room * (cast_u32 self.rate + 1) + 1 < self.start.remaining }
        ensures stretched { Stretched self.rate self.start self.room result }
        ensures walked { Walked self.rate self.start self.size places.new fractions.new result.count }
    {
        let mut at = (self.size - self.start.remaining) as usize;
        let mut fraction = self.start.fraction;
        let whole = whole_u32(self.rate);
        let above = whole + 1.0;
        for k in 0..self.room {
            let input = fraction + self.rate;
            let w = whole + one_from(input, above);
            let left = input - w;
            if !(left < 1.0) {
                return self.reached(at, fraction, k);
            }
            places[k] = at as u32;
            fractions[k] = fraction;
            fraction = left;
            at += counted(w);
        }
        self.reached(at, fraction, self.room)
    }

    // Whether each step takes the whole part of the rate, or one more.
    fn is_steady(self) -> bool
        ensures { result ≡ steady self.start.fraction self.rate }
    {
        is_part(self.start.fraction) && is_slow(self.rate)
    }

    // Whether the quick way goes: not where the entry might end within the room.
    fn is_quick(self) -> bool
        ensures { result ≡ quick_way self.start self.rate self.room }
    {
        self.is_steady()
            && self.room * (whole_part(self.rate) + 1) + 1 < self.start.remaining as usize
    }

    // The walk at any rate, the quick way where it goes.
    pub fn walk(
        self,
        places: &mut [u32; FRAME_SAMPLES],
        fractions: &mut [f64; FRAME_SAMPLES],
    ) -> Reached
        ensures stretched { Stretched self.rate self.start self.room result }
        ensures walked { Walked self.rate self.start self.size places.new fractions.new result.count }
    {
        if self.is_quick() {
            self.steady(places, fractions)
        } else {
            self.any(places, fractions)
        }
    }
}
