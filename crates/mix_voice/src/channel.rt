// One channel of the mixes, of which there are 12, four of each: what a frame adds to its values, at a gain that stays or one that fades.
ghost use Rattle.std.specs.Prelude.{◌≡◌, ℕ, ℤ, ◌+◌, ◌*◌, ◌%◌, ◌<◌, pos, slice_index_or};
ghost use Rattle.std.specs.Float.{nan};
ghost use Rattle.numbers.specs.Sizes.{FRAME_SAMPLES, GAINS};
ghost use Rattle.mixing.specs.Gain.{at_gain, fading};
ghost use Rattle.mix_voice.specs.Mixed.{place_of, sample_at, floats_of, fade_steps, Summed};

use crate::signs::{is_within, part};
use mixing::gain::{at_gain, fading, progress};
use numbers::ranged::ranged;
use numbers::sizes::{FRAME, FRAME_SAMPLES, MIXES};
use numbers::whole::add_wrapped;

// The largest size of a gain of the quick way. (The source has the name, and another number: its cast goes further.)
pub const QUICK_GAIN: f32 = 32.0;

// The largest size of a gain to fade from or to the quick way: on the way it is at most three times that.
const FADING_GAIN: f32 = 16.0;

// How far a fade is at each sample.
fn fade_steps() -> [f32; FRAME_SAMPLES]
    ensures { result ≡ fade_steps }
{
    std::array::from_fn(progress)
}

// A channel of the mixes by its number, and what it takes of a frame: the left samples or the right ones, also as floats.
#[derive(Clone, Copy)]
pub struct Channel<'a> {
    pub number: usize,
    pub frame: &'a [i16; FRAME],
    pub floats: &'a [f32; FRAME_SAMPLES],
    ghost in_mixes: { number < GAINS },
    ghost of_its_side: { floats.now ≡ floats_of frame.now (number % 2) },
}

impl Channel<'_> {
    // Adds to each value its part, which `part` makes of the number of its sample, the sample, and the sample as a float. By index, since
    // the three arrays are walked at places of their own.
    fn add_parts<F: Fn(usize, i16, f32) -> i32>(self, mixes: &mut [i32; MIXES], part: F)
        requires { (i : ℕ) → i < FRAME_SAMPLES
            → F.pre part i (slice_index_or self.frame.now (i * 2 + self.number % 2) (pos 0)) (slice_index_or self.floats.now i nan) }
        ensures { (parts : ℕ → ℤ)
            → ((i : ℕ) → i < FRAME_SAMPLES → (r : ℤ)
            → F.post part i (slice_index_or self.entry.frame.now (i * 2 + self.entry.number % 2) (pos 0))
            (slice_index_or self.entry.floats.now i nan) r
            → r ≡ parts (self.entry.number * FRAME_SAMPLES + i))
            → Summed parts (self.entry.number * FRAME_SAMPLES) (self.entry.number * FRAME_SAMPLES + FRAME_SAMPLES) mixes.old mixes.new }
    {
        for i in 0..FRAME_SAMPLES {
            let at = self.number * FRAME_SAMPLES + i;
            let sample = self.frame[i * 2 + self.number % 2];
            let sum = add_wrapped(mixes[at], part(i, sample, self.floats[i]));
            mixes[at] = sum;
        }
    }

    // Adds the frame at a gain that stays: nothing at 0.0.
    pub(crate) fn add_steady(self, mixes: &mut [i32; MIXES], gain: f32)
        ensures { Summed (λ k. at_gain gain (sample_at self.entry.frame.now k))
            (self.entry.number * FRAME_SAMPLES) (self.entry.number * FRAME_SAMPLES + FRAME_SAMPLES) mixes.old mixes.new }
    {
        if gain == 0.0 {
            let frame = self.frame;
            ranged(frame);
            ranged(mixes);
        } else if is_within(gain, QUICK_GAIN) {
            self.add_parts(mixes, |_, sample, s| part(gain, sample, s));
        } else {
            self.add_parts(mixes, |_, sample, _| at_gain(gain, sample));
        }
    }

    // Adds the frame at a gain that fades.
    pub(crate) fn add_fading(self, mixes: &mut [i32; MIXES], from: f32, to: f32)
        ensures { Summed (λ k. fading from to (place_of k) (sample_at self.entry.frame.now k))
            (self.entry.number * FRAME_SAMPLES) (self.entry.number * FRAME_SAMPLES + FRAME_SAMPLES) mixes.old mixes.new }
    {
        if is_within(from, FADING_GAIN) && is_within(to, FADING_GAIN) {
            let steps = fade_steps();
            self.add_parts(mixes, |i, sample, s| {
                part(from + (to - from) * steps[i], sample, s)
            });
        } else {
            self.add_parts(mixes, |i, sample, _| fading(from, to, i, sample));
        }
    }
}
