// Samples stored in a frame one after the other, whatever gives them.
ghost use Rattle.std.specs.Prelude.{◌≡◌, ℕ, ◌+◌, ◌≤◌, ◌<◌};
ghost use Rattle.numbers.specs.Sizes.{FRAME_SAMPLES};
ghost use Rattle.samples.specs.declared.Sample.{Sample};
ghost use Rattle.stretches.specs.Stored.{stored, stored_at};

use numbers::sizes::{FRAME, FRAME_SAMPLES};
use samples::Sample;
use track::put;

// The sample at a place of a frame.
pub fn stored_at(frame: &[i16; FRAME], k: usize) -> Sample
    requires { k < FRAME_SAMPLES }
    ensures { result ≡ stored_at frame.now k }
{
    Sample {
        left: frame[k * 2],
        right: frame[k * 2 + 1],
    }
}

// So many samples that a closure gives, from a place of the frame on. Frame and place are two parameters: a struct of both would hold a
// `&mut`, beside which no ghost field can stand, and of the rest of the frame as a slice it would be asked that its length is even.
pub fn store<F: Fn(usize) -> Sample>(
    frame: &mut [i16; FRAME],
    output: usize,
    count: usize,
    sound: F,
)
    requires room { output + count ≤ FRAME_SAMPLES }
    requires callable { (i : ℕ) → i < count → F.pre sound i }
    ensures { (given : ℕ → Sample)
        → ((i : ℕ) → i < count → (s : Sample) → F.post sound i s → s ≡ given i)
        → frame.new ≡ stored given output count frame.old }
{
    for i in 0..count {
        put(frame, output + i, sound(i));
    }
}
