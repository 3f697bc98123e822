// A voice's frame into the mixes, channel by channel, each of which may fade from its old gain to its new one.
ghost use Rattle.std.specs.Prelude.{◌≡◌, ◌<◌};
ghost use Rattle.std.specs.List.{list_all, range_with_len};
ghost use Rattle.numbers.specs.Sizes.{GAINS};
ghost use Rattle.mix_voice.specs.Mixed.{unheard, unheard_at, ramped, floats_of};

use crate::channel::Channel;
use numbers::ranged::ranged;
use numbers::sizes::{CHANNELS, FRAME, FRAME_SAMPLES, GAINS, MIX_COUNT, MIXES};

// Whether a channel adds nothing: its gain is 0.0, and it does not fade.
fn is_silent(on: bool, from: f32, to: f32) -> bool
    ensures { result ≡ unheard on from to }
{
    to == 0.0 && !(on && from != to)
}

// Whether no channel adds anything.
fn all_silent(gains: &[f32; GAINS], ramp: &[f32; GAINS], marks: [bool; MIX_COUNT]) -> bool
    ensures { result ≡ list_all (unheard_at marks ramp.now gains.now) (range_with_len 0 GAINS) }
{
    (0..GAINS).all(|c| is_silent(marks[c / CHANNELS], ramp[c], gains[c]))
}

// The left samples of a frame, or the right ones, as floats, by the place of the side in a sample. The casts are done once for all
// channels: the compiler does them singly.
fn floats_of(frame: &[i16; FRAME], side: usize) -> [f32; FRAME_SAMPLES]
    requires { side < 2 }
    ensures { result ≡ floats_of frame.now side }
{
    std::array::from_fn(|i| f32::from(frame[i * 2 + side]))
}

// Adds the frame, channel by channel. A channel whose gain is the same before and after stays.
fn mix_heard(
    mixes: &mut [i32; MIXES],
    frame: &[i16; FRAME],
    gains: &[f32; GAINS],
    ramp: &[f32; GAINS],
    marks: [bool; MIX_COUNT],
)
    ensures { mixes.new ≡ ramped marks ramp.now gains.now frame.now mixes.old }
{
    let sides = [floats_of(frame, 0), floats_of(frame, 1)];
    for number in 0..GAINS {
        let floats = &sides[number % 2];
        let channel = Channel {
            number,
            frame,
            floats,
        };
        let from = ramp[number];
        let to = gains[number];
        if marks[number / CHANNELS] && from != to {
            channel.add_fading(mixes, from, to);
        } else {
            channel.add_steady(mixes, to);
        }
    }
}

// Adds the frame of a voice to the mixes: `marks` says which of them fade, from the gains of `ramp` to those of `gains`. Where no channel
// is heard, no floats are made of the frame.
pub fn mix_voice(
    mixes: &mut [i32; MIXES],
    frame: &[i16; FRAME],
    gains: &[f32; GAINS],
    ramp: &[f32; GAINS],
    marks: [bool; MIX_COUNT],
)
    ensures { mixes.new ≡ ramped marks ramp.now gains.now frame.now mixes.old }
{
    if all_silent(gains, ramp, marks) {
        ranged(frame);
        ranged(mixes);
    } else {
        mix_heard(mixes, frame, gains, ramp, marks);
    }
}
