// Of module 7, what a mix adds to the frame. `downmix` takes the frame so far, which it changes, a mix of 640 values, the mixer's state and
// which of the three mixes it is. Each of the 320 values is rounded step by step in f32 and clamped to 16 bits as the mix's own part, and
// the sum with the frame's value is clamped again. Nothing is refused.
#![tactic(auto)]

ghost use Rattle.std.specs.Prelude.{◌≡◌, ◌+◌, ◌*◌, ◌<◌};
ghost use Rattle.numbers.specs.Sizes.{FRAME_SAMPLES};
ghost use Rattle.downmix.specs.Downmix.{at_volume, part_of, mono_part, stereo_part, added, part_at, mixed_in, downmixed};

use mixer_state::{Mixer, Output};
use numbers::casts::{cast_clamped, single_of_i32};
use numbers::ranged::ranged;
use numbers::sizes::{FRAME, FRAME_SAMPLES, MIX};
use numbers::whole::clamped;

// Where channels 1, 2 and 3 of a mix begin.
const CHANNEL_1: usize = FRAME_SAMPLES;

const CHANNEL_2: usize = 2 * FRAME_SAMPLES;

const CHANNEL_3: usize = 3 * FRAME_SAMPLES;

// A mix value at its mix's volume.
fn at_volume(volume: f32, value: i32) -> f32
    ensures { result ≡ at_volume volume value }
{
    single_of_i32(value) * volume
}

// A mix's own part of a value, clamped to 16 bits before it is added.
fn part_of(x: f32) -> i16
    ensures { result ≡ part_of x }
{
    cast_clamped(x)
}

// What a mix of the channels a, b, c, d adds to either side of a mono output.
pub fn mono_part(volume: f32, a: i32, b: i32, c: i32, d: i32) -> i16
    ensures { result ≡ mono_part volume a b c d }
{
    let sum = at_volume(volume, a)
        + at_volume(volume, b)
        + at_volume(volume, c)
        + at_volume(volume, d);
    part_of(sum / 2.0)
}

// What a mix adds to one side of a stereo output, by the two channels of that side.
pub fn stereo_part(volume: f32, a: i32, c: i32) -> i16
    ensures { result ≡ stereo_part volume a c }
{
    part_of(at_volume(volume, a) + at_volume(volume, c))
}

// A value so far, and the next mix's part. By a sum of 32 bits, of which the compiler makes one instruction, and no `saturating_add`, of
// which it makes nine.
#[tactic(auto, unfolding(crate::specs::Downmix::added))]
pub fn added(out: i16, part: i16) -> i16
    ensures { result ≡ added out part }
{
    clamped(i32::from(out) + i32::from(part))
}

// What a mix adds to the two sides of a sample. (A `Sample` of the crate `samples` is an entry's, and needs all that reads one.)
#[derive(Clone, Copy)]
struct Parts {
    left: i16,
    right: i16,
}

fn parts_of(output: Output, volume: f32, mix: &[i32; MIX], i: usize) -> Parts
    requires { i < FRAME_SAMPLES }
    ensures left { result.left ≡ part_at output volume mix.now (i * 2) }
    ensures right { result.right ≡ part_at output volume mix.now (i * 2 + 1) }
{
    let a = mix[i];
    let b = mix[CHANNEL_1 + i];
    let c = mix[CHANNEL_2 + i];
    let d = mix[CHANNEL_3 + i];
    match output {
        Output::Mono => {
            let part = mono_part(volume, a, b, c, d);
            Parts {
                left: part,
                right: part,
            }
        }
        Output::Stereo => Parts {
            left: stereo_part(volume, a, c),
            right: stereo_part(volume, b, d),
        },
    }
}

// Adds a mix to the frame, a pair a turn: a mono part is computed once for both sides. By index, since of `as_chunks_mut` no proof knows
// what the slice ends as.
fn mix_in(frame: &mut [i16; FRAME], mix: &[i32; MIX], volume: f32, output: Output)
    ensures { frame.new ≡ mixed_in output volume mix.now frame.old }
{
    for i in 0..FRAME_SAMPLES {
        let part = parts_of(output, volume, mix, i);
        frame[i * 2] = added(frame[i * 2], part.left);
        frame[i * 2 + 1] = added(frame[i * 2 + 1], part.right);
    }
}

// Adds mix k to the frame, at its volume. At 0.0 it adds nothing.
pub fn downmix(frame: &mut [i16; FRAME], mix: &[i32; MIX], state: Mixer, k: usize)
    requires { k < 3 }
    ensures { frame.new ≡ downmixed state k mix.now frame.old }
{
    let volume = state.volume[k];
    if volume == 0.0 {
        ranged(frame);
        ranged(mix);
        return;
    }
    mix_in(frame, mix, volume, state.output);
}
