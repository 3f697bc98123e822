// What a sample adds to a mix value.
ghost use Rattle.std.specs.Prelude.{◌≡◌, ◌<◌};
ghost use Rattle.mixing.specs.Gain.{at_gain, progress, fading};

use numbers::casts::cast_i32;

// At a steady gain.
pub fn at_gain(gain: f32, sample: i16) -> i32
    ensures { result ≡ at_gain gain sample }
{
    cast_i32(gain * f32::from(sample))
}

// How far a fade is at place i of a frame.
pub fn progress(i: usize) -> f32
    requires { i < 160 }
    ensures { result ≡ progress i }
{
    (i as f32) / 159.0
}

// At place i of a frame over which the gain fades.
pub fn fading(from: f32, to: f32, i: usize, sample: i16) -> i32
    requires { i < 160 }
    ensures { result ≡ fading from to i sample }
{
    cast_i32((from + (to - from) * progress(i)) * f32::from(sample))
}
