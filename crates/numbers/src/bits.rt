// Floats from their bits in memory, with what stands for one that is not taken.
ghost use Rattle.std.specs.Prelude.{◌≡◌};
ghost use Rattle.numbers.specs.Bits.{gain, rate};

use crate::casts::double_of_single;
use crate::tests::is_rate;
use std::num::f32_from_bits_with_nan;

// A gain or a volume.
pub fn gain_of(bits: u32) -> f32
    ensures { result ≡ gain bits }
{
    let gain = f32_from_bits_with_nan(bits);
    if gain.is_finite() { gain } else { 0.0 }
}

pub fn rate_of(bits: u32) -> f64
    ensures { result ≡ rate bits }
{
    let rate = double_of_single(f32_from_bits_with_nan(bits));
    if is_rate(rate) { rate } else { 1.0 }
}
