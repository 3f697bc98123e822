// Test only: the port's functions on numbers alone, under one name. `number` takes a kind and three words of 64 bits, and gives a word; the
// replay program and the functions that the oracle calls share it. A signed number is in the lower bits of its word, a float by its bits,
// yes is 1. What a kind does not name is not looked at.
#![tactic(auto)]

use numbers::casts;
use numbers::sizes::FRAME_SAMPLES;
use refusals::answered;
use std::num::{
    f32_from_bits_with_nan, f32_to_bits_with_nan, f64_from_bits_with_nan, f64_to_bits_with_nan,
};

// What is asked.
#[derive(Clone, Copy)]
enum Kind {
    // the frame counters a and b: the region chosen
    Region,
    // the four bytes of a dsp32, as a little-endian word a: its value
    Dsp32Value,
    // the value a: the four bytes of its dsp32, as a little-endian word
    Dsp32Bytes,
    // a window's base a and length b: number 4 or 0
    Window,
    // the single a to 32 bits, signed
    SingleToSigned32,
    // the double a to 16 bits, signed
    DoubleToSigned16,
    // the double a to 32 bits, unsigned
    DoubleToUnsigned32,
    // the signed 32 bits a to a single
    Signed32ToSingle,
    // the bits a as a gain, a single
    Gain,
    // the bits a as a rate, a double
    Rate,
    // whether the single a is finite
    IsFinite,
    // whether the double a is a rate
    IsRate,
    // whether the double a is a fraction
    IsFraction,
    // what the sample b adds at the gain a
    AtGain,
    // what a sample adds that fades from the gain a to b; c is the sample, and 65,536 times its place in the frame
    Fading,
    // the sample at the fraction c between the samples a and b
    Between,
}

// The kinds, each at its number: a table says no number twice, as discriminants and a `TryFrom` would.
const KINDS: [Kind; 16] = [
    Kind::Region,
    Kind::Dsp32Value,
    Kind::Dsp32Bytes,
    Kind::Window,
    Kind::SingleToSigned32,
    Kind::DoubleToSigned16,
    Kind::DoubleToUnsigned32,
    Kind::Signed32ToSingle,
    Kind::Gain,
    Kind::Rate,
    Kind::IsFinite,
    Kind::IsRate,
    Kind::IsFraction,
    Kind::AtGain,
    Kind::Fading,
    Kind::Between,
];

const HALVES: u64 = 0x1_0000;

const WORDS: u64 = 0x1_0000_0000;

fn half(a: u64) -> u16 {
    (a % HALVES) as u16
}

fn word(a: u64) -> u32 {
    (a % WORDS) as u32
}

fn sample(a: u64) -> i16 {
    half(a).cast_signed()
}

fn single(a: u64) -> f32 {
    f32_from_bits_with_nan(word(a))
}

fn double(a: u64) -> f64 {
    f64_from_bits_with_nan(a)
}

// The lower bits of a signed number, and those of a single.
fn bits16(value: i16) -> u64 {
    u64::from(value.cast_unsigned())
}

fn bits32(value: i32) -> u64 {
    u64::from(value.cast_unsigned())
}

fn bits_of(value: f32) -> u64 {
    u64::from(f32_to_bits_with_nan(value))
}

fn dsp32_of(bytes: u32) -> u32 {
    little::read_dsp32(&bytes.to_le_bytes(), 0)
}

fn dsp32_bytes(value: u32) -> u32 {
    let mut four = [0u8; 4];
    little::write_dsp32(&mut four, 0, value);
    u32::from_le_bytes(four)
}

fn faded(from: u64, to: u64, c: u64) -> i32 {
    let place = (c / HALVES) as usize % FRAME_SAMPLES;
    mixing::gain::fading(single(from), single(to), place, sample(c))
}

fn number_of(kind: Kind, a: u64, b: u64, c: u64) -> u64 {
    match kind {
        Kind::Region => u64::from(u32::from(region::current_region(half(a), half(b)))),
        Kind::Dsp32Value => u64::from(dsp32_of(word(a))),
        Kind::Dsp32Bytes => u64::from(dsp32_bytes(word(a))),
        Kind::Window => u64::from(answered(window::accept(word(a), b as usize))),
        Kind::SingleToSigned32 => bits32(casts::cast_i32(single(a))),
        Kind::DoubleToSigned16 => bits16(casts::cast_i16(double(a))),
        Kind::DoubleToUnsigned32 => u64::from(casts::cast_u32(double(a))),
        Kind::Signed32ToSingle => bits_of(casts::single_of_i32(word(a).cast_signed())),
        Kind::Gain => bits_of(numbers::bits::gain_of(word(a))),
        Kind::Rate => f64_to_bits_with_nan(numbers::bits::rate_of(word(a))),
        Kind::IsFinite => u64::from(numbers::tests::is_finite(single(a))),
        Kind::IsRate => u64::from(numbers::tests::is_rate(double(a))),
        Kind::IsFraction => u64::from(numbers::tests::is_fraction(double(a))),
        Kind::AtGain => bits32(mixing::gain::at_gain(single(a), sample(b))),
        Kind::Fading => bits32(faded(a, b, c)),
        Kind::Between => bits16(mixing::interpolate::interpolate(sample(a), sample(b), double(c))),
    }
}

// What the kind of this number gives, or 0 where no kind has it.
pub fn number(kind: u32, a: u64, b: u64, c: u64) -> u64 {
    match KINDS.get(kind as usize) {
        Some(kind) => number_of(*kind, a, b, c),
        None => 0,
    }
}
