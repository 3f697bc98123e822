// The floats f32 and f64 under one name, so that a cast is written once for both.
ghost use Rattle.std.specs.Prelude.{◌≡◌, ℕ, T, from_bits};
ghost use Rattle.std.specs.Float.{Float, Format, binary32, binary64};
ghost use Rattle.std.specs.Float.Ieee.{neg, lt, in_signed, to_signed};
ghost use Rattle.numbers.specs.Reals.{Shape, Numbers, Operates, shape_32, shape_64, numbers_32, numbers_64, operates};

use std::ops::{Add, Neg, Sub};

pub trait Real: Copy
    + PartialEq
    + Add<Self, Output = Self>
    + Sub<Self, Output = Self>
    + Neg<Output = Self> {
    // The type's format, and a value as contracts have it.
    ghost format: { Format };

    ghost float: { Self → Float };

    // The format's `Shape`.
    ghost digits: { ℕ };

    ghost reach: { ℕ };

    ghost ZERO: { Self };

    const ZERO: Self;

    ghost ONE: { Self };

    const ONE: Self;

    // 32767 and -32768.
    ghost HIGH: { Self };

    const HIGH: Self;

    ghost LOW: { Self };

    const LOW: Self;

    // From here on no number has a digit below 1.
    ghost BIG: { Self };

    const BIG: Self;

    // A function of its own: with the `<` of `PartialOrd` the casts have one instruction more, a blend.
    fn below(self, other: Self) -> bool
        ensures { result ≡ lt (float self) (float other) };

    // A whole number of 32 bits, as one.
    fn to_i32(self) -> i32
        requires { T (in_signed format 31 (float self)) }
        ensures { result ≡ to_signed 31 (float self) };

    ghost shape: { Shape format digits reach };

    ghost numbers: { Numbers digits (float ZERO) (float ONE) (float HIGH) (float LOW) (float BIG) };

    ghost operates: { Operates format float Self.eq Self.add_gives Self.sub_gives Self.neg_gives };

    ghost can_operate: { (x y : Self) → Self.can_add x y × (Self.can_sub x y × Self.can_neg x) };
}

// Two impls of one shape: each method is its type's own, and an impl that a macro writes is refused.
impl Real for f32 {
    ghost format = { binary32 };

    ghost float = { λ x. x };

    ghost digits = { 23 };

    ghost reach = { 32768 };

    ghost ZERO = { from_bits binary32 0 };

    const ZERO: f32 = 0.0;

    ghost ONE = { from_bits binary32 0x3f80_0000 };

    const ONE: f32 = 1.0;

    ghost HIGH = { from_bits binary32 0x46ff_fe00 };

    const HIGH: f32 = 32767.0;

    ghost LOW = { neg (from_bits binary32 0x4700_0000) };

    const LOW: f32 = -32768.0;

    ghost BIG = { from_bits binary32 0x4b00_0000 };

    const BIG: f32 = 8388608.0;

    fn below(self, other: f32) -> bool {
        self < other
    }

    fn to_i32(self) -> i32 {
        self as i32
    }

    ghost shape = { shape_32 };

    ghost numbers = { numbers_32 };

    ghost operates = { operates binary32 };

    ghost can_operate = { λ x y. (tt, (tt, tt)) };
}

impl Real for f64 {
    ghost format = { binary64 };

    ghost float = { λ x. x };

    ghost digits = { 52 };

    ghost reach = { 4294967295 };

    ghost ZERO = { from_bits binary64 0 };

    const ZERO: f64 = 0.0;

    ghost ONE = { from_bits binary64 0x3ff0_0000_0000_0000 };

    const ONE: f64 = 1.0;

    ghost HIGH = { from_bits binary64 0x40df_ffc0_0000_0000 };

    const HIGH: f64 = 32767.0;

    ghost LOW = { neg (from_bits binary64 0x40e0_0000_0000_0000) };

    const LOW: f64 = -32768.0;

    ghost BIG = { from_bits binary64 0x4330_0000_0000_0000 };

    const BIG: f64 = 4503599627370496.0;

    fn below(self, other: f64) -> bool {
        self < other
    }

    fn to_i32(self) -> i32 {
        self as i32
    }

    ghost shape = { shape_64 };

    ghost numbers = { numbers_64 };

    ghost operates = { operates binary64 };

    ghost can_operate = { λ x y. (tt, (tt, tt)) };
}
