// Casts between floats and whole numbers. From a float: toward zero, saturating, not-a-number gives 0. To a float: to nearest, ties
// to even.
ghost use Rattle.std.specs.Prelude.{◌≡◌, ◌≤◌, pos, unsigned_abs, if◌then◌else◌};
ghost use Rattle.std.specs.Float.Ieee.{lt, of_int};
ghost use Rattle.numbers.specs.Literals.{+0, +1};
ghost use Rattle.numbers.specs.Held.{at_most, at_least, held, size_of, Upto, whole_of, with_sign, at_least_0};
ghost use Rattle.numbers.specs.Wrap.{clamp16};
ghost use Rattle.numbers.specs.Casts.{cast_i32, cast_i16, cast_u32, single, double};

use crate::real::Real;

pub fn cast_i32(x: f32) -> i32
    ensures { result ≡ cast_i32 x }
{
    std::num::saturating_f32_to_i32(x)
}

// The quick way to 16 bits: the float is held to what they reach, its size loses its fraction and is cast exactly, and the sign comes
// back. No arm of it leaves, so that the compiler does several at a time.
// (std's `min`, `max` and `clamp` also tell apart what is not a number, which is an arm more; its `abs` takes the sign of a 0.)

// The smaller of a float and a bound, which also stands for not-a-number.
pub fn at_most<F: Real>(x: F, bound: F) -> F
    ensures { F.float result ≡ at_most (F.float bound) (F.float x) }
{
    if x.below(bound) { x } else { bound }
}

// The larger.
pub fn at_least<F: Real>(x: F, bound: F) -> F
    ensures { F.float result ≡ at_least (F.float bound) (F.float x) }
{
    if bound.below(x) { x } else { bound }
}

// Held to what 16 bits reach.
fn held<F: Real>(x: F) -> F
    ensures { F.float result ≡ held (F.float x) }
{
    let within = at_least(at_most(x, F::HIGH), F::LOW);
    if x == x { within } else { F::ZERO }
}

fn size<F: Real>(z: F) -> F
    ensures { F.float result ≡ size_of (F.float z) }
{
    if z.below(F::ZERO) { -z } else { z }
}

// 1 where a number lies above a, else 0.
fn one_above<F: Real>(near: F, a: F) -> F
    ensures { F.float result ≡ (if lt (F.float a) (F.float near) then +1 else +0) }
{
    if a.below(near) { F::ONE } else { F::ZERO }
}

// The whole part: past `BIG` a float has no digit below 1, so the sum is a whole number next to a + `BIG`.
fn whole<F: Real>(a: F) -> F
    requires { Upto F.reach (F.float a) }
    ensures { F.float result ≡ of_int F.format (pos (whole_of (F.float a))) }
{
    let near = (a + F::BIG) - F::BIG;
    near - one_above(near, a)
}

fn with_sign<F: Real>(z: F, n: i32) -> i32
    requires { unsigned_abs n ≤ 32768 }
    ensures { result ≡ with_sign (F.float z) n }
{
    if z.below(F::ZERO) { -n } else { n }
}

// A float to 16 bits.
fn cast16<F: Real>(x: F) -> i16
    ensures { result ≡ cast_i16 (F.float x) }
{
    let z = held(x);
    with_sign(z, whole(size(z)).to_i32()) as i16
}

// A float to 32 bits, clamped to 16.
pub fn cast_clamped(x: f32) -> i16
    ensures { result ≡ clamp16 (cast_i32 x) }
{
    cast16(x)
}

pub fn cast_i16(x: f64) -> i16
    ensures { result ≡ cast_i16 x }
{
    cast16(x)
}

pub fn at_least_0(x: f64) -> f64
    ensures { result ≡ at_least_0 x }
{
    at_least(x, 0.0)
}

// What the cast to u32 gives, as a float.
pub fn whole_u32(x: f64) -> f64
    ensures { result ≡ double (pos (cast_u32 x)) }
{
    whole(at_most(at_least_0(x), 4294967295.0))
}

pub fn cast_u32(x: f64) -> u32
    ensures { result ≡ cast_u32 x }
{
    whole_u32(x) as u32
}

// By its halves, ten instructions for the twenty-one of std's `nearest_i32_to_f32`, which has an arm for each sign: the values of a mix
// change their sign often.
pub fn single_of_i32(n: i32) -> f32
    ensures { result ≡ single n }
{
    ((n >> 16) as f32) * 65536.0 + ((n & 0xFFFF) as f32)
}

// The same number, or not-a-number, in the wider format.
pub fn double_of_single(x: f32) -> f64
    ensures { result ≡ x }
{
    std::num::f32_to_f64_with_nan(x)
}
