// Whole numbers as the DSP has them: sums that wrap to 32 bits, and samples held to 16.
ghost use Rattle.std.specs.Prelude.{◌≡◌, ◌+ℤ◌, ◌*ℤ◌};
ghost use Rattle.numbers.specs.Wrap.{wrap32, clamp16};
ghost use Rattle.numbers.specs.Within.{Is};

// A number wrapped to 32 bits.
pub fn wrapped(v: i64) -> i32
    ensures { result ≡ wrap32 v }
{
    let low = (v & 0xFFFF_FFFF) as u32;
    low.cast_signed()
}

// A number clamped to 16 bits.
pub fn clamped(v: i32) -> i16
    ensures { result ≡ clamp16 v }
{
    v.clamp(-32768, 32767) as i16
}

// The product of two 16-bit numbers, with its bound.
pub fn product(a: i16, b: i16) -> i64
    ensures { Is 1073741824 (a *ℤ b) result }
{
    i64::from(a) * i64::from(b)
}

// The sum of two 32-bit numbers, wrapped: std's, by the definition that a mix is stated with.
pub fn add_wrapped(a: i32, b: i32) -> i32
    ensures { result ≡ wrap32 (a +ℤ b) }
{
    a.wrapping_add(b)
}
