// The part of a sample at a gain of either sign, cut to a whole number by sums alone, with no test or cast of a float, so that the
// compiler does several at a time. The product is brought a quarter nearer to 0 and 2^22 + 2^21 is put on it. There an f32 has halves and
// nothing finer, and a tie goes to the even one: the bits are those of 2^22 + 2^21 and twice the product's whole part, or one more (one
// less of a negative one, which the base makes good).
ghost use Rattle.std.specs.Prelude.{◌≡◌, cond, pos};
ghost use Rattle.numbers.specs.Casts.{single};
ghost use Rattle.mixing.specs.Gain.{at_gain};
ghost use Rattle.mix_voice.specs.Quick.{within, Around, +¼, -¼};

// 2^22 + 2^21, its bits, and those one below.
const MIDDLE: f32 = 6291456.0;

const BASE: i32 = 0x4AC0_0000;

const NEGATIVE_BASE: i32 = BASE - 1;

// Whether a gain's size is at most `most`.
pub fn is_within(gain: f32, most: f32) -> bool
    ensures { result ≡ within most gain }
{
    gain >= -most && gain <= most
}

// A quarter with a product's sign.
fn quarter_of(negative: bool) -> f32
    ensures { result ≡ cond negative -¼ +¼ }
{
    if negative { -0.25 } else { 0.25 }
}

// What the bits are counted from: one less where the product is negative.
fn base_of(negative: bool) -> i32
    ensures { result ≡ cond negative (pos 0x4ABF_FFFF) (pos 0x4AC0_0000) }
{
    if negative { NEGATIVE_BASE } else { BASE }
}

// The part of a sample, which is also handed in as a float.
pub fn part(gain: f32, sample: i16, s: f32) -> i32
    requires small { Around 63 gain }
    requires same_sample { s ≡ single sample }
    ensures { result ≡ at_gain gain sample }
{
    let x = gain * s;
    let negative = x.is_sign_negative();
    let t = (x - quarter_of(negative)) + MIDDLE;
    (t.to_bits().cast_signed() - base_of(negative)) >> 1
}
