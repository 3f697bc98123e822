// Tests of floats.
ghost use Rattle.std.specs.Prelude.{◌≡◌};
ghost use Rattle.std.specs.Float.Ieee.Scale.{finite};
ghost use Rattle.numbers.specs.Tests.{is_rate, is_fraction};

pub fn is_finite(x: f32) -> bool
    ensures { result ≡ finite x }
{
    x.is_finite()
}

pub fn is_rate(x: f64) -> bool
    ensures { result ≡ is_rate x }
{
    x > 0.0 && x.is_finite()
}

pub fn is_fraction(x: f64) -> bool
    ensures { result ≡ is_fraction x }
{
    x >= 0.0
}
