// Playing between two samples.
ghost use Rattle.std.specs.Prelude.{◌≡◌};
ghost use Rattle.mixing.specs.Interpolate.{interpolate};

use numbers::casts::cast_i16;

// The sample a fraction of the way from a to b, or past b at a fraction above 1.
pub fn interpolate(a: i16, b: i16, fraction: f64) -> i16
    ensures { result ≡ interpolate a b fraction }
{
    let from = f64::from(a);
    let to = f64::from(b);
    cast_i16(from + (to - from) * fraction)
}
