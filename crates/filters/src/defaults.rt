// Filters that change nothing: what a filter that is switched on begins as, and the blank under an off mark.
ghost use Rattle.std.specs.Prelude.{◌≡◌};
ghost use Rattle.filters.specs.Defaults.{default_simple, default_biquad};

use crate::state::{BiquadFilter, SimpleFilter};

impl Default for SimpleFilter {
    ghost is_default = { λ f. f ≡ default_simple };

    fn default() -> SimpleFilter {
        SimpleFilter {
            b0: 32768,
            a1: 0,
            y1: [0; 2],
        }
    }
}

impl Default for BiquadFilter {
    ghost is_default = { λ f. f ≡ default_biquad };

    fn default() -> BiquadFilter {
        BiquadFilter {
            b: [16384, 0, 0],
            a: [0; 2],
            x: [0; 4],
            y: [0; 4],
        }
    }
}
