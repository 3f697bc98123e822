// Samples through the filters of a voice, the simple one first.
ghost use Rattle.std.specs.Prelude.{◌≡◌, T};
ghost use Rattle.filters.specs.Range.{filters_in_range};
ghost use Rattle.filters.specs.Process.{passed_from, filters_after};

use crate::run::run;
use crate::state::Filters;

// Puts samples through the filters in their place, left and right in turn.
pub fn process(filters: &mut Filters, samples: &mut [i16])
    requires { T (filters_in_range filters.old) }
    ensures samples { samples.new ≡ passed_from 0 filters.old samples.old }
    ensures filters { filters.new ≡ filters_after 0 filters.old samples.old }
{
    if filters.has_simple {
        run(&mut filters.simple, samples);
    }
    if filters.has_biquad {
        run(&mut filters.biquad, samples);
    }
}
