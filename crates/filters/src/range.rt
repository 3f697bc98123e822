// Whether filters are such as a well-formed record has.
ghost use Rattle.std.specs.Prelude.{◌≡◌};
ghost use Rattle.filters.specs.Range.{filters_in_range};

use crate::filter::Filter;
use crate::state::Filters;

// A filter whose mark is off counts for nothing.
pub fn filters_in_range(f: &Filters) -> bool
    ensures { result ≡ filters_in_range f.now }
{
    (!f.has_simple || f.simple.is_in_range()) && (!f.has_biquad || f.biquad.is_in_range())
}
