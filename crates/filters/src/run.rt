// One filter by itself over samples, left and right in turn.
ghost use Rattle.std.specs.Prelude.{◌≡◌, T};
ghost use Rattle.filters.specs.Inner.{all_passed, after_all};

use crate::filter::Filter;

// Puts samples through a filter in their place: four a turn, so that what it keeps of a channel stays in its place over two samples
// (two a turn cost half as much again), and then one a turn. They go by index, since of `chunks_exact_mut` no proof knows what the slice
// ends as.
pub fn run<F: Filter>(filter: &mut F, samples: &mut [i16])
    requires { T (F.in_range filter.old) }
    ensures samples { samples.new ≡ all_passed F.value F.next 0 filter.old samples.old }
    ensures filter { filter.new ≡ after_all F.next 0 filter.old samples.old }
{
    let mut f = *filter;
    let fours = samples.len() / 4;
    for k in 0..fours {
        let i = k * 4;
        f.pass(0, &mut samples[i]);
        f.pass(1, &mut samples[i + 1]);
        f.pass(0, &mut samples[i + 2]);
        f.pass(1, &mut samples[i + 3]);
    }
    for i in fours * 4..samples.len() {
        f.pass(i % 2, &mut samples[i]);
    }
    *filter = f;
}
