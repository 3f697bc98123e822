// The frame put through the filters.
ghost use Rattle.std.specs.Prelude.{◌≤◌, T};
ghost use Rattle.filters.specs.Range.{filters_in_range};

use filters::process::process;
use filters::range::filters_in_range;
use filters::state::Filters;
use numbers::sizes::{FRAME, FRAME_SAMPLES};
use record_reader::{RECORD, record_of};
use record_writer::put_record;

#[derive(Clone, Copy)]
pub struct Passed {
    pub frame: [i16; FRAME],
    pub filters: Filters,
}

// The frame with its first pairs filtered, and the filters after them.
pub fn filtered(samples: [i16; FRAME], count: usize, given: Filters) -> Passed
    requires { T (filters_in_range given) × (count ≤ FRAME_SAMPLES) }
{
    let mut passed = Passed {
        frame: samples,
        filters: given,
    };
    process(&mut passed.filters, &mut passed.frame[..count * 2]);
    passed
}

// Filters so many pairs of the record's frame, and says whether the filters are in range; nothing is done where they are not.
pub fn filter(count: usize, bytes: &mut [u8; RECORD]) -> bool
    requires { count ≤ FRAME_SAMPLES }
{
    let mut v = record_of(bytes);
    if !filters_in_range(&v.filters) {
        return false;
    }
    let passed = filtered(v.frame, count, v.filters);
    let frame = passed.frame;
    v.frame = frame;
    v.filters = passed.filters;
    put_record(&v, bytes);
    true
}
