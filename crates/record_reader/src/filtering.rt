// The record's filters.
use crate::RECORD;
use filters::state::{BiquadFilter, Filters, SimpleFilter};
use replaying::held::{read, read_array};

pub fn filters_of(bytes: &[u8; RECORD]) -> Filters {
    let simple = SimpleFilter {
        b0: read(&bytes[24..]),
        a1: read(&bytes[28..]),
        y1: read_array(&bytes[32..]),
    };
    let biquad = BiquadFilter {
        b: read_array(&bytes[40..]),
        a: read_array(&bytes[52..]),
        x: read_array(&bytes[60..]),
        y: read_array(&bytes[76..]),
    };
    Filters {
        has_simple: read(&bytes[6..]),
        simple,
        has_biquad: read(&bytes[7..]),
        biquad,
    }
}
