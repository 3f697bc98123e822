// The record's filters.
use filters::state::Filters;
use record_reader::RECORD;
use replaying::held::put_each;

pub fn put_filters(f: Filters, bytes: &mut [u8; RECORD]) {
    let factors = [f.simple.b0, f.simple.a1];
    put_each(&factors, &mut bytes[24..]);
    put_each(&f.simple.y1, &mut bytes[32..]);
    put_each(&f.biquad.b, &mut bytes[40..]);
    put_each(&f.biquad.a, &mut bytes[52..]);
    put_each(&f.biquad.x, &mut bytes[60..]);
    put_each(&f.biquad.y, &mut bytes[76..]);
}
