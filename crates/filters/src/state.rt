// The two filters that a voice may have, each with its coefficients and what it keeps of each channel.

// The first order filter, y = b0 x + a1 y1, with 15 fraction bits.
#[derive(Clone, Copy)]
pub struct SimpleFilter {
    pub b0: i32,
    pub a1: i32,
    pub y1: [i32; 2],
}

// The second order filter, with 14 fraction bits and its feedback negated. Of x and y the newer pair of channels stands first.
#[derive(Clone, Copy)]
pub struct BiquadFilter {
    pub b: [i32; 3],
    pub a: [i32; 2],
    pub x: [i32; 4],
    pub y: [i32; 4],
}

// A filter counts only where its mark is on. Document 01 wants a record with each mark beside its data, so they are no `Option`s.
#[derive(Clone, Copy, Default)]
pub struct Filters {
    pub has_simple: bool,
    pub simple: SimpleFilter,
    pub has_biquad: bool,
    pub biquad: BiquadFilter,
}
