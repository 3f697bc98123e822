// How many bytes a mix takes in a region.
use numbers::sizes::MIX;

pub const AUX_BYTES: usize = 4 * MIX;
