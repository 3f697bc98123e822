// The longest part: a decode's header and the frames of 65,535 samples.
pub const LONGEST_PART: usize = listing::sizes::LONGEST;
// All the halves that a decode's answer can have: these samples and the history after them.
pub const HALVES: usize = listing::sizes::MOST_SAMPLES + 2;
// The longest answer.
pub const ROOM: usize = HALVES * 2;
