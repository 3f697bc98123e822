// Module 3, the filters of a voice. `process` takes both filters and a frame's produced samples, left and right in turn, filters the
// samples in their place, simple filter first, and leaves the filters with their new state. A filter whose mark is off does nothing.
// Nothing is refused: `process` asks that coefficients and state of filters that are on lie from -32768 to 32768 (`range`), which a record
// that is not malformed has. `filter` is either filter on one sample, as a trait, `step` what it keeps of a value, `run` a filter over all
// samples, `defaults` what a filter is before a title sets it.
#![tactic(auto)]

pub mod defaults;
pub mod filter;
pub mod process;
pub mod range;
pub mod run;
pub mod state;
pub mod step;
