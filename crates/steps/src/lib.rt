// Steps through an entry at a rate: part of module 5. `step` is one: each produced sample takes `rate` samples of the entry.
// A `stretch::Course` is a run of them: the entry's length, the rate, where playing is in the entry (`step::Cursor`) and how much room
// there is; two samples are left at first. Its `walk` notes where each sample lies and its fraction, until the room is used or fewer than
// two samples of the entry would be left. It may come nowhere: the caller then takes one sample as the definition has it, a step at a time.
// At rate 1.0 from a fraction of 0.0 nothing has to be noted, and `plain::reach` tells how far the steps come.
#![tactic(auto)]

pub mod plain;
pub mod step;
pub mod stretch;
