// What the calls for voices have in common beside the voices: what refuses a call as a whole, numbers 1 to 6 by how much is lent, 7 by the
// records and 10 by a voice's number (`refusal`); that number once it is accepted (`voice_number`); how a call begins, with the region
// chosen and the mixes at 0, and what it carries from voice to voice (`begin`); and the list of refused voices given back (`refused`). The
// calls are in `voices` and `alone`.
#![tactic(auto)]

pub mod begin;
pub mod refusal;
pub mod refused;
pub mod voice_number;
