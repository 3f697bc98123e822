// The structures in a region: a voice's configuration and its queue's slots, a voice's status, the mixer's configuration. A module has the
// offsets of one of them as constants, and a function `offsets` that does nothing and whose contract ties each constant by name to the
// table in specs/Fields: a clause stands beside its constant and proves by itself, where a statement in proofs/ asks an answer for each.
// `flags` tests a bit of a dirty word. No memory is read or written, and nothing is refused.
#![tactic(auto)]

pub mod config;
pub mod flags;
pub mod mixer_config;
pub mod slot;
pub mod status;
