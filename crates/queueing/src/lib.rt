// Of module 4, the configuration of a voice: the entries that it adds put into the queue (`push`), and the numbers 20 and 21 that refuse
// them (`refusal`). The entries come as a slice, the record by value. `accept_entries` answers the refusal and changes nothing;
// `push_entries` requires that there is room. No memory is read or written.
#![tactic(auto)]

pub mod push;
pub mod refusal;
