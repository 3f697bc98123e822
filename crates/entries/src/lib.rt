// Of module 4, the configuration of a voice: the entries that it adds to the queue. A voice's 192 bytes come in with the format and the
// channels that the entries take; the embedded entry and those of the slots (`entry`) go out as one list of at most five, in the order in
// which they are queued (`added`). Nothing is refused, and no memory is written. `config` counts the list for 20, looks through it for 21
// and queues it.
#![tactic(auto)]

pub mod added;
pub mod entry;
