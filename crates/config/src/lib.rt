// Module 4, the configuration of a voice: what a title writes to it. A voice's 192 bytes and its 32 bytes of coefficients come in beside
// its record. The steps of `settings` settle the record, the entries that the flags add come as one list from `entries`, and the voice is
// refused by 20 or 21, with all of it as it was, or the entries are queued (both `queueing`) and the dirty word cleared. Required is of
// the record that its queue is not over 64 and no more is left of its entry than its length: of a well-formed record both hold. What a
// configuration comes to as a whole is said in `config_laws`.
#![tactic(auto)]

pub mod parse;
