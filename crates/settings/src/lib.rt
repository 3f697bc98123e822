// Of module 4, the configuration of a voice: what each flag of its dirty word does to its record. A step takes the record by value and the
// voice's 192 bytes, the coefficients' step the 32 bytes of those too, and gives the record back, changed only where its flag is set. So it
// is a function of the record, as its definition is, and `config` takes one after the other as `in_turn` does. Lengthening requires that no
// more is left of the entry being played than its length: it is asked, and is no ghost field of the record, since a record that is lent may
// be malformed. The step of the filters is `filter_settings`; the entries are those of `entries` and `queueing`.
#![tactic(auto)]

pub mod dirty;
pub mod gains;
pub mod steps;
