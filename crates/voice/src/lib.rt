// A voice as a value: its record (`record`), the default and the blanks that stand where something is off (`blank`), when a lent record is
// malformed, number 7 (`malformed`), and the record with its blanks put in (`tidy`). `malformed` takes any record and any lane length, and
// says whether the call that was lent it must answer 7; nothing else here refuses. No memory is read or written.
#![tactic(auto)]

pub mod blank;
pub mod malformed;
pub mod record;
pub mod tidy;
