// Of module 5, a stretch of an entry played the quick way. `entry::play_on` takes a player, the frame and how many of its samples are there
// already. It stores samples one after the other until the frame is full or fewer than two samples of the entry would be left, and gives
// how far it came. Nothing is refused, and it may store none: where no entry plays, where the record's length is not the entry's, where
// fewer than two samples remain, or where a sample of the entry is absent. The caller then takes one sample as the definition has it.
//
// The way of the data: `source` finds the entry's samples in the window by one look-up, or in the lane; `steps` walks through the entry and
// notes places and fractions; `noted` brings the samples of those places and makes what lies between them; `store` puts them in a frame.
#![tactic(auto)]

pub mod entry;
pub mod noted;
pub mod source;
pub mod store;
