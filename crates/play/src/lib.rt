// Module 5, playing: what a voice plays in one frame. `frame::play_frame` takes a record, the window with its base, and the voice's lane,
// and gives the record after the frame, its 160 samples in it, and how many of them were produced. A voice with nothing remaining that
// does not follow on spends the frame on a silent dequeue, or switches off; any other plays, one entry after the other, until the frame is
// full or nothing is queued. Nothing is refused: the record must be well-formed for the lane's length. The definition (specs/Play) goes a
// sample at a time; `entry::play_entry` plays an entry on as far as the frame and the entry go.
#![tactic(auto)]

pub mod entry;
pub mod frame;
