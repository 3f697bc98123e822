// One voice's frame: configuration, playing, filters, mixing, status, in the source's order, and the blanks last. `serve::serve` takes a
// record by value, and lent to it are the voice's lane, its configuration and its coefficients in the region that is read, the window, the
// mixes, and the voice's status in the other region. It answers the record or the refusal. A voice that is refused, by 20 or 21, keeps
// lane, configuration and status and adds nothing to the mixes. Nothing else is refused: the record must be well-formed for the lane. What
// it does is the definition `voice_frame` (specs/VoiceFrame).
#![tactic(auto)]

pub mod mixes;
pub mod serve;
pub mod sound;
