// One voice's turn in a call: the parts of lent memory that are the voice's own (`own`) go to `voice_frame`, the voice's record is what its
// frame leaves, and the call carries on with the voice in its list if it was refused (`turn`). A voice is refused by 20 or 21, and then all
// of it stays. Nothing else is refused here.
#![tactic(auto)]

pub mod own;
pub mod turn;
