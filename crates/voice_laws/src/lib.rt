// What a voice's frame keeps and leaves, and with which numbers a voice is refused: statements over voice_frame's definition (specs/Laws),
// each with its proof (proofs/). No code.
#![tactic(auto)]
