// Lists as contracts speak of them: definitions (specs/) and their laws (proofs/). No code.
#![tactic(auto)]
