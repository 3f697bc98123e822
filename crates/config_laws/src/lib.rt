// What document 01 says of a voice's configuration as a whole: statements (specs/) and their proofs (proofs/). No code.
#![tactic(auto)]
