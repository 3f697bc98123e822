// The cases of document 01 that are marked with a star: a list of inputs and outcomes (specs/Starred), and one statement that the
// definitions agree with all of it (proofs/Starred). No code.
#![tactic(auto)]
