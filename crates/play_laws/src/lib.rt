// What document 01 says of a frame as a whole, and what a frame keeps: statements over play's definition (specs/Laws), each with its proof
// (proofs/). No code.
#![tactic(auto)]
