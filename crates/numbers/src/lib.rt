// Numbers as the DSP has them: whole numbers that wrap and clamp (`whole`), casts between them and floats (`casts`, over both types of
// floats by `real`), floats out of their bits (`bits`), tests of floats (`tests`), and the sizes of a frame and the mixes (`sizes`).
// Nothing here refuses: each function takes every number of its types and gives what the definition of that name in specs/ says. Values
// only: no memory is read or written, but for `ranged`, which reads a slice to know that its numbers are those of their type.
#![tactic(auto)]

pub mod bits;
pub mod casts;
pub mod ranged;
pub mod real;
pub mod sizes;
pub mod tests;
pub mod whole;
