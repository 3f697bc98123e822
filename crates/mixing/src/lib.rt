// Of module 6, the arithmetic on one sample: what it adds to a mix value at a gain (`gain::at_gain`) or in a fade (`gain::fading`), and the
// sample between two (`interpolate`). Values only: no memory is read or written. Nothing is refused; a fade asks for the sample's number in
// the frame, below 160. Gains and fractions of any value are taken, and the saturating casts decide what products come to.
#![tactic(auto)]

pub mod gain;
pub mod interpolate;
