// Module 6, what a voice's frame adds to the mixes. `fade::mix_voice` is the one function for a caller. It takes the three mixes (by
// mix, then channel, then sample), the voice's frame (left and right in turn), its 12 gains (by mix, then channel), the 12 old gains,
// and for each mix whether the voice has a ramp there. It refuses nothing, and changes the mixes alone: each value gets the part of its
// sample at its gain, and sums wrap.
//
// A channel goes one of five ways (`channel`), and the quicker ones are proved equal to what is defined. At a gain of 0.0 it is left. At a
// gain from -32 to 32, and in a fade between gains from -16 to 16, the product is cut to a whole number without a cast (`signs`). All
// else is done as it is defined.
#![tactic(auto)]

pub mod channel;
pub mod fade;
pub mod signs;
