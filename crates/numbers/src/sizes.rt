// How large a frame and the mixes are, by the names of specs/Sizes.antt, and how many there are of what a call or a voice has.

// The samples of a frame, of which each has a left and a right value.
pub const FRAME_SAMPLES: usize = 160;

// The values of a frame, left and right in turn.
pub const FRAME: usize = 320;

// The values of one mix: four channels, one after the other.
pub const MIX: usize = 640;

// The values of the three mixes.
pub const MIXES: usize = 1920;

// The mixes, the channels of each, and the gains of a voice, one for each channel of each mix.
pub const MIX_COUNT: usize = 3;

pub const CHANNELS: usize = 4;

pub const GAINS: usize = MIX_COUNT * CHANNELS;

// The coefficients of a voice's ADPCM: two for each of eight predictors.
pub const COEFFICIENTS: usize = 16;

// The voices of a call.
pub const VOICES: usize = 24;
