// Bits of a configuration's dirty word: which fields the title changed. They are numbers and no enum: their names and values are the
// source's, the mixes' bits follow one another, so that one is shifted from another, and the word's other bits do nothing.
ghost use Rattle.std.specs.Prelude.{◌≡◌, ◌<◌};
ghost use Rattle.settings.specs.Dirty.{flag};

use fields::config::CONFIG_SIZE;

pub const FORMAT: u32 = 0x1;

pub const MONO_OR_STEREO: u32 = 0x2;

pub const ADPCM_COEFFICIENTS: u32 = 0x4;

pub const PARTIAL_EMBEDDED_BUFFER: u32 = 0x8;

pub const PARTIAL_RESET: u32 = 0x10;

pub const ENABLE: u32 = 0x1_0000;

pub const INTERPOLATION: u32 = 0x2_0000;

pub const RATE_MULTIPLIER: u32 = 0x4_0000;

pub const BUFFER_QUEUE: u32 = 0x8_0000;

pub const PLAY_POSITION: u32 = 0x20_0000;

pub const FILTERS_ENABLED: u32 = 0x40_0000;

pub const SIMPLE_FILTER: u32 = 0x80_0000;

pub const BIQUAD_FILTER: u32 = 0x100_0000;
// Of mix 0; mixes 1 and 2 have the next two.
pub const GAIN: u32 = 0x200_0000;

pub const SYNC_COUNT: u32 = 0x1000_0000;

pub const RESET: u32 = 0x2000_0000;

pub const EMBEDDED_BUFFER: u32 = 0x4000_0000;

// Whether a bit of the dirty word is set. That it is above 0 is asked, since the bits are numbers.
pub fn flag(bytes: &[u8; CONFIG_SIZE], bit: u32) -> bool
    requires { 0 < bit }
    ensures { result ≡ flag bytes.now bit }
{
    fields::flags::flagged(little::read32(bytes, fields::config::DIRTY), bit)
}
