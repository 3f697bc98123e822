// The mixer's configuration, which a title writes.
ghost use Rattle.std.specs.Prelude.{◌≡◌, cond, ◌+◌, ◌≤◌, ◌<◌, length};
ghost use Rattle.fields.specs.Flags.{flagged};
ghost use Rattle.mixer_state.specs.Configuration.{configuration_bytes, output_of, configured, cleared};

use crate::{Mixer, Output};
use fields::flags::flagged;
use fields::mixer_config as config;
use fields::mixer_config::CONFIG_SIZE;
use little::{read16, read32, write32};
use numbers::bits::gain_of;

// Bits of the dirty word, with the names and values of the source's `dirty`. They are numbers and no enum, since of the aux buses' bits the
// first is given and the second is twice that.
const AUX_BUS_ENABLE: u32 = 0x100;

const MASTER_VOLUME: u32 = 0x1_0000;

const AUX_RETURN_VOLUME: u32 = 0x100_0000;

const OUTPUT_FORMAT: u32 = 0x400_0000;

// A field of the state: what the configuration has where the field's bit is set, else what it was.
fn changed<T: Copy>(flags: u32, bit: u32, read: T, old: T) -> T
    requires { 0 < bit }
    ensures { result ≡ cond (flagged flags bit) read old }
{
    if flagged(flags, bit) { read } else { old }
}

// The output kind that the configuration has.
fn output_of(bytes: &[u8; CONFIG_SIZE]) -> Output
    ensures { result ≡ output_of bytes.now }
{
    if read16(bytes, config::OUTPUT_FORMAT) == 0 {
        Output::Mono
    } else {
        Output::Stereo
    }
}

// The state as the configuration's bytes change it.
pub fn parse_config(mixer: Mixer, bytes: &[u8; CONFIG_SIZE]) -> Mixer
    ensures { result ≡ configured bytes.now mixer }
{
    let flags = read32(bytes, config::DIRTY);
    if flags == 0 {
        return mixer;
    }
    let master = gain_of(read32(bytes, config::MASTER_VOLUME));
    let first = gain_of(read32(bytes, config::AUX_RETURN_VOLUME));
    let second = gain_of(read32(bytes, config::AUX_RETURN_VOLUME + 4));
    let on = read16(bytes, config::AUX_BUS_ENABLE) != 0;
    let also_on = read16(bytes, config::AUX_BUS_ENABLE + 2) != 0;
    Mixer {
        volume: [
            changed(flags, MASTER_VOLUME, master, mixer.volume[0]),
            changed(flags, AUX_RETURN_VOLUME, first, mixer.volume[1]),
            changed(flags, AUX_RETURN_VOLUME * 2, second, mixer.volume[2]),
        ],
        aux: [
            changed(flags, AUX_BUS_ENABLE, on, mixer.aux[0]),
            changed(flags, AUX_BUS_ENABLE * 2, also_on, mixer.aux[1]),
        ],
        output: changed(flags, OUTPUT_FORMAT, output_of(bytes), mixer.output),
    }
}

// Clears the dirty word of the configuration at a place of a region, where it is not 0.
pub fn clear_dirty(region: &mut [u8], at: usize)
    requires { at + configuration_bytes ≤ length region.old }
    ensures { region.new ≡ cleared at region.old }
{
    let dirty = read32(region, at);
    if dirty != 0 {
        write32(region, at, 0);
    }
}
