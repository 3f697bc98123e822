// Of module 5, one sample of an entry. A PCM sample is read out of the window as it plays: `pcm8_mono` and its like, document 01's named
// readers, take the window and the sample's address, and give both channels, of a mono sample the same twice. One look-up serves both
// channels, and where a byte is absent both are 0. An ADPCM sample comes from the lane, where it was decoded: `decoded_at`. `sample_at` is
// the sample at an index of an entry of any kind. Nothing is refused or asked: of the lane, what was decoded is handed.
#![tactic(auto)]

ghost use Rattle.std.specs.Prelude.{◌≡◌, ◌+◌, ◌*◌, ◌%◌, ◌^◌, ◌≤◌, length};
ghost use Rattle.window.specs.Window.{look_up};
ghost use Rattle.dequeue.specs.Dequeue.{aligned};
ghost use Rattle.samples.specs.Samples.{silence, both, high_byte, mono_of8, stereo_of8, mono_of16, stereo_of16, decoded_at};
ghost use Rattle.samples.specs.Samples.{sample_at};

use dequeue::align;
use voice::record::{Entry, Format};
use window::Window;

// A sample: left and right.
#[derive(Clone, Copy)]
pub struct Sample {
    pub left: i16,
    pub right: i16,
}

pub fn silent() -> Sample
    ensures { result ≡ silence }
{
    Sample { left: 0, right: 0 }
}

// The same on both sides.
pub fn alike(value: i16) -> Sample
    ensures { result ≡ both value }
{
    Sample {
        left: value,
        right: value,
    }
}

// A byte as the upper half of a value.
pub fn high_byte(byte: u8) -> i16
    ensures { result ≡ high_byte byte }
{
    (u16::from(byte) * 256).cast_signed()
}

pub fn pcm8_mono(window: Window<'_>, address: u32) -> Sample
    ensures { result ≡ mono_of8 (look_up window.entry.bytes.now window.entry.base address 1) }
{
    let [byte] = window.physical(address, 1) else {
        return silent();
    };
    alike(high_byte(*byte))
}

pub fn pcm8_stereo(window: Window<'_>, address: u32) -> Sample
    ensures { result ≡ stereo_of8 (look_up window.entry.bytes.now window.entry.base address 2) }
{
    let [left, right] = window.physical(address, 2) else {
        return silent();
    };
    Sample {
        left: high_byte(*left),
        right: high_byte(*right),
    }
}

pub fn pcm16_mono(window: Window<'_>, address: u32) -> Sample
    ensures { result ≡ mono_of16 (look_up window.entry.bytes.now window.entry.base address 2) }
{
    let [low, high] = window.physical(address, 2) else {
        return silent();
    };
    alike(i16::from_le_bytes([*low, *high]))
}

// The two values in four bytes.
fn sides_of(bytes: &[u8; 4]) -> Sample
    ensures { result ≡ stereo_of16 bytes.now }
{
    let [a, b, c, d] = *bytes;
    Sample {
        left: i16::from_le_bytes([a, b]),
        right: i16::from_le_bytes([c, d]),
    }
}

pub fn pcm16_stereo(window: Window<'_>, address: u32) -> Sample
    ensures { result ≡ stereo_of16 (look_up window.entry.bytes.now window.entry.base address 4) }
{
    let Some(bytes) = window.physical(address, 4).first_chunk() else {
        return silent();
    };
    sides_of(bytes)
}

// The sample at an index of those that were decoded.
pub fn decoded_at(decoded: &[i16], index: u32) -> Sample
    ensures { result ≡ decoded_at decoded.now (length decoded.now) index }
{
    let Some(value) = decoded.get(index as usize) else {
        return silent();
    };
    alike(*value)
}

// Where the sample at an index stands, of samples of so many bytes.
fn address_of(address: u32, index: u32, size: u32) -> u32
    requires { size ≤ 4 }
    ensures { result ≡ (aligned address + index * size) % 2 ^ 32 }
{
    align(address).wrapping_add(index.wrapping_mul(size))
}

// The sample at an index of an entry.
#[tactic(auto, unfolding(crate::specs::Samples::sample_at))]
pub fn sample_at(window: Window<'_>, decoded: &[i16], e: Entry, index: u32) -> Sample
    ensures { result ≡ sample_at window.entry.bytes.now window.entry.base decoded.now (length decoded.now) e index }
{
    match (e.format, e.stereo) {
        (Format::Pcm8, false) => pcm8_mono(window, address_of(e.address, index, 1)),
        (Format::Pcm8, true) => pcm8_stereo(window, address_of(e.address, index, 2)),
        (Format::Pcm16, false) => pcm16_mono(window, address_of(e.address, index, 2)),
        (Format::Pcm16, true) => pcm16_stereo(window, address_of(e.address, index, 4)),
        (Format::Adpcm, _) => decoded_at(decoded, index),
    }
}
