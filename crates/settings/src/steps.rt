// What a flag of the dirty word does to the record, one function for each step that reads no filter and no gain.
ghost use Rattle.std.specs.Prelude.{◌≡◌, ◌≤◌};
ghost use Rattle.settings.specs.Steps.{interpolation_of, format_in, reset_step, partial_reset_step, enable_step, sync_step, rate_step};
ghost use Rattle.settings.specs.Steps.{interpolation_step, coefficients_step, format_step, stereo_step, lengthen_step};

use crate::dirty;
use crate::dirty::flag;
use fields::config;
use fields::config::CONFIG_SIZE;
use little::{read_dsp32, read16, read32, signed_halves};
use numbers::sizes::COEFFICIENTS;
use voice::record::{Format, Interpolation, Voice};

// How many bytes a voice's coefficients take, of 16 bits each.
pub const COEFFICIENT_BYTES: usize = COEFFICIENTS * 2;

#[tactic(auto, unfolding(crate::specs::Steps::reset_step))]
pub fn reset_step(v: Voice, bytes: &[u8; CONFIG_SIZE]) -> Voice
    ensures { result ≡ reset_step bytes.now v }
{
    if flag(bytes, dirty::RESET) {
        Voice::default()
    } else {
        v
    }
}

#[tactic(auto, unfolding(crate::specs::Steps::partial_reset_step))]
pub fn partial_reset_step(mut v: Voice, bytes: &[u8; CONFIG_SIZE]) -> Voice
    ensures { result ≡ partial_reset_step bytes.now v }
{
    if flag(bytes, dirty::PARTIAL_RESET) {
        v.queued = 0;
        v.ran_out_at_frame_end = false;
    }
    v
}

#[tactic(auto, unfolding(crate::specs::Steps::enable_step))]
pub fn enable_step(mut v: Voice, bytes: &[u8; CONFIG_SIZE]) -> Voice
    ensures { result ≡ enable_step bytes.now v }
{
    if flag(bytes, dirty::ENABLE) {
        v.enabled = bytes[config::ENABLE] != 0;
        v.ran_out_at_frame_end = false;
    }
    v
}

#[tactic(auto, unfolding(crate::specs::Steps::sync_step))]
pub fn sync_step(mut v: Voice, bytes: &[u8; CONFIG_SIZE]) -> Voice
    ensures { result ≡ sync_step bytes.now v }
{
    if flag(bytes, dirty::SYNC_COUNT) {
        v.sync_count = read16(bytes, config::SYNC_COUNT);
    }
    v
}

#[tactic(auto, unfolding(crate::specs::Steps::rate_step))]
pub fn rate_step(mut v: Voice, bytes: &[u8; CONFIG_SIZE]) -> Voice
    ensures { result ≡ rate_step bytes.now v }
{
    if flag(bytes, dirty::RATE_MULTIPLIER) {
        v.rate = numbers::bits::rate_of(read32(bytes, config::RATE_MULTIPLIER));
    }
    v
}

// A function and no `From<u8>`: an impl of it would stand beside the enum, in a crate that knows nothing of a configuration's bytes.
fn interpolation_of(n: u8) -> Interpolation
    ensures { result ≡ interpolation_of n }
{
    match n {
        1 => Interpolation::Linear,
        2 => Interpolation::None,
        _ => Interpolation::Polyphase,
    }
}

#[tactic(auto, unfolding(crate::specs::Steps::interpolation_step))]
pub fn interpolation_step(mut v: Voice, bytes: &[u8; CONFIG_SIZE]) -> Voice
    ensures { result ≡ interpolation_step bytes.now v }
{
    if flag(bytes, dirty::INTERPOLATION) {
        v.interpolation = interpolation_of(bytes[config::INTERPOLATION]);
    }
    v
}

pub fn format_in(bytes: &[u8; CONFIG_SIZE]) -> Format
    ensures { result ≡ format_in bytes.now }
{
    match read16(bytes, config::FLAGS1) / 4 % 4 {
        0 => Format::Pcm8,
        2 => Format::Adpcm,
        _ => Format::Pcm16,
    }
}

#[tactic(auto, unfolding(crate::specs::Steps::format_step))]
pub fn format_step(mut v: Voice, bytes: &[u8; CONFIG_SIZE]) -> Voice
    ensures { result ≡ format_step bytes.now v }
{
    if flag(bytes, dirty::FORMAT) || flag(bytes, dirty::EMBEDDED_BUFFER) {
        v.format = format_in(bytes);
    }
    v
}

#[tactic(auto, unfolding(crate::specs::Steps::stereo_step))]
pub fn stereo_step(mut v: Voice, bytes: &[u8; CONFIG_SIZE]) -> Voice
    ensures { result ≡ stereo_step bytes.now v }
{
    if flag(bytes, dirty::MONO_OR_STEREO) || flag(bytes, dirty::EMBEDDED_BUFFER) {
        v.stereo = read16(bytes, config::FLAGS1) % 4 == 2;
    }
    v
}

#[tactic(auto, unfolding(crate::specs::Steps::lengthen_step))]
pub fn lengthen_step(mut v: Voice, bytes: &[u8; CONFIG_SIZE]) -> Voice
    requires { v.remaining ≤ v.length }
    ensures { result ≡ lengthen_step bytes.now v }
{
    if flag(bytes, dirty::PARTIAL_EMBEDDED_BUFFER) {
        let played = v.length - v.remaining;
        let length = read_dsp32(bytes, config::LENGTH).max(played);
        if v.has_playing {
            v.playing.length = length;
        }
        v.remaining = length - played;
        v.length = length;
    }
    v
}

#[tactic(auto, unfolding(crate::specs::Steps::coefficients_step))]
pub fn coefficients_step(
    mut v: Voice,
    bytes: &[u8; CONFIG_SIZE],
    coefficients: &[u8; COEFFICIENT_BYTES],
) -> Voice
    ensures { result ≡ coefficients_step bytes.now coefficients.now v }
{
    if flag(bytes, dirty::ADPCM_COEFFICIENTS) {
        v.coefficients = signed_halves(coefficients);
    }
    v
}
