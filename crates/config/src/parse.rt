// The configuration reader.
ghost use Rattle.std.specs.Prelude.{◌≡◌, ◌≤◌};
ghost use Rattle.std.specs.Result.{result_unwrap_or};
ghost use Rattle.refusals.specs.Numbers.{number_of};
ghost use Rattle.voice.specs.Blank.{limit};
ghost use Rattle.config.specs.Parsed.{in_turn, play_steps, sound_steps, last_steps, settled, configured, cleared, bytes_after};

use entries::added::to_add;
use fields::config;
use fields::config::CONFIG_SIZE;
use filter_settings::filters_step;
use little::{read32, write16, write32};
use queueing::push::push_entries;
use queueing::refusal::accept_entries;
use refusals::Refusal;
use settings::dirty::flag;
use settings::gains::gain_step;
use settings::steps::COEFFICIENT_BYTES;
use settings::{dirty, steps};
use voice::record::Voice;

// That no more remains than the length and the queue is not over its limit is asked in clauses, by no ghost field of `Voice`: a record that
// is lent may be malformed.

fn play_steps(mut v: Voice, bytes: &[u8; CONFIG_SIZE]) -> Voice
    ensures { result ≡ in_turn (play_steps bytes.now) v }
{
    v = steps::reset_step(v, bytes);
    v = steps::partial_reset_step(v, bytes);
    v = steps::enable_step(v, bytes);
    v = steps::sync_step(v, bytes);
    v = steps::rate_step(v, bytes);
    steps::interpolation_step(v, bytes)
}

// A call for each mix, as the definition lists them: a loop is as long, and its invariant takes more lines to prove than it saves.
fn sound_steps(
    mut v: Voice,
    bytes: &[u8; CONFIG_SIZE],
    coefficients: &[u8; COEFFICIENT_BYTES],
) -> Voice
    ensures { result ≡ in_turn (sound_steps bytes.now coefficients.now) v }
{
    v = steps::coefficients_step(v, bytes, coefficients);
    v = gain_step(v, bytes, 0);
    v = gain_step(v, bytes, 1);
    v = gain_step(v, bytes, 2);
    filters_step(v, bytes)
}

fn last_steps(mut v: Voice, bytes: &[u8; CONFIG_SIZE]) -> Voice
    requires { v.remaining ≤ v.length }
    ensures { result ≡ in_turn (last_steps bytes.now) v }
{
    v = steps::format_step(v, bytes);
    v = steps::stereo_step(v, bytes);
    steps::lengthen_step(v, bytes)
}

// The record after the steps that come before the entries.
fn settle(mut v: Voice, bytes: &[u8; CONFIG_SIZE], coefficients: &[u8; COEFFICIENT_BYTES]) -> Voice
    requires { v.remaining ≤ v.length }
    ensures { result ≡ settled bytes.now coefficients.now v }
{
    v = play_steps(v, bytes);
    v = sound_steps(v, bytes, coefficients);
    last_steps(v, bytes)
}

// Clears the dirty word of a voice that is served, and the slot mask with it where BUFFER_QUEUE is set.
#[tactic(auto, unfolding(crate::specs::Parsed::slots_cleared, crate::specs::Parsed::cleared))]
fn clear_served(bytes: &mut [u8; CONFIG_SIZE])
    ensures { bytes.new ≡ cleared bytes.old }
{
    if flag(bytes, dirty::BUFFER_QUEUE) {
        write16(bytes, config::BUFFERS_DIRTY, 0);
    }
    write32(bytes, config::DIRTY, 0);
}

// Serves a voice's configuration whole, or refuses the voice before anything is changed.
pub fn configure(
    v: Voice,
    bytes: &mut [u8; CONFIG_SIZE],
    coefficients: &[u8; COEFFICIENT_BYTES],
    lane: usize,
) -> Result<Voice, Refusal>
    requires queue { v.queued ≤ limit }
    requires fits { v.remaining ≤ v.length }
    ensures number { number_of result ≡ (configured bytes.old coefficients.now v lane).number }
    ensures voice { result_unwrap_or result v ≡ (configured bytes.old coefficients.now v lane).voice }
    ensures bytes { bytes.new ≡ bytes_after bytes.old coefficients.now v lane }
{
    if read32(bytes, config::DIRTY) == 0 {
        return Ok(v);
    }
    let settled = settle(v, bytes, coefficients);
    let entries = to_add(bytes, settled.format, settled.stereo);
    accept_entries(settled.queued, entries.as_slice(), lane)?;
    clear_served(bytes);
    Ok(push_entries(settled, entries.as_slice()))
}
