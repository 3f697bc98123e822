// One record by value.
ghost use Rattle.std.specs.Prelude.{◌≡◌, ◌≤◌, length};
ghost use Rattle.std.specs.Result.{result_unwrap_or};
ghost use Rattle.refusals.specs.Numbers as Numbers;
ghost use Rattle.adpcm.specs.Sizes.{most_samples};
ghost use Rattle.voice.specs.Blank.{limit};
ghost use Rattle.voice.specs.Malformed.{WellFormed};
ghost use Rattle.config.specs.Parsed.{configured, bytes_after};
ghost use Rattle.status.specs.Status.{status_of};
ghost use Rattle.voice_frame.specs.VoiceFrame.{sounding, sounding_lane, parts_of, mixed_with};
ghost use Rattle.voice_frame.specs.VoiceFrame.{left, fed, voice_frame, number_of, voice_after, lane_after};
ghost use Rattle.voice_frame.specs.VoiceFrame.{configuration_after, status_after, mixes_after};

use crate::mixes::mix_into;
use crate::sound::sound;
use config::parse::configure;
use fields::config::{CONFIG_SIZE, DIRTY};
use fields::status::STATUS_SIZE;
use numbers::sizes::{MIX_COUNT, MIXES};
use refusals::Refusal;
use settings::steps::COEFFICIENT_BYTES;
use status::write_status;
use voice::record::Voice;
use voice::tidy::tidy;
use window::Window;

// The record as a served frame leaves it.
fn leave(v: &mut Voice)
    ensures { v.new ≡ left v.old }
{
    v.has_ramp = [false; MIX_COUNT];
    v.buffer_update = false;
    tidy(v);
}

// The record as its configuration settles it, or the refusal. A function of its own, so that a record for which nothing is new is not
// copied.
fn settle(
    v: &mut Voice,
    bytes: &mut [u8; CONFIG_SIZE],
    coefficients: &[u8; COEFFICIENT_BYTES],
    lane: usize,
) -> Result<(), Refusal>
    requires queue { v.old.queued ≤ limit }
    requires fits { v.old.remaining ≤ v.old.length }
    ensures number { Numbers.number_of result ≡ (configured bytes.old coefficients.now v.old lane).number }
    ensures record { v.new ≡ (configured bytes.old coefficients.now v.old lane).voice }
    ensures bytes { bytes.new ≡ bytes_after bytes.old coefficients.now v.old lane }
{
    *v = configure(*v, bytes, coefficients, lane)?;
    Ok(())
}

// Plays, mixes, reports and leaves a record that its configuration has settled.
// That the record is well-formed for the lane, and the lane's bound, are asked for and no facts of a type: they hold between a record and a
// lane of variable length, document 01's record may be malformed, and a ghost fact of a struct that holds a `&mut` is not covered.
fn frame_of(
    v: &mut Voice,
    lane: &mut [i16],
    window: Window<'_>,
    mixes: &mut [i32; MIXES],
    report: &mut [u8; STATUS_SIZE],
)
    requires well_formed { WellFormed (length lane.old) v.old }
    requires short_lane { length lane.old ≤ most_samples }
    ensures record { v.new ≡ left (sounding window.entry.bytes.now window.entry.base v.old lane.old) }
    ensures lane { lane.new ≡ sounding_lane window.entry.bytes.now window.entry.base v.old lane.old }
    ensures mixes { mixes.new
        ≡ mixed_with (parts_of (sounding window.entry.bytes.now window.entry.base v.old lane.old)) mixes.old }
    ensures status { report.new ≡ status_of (sounding window.entry.bytes.now window.entry.base v.old lane.old) }
{
    sound(v, window, lane);
    mix_into(v, mixes);
    write_status(v, report);
    leave(v);
}

// Serves a voice's frame, or refuses the voice before anything is changed. Document 01 has one record served by value, and its parts lent
// one by one.
pub fn serve(
    mut v: Voice,
    lane: &mut [i16],
    bytes: &mut [u8; CONFIG_SIZE],
    coefficients: &[u8; COEFFICIENT_BYTES],
    window: Window<'_>,
    mixes: &mut [i32; MIXES],
    report: &mut [u8; STATUS_SIZE],
) -> Result<Voice, Refusal>
    requires well_formed { WellFormed (length lane.old) v }
    requires short_lane { length lane.old ≤ most_samples }
    ensures number { Numbers.number_of result ≡ number_of (voice_frame
        (fed v lane.old bytes.old coefficients.now window.entry.bytes.now window.entry.base)) }
    ensures record { result_unwrap_or result v ≡ voice_after (voice_frame
        (fed v lane.old bytes.old coefficients.now window.entry.bytes.now window.entry.base)) v }
    ensures lane { lane.new ≡ lane_after (voice_frame
        (fed v lane.old bytes.old coefficients.now window.entry.bytes.now window.entry.base)) lane.old }
    ensures configuration { bytes.new ≡ configuration_after (voice_frame
        (fed v lane.old bytes.old coefficients.now window.entry.bytes.now window.entry.base)) bytes.old }
    ensures mixes { mixes.new ≡ mixes_after (voice_frame
        (fed v lane.old bytes.old coefficients.now window.entry.bytes.now window.entry.base)) mixes.old }
    ensures status { report.new ≡ status_after (voice_frame
        (fed v lane.old bytes.old coefficients.now window.entry.bytes.now window.entry.base)) report.old }
{
    if little::read32(bytes, DIRTY) != 0 {
        settle(&mut v, bytes, coefficients, lane.len())?;
    }
    frame_of(&mut v, lane, window, mixes, report);
    Ok(v)
}
