// A frame played.
use crate::filtering::filtered;
use filters::range::filters_in_range;
use numbers::sizes::FRAME_SAMPLES;
use play::frame::play_frame;
use record_reader::formed::{accept_lane, accept_record};
use record_reader::{RECORD, record_of};
use record_writer::put_record;
use refusals::Refusal;
use voice::record::Voice;
use voice::tidy::tidy;
use window::Window;

// Has the samples that were produced filtered, where a filter is on. A frame that played keeps filters and count in range.
fn hear(v: &mut Voice, produced: usize) {
    let f = v.filters;
    if (f.has_simple || f.has_biquad) && produced <= FRAME_SAMPLES && filters_in_range(&f) {
        let passed = filtered(v.frame, produced, f);
        let frame = passed.frame;
        v.frame = frame;
        v.filters = passed.filters;
    }
}

// Plays one frame. Refuses a lane of more than 65,536 samples, and a record that is malformed for the lane.
pub fn play(bytes: &mut [u8; RECORD], window: Window<'_>, lane: &mut [i16]) -> Result<(), Refusal> {
    accept_lane(lane.len())?;
    let given = record_of(bytes);
    accept_record(&given, lane.len())?;
    let mut played = play_frame(given, window, lane);
    hear(&mut played.voice, played.produced);
    tidy(&mut played.voice);
    put_record(&played.voice, bytes);
    Ok(())
}
