// What a voice's frame sounds: playing, and then the filters.
ghost use Rattle.std.specs.Prelude.{◌≡◌, ◌++◌, ◌≤◌, ◌*◌, T, length, take, drop};
ghost use Rattle.numbers.specs.Sizes.{FRAME_SAMPLES};
ghost use Rattle.adpcm.specs.Sizes.{most_samples};
ghost use Rattle.filters.specs.Range.{filters_in_range};
ghost use Rattle.filters.specs.Process.{passed_from, filters_after};
ghost use Rattle.voice.specs.Malformed.{WellFormed};
ghost use Rattle.voice_frame.specs.VoiceFrame.{sounding, sounding_lane};

use filters::process::process;
use filters::state::Filters;
use numbers::sizes::FRAME;
use play::frame::play_frame;
use voice::record::Voice;
use window::Window;

// So many samples of a frame through the filters, which are left as they then are.
fn pass(filters: &mut Filters, frame: &mut [i16; FRAME], produced: usize)
    requires filters_in_range { T (filters_in_range filters.old) }
    requires within_frame { produced ≤ FRAME_SAMPLES }
    ensures frame { frame.new ≡ passed_from 0 filters.old (take (produced * 2) frame.old) ++ drop (produced * 2) frame.old }
    ensures filters { filters.new ≡ filters_after 0 filters.old (take (produced * 2) frame.old) }
{
    let end = produced * 2;
    process(filters, &mut frame[..end]);
}

// Plays an enabled voice's frame, and has what was produced filtered. A voice that is not enabled stays as it is.
// That the record is well-formed for the lane, and the lane's bound, are asked for and no facts of a type: they hold between a record and a
// lane of variable length, document 01's record may be malformed, and a ghost fact of a struct that holds a `&mut` is not covered.
pub fn sound(v: &mut Voice, window: Window<'_>, lane: &mut [i16])
    requires well_formed { WellFormed (length lane.old) v.old }
    requires short_lane { length lane.old ≤ most_samples }
    ensures record { v.new ≡ sounding window.entry.bytes.now window.entry.base v.old lane.old }
    ensures lane { lane.new ≡ sounding_lane window.entry.bytes.now window.entry.base v.old lane.old }
{
    if !v.enabled {
        return;
    }
    let played = play_frame(*v, window, lane);
    *v = played.voice;
    if v.filters.has_simple || v.filters.has_biquad {
        pass(&mut v.filters, &mut v.frame, played.produced);
    }
}
