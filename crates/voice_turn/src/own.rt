// A voice's frame in the parts of lent memory that are the voice's own.
ghost use Rattle.std.specs.Prelude.{◌≡◌, ◌+◌, ◌≤◌, true, false, length};
ghost use Rattle.std.specs.Result.{result_unwrap_or};
ghost use Rattle.refusals.specs.Numbers.{number_of as code};
ghost use Rattle.fields.specs.Fields.{configuration, status, total};
ghost use Rattle.adpcm.specs.Sizes.{most_samples};
ghost use Rattle.numbers.specs.Sizes.{MIXES};
ghost use Rattle.stems.specs.Memory.{lane_length};
ghost use Rattle.stems.specs.Inner.{LongAs};
ghost use Rattle.voice.specs.Malformed.{WellFormed};
ghost use Rattle.voice_frame.specs.VoiceFrame.{fed, voice_frame, number_of, voice_after, lane_after};
ghost use Rattle.voice_frame.specs.VoiceFrame.{configuration_after, status_after, mixes_after};
ghost use Rattle.voice_turn.specs.Turn.{Room, answer_to, region_by, lanes_with};

use calls::refused::VOICES;
use fields::config::CONFIG_SIZE;
use fields::status::STATUS_SIZE;
use little::part_at;
use numbers::sizes::MIXES;
use refusals::Refusal;
use settings::steps::COEFFICIENT_BYTES;
use stems::Fixed;
use voice::record::Voice;
use voice_frame::serve::serve;
use window::Window;

// Serves a voice's frame on its own parts, whose lengths are those of the arrays that a frame takes.
// That the record is well-formed for the lane, and the lane's bound, are asked for and no facts of a type: they hold between a record and a
// lane of variable length, document 01's record may be malformed, and a ghost fact of a struct that holds a `&mut` is not covered.
// Takes slices: where the lending function itself turns a part into an array, all it knows of the part at its return is the length.
fn serve_parts(
    v: Voice,
    lane: &mut [i16],
    bytes: &mut [u8],
    coefficients: &[u8; COEFFICIENT_BYTES],
    window: Window<'_>,
    mixes: &mut [i32; MIXES],
    report: &mut [u8],
) -> Result<Voice, Refusal>
    requires well_formed { WellFormed (length lane.old) v }
    requires short_lane { length lane.old ≤ most_samples }
    requires whole_configuration { length bytes.old ≡ total configuration }
    requires whole_status { length report.old ≡ total status }
    ensures number { code result ≡ number_of (voice_frame
        (fed v lane.old bytes.old coefficients.now window.entry.bytes.now window.entry.base)) }
    ensures record { result_unwrap_or result v ≡ voice_after (voice_frame
        (fed v lane.old bytes.old coefficients.now window.entry.bytes.now window.entry.base)) v }
    ensures lane { lane.new ≡ lane_after (voice_frame
        (fed v lane.old bytes.old coefficients.now window.entry.bytes.now window.entry.base)) lane.old }
    ensures configuration { bytes.new ≡ configuration_after (voice_frame
        (fed v lane.old bytes.old coefficients.now window.entry.bytes.now window.entry.base)) bytes.old }
    ensures mixes { mixes.new ≡ mixes_after (voice_frame
        (fed v lane.old bytes.old coefficients.now window.entry.bytes.now window.entry.base)) mixes.old }
    ensures status { report.new ≡ status_after (voice_frame
        (fed v lane.old bytes.old coefficients.now window.entry.bytes.now window.entry.base)) report.old }
{
    let bytes = bytes.as_mut_array::<CONFIG_SIZE>().unwrap();
    let report = report.as_mut_array::<STATUS_SIZE>().unwrap();
    serve(v, lane, bytes, coefficients, window, mixes, report)
}

// Serves voice i's frame, or refuses the voice, by the region that is read and the other one.
// The window's bytes come without their base, which is fixed over a run and stands in `Fixed`.
pub fn serve_in(
    v: Voice,
    i: usize,
    fixed: Fixed,
    read: &mut [u8],
    other: &mut [u8],
    window: &[u8],
    lanes: &mut [i16],
    mixes: &mut [i32; MIXES],
) -> Result<Voice, Refusal>
    requires well_formed { WellFormed (lane_length (length lanes.old)) v }
    requires room { Room fixed.layout i (length read.old) (length other.old) (length lanes.old) MIXES }
    ensures number { code result ≡ number_of (answer_to fixed false i v
        read.old other.old window.now lanes.old) }
    ensures record { result_unwrap_or result v ≡ voice_after (answer_to fixed false i v
        read.old other.old window.now lanes.old) v }
    ensures read { read.new ≡ region_by fixed.layout i (answer_to fixed false i v
        read.old other.old window.now lanes.old) true read.old }
    ensures other { other.new ≡ region_by fixed.layout i (answer_to fixed false i v
        read.old other.old window.now lanes.old) false other.old }
    ensures lanes { lanes.new ≡ lanes_with i (answer_to fixed false i v
        read.old other.old window.now lanes.old) lanes.old }
    ensures mixes { mixes.new ≡ mixes_after (answer_to fixed false i v
        read.old other.old window.now lanes.old) mixes.old }
    ensures long { LongAs (lane_length (length lanes.old)) (answer_to fixed false i v
        read.old other.old window.now lanes.old) }
{
    let l = fixed.layout;
    let place = l.coefficients as usize + COEFFICIENT_BYTES * i;
    let coefficients = *part_at(read, place);
    let start = l.configurations as usize + CONFIG_SIZE * i;
    let told = l.statuses as usize + STATUS_SIZE * i;
    let lane = lanes.len() / VOICES;
    let from = i * lane;
    let window = Window {
        bytes: window,
        base: fixed.base,
    };
    serve_parts(
        v,
        &mut lanes[from..from + lane],
        &mut read[start..start + CONFIG_SIZE],
        &coefficients,
        window,
        mixes,
        &mut other[told..told + STATUS_SIZE],
    )
}
