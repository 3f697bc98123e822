// One voice's turn in a call.
ghost use Rattle.std.specs.Prelude.{◌≡◌, ◌+◌, ◌≤◌, length};
ghost use Rattle.std.specs.Result.{result_unwrap_or};
ghost use Rattle.refusals.specs.Numbers.{number_of as code};
ghost use Rattle.calls.specs.Begin.{Fitting, is_second};
ghost use Rattle.calls.specs.Refused.{refusals_of, refused_after};
ghost use Rattle.numbers.specs.Sizes.{MIXES};
ghost use Rattle.stems.specs.Memory.{lane_length};
ghost use Rattle.stems.specs.Inner.{LongAs};
ghost use Rattle.voice.specs.Malformed.{WellFormed};
ghost use Rattle.voice_frame.specs.VoiceFrame.{number_of};
ghost use Rattle.voice_turn.specs.Turn.{answer_to, record_by, region0_by, region1_by, lanes_by, mixes_by};

use crate::own::serve_in;
use calls::begin::Turn;
use calls::refused::note;
use calls::voice_number::VoiceNumber;
use numbers::sizes::MIXES;
use refusals::Refusal;
use region::Region;
use stems::Fixed;
use voice::record::Voice;

// Serves voice i's frame, or refuses the voice, by the region that is read.
// That the record is well-formed for its lane is asked for and no fact of a type, which could not hold the lent lanes beside the record.
// Memory is lent thing by thing: a struct of `&mut` would need in each contract, beside what each thing becomes, that it is the same loan.
// The window's bytes come without their base, which is fixed over a run and stands in `Fixed`.
fn serve_by(
    v: Voice,
    i: VoiceNumber,
    read: Region,
    fixed: Fixed,
    region0: &mut [u8],
    region1: &mut [u8],
    window: &[u8],
    lanes: &mut [i16],
    mixes: &mut [i32; MIXES],
) -> Result<Voice, Refusal>
    requires well_formed { WellFormed (lane_length (length lanes.old)) v }
    requires fitting { Fitting fixed (length region0.old) (length region1.old) (length window.now) (length lanes.old) MIXES }
    ensures number { code result ≡ number_of (answer_to fixed (is_second read) i.number v
        region0.old region1.old window.now lanes.old) }
    ensures record { result_unwrap_or result v ≡ record_by v i.number (is_second read) fixed
        region0.old region1.old window.now lanes.old mixes.old }
    ensures region0 { region0.new ≡ region0_by v i.number (is_second read) fixed
        region0.old region1.old window.now lanes.old mixes.old }
    ensures region1 { region1.new ≡ region1_by v i.number (is_second read) fixed
        region0.old region1.old window.now lanes.old mixes.old }
    ensures lanes { lanes.new ≡ lanes_by v i.number (is_second read) fixed
        region0.old region1.old window.now lanes.old mixes.old }
    ensures mixes { mixes.new ≡ mixes_by v i.number (is_second read) fixed
        region0.old region1.old window.now lanes.old mixes.old }
    ensures long { LongAs (lane_length (length lanes.old)) (answer_to fixed (is_second read) i.number v
        region0.old region1.old window.now lanes.old) }
{
    match read {
        Region::Zero => serve_in(v, i.number, fixed, region0, region1, window, lanes, mixes),
        Region::One => serve_in(v, i.number, fixed, region1, region0, window, lanes, mixes),
    }
}

// Takes voice i's turn: its frame is served or refused in lent memory, and a refused voice is noted behind those before it. The window's
// bytes come without their base as in `serve_by`.
pub fn take_turn(
    v: &mut Voice,
    i: VoiceNumber,
    turn: &mut Turn,
    fixed: Fixed,
    region0: &mut [u8],
    region1: &mut [u8],
    window: &[u8],
    lanes: &mut [i16],
    mixes: &mut [i32; MIXES],
) -> Result<(), Refusal>
    requires well_formed { WellFormed (lane_length (length lanes.old)) v.old }
    requires fitting { Fitting fixed (length region0.old) (length region1.old) (length window.now) (length lanes.old) MIXES }
    requires few { length turn.old.refused.items ≤ i.number }
    ensures number { code result ≡ number_of (answer_to fixed (is_second turn.old.read) i.number v.old
        region0.old region1.old window.now lanes.old) }
    ensures record { v.new ≡ record_by v.old i.number (is_second turn.old.read) fixed
        region0.old region1.old window.now lanes.old mixes.old }
    ensures region0 { region0.new ≡ region0_by v.old i.number (is_second turn.old.read) fixed
        region0.old region1.old window.now lanes.old mixes.old }
    ensures region1 { region1.new ≡ region1_by v.old i.number (is_second turn.old.read) fixed
        region0.old region1.old window.now lanes.old mixes.old }
    ensures lanes { lanes.new ≡ lanes_by v.old i.number (is_second turn.old.read) fixed
        region0.old region1.old window.now lanes.old mixes.old }
    ensures mixes { mixes.new ≡ mixes_by v.old i.number (is_second turn.old.read) fixed
        region0.old region1.old window.now lanes.old mixes.old }
    ensures long { LongAs (lane_length (length lanes.old)) (answer_to fixed (is_second turn.old.read) i.number v.old
        region0.old region1.old window.now lanes.old) }
    ensures read { turn.new.read ≡ turn.old.read }
    ensures refused { refusals_of turn.new.refused.items
        ≡ refused_after i.number (code result) (refusals_of turn.old.refused.items) }
    ensures one_more { length turn.new.refused.items ≤ length turn.old.refused.items + 1 }
{
    let outcome = match serve_by(
        *v, i, turn.read, fixed, region0, region1, window, lanes, mixes,
    ) {
        Ok(record) => {
            *v = record;
            Ok(())
        }
        Err(refusal) => Err(refusal),
    };
    note(&mut turn.refused, i, outcome);
    outcome
}
