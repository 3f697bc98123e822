// A voice's turn over the lent slice of records, what both calls for voices do: the record is served where it lies. It relies on what the
// calls have tested.
#![tactic(auto)]

ghost use Rattle.std.specs.Prelude.{◌≡◌, ◌+◌, ◌<◌, ◌≤◌, length, set, get_or};
ghost use Rattle.refusals.specs.Numbers.{number_of as code};
ghost use Rattle.numbers.specs.Sizes.{MIXES};
ghost use Rattle.stems.specs.Memory.{lane_length};
ghost use Rattle.stems.specs.Inner.{LongAs};
ghost use Rattle.voice.specs.Blank.{default_voice};
ghost use Rattle.voice.specs.Malformed.{WellFormed};
ghost use Rattle.voice_frame.specs.VoiceFrame.{number_of};
ghost use Rattle.calls.specs.Begin.{Fitting, is_second};
ghost use Rattle.calls.specs.Refused.{refusals_of, refused_after};
ghost use Rattle.voice_turn.specs.Turn.{answer_to, record_by, region0_by, region1_by, lanes_by, mixes_by};

use calls::begin::Turn;
use calls::voice_number::VoiceNumber;
use numbers::sizes::MIXES;
use refusals::Refusal;
use stems::Fixed;
use voice::record::Voice;
use voice_turn::turn::take_turn;

// Gives voice i its turn, by the region that is read: it is served, or refused, left as it was and noted behind those before it.
// That the record is well-formed for its lane is asked for and no fact of a type, which could not hold the lent lanes beside the record.
// Memory is lent thing by thing: a struct of `&mut` would need in each contract, beside what each thing becomes, that it is the same loan.
pub fn serve_at(
    voices: &mut [Voice],
    i: VoiceNumber,
    turn: &mut Turn,
    fixed: Fixed,
    region0: &mut [u8],
    region1: &mut [u8],
    window: &[u8],
    lanes: &mut [i16],
    mixes: &mut [i32; MIXES],
) -> Result<(), Refusal>
    requires lent { i.number < length voices.old }
    requires well_formed { WellFormed (lane_length (length lanes.old)) (get_or voices.old i.number default_voice) }
    requires fitting { Fitting fixed (length region0.old) (length region1.old) (length window.now) (length lanes.old) MIXES }
    requires few { length turn.old.refused.items ≤ i.number }
    ensures number { code result ≡ number_of (answer_to fixed (is_second turn.old.read) i.number (get_or voices.old i.number default_voice)
        region0.old region1.old window.now lanes.old) }
    ensures voices { voices.new ≡ set voices.old i.number (record_by (get_or voices.old i.number default_voice) i.number
        (is_second turn.old.read) fixed region0.old region1.old window.now lanes.old mixes.old) }
    ensures region0 { region0.new ≡ region0_by (get_or voices.old i.number default_voice) i.number (is_second turn.old.read) fixed
        region0.old region1.old window.now lanes.old mixes.old }
    ensures region1 { region1.new ≡ region1_by (get_or voices.old i.number default_voice) i.number (is_second turn.old.read) fixed
        region0.old region1.old window.now lanes.old mixes.old }
    ensures lanes { lanes.new ≡ lanes_by (get_or voices.old i.number default_voice) i.number (is_second turn.old.read) fixed
        region0.old region1.old window.now lanes.old mixes.old }
    ensures mixes { mixes.new ≡ mixes_by (get_or voices.old i.number default_voice) i.number (is_second turn.old.read) fixed
        region0.old region1.old window.now lanes.old mixes.old }
    ensures long { LongAs (lane_length (length lanes.old)) (answer_to fixed (is_second turn.old.read) i.number
        (get_or voices.old i.number default_voice) region0.old region1.old window.now lanes.old) }
    ensures read { turn.new.read ≡ turn.old.read }
    ensures refused { refusals_of turn.new.refused.items
        ≡ refused_after i.number (code result) (refusals_of turn.old.refused.items) }
    ensures one_more { length turn.new.refused.items ≤ length turn.old.refused.items + 1 }
{
    take_turn(
        &mut voices[i.number],
        i,
        turn,
        fixed,
        region0,
        region1,
        window,
        lanes,
        mixes,
    )
}
