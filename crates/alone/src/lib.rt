// The call for one voice alone, by its number. `tick_voice` is lent and handed what the call for all voices is, for any values and lengths.
// It refuses as a whole with the lowest of 1 to 7 and 10, and then writes nothing: 7 for any voice's record, 10 for a number over 23. Else
// it chooses the region to be read, sets the mixes to 0 and gives that voice its turn: the mixes then hold what it adds. A voice that is
// refused, by 20 or 21, keeps what is its own, adds nothing, and is the list that the call gives back. What is another voice's stays.
#![tactic(auto)]

ghost use Rattle.std.specs.Prelude.{◌≡◌, ◌<◌, length, get_or};
ghost use Rattle.numbers.specs.Sizes.{MIXES};
ghost use Rattle.stems.specs.Memory.{lane_length};
ghost use Rattle.voice.specs.Blank.{default_voice};
ghost use Rattle.voice.specs.Malformed.{WellFormed};
ghost use Rattle.calls.specs.Begin.{Fitting, second_of};
ghost use Rattle.calls.specs.Lent.{lent};
ghost use Rattle.calls.specs.Refused.{refusals_of};
ghost use Rattle.alone.specs.Inner.{ticked};
ghost use Rattle.alone.specs.TickVoice.{Ensured};

use calls::begin::begin;
use calls::refusal::{accept_alone, accept_lent};
use calls::refused::Refused;
use calls::voice_number::VoiceNumber;
use numbers::sizes::MIXES;
use refusals::Refusal;
use stems::Fixed;
use turns::serve_at;
use voice::record::Voice;

// Begins the call, and gives this voice its turn. Memory is lent thing by thing, as `turns` takes it.
fn serve_alone(
    voices: &mut [Voice],
    voice: VoiceNumber,
    fixed: Fixed,
    region0: &mut [u8],
    region1: &mut [u8],
    window: &[u8],
    lanes: &mut [i16],
    mixes: &mut [i32; MIXES],
) -> Refused
    requires lent { voice.number < length voices.old }
    requires well_formed { WellFormed (lane_length (length lanes.old)) (get_or voices.old voice.number default_voice) }
    requires fitting { Fitting fixed (length region0.old) (length region1.old) (length window.now) (length lanes.old) MIXES }
    ensures refused { refusals_of result.items ≡ (ticked fixed window.now (second_of fixed region0.old region1.old) voice.number
        voices.old region0.old region1.old lanes.old).refused }
    ensures voices { voices.new ≡ (ticked fixed window.now (second_of fixed region0.old region1.old) voice.number
        voices.old region0.old region1.old lanes.old).voices }
    ensures region0 { region0.new ≡ (ticked fixed window.now (second_of fixed region0.old region1.old) voice.number
        voices.old region0.old region1.old lanes.old).region0 }
    ensures region1 { region1.new ≡ (ticked fixed window.now (second_of fixed region0.old region1.old) voice.number
        voices.old region0.old region1.old lanes.old).region1 }
    ensures lanes { lanes.new ≡ (ticked fixed window.now (second_of fixed region0.old region1.old) voice.number
        voices.old region0.old region1.old lanes.old).lanes }
    ensures mixes { mixes.new ≡ (ticked fixed window.now (second_of fixed region0.old region1.old) voice.number
        voices.old region0.old region1.old lanes.old).mixes }
{
    let mut turn = begin(fixed, region0, region1, mixes);
    let _ = serve_at(
        voices, voice, &mut turn, fixed, region0, region1, window, lanes, mixes,
    );
    turn.refused
}

// Serves one frame of one voice. `fixed` is what every call of a run is handed alike.
pub fn tick_voice(
    voices: &mut [Voice],
    voice: usize,
    fixed: Fixed,
    region0: &mut [u8],
    region1: &mut [u8],
    window: &[u8],
    lanes: &mut [i16],
    mixes: &mut [i32],
) -> Result<Refused, Refusal>
    ensures { Ensured fixed voice (lent region0.old region1.old window.now
        voices.old lanes.old mixes.old)
        result (lent region0.new region1.new window.now
        voices.new lanes.new mixes.new) }
{
    accept_lent(fixed, voices, region0, region1, window, lanes, mixes)?;
    accept_alone(voices, lanes.len(), voice)?;
    let voice = VoiceNumber { number: voice };
    let mixes = mixes.as_mut_array::<MIXES>().unwrap();
    Ok(serve_alone(voices, voice, fixed, region0, region1, window, lanes, mixes))
}
