// The call for all voices. `tick` is lent the records, the two regions, the window, the lanes and the mixes, for any values and lengths,
// and is handed the layout and the window's base. It refuses as a whole with the lowest of 1 to 7, and then writes nothing. Else it chooses
// the region to be read, sets the mixes to 0 and gives each voice its turn; a voice that is refused, by 20 or 21, keeps what is its own,
// adds nothing and goes into the list that the call gives back.
#![tactic(auto)]

ghost use Rattle.std.specs.Prelude.{◌≡◌, ℕ, ◌<◌, length};
ghost use Rattle.numbers.specs.Sizes.{MIXES};
ghost use Rattle.stems.specs.Memory.{VOICES, lane_length};
ghost use Rattle.calls.specs.Begin.{Fitting, second_of};
ghost use Rattle.calls.specs.Lent.{lent};
ghost use Rattle.calls.specs.Refused.{refusals_of};
ghost use Rattle.turns.specs.Turns.{LongAt};
ghost use Rattle.voices.specs.Inner.{AllFormed, ticked};
ghost use Rattle.voices.specs.Tick.{Ensured};

use calls::begin::begin;
use calls::refusal::{accept_lent, accept_records};
use calls::refused::{Refused, VOICES};
use calls::voice_number::VoiceNumber;
use numbers::sizes::MIXES;
use refusals::Refusal;
use stems::Fixed;
use turns::serve_at;
use voice::record::Voice;

// Begins the call, and gives each voice its turn, voice 0 first, by its number and not over the slice: `turns` serves one of the slice for
// both calls. Memory is lent thing by thing, as `turns` takes it.
fn serve_all(
    voices: &mut [Voice],
    fixed: Fixed,
    region0: &mut [u8],
    region1: &mut [u8],
    window: &[u8],
    lanes: &mut [i16],
    mixes: &mut [i32; MIXES],
) -> Refused
    requires lent { length voices.old ≡ VOICES }
    requires formed { AllFormed (lane_length (length lanes.old)) voices.old }
    requires fitting { Fitting fixed (length region0.old) (length region1.old) (length window.now) (length lanes.old) MIXES }
    ensures refused { refusals_of result.items ≡ (ticked fixed window.now (second_of fixed region0.old region1.old) (length voices.old)
        voices.old region0.old region1.old lanes.old).refused }
    ensures voices { voices.new ≡ (ticked fixed window.now (second_of fixed region0.old region1.old) (length voices.old)
        voices.old region0.old region1.old lanes.old).voices }
    ensures region0 { region0.new ≡ (ticked fixed window.now (second_of fixed region0.old region1.old) (length voices.old)
        voices.old region0.old region1.old lanes.old).region0 }
    ensures region1 { region1.new ≡ (ticked fixed window.now (second_of fixed region0.old region1.old) (length voices.old)
        voices.old region0.old region1.old lanes.old).region1 }
    ensures lanes { lanes.new ≡ (ticked fixed window.now (second_of fixed region0.old region1.old) (length voices.old)
        voices.old region0.old region1.old lanes.old).lanes }
    ensures mixes { mixes.new ≡ (ticked fixed window.now (second_of fixed region0.old region1.old) (length voices.old)
        voices.old region0.old region1.old lanes.old).mixes }
    ensures long { (j : ℕ) → j < length voices.old → LongAt fixed window.now (second_of fixed region0.old region1.old) j
        (ticked fixed window.now (second_of fixed region0.old region1.old) j
        voices.old region0.old region1.old lanes.old) }
{
    let mut turn = begin(fixed, region0, region1, mixes);
    for i in 0..VOICES {
        let voice = VoiceNumber { number: i };
        let _ = serve_at(
            voices, voice, &mut turn, fixed, region0, region1, window, lanes, mixes,
        );
    }
    turn.refused
}

// Serves one frame of all voices. `fixed` is what every call of a run is handed alike.
pub fn tick(
    voices: &mut [Voice],
    fixed: Fixed,
    region0: &mut [u8],
    region1: &mut [u8],
    window: &[u8],
    lanes: &mut [i16],
    mixes: &mut [i32],
) -> Result<Refused, Refusal>
    ensures { Ensured fixed (lent region0.old region1.old window.now
        voices.old lanes.old mixes.old)
        result (lent region0.new region1.new window.now
        voices.new lanes.new mixes.new) }
{
    accept_lent(fixed, voices, region0, region1, window, lanes, mixes)?;
    accept_records(voices, lanes.len())?;
    let mixes = mixes.as_mut_array::<MIXES>().unwrap();
    Ok(serve_all(voices, fixed, region0, region1, window, lanes, mixes))
}
