// What refuses a call as a whole.
ghost use Rattle.std.specs.List.{list_any};
ghost use Rattle.std.specs.Prelude.{◌≡◌, cond, length, ltb};
ghost use Rattle.refusals.specs.Numbers.{number_of};
ghost use Rattle.lists.specs.Some.{some};
ghost use Rattle.stems.specs.Call.{or_else, lengths_number};
ghost use Rattle.stems.specs.Memory.{lane_length};
ghost use Rattle.voice.specs.Malformed.{malformed};
ghost use Rattle.calls.specs.Begin.{lengths_of, lengths_code};

use crate::refused::VOICES;
use adpcm::MOST_SAMPLES;
use numbers::sizes::MIXES;
use refusals::Refusal;
use stems::Fixed;
use voice::malformed::malformed;
use voice::record::Voice;

// How much of each thing is lent to a call.
#[derive(Clone, Copy)]
pub struct Lengths {
    pub records: usize,
    pub region0: usize,
    pub region1: usize,
    pub window: usize,
    pub lanes: usize,
    pub mixes: usize,
}

// Refuses, by the lowest of 1 to 6 that applies, a call that is lent so much of each thing.
pub fn accept_lengths(fixed: Fixed, lent: Lengths) -> Result<(), Refusal>
    ensures { number_of result ≡ lengths_number fixed
        (lengths_of lent.records lent.region0 lent.region1 lent.window lent.lanes) lent.mixes }
{
    layout::accept(lent.region0, lent.region1, fixed.layout)?;
    window::accept(fixed.base, lent.window)?;
    let lane = lent.lanes / VOICES;
    if lent.records != VOICES || lent.lanes != VOICES * lane || lane > MOST_SAMPLES {
        return Err(Refusal::RecordsOrLanes);
    }
    if lent.mixes != MIXES {
        return Err(Refusal::MixLength);
    }
    Ok(())
}

// Refuses, by the same, a call that is lent all this. The six things are taken by reference one by one, as the calls are lent them.
pub fn accept_lent(
    fixed: Fixed,
    records: &[Voice],
    region0: &[u8],
    region1: &[u8],
    window: &[u8],
    lanes: &[i16],
    mixes: &[i32],
) -> Result<(), Refusal>
    ensures { number_of result ≡ lengths_code fixed (length records.now) (length region0.now) (length region1.now) (length window.now)
        (length lanes.now) (length mixes.now) }
{
    let lent = Lengths {
        records: records.len(),
        region0: region0.len(),
        region1: region1.len(),
        window: window.len(),
        lanes: lanes.len(),
        mixes: mixes.len(),
    };
    accept_lengths(fixed, lent)
}

// Whether one of these records is malformed, for a lane of so many samples.
fn any_malformed(records: &[Voice], lane: usize) -> bool
    ensures { result ≡ list_any (malformed lane) records.now }
{
    records.iter().any(|v| malformed(v, lane))
}

// Refuses, by 7, records of which one is malformed, for lanes of so many samples together.
pub fn accept_records(records: &[Voice], lanes: usize) -> Result<(), Refusal>
    ensures { number_of result ≡ cond (some (malformed (lane_length lanes)) records.now) 7 0 }
{
    if any_malformed(records, lanes / VOICES) {
        return Err(Refusal::Malformed);
    }
    Ok(())
}

// Refuses, by the lower of 7 and 10 that applies, records and the number of a voice.
pub fn accept_alone(records: &[Voice], lanes: usize, voice: usize) -> Result<(), Refusal>
    ensures { number_of result ≡ or_else (cond (some (malformed (lane_length lanes)) records.now) 7 0) (cond (ltb 23 voice) 10 0) }
{
    accept_records(records, lanes)?;
    if voice >= VOICES {
        return Err(Refusal::VoiceNumber);
    }
    Ok(())
}
