// The record that bytes hold, where it is not malformed. A record in a `Result` is copied whole on its way, so a caller that counts what it
// copies reads the record (`record_of`) and has it tested where it lies.
ghost use Rattle.std.specs.Prelude.{◌≡◌, ◌≤◌, IfOk, cond, ltb};
ghost use Rattle.refusals.specs.Numbers.{number_of};
ghost use Rattle.adpcm.specs.Sizes.{most_samples};
ghost use Rattle.voice.specs.Malformed.{WellFormed, malformed};

use crate::{RECORD, record_of};
use adpcm::MOST_SAMPLES;
use refusals::Refusal;
use voice::malformed::malformed;
use voice::record::Voice;

// Refuses a lane of more samples than calls take.
pub fn accept_lane(lane: usize) -> Result<(), Refusal>
    ensures number { number_of result ≡ cond (ltb most_samples lane) 5 0 }
    ensures short { IfOk result (λ _. lane ≤ most_samples) }
{
    if lane > MOST_SAMPLES {
        return Err(Refusal::RecordsOrLanes);
    }
    Ok(())
}

// Refuses a record that is malformed for a lane of so many samples.
pub fn accept_record(v: &Voice, lane: usize) -> Result<(), Refusal>
    ensures number { number_of result ≡ cond (malformed lane v.now) 7 0 }
    ensures formed { IfOk result (λ _. WellFormed lane v.now) }
{
    if malformed(v, lane) {
        return Err(Refusal::Malformed);
    }
    Ok(())
}

// The record, for a lane of so many samples.
pub fn formed_record(bytes: &[u8; RECORD], lane: usize) -> Result<Voice, Refusal>
    ensures { IfOk result (λ v. WellFormed lane v) }
{
    let v = record_of(bytes);
    accept_record(&v, lane)?;
    Ok(v)
}

// The same, and a longer lane than calls take is refused first.
pub fn served_record(bytes: &[u8; RECORD], lane: usize) -> Result<Voice, Refusal>
    ensures { IfOk result (λ v. WellFormed lane v × (lane ≤ most_samples)) }
{
    accept_lane(lane)?;
    formed_record(bytes, lane)
}
