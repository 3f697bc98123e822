// A configuration. The job: the lane's length, 32 bits, at most 65,536; a record; its configuration, 192 bytes; its coefficients, 32 bytes.
// The answer: the number and three zeros; the record and the configuration after it. A malformed record is answered 7, all else as it was.
use crate::written::write_answer;
use adpcm::MOST_SAMPLES;
use refusals::answered;
use replaying::answering::{Stop, read_bytes, read_word};
use voice_jobs::configuration::configure;

pub fn answer(rt: &HostRuntime) -> Result<(), Stop> {
    let lane = read_word(rt)? as usize;
    let mut record = read_bytes(rt)?;
    let mut configuration = read_bytes(rt)?;
    let coefficients = read_bytes(rt)?;
    if lane > MOST_SAMPLES {
        return Err(Stop::Over);
    }
    let outcome = configure(lane, &mut record, &mut configuration, &coefficients);
    write_answer(rt, answered(outcome), &record)?;
    Ok(rt.write_all(&configuration)?)
}
