// Filters. The job: how many pairs of samples were produced, 32 bits, at most 160; a record. The answer: 1 and three zeros, and the record
// after those pairs of its frame went through its filters; where the filters are not in range, four zeros and the record as it was.
use crate::written::write_answer;
use numbers::sizes::FRAME_SAMPLES;
use replaying::answering::{Stop, read_bytes, read_word};

pub fn answer(rt: &HostRuntime) -> Result<(), Stop> {
    let count = read_word(rt)? as usize;
    let mut record = read_bytes(rt)?;
    if count > FRAME_SAMPLES {
        return Err(Stop::Over);
    }
    let served = voice_jobs::filtering::filter(count, &mut record);
    Ok(write_answer(rt, u8::from(served), &record)?)
}
