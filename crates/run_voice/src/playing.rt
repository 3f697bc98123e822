// A frame to be played. The job: the window's base and its length, 32 bits each, the length at most 65,536, and its bytes; the lane's
// length, 32 bits, at most 2,048, and its samples, signed and 16 bits each; a record. The answer: the number and three zeros, the record
// after the frame, and the lane. A malformed record is answered 7, all else as it was.
use crate::written::write_answer;
use refusals::answered;
use replaying::answering::{Stop, read_all, read_bytes, read_word};
use replaying::held::{put_each, read_each};
use voice_jobs::playing::play;
use window::Window;

const MOST_BYTES: usize = 65536;

const MOST_SAMPLES: usize = 2048;

const LANE_BYTES: usize = MOST_SAMPLES * 2;

// The rest of a job whose window was read.
fn over(rt: &HostRuntime, window: Window<'_>) -> Result<(), Stop> {
    let count = read_word(rt)? as usize;
    let mut space = [0i16; MOST_SAMPLES];
    let lane = space.get_mut(..count).ok_or(Stop::Over)?;
    let mut stored = [0u8; LANE_BYTES];
    let bytes = &mut stored[..lane.len() * 2];
    read_all(rt, bytes)?;
    read_each(bytes, lane);
    let mut record = read_bytes(rt)?;
    let outcome = play(&mut record, window, lane);
    put_each(lane, bytes);
    write_answer(rt, answered(outcome), &record)?;
    Ok(rt.write_all(bytes)?)
}

pub fn answer(rt: &HostRuntime) -> Result<(), Stop> {
    let base = read_word(rt)?;
    let count = read_word(rt)? as usize;
    let mut space = [0u8; MOST_BYTES];
    let bytes = space.get_mut(..count).ok_or(Stop::Over)?;
    read_all(rt, bytes)?;
    over(rt, Window { bytes, base })
}
