// A frame to be served. The job: the window's base, 32 bits; the number that every mix value begins with, 32 bits and signed; the lane, 64
// samples, signed and 16 bits each; the window, 512 bytes; the coefficients, 32 bytes; a record; its configuration, 192 bytes. The status
// begins with 255 in each of its 12 bytes. The answer: the number and three zeros; the record, the configuration and the status after the
// frame; the lane; a sum of the mixes in which every value and its place count, 32 bits. What is refused stands there as it was.
use crate::written::write_answer;
use fields::status::STATUS_SIZE;
use frame_jobs::serving::serve;
use numbers::sizes::MIXES;
use refusals::answered;
use replaying::answering::{Stop, read_bytes, read_word};
use replaying::held::{put_each, read_array};
use replaying::sum_of;
use window::Window;

const LANE: usize = 64;

const LANE_BYTES: usize = LANE * 2;

const WINDOW: usize = 512;

pub fn answer(rt: &HostRuntime) -> Result<(), Stop> {
    let base = read_word(rt)?;
    let first = read_word(rt)?.cast_signed();
    let mut samples = read_bytes::<LANE_BYTES>(rt)?;
    let mut lane: [i16; LANE] = read_array(&samples);
    let bytes = read_bytes::<WINDOW>(rt)?;
    let coefficients = read_bytes(rt)?;
    let mut record = read_bytes(rt)?;
    let mut configuration = read_bytes(rt)?;
    let mut status = [255u8; STATUS_SIZE];
    let mut mixes = [first; MIXES];
    let outcome = serve(
        &mut record,
        &mut lane,
        &mut configuration,
        &coefficients,
        Window {
            bytes: &bytes,
            base,
        },
        &mut mixes,
        &mut status,
    );
    write_answer(rt, answered(outcome), &record)?;
    rt.write_all(&configuration)?;
    rt.write_all(&status)?;
    put_each(&lane, &mut samples);
    rt.write_all(&samples)?;
    Ok(rt.write_all(&sum_of(&mixes, i32::cast_unsigned).to_le_bytes())?)
}
