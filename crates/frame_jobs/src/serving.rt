// A voice served.
use fields::config::CONFIG_SIZE;
use fields::status::STATUS_SIZE;
use numbers::sizes::MIXES;
use record_reader::formed::{accept_lane, accept_record};
use record_reader::{RECORD, record_of};
use record_writer::put_record;
use refusals::Refusal;
use settings::steps::COEFFICIENT_BYTES;
use voice_frame::serve::serve as served;
use window::Window;

// Reads the record and writes it back as it is: what `serve` does besides serving.
pub fn reread(lane: usize, bytes: &mut [u8; RECORD]) -> Result<(), Refusal> {
    let v = record_of(bytes);
    accept_record(&v, lane)?;
    put_record(&v, bytes);
    Ok(())
}

// Serves one frame of a voice, and writes its record back, refused or not. Refuses itself a lane of more than 65,536 samples, and a record
// that is malformed for the lane.
pub fn serve(
    bytes: &mut [u8; RECORD],
    lane: &mut [i16],
    configuration: &mut [u8; CONFIG_SIZE],
    coefficients: &[u8; COEFFICIENT_BYTES],
    window: Window<'_>,
    mixes: &mut [i32; MIXES],
    report: &mut [u8; STATUS_SIZE],
) -> Result<(), Refusal> {
    accept_lane(lane.len())?;
    let v = record_of(bytes);
    accept_record(&v, lane.len())?;
    let after = served(v, lane, configuration, coefficients, window, mixes, report);
    put_record(&after.unwrap_or(v), bytes);
    after.map(|_| ())
}
