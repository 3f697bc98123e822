// A configuration read into the record.
use config::parse::configure as configured;
use fields::config::CONFIG_SIZE;
use record_reader::formed::accept_record;
use record_reader::{RECORD, record_of};
use record_writer::put_record;
use refusals::Refusal;
use settings::steps::COEFFICIENT_BYTES;
use voice::tidy::tidy;

// Reads the record and writes it back as serving leaves it: what `configure` does besides configuring.
pub fn record(lane: usize, bytes: &mut [u8; RECORD]) -> Result<(), Refusal> {
    let mut v = record_of(bytes);
    accept_record(&v, lane)?;
    tidy(&mut v);
    put_record(&v, bytes);
    Ok(())
}

// Serves a voice's configuration. Of a record that is served, what is off or past the count is blank after it; one that is refused is
// untouched, and written back as it was read.
pub fn configure(
    lane: usize,
    bytes: &mut [u8; RECORD],
    configuration: &mut [u8; CONFIG_SIZE],
    coefficients: &[u8; COEFFICIENT_BYTES],
) -> Result<(), Refusal> {
    let v = record_of(bytes);
    accept_record(&v, lane)?;
    match configured(v, configuration, coefficients, lane) {
        Ok(mut after) => {
            tidy(&mut after);
            put_record(&after, bytes);
            Ok(())
        }
        Err(refusal) => {
            put_record(&v, bytes);
            Err(refusal)
        }
    }
}
