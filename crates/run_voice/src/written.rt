// How answers begin.
use record_reader::RECORD;
use std::io;

// A number and three zeros, and the record.
pub fn write_answer(rt: &HostRuntime, number: u8, record: &[u8; RECORD]) -> io::Result<()> {
    rt.write_all(&[number, 0, 0, 0])?;
    rt.write_all(record)
}
