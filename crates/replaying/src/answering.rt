// How a program answers jobs that its standard input holds, one after the other.
use std::io;
use std::io::{ErrorKind, Read};

// Why no further job is answered.
#[derive(Debug, Drop)]
pub enum Stop {
    // the input ends, or a job has not the form
    Over,
    // a read or a write failed
    Failed(io::Error),
}

impl From<io::Error> for Stop {
    fn from(error: io::Error) -> Stop {
        Stop::Failed(error)
    }
}

// Reads as many bytes as the buffer has.
pub fn read_all(rt: &HostRuntime, buffer: &mut [u8]) -> Result<(), Stop> {
    match rt.stdin().read_exact(buffer) {
        Err(e) if e.kind() == ErrorKind::UnexpectedEof => Err(Stop::Over),
        outcome => Ok(outcome?),
    }
}

// Reads so many bytes.
pub fn read_bytes<const N: usize>(rt: &HostRuntime) -> Result<[u8; N], Stop> {
    let mut bytes = [0; N];
    read_all(rt, &mut bytes)?;
    Ok(bytes)
}

// Reads a word, little-endian.
pub fn read_word(rt: &HostRuntime) -> Result<u32, Stop> {
    Ok(u32::from_le_bytes(read_bytes(rt)?))
}

// Answers jobs until one says to stop. Nothing says that the input ends, so the turns are counted.
pub fn answer_all<F: FnMut() -> Result<(), Stop>>(mut answer: F) -> io::Result<()>
    requires { F.IsAlwaysCallable answer }
{
    for _ in 0..u64::MAX {
        match answer() {
            Ok(()) => {}
            Err(Stop::Over) => return Ok(()),
            Err(Stop::Failed(error)) => return Err(error),
        }
    }
    Ok(())
}
