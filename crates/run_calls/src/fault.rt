// Why a job is not answered.
use replaying::answering::Stop;
use std::io;

// Why a job is bad.
#[derive(Clone, Copy)]
pub enum Reason {
    // the input ends within it
    EndsEarly = 1,
    NoKind = 2,
    NoTimes = 3,
    // too many records
    Records = 4,
    // too many bytes of region 0, of region 1, of the window
    First = 5,
    Second = 6,
    Window = 7,
    // too many samples
    Lanes = 8,
    // too many values
    Mixes = 9,
}

#[derive(Drop)]
pub enum Fault {
    Bad(Reason),
    // a read or a write failed
    Failed(io::Error),
}

impl From<Reason> for Fault {
    fn from(reason: Reason) -> Fault {
        Fault::Bad(reason)
    }
}

impl From<io::Error> for Fault {
    fn from(error: io::Error) -> Fault {
        Fault::Failed(error)
    }
}

// What stops a read within a job.
impl From<Stop> for Fault {
    fn from(stop: Stop) -> Fault {
        match stop {
            Stop::Over => Fault::Bad(Reason::EndsEarly),
            Stop::Failed(error) => Fault::Failed(error),
        }
    }
}
