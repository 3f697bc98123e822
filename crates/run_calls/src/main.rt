// Answers jobs for the oracle: whole calls, for all voices, of the mixer and for one voice alone. `jobs` tells a job's form and its
// answer's. Standard input holds jobs, one after the other, and what is answered goes to standard output; a bad job ends the program, and
// so does a read or a write that fails, with that error. stdin and stdout are a fixed list that oracle/record wrote.
#![tactic(auto)]

use jobs::{LANES, MIXES, RECORDS, REGION, WINDOW};
use parts::{Fields, MOST_RECORDS, MOST_SAMPLES, MOST_VALUES, Places};
use replaying::answering::answer_all;
use std::io;
use voice::record::Voice;

mod fault;
mod jobs;
mod mixer_calls;
mod parts;
mod voice_calls;

// The memory is made once and lent to every job: a job reads no more of it than it filled.
fn main(rt: HostRuntime) -> io::Result<()> {
    let mut records = [0u8; RECORDS];
    let mut first = [0u8; REGION];
    let mut second = [0u8; REGION];
    let mut window = [0u8; WINDOW];
    let mut lanes = [0u8; LANES];
    let mut mixes = [0u8; MIXES];
    let mut voices = [Voice::default(); MOST_RECORDS];
    let mut samples = [0i16; MOST_SAMPLES];
    let mut values = [0i32; MOST_VALUES];
    let mut room = Fields {
        records: &mut records,
        first: &mut first,
        second: &mut second,
        window: &mut window,
        lanes: &mut lanes,
        mixes: &mut mixes,
    };
    let mut places = Places {
        voices: &mut voices,
        samples: &mut samples,
        values: &mut values,
    };
    answer_all(|| jobs::answer(&rt, &mut room, &mut places))
}
