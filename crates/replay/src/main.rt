// Replays a fixed list of the oracle's answers. Standard input holds jobs: a word that says a kind, a word that says how many bytes follow,
// and these bytes, the job's part. The crate jobs says what the kinds are and what their parts; the answer to each goes out. A part longer
// than 37,494 bytes, or one that has no answer, ends the program, and so does a read or a write that fails, with that error. oracle/record
// wrote the list.
#![tactic(auto)]

use jobs::sizes::{LONGEST_PART, ROOM};
use replaying::answering::{Stop, answer_all, read_all, read_word};
use std::io;

// Answers one job.
fn job(rt: &HostRuntime) -> Result<(), Stop> {
    let kind = read_word(rt)?;
    let size = read_word(rt)? as usize;
    let mut space = [0u8; LONGEST_PART];
    let part = space.get_mut(..size).ok_or(Stop::Over)?;
    read_all(rt, part)?;
    let mut room = [0u8; ROOM];
    let answer = jobs::answer(kind, part, &mut room).ok_or(Stop::Over)?;
    Ok(rt.write_all(answer)?)
}

fn main(rt: HostRuntime) -> io::Result<()> {
    answer_all(|| job(&rt))
}
