// Answers jobs on a voice for the oracle. Standard input holds jobs, one after the other. A job begins with a word, 32 bits, that says its
// kind. What follows, and the answer that goes to standard output, is told at the heads of `configuration`, `filtering`, `playing` and
// `serving`. Every number is little-endian, and a record stands in bytes as record_reader has them. A number that no kind has, a number
// that is out of bounds, and a job that is cut off end the program, and so does a read or a write that fails, with that error. stdin and
// stdout are a fixed list that oracle/record wrote.
#![tactic(auto)]

mod configuration;
mod filtering;
mod playing;
mod serving;
mod written;

use replaying::answering::{Stop, answer_all, read_word};
use std::io;

// What a job asks for.
#[derive(Clone, Copy)]
enum Kind {
    Configuration = 0,
    Filters = 1,
    Played = 2,
    Served = 3,
}

impl TryFrom<u32> for Kind {
    type Error = Stop;

    fn try_from(number: u32) -> Result<Kind, Stop> {
        match number {
            0 => Ok(Kind::Configuration),
            1 => Ok(Kind::Filters),
            2 => Ok(Kind::Played),
            3 => Ok(Kind::Served),
            _ => Err(Stop::Over),
        }
    }
}

// Answers one job.
fn answer(rt: &HostRuntime) -> Result<(), Stop> {
    match Kind::try_from(read_word(rt)?)? {
        Kind::Configuration => configuration::answer(rt),
        Kind::Filters => filtering::answer(rt),
        Kind::Played => playing::answer(rt),
        Kind::Served => serving::answer(rt),
    }
}

fn main(rt: HostRuntime) -> io::Result<()> {
    answer_all(|| answer(&rt))
}
