// The mixer's call.
use crate::jobs::ANSWER;
use crate::parts::{Fields, filled};
use layout::Layout;
use mixer::tick::{Mixed, tick};
use mixer_forms::{put_frame, put_state};
use mixer_state::Mixer;
use refusals::answered;

// So many times, once at least, each on what the one before left.
fn repeat(
    times: u32,
    state: Mixer,
    l: Layout,
    read: u32,
    first: &mut [u8],
    second: &mut [u8],
    mixes: &[i32],
) -> Mixed {
    let mut mixed = tick(state, l, read, first, second, mixes);
    for _ in 1..times {
        mixed = tick(mixed.mixer, l, read, first, second, mixes);
    }
    mixed
}

// The number, the state and the frame.
fn start_of(mixed: Mixed) -> [u8; ANSWER] {
    let mut start = [0u8; ANSWER];
    start[0] = answered(mixed.outcome);
    put_state(mixed.mixer, &mut start, 52);
    put_frame(&mixed.frame, &mut start, 68);
    start
}

// The mixes are only read. What is lent beside the fields is places for their values.
pub fn call(
    times: u32,
    state: Mixer,
    l: Layout,
    read: u32,
    fields: &mut Fields<'_>,
    values: &mut [i32],
) -> [u8; ANSWER] {
    let mixes = filled(fields.mixes, values);
    start_of(repeat(times, state, l, read, fields.first, fields.second, mixes))
}
