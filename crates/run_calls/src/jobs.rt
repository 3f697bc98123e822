// Whole calls, for all voices, of the mixer and for one voice alone, as this program and the oracle hand them to each
// other. A job has all that a call is given and lent, and its answer all that the call gives back and leaves: nothing is kept from one job
// to the next. Numbers are little-endian, words have 32 bits, and a record stands in 2,456 bytes as record_reader has them. A job begins
// with 84 bytes:
//   0  the kind: 0 the call for all voices, 1 the mixer's, 2 the call for one voice alone
//   4  how many times the call is made, 1 or more, each time on what the time before left; the answer is the last one's
//   8  the layout's seven offsets, in document 01's order
//  36  the window's base, for the voices
//  40  the number of the region to be read, for the mixer; the number of the voice, for one alone
//  44  the mixer's state, 16 bytes, as mixer_forms has it
//  60  how many records there are, 25 at most
//  64  how many bytes region 0 and region 1 have, 65,537 at most, and how many the window, 65,536 at most
//  76  how many samples the lanes have, 49,153 at most (24 lanes of 2,048 and one more), and how many values the mixes, 1,921 at most
// Each is a word but for the state. Then follow the records, region 0, region 1, the window, the lanes (16 bits a sample) and the mixes (a
// word a value), each as much as the head says, which may be nothing: the mixer takes no record, window or lane, and leaves those that a
// job has. The answer begins with 708 bytes:
//   0  the number, how many voices were refused, two zeros
//   4  the refused voices in their order, two bytes each, the voice and its number; zeros up to 52
//  52  the mixer's state, 16 bytes, and its frame, 320 samples; zeros after a call for voices
// Then follow the records, region 0, region 1, the lanes and the mixes as the call left them, as long as they were. A job that has not the
// form is answered by two bytes, 255 and the reason, and ends the program: 1 the input ends within it, 2 there is no such kind, 3 no times,
// 4 to 9 too many records, bytes of region 0, of region 1 or of the window, samples, or values.
ghost use Rattle.std.specs.Prelude.{◌<◌, ◌≤◌, ◌^◌};

use crate::fault::{Fault, Reason};
use crate::parts::{Fields, MOST_RECORDS, MOST_SAMPLES, MOST_VALUES, Places};
use crate::{mixer_calls, voice_calls};
use mixer_forms::{layout_of, state_of};
use record_reader::RECORD;
use replaying::answering::{Stop, read_all, read_bytes};
use replaying::held::read;
use stems::Fixed;

const HEAD: usize = 84;

pub const ANSWER: usize = 708;

// The most bytes that a job has of each field.
pub const RECORDS: usize = MOST_RECORDS * RECORD;

pub const REGION: usize = 65537;

pub const WINDOW: usize = 65536;

pub const LANES: usize = MOST_SAMPLES * 2;

pub const MIXES: usize = MOST_VALUES * 4;

// What is called.
#[derive(Clone, Copy)]
enum Call {
    Whole,
    // the mixer, with the number of the region to be read
    Mixer(u32),
    // one voice alone, with its number
    Alone(usize),
}

// The word of the head at a place.
fn word(head: &[u8; HEAD], at: usize) -> u32
    requires { at ≤ 84 }
{
    read(&head[at..])
}

fn size(head: &[u8; HEAD], at: usize) -> usize
    requires { at ≤ 84 }
    ensures { result < 2 ^ 32 }
{
    word(head, at) as usize
}

fn call_of(head: &[u8; HEAD]) -> Result<Call, Reason> {
    match word(head, 0) {
        0 => Ok(Call::Whole),
        1 => Ok(Call::Mixer(word(head, 40))),
        2 => Ok(Call::Alone(size(head, 40))),
        _ => Err(Reason::NoKind),
    }
}

// How many times the call is made.
fn times_of(head: &[u8; HEAD]) -> Result<u32, Reason> {
    match word(head, 4) {
        0 => Err(Reason::NoTimes),
        times => Ok(times),
    }
}

// Makes the call so many times, and gives the start of the answer.
fn answer_of(
    call: Call,
    times: u32,
    head: &[u8; HEAD],
    fields: &mut Fields<'_>,
    places: &mut Places<'_>,
) -> [u8; ANSWER] {
    let layout = layout_of(head, 8);
    let base = word(head, 36);
    let fixed = Fixed { layout, base };
    let alone = match call {
        Call::Mixer(read) => {
            let state = state_of(&head[44..]);
            return mixer_calls::call(times, state, layout, read, fields, places.values);
        }
        Call::Alone(voice) => Some(voice),
        Call::Whole => None,
    };
    voice_calls::call(
        alone,
        times,
        fixed,
        fields,
        places.voices,
        places.samples,
        places.values,
    )
}

// Reads and answers the job that this head begins. Of what is lent for its fields it has the first bytes, as many as the head says.
fn job(
    rt: &HostRuntime,
    head: &[u8; HEAD],
    records: &mut [u8],
    first: &mut [u8],
    second: &mut [u8],
    window: &mut [u8],
    lanes: &mut [u8],
    mixes: &mut [u8],
    places: &mut Places<'_>,
) -> Result<(), Fault> {
    let call = call_of(head)?;
    let times = times_of(head)?;
    let records = records
        .get_mut(..size(head, 60) * RECORD)
        .ok_or(Reason::Records)?;
    let first = first.get_mut(..size(head, 64)).ok_or(Reason::First)?;
    let second = second.get_mut(..size(head, 68)).ok_or(Reason::Second)?;
    let window = window.get_mut(..size(head, 72)).ok_or(Reason::Window)?;
    let lanes = lanes.get_mut(..size(head, 76) * 2).ok_or(Reason::Lanes)?;
    let mixes = mixes.get_mut(..size(head, 80) * 4).ok_or(Reason::Mixes)?;
    let mut fields = Fields {
        records,
        first,
        second,
        window,
        lanes,
        mixes,
    };
    fields.read(rt)?;
    rt.write_all(&answer_of(call, times, head, &mut fields, places))?;
    Ok(fields.write(rt)?)
}

// Answers the job that begins with this byte.
fn from_first(
    rt: &HostRuntime,
    first: u8,
    room: &mut Fields<'_>,
    places: &mut Places<'_>,
) -> Result<(), Fault> {
    let mut head = [first; HEAD];
    read_all(rt, &mut head[1..])?;
    job(
        rt,
        &head,
        room.records,
        room.first,
        room.second,
        room.window,
        room.lanes,
        room.mixes,
        places,
    )
}

// Answers one job. Where the input ends before it there is none. What is lent is room for its fields, and for what is not bytes among them.
pub fn answer(
    rt: &HostRuntime,
    room: &mut Fields<'_>,
    places: &mut Places<'_>,
) -> Result<(), Stop> {
    let [first] = read_bytes::<1>(rt)?;
    match from_first(rt, first, room, places) {
        Ok(()) => Ok(()),
        Err(Fault::Failed(error)) => Err(Stop::Failed(error)),
        Err(Fault::Bad(reason)) => {
            rt.write_all(&[255, reason as u8])?;
            Err(Stop::Over)
        }
    }
}
