// The calls for all voices and for one voice alone.
use crate::jobs::ANSWER;
use crate::parts::{Fields, filled};
use alone::tick_voice;
use calls::refused::Refused;
use record_reader::{RECORD, record_of};
use record_writer::put_record;
use refusals::Refusal;
use replaying::held::put_each;
use stems::Fixed;
use voice::record::Voice;
use voices::tick;

// All that a call is lent.
#[derive(Drop)]
struct Lent<'a> {
    records: &'a mut [Voice],
    first: &'a mut [u8],
    second: &'a mut [u8],
    window: &'a [u8],
    lanes: &'a mut [i16],
    mixes: &'a mut [i32],
}

impl Lent<'_> {
    // One call, for one voice alone or else for all. Nothing is promised, so that no caller has to carry what the call promises.
    fn call(&mut self, alone: Option<usize>, fixed: Fixed) -> Result<Refused, Refusal> {
        match alone {
            Some(voice) => tick_voice(
                self.records,
                voice,
                fixed,
                self.first,
                self.second,
                self.window,
                self.lanes,
                self.mixes,
            ),
            None => tick(
                self.records,
                fixed,
                self.first,
                self.second,
                self.window,
                self.lanes,
                self.mixes,
            ),
        }
    }

    // So many calls, one at least, each on what the one before left.
    fn calls(
        &mut self,
        times: u32,
        alone: Option<usize>,
        fixed: Fixed,
    ) -> Result<Refused, Refusal> {
        let mut answer = self.call(alone, fixed);
        for _ in 1..times {
            answer = self.call(alone, fixed);
        }
        answer
    }
}

// The records that the bytes hold, in the first places.
fn records_of<'a>(bytes: &[u8], places: &'a mut [Voice]) -> &'a mut [Voice] {
    let (parts, _) = bytes.as_chunks::<RECORD>();
    for (place, part) in places.iter_mut().zip(parts) {
        *place = record_of(part);
    }
    let count = parts.len().min(places.len());
    &mut places[..count]
}

fn put_records(records: &[Voice], bytes: &mut [u8]) {
    let (parts, _) = bytes.as_chunks_mut::<RECORD>();
    for (part, record) in parts.iter_mut().zip(records) {
        put_record(record, part);
    }
}

// The number, how many voices are refused, and these, each with its number.
fn start_of(answer: Result<Refused, Refusal>) -> [u8; ANSWER] {
    let mut start = [0u8; ANSWER];
    match answer {
        Ok(refused) => {
            start[1] = refused.len() as u8;
            let (places, _) = start[4..52].as_chunks_mut::<2>();
            for (place, one) in places.iter_mut().zip(refused.as_slice()) {
                *place = [one.voice, one.refusal.number()];
            }
        }
        Err(refusal) => start[0] = refusal.number(),
    }
    start
}

pub fn call(
    alone: Option<usize>,
    times: u32,
    fixed: Fixed,
    fields: &mut Fields<'_>,
    voices: &mut [Voice],
    samples: &mut [i16],
    values: &mut [i32],
) -> [u8; ANSWER] {
    // taken out first: a field behind a reference is not read while another one is lent
    let records = &mut *fields.records;
    let window = &mut *fields.window;
    let lanes = &mut *fields.lanes;
    let mixes = &mut *fields.mixes;
    let mut lent = Lent {
        records: records_of(records, voices),
        first: &mut *fields.first,
        second: &mut *fields.second,
        window,
        lanes: filled(lanes, samples),
        mixes: filled(mixes, values),
    };
    let answer = lent.calls(times, alone, fixed);
    put_records(lent.records, records);
    put_each(lent.lanes, lanes);
    put_each(lent.mixes, mixes);
    start_of(answer)
}
