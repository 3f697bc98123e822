// What follows a job's head, the bytes of all that the call is lent; and the places that what is not bytes is read into.
ghost use Rattle.std.specs.Prelude.{◌≡◌, ◌/◌, length, min};

use numbers::sizes::{MIXES, VOICES};
use replaying::answering::{Stop, read_all};
use replaying::held::{Held, read_each};
use std::io;
use voice::record::Voice;

// The most records that a job has, one more than there are voices.
pub const MOST_RECORDS: usize = VOICES + 1;

// One sample more than the lanes of 24 voices have, with 2,048 for each.
pub const MOST_SAMPLES: usize = VOICES * 2048 + 1;

// One value more than the mixes have.
pub const MOST_VALUES: usize = MIXES + 1;

// The values that the bytes hold, in the first places.
pub fn filled<'a, const N: usize, T: Held<N>>(bytes: &[u8], places: &'a mut [T]) -> &'a mut [T]
    ensures { length result.now ≡ min (length bytes.now / N) (length places.old) }
{
    read_each(bytes, places);
    let count = (bytes.len() / N).min(places.len());
    &mut places[..count]
}

// Places for what is not bytes among the fields, as many as a job may have of each.
#[derive(Drop)]
pub struct Places<'a> {
    pub voices: &'a mut [Voice],
    pub samples: &'a mut [i16],
    pub values: &'a mut [i32],
}

#[derive(Drop)]
pub struct Fields<'a> {
    pub records: &'a mut [u8],
    pub first: &'a mut [u8],
    pub second: &'a mut [u8],
    pub window: &'a mut [u8],
    pub lanes: &'a mut [u8],
    pub mixes: &'a mut [u8],
}

impl Fields<'_> {
    pub fn read(&mut self, rt: &HostRuntime) -> Result<(), Stop> {
        read_all(rt, self.records)?;
        read_all(rt, self.first)?;
        read_all(rt, self.second)?;
        read_all(rt, self.window)?;
        read_all(rt, self.lanes)?;
        read_all(rt, self.mixes)
    }

    // Writes all but the window.
    pub fn write(&self, rt: &HostRuntime) -> io::Result<()> {
        rt.write_all(self.records)?;
        rt.write_all(self.first)?;
        rt.write_all(self.second)?;
        rt.write_all(self.lanes)?;
        rt.write_all(self.mixes)
    }
}
