// What turns away a call, or a voice within one: the numbers of document 01's table, as one enum. `number` gives a refusal's number, and
// `answered` the number of an answer, 0 where nothing was refused, for callers that know numbers alone.
#![tactic(auto)]

ghost use Rattle.std.specs.Prelude.{◌≡◌};
ghost use Rattle.refusals.specs.Numbers.{number, number_of};

#[derive(Clone, Copy, PartialEq, Eq, Debug)]
pub enum Refusal {
    // the regions differ in length, or exceed 65,536 bytes
    RegionLengths = 1,
    // a place ends past the region
    PlaceOutside = 2,
    // two places share a byte
    PlacesShare = 3,
    // the window's base and length exceed 2^32 together
    WindowEnd = 4,
    // not 24 records, or lanes that are not 24 times L, with L up to 65,536
    RecordsOrLanes = 5,
    // the mix buffer is not 1,920 numbers
    MixLength = 6,
    // a record is malformed
    Malformed = 7,
    // the mixer's region number is over 1
    RegionNumber = 8,
    // a decode of more than 65,536 samples, of too few or too many bytes, or into an output that is too short
    Decode = 9,
    // a voice number over 23
    VoiceNumber = 10,
    // a voice's queue would exceed 64
    QueueFull = 20,
    // an ADPCM entry that would be added is longer than L
    EntryTooLong = 21,
}

impl Refusal {
    // The refusal's number in the table.
    pub fn number(self) -> u8
        ensures { result ≡ number self }
    {
        self as u8
    }
}

// The number of an answer: 0, or that of what was refused.
pub fn answered(answer: Result<(), Refusal>) -> u8
    ensures { result ≡ number_of answer }
{
    match answer {
        Ok(()) => 0,
        Err(refusal) => refusal.number(),
    }
}
