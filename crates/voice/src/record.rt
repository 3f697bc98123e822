// The record of a voice, as document 01 has it: where the source has an `Option` a mark stands beside its data, which are there also where
// the mark is off, arrays are flat, and the queue has 64 places and a count.
use crate::blank::PLACES;
use adpcm::History;
use filters::state::Filters;
use numbers::sizes::{COEFFICIENTS, FRAME, GAINS, MIX_COUNT};

#[derive(Clone, Copy, PartialEq, Eq, Default)]
pub enum Format {
    #[default]
    Pcm8,
    Pcm16,
    Adpcm,
}

// Polyphase is a value of its own and plays as linear.
#[derive(Clone, Copy, PartialEq, Eq)]
pub enum Interpolation {
    Polyphase,
    Linear,
    None,
}

// An entry of the queue, the source's `Buffer`. The fields stand by their sizes, so that there are no gaps between them: entries are most
// of a record, and a record is copied often.
// An entry is small, 24 bytes, and is taken by value where it is only read.
#[derive(Clone, Copy, Default)]
pub struct Entry {
    pub address: u32,
    pub length: u32,
    pub play_position: u32,
    // the ADPCM history to start from, where its mark is on: document 01's record has the mark beside it, so this is no `Option`
    pub adpcm: History,
    pub id: u16,
    pub format: Format,
    pub stereo: bool,
    pub looping: bool,
    pub has_adpcm: bool,
    pub from_queue: bool,
    pub has_played: bool,
}

// That no more is queued than the limit and no more remains than the length are no ghost facts of it: a lent record may be malformed,
// which document 01's number 7 refuses.
#[derive(Clone, Copy)]
pub struct Voice {
    pub enabled: bool,
    pub sync_count: u16,
    pub rate: f64,
    pub format: Format,
    pub interpolation: Interpolation,
    pub stereo: bool,
    // each filter with its mark beside it, as document 01's record has them
    pub filters: Filters,
    // by mix, then channel: flat, as in document 01's record
    pub gain: [f32; GAINS],
    // the gains that a mix fades from, where its mark is on: document 01's record has the marks beside them, so these are no `Option`s
    pub has_ramp: [bool; MIX_COUNT],
    pub ramp: [f32; GAINS],
    pub coefficients: [i16; COEFFICIENTS],
    pub history: History,
    // document 01's 64-place queue with its count: the places past the count are blank, so this is no list of fixed room
    pub queue: [Entry; PLACES],
    pub queued: usize,
    // the entry being played, where its mark is on: document 01's record has the mark beside it, so this is no `Option`
    pub has_playing: bool,
    pub playing: Entry,
    // how many samples of the lane were decoded
    pub decoded: u32,
    pub remaining: u32,
    pub length: u32,
    pub fraction: f64,
    pub current_buffer_id: u16,
    pub last_buffer_id: u16,
    pub buffer_update: bool,
    pub position: u32,
    pub frame: [i16; FRAME],
    pub ran_out_at_frame_end: bool,
}
