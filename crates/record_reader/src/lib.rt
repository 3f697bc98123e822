// Test only: the record of a voice in 2,456 bytes, as programs and the oracle hand it to each other. Every number is little-endian, a mark
// is a byte that is on unless it is 0, and a float stands by its bits, all that are not a number alike.
//
//      0 enabled, 1 stereo: marks                     224 history: 2 x i16
//      2 sync_count: u16                              228 queued: u32
//      4 format: 0 Pcm8, 1 Pcm16, 2 Adpcm             232 has_playing, buffer_update, ran_out_at_frame_end: marks, and a 0
//      5 interpolation: 0 Polyphase, 1 Linear, 2 None 236 decoded, remaining, length, position: 4 x u32
//      6 has_simple, 7 has_biquad: marks              252 current_buffer_id, last_buffer_id: 2 x u16
//      8 rate, 16 fraction: f64                       256 playing: an entry
//     24 simple b0, a1, y1[2]: 4 x i32                280 queue: 64 entries
//     40 biquad b[3], a[2], x[4], y[4]: 13 x i32     1816 frame: 320 x i16
//     92 has_ramp: 3 marks, and a 0                  2456 the end
//     96 gain: 12 x f32
//    144 ramp: 12 x f32
//    192 coefficients: 16 x i16
//
// An entry has 24 bytes: address, length, play_position: 3 x u32; id: u16; its history: 2 x i16; the format as above; stereo, looping,
// has_adpcm, from_queue and has_played: marks.
#![tactic(auto)]

use crate::entries::{entry_of, format_of, queue_of};
use crate::filtering::filters_of;
use replaying::held::{read, read_array};
use voice::record::{Interpolation, Voice};

mod entries;
mod filtering;
pub mod formed;

// How many bytes a record has, and an entry.
pub const RECORD: usize = 2456;

pub const ENTRY: usize = 24;

// Of these codes, too, one above the last is the last. A function and no
// `From<u8>`, which would stand beside the enum, while other bytes mean it elsewhere.
fn interpolation_of(code: u8) -> Interpolation {
    match code {
        0 => Interpolation::Polyphase,
        1 => Interpolation::Linear,
        _ => Interpolation::None,
    }
}

// The record that the bytes hold.
pub fn record_of(bytes: &[u8; RECORD]) -> Voice {
    Voice {
        enabled: read(&bytes[0..]),
        sync_count: read(&bytes[2..]),
        rate: read(&bytes[8..]),
        format: format_of(bytes[4]),
        interpolation: interpolation_of(bytes[5]),
        stereo: read(&bytes[1..]),
        filters: filters_of(bytes),
        gain: read_array(&bytes[96..]),
        has_ramp: read_array(&bytes[92..]),
        ramp: read_array(&bytes[144..]),
        coefficients: read_array(&bytes[192..]),
        history: entries::history_of(&bytes[224..]),
        queue: queue_of(bytes),
        queued: read::<4, u32>(&bytes[228..]) as usize,
        has_playing: read(&bytes[232..]),
        playing: entry_of(bytes[256..].first_chunk().unwrap()),
        decoded: read(&bytes[236..]),
        remaining: read(&bytes[240..]),
        length: read(&bytes[244..]),
        fraction: read(&bytes[16..]),
        current_buffer_id: read(&bytes[252..]),
        last_buffer_id: read(&bytes[254..]),
        buffer_update: read(&bytes[233..]),
        position: read(&bytes[248..]),
        frame: read_array(&bytes[1816..]),
        ran_out_at_frame_end: read(&bytes[234..]),
    }
}
