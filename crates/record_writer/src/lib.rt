// Test only: puts a record of a voice into its 2,456 bytes; the crate record_reader has their form.
#![tactic(auto)]

use crate::entries::{put_entry, put_history, put_queue};
use record_reader::RECORD;
use replaying::held::{put, put_each};
use voice::record::Voice;

mod entries;
mod filtering;

// The bytes up to the simple filter.
fn put_head(v: &Voice, bytes: &mut [u8; RECORD]) {
    put(v.enabled, &mut bytes[0..]);
    put(v.stereo, &mut bytes[1..]);
    put(v.sync_count, &mut bytes[2..]);
    bytes[4] = v.format as u8;
    bytes[5] = v.interpolation as u8;
    put(v.filters.has_simple, &mut bytes[6..]);
    put(v.filters.has_biquad, &mut bytes[7..]);
    put(v.rate, &mut bytes[8..]);
    put(v.fraction, &mut bytes[16..]);
}

// The ramps' marks, the gains, the ramps, the coefficients and the frame.
fn put_sound(v: &Voice, bytes: &mut [u8; RECORD]) {
    put_each(&v.has_ramp, &mut bytes[92..]);
    bytes[95] = 0;
    put_each(&v.gain, &mut bytes[96..]);
    put_each(&v.ramp, &mut bytes[144..]);
    put_each(&v.coefficients, &mut bytes[192..]);
    put_each(&v.frame, &mut bytes[1816..]);
}

// The bytes between the coefficients and the entries.
fn put_state(v: &Voice, bytes: &mut [u8; RECORD]) {
    put_history(v.history, &mut bytes[224..]);
    put((v.queued & 0xFFFF_FFFF) as u32, &mut bytes[228..]);
    let marks = [
        v.has_playing,
        v.buffer_update,
        v.ran_out_at_frame_end,
        false,
    ];
    put_each(&marks, &mut bytes[232..]);
    let counts = [v.decoded, v.remaining, v.length, v.position];
    put_each(&counts, &mut bytes[236..]);
    let ids = [v.current_buffer_id, v.last_buffer_id];
    put_each(&ids, &mut bytes[252..]);
}

// Puts a record over the bytes.
pub fn put_record(v: &Voice, bytes: &mut [u8; RECORD]) {
    put_head(v, bytes);
    filtering::put_filters(v.filters, bytes);
    put_sound(v, bytes);
    put_state(v, bytes);
    put_entry(v.playing, bytes[256..].first_chunk_mut().unwrap());
    put_queue(&v.queue, bytes);
}
