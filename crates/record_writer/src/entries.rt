// The record's entries: the one that plays, and the queue.
use adpcm::History;
use record_reader::{ENTRY, RECORD};
use replaying::held::{put, put_each};
use voice::blank::PLACES;
use voice::record::Entry;

pub fn put_history(h: History, bytes: &mut [u8]) {
    let samples = [h.yn1, h.yn2];
    put_each(&samples, bytes);
}

pub fn put_entry(e: Entry, bytes: &mut [u8; ENTRY]) {
    let words = [e.address, e.length, e.play_position];
    put_each(&words, bytes);
    put(e.id, &mut bytes[12..]);
    put_history(e.adpcm, &mut bytes[14..]);
    bytes[18] = e.format as u8;
    let marks = [e.stereo, e.looping, e.has_adpcm, e.from_queue, e.has_played];
    put_each(&marks, &mut bytes[19..]);
}

pub fn put_queue(queue: &[Entry; PLACES], bytes: &mut [u8; RECORD]) {
    let (parts, _) = bytes[280..].as_chunks_mut::<ENTRY>();
    for (part, entry) in parts.iter_mut().zip(queue) {
        put_entry(*entry, part);
    }
}
