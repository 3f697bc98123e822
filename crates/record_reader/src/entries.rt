// The record's entries: the one that plays, and the queue.
use crate::{ENTRY, RECORD};
use adpcm::History;
use replaying::held::read;
use voice::blank::PLACES;
use voice::record::{Entry, Format};

// The format of a code. A code above the last is the last: every byte is taken, so this is a total match and no `TryFrom`.
pub fn format_of(code: u8) -> Format {
    match code {
        0 => Format::Pcm8,
        1 => Format::Pcm16,
        _ => Format::Adpcm,
    }
}

// The history that the bytes begin with.
pub fn history_of(bytes: &[u8]) -> History {
    let [yn1, yn2] = replaying::held::read_array::<2, 2, i16>(bytes);
    History { yn1, yn2 }
}

pub fn entry_of(bytes: &[u8; ENTRY]) -> Entry {
    Entry {
        address: read(&bytes[0..]),
        length: read(&bytes[4..]),
        play_position: read(&bytes[8..]),
        adpcm: history_of(&bytes[14..]),
        id: read(&bytes[12..]),
        format: format_of(bytes[18]),
        stereo: read(&bytes[19..]),
        looping: read(&bytes[20..]),
        has_adpcm: read(&bytes[21..]),
        from_queue: read(&bytes[22..]),
        has_played: read(&bytes[23..]),
    }
}

pub fn queue_of(bytes: &[u8; RECORD]) -> [Entry; PLACES] {
    let (parts, _) = bytes[280..].as_chunks::<ENTRY>();
    let mut queue = [Entry::default(); PLACES];
    for (entry, part) in queue.iter_mut().zip(parts) {
        *entry = entry_of(part);
    }
    queue
}
