// Of module 5, the queue of a voice: its search, what leaves it, and the mark of an entry that was played. `search` takes what is queued
// and answers where the first entry of smallest id stands, or `None` where nothing is queued. `remove` takes the entry at a place out of a
// record; the others keep their order. Nothing is refused: `remove` asks that the place is queued and that no more entries are queued than
// the record has room for. No memory is read or written.
#![tactic(auto)]

ghost use Rattle.std.specs.Prelude.{true, ◌≡◌, ◌≤◌, ◌<◌, length};
ghost use Rattle.voice.specs.Blank.{limit};
ghost use Rattle.queue.specs.Search.{searched};
ghost use Rattle.queue.specs.Removal.{removed};
ghost use Rattle.queue.specs.Played.{was_played, mark_played};

use voice::blank::PLACES;
use voice::record::{Entry, Voice};

// The last place of a queue.
const LAST: usize = PLACES - 1;

// The place of the first of the entries with the smallest id: of equal keys `min_by_key` takes the first.
pub fn search(queue: &[Entry]) -> Option<usize>
    ensures { result ≡ searched queue.now (length queue.now) }
{
    queue
        .iter()
        .enumerate()
        .min_by_key(|(_, e)| e.id)
        .map(|(place, _)| place)
}

// The entry at a place goes, those behind it move up, and the last place is blank.
// That no more is queued than there is room for is asked, and is no fact of the type: a lent record may be malformed.
pub fn remove(mut v: Voice, at: usize) -> Voice
    requires at_lt_queued { at < v.queued }
    requires queued_le_limit { v.queued ≤ limit }
    ensures { result ≡ removed at v }
{
    v.queue.copy_within(at + 1.., at);
    v.queue[LAST] = Entry::default();
    v.queued -= 1;
    v
}

// Whether an entry was played before.
pub fn was_played(e: Entry) -> bool
    ensures { result ≡ was_played e }
{
    e.has_played
}

// An entry that was played.
pub fn mark_played(e: Entry) -> Entry
    ensures { result ≡ mark_played e }
{
    Entry {
        has_played: true,
        ..e
    }
}
