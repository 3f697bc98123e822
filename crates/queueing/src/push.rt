// Entries queued behind the others.
ghost use Rattle.std.specs.Prelude.{◌≡◌, ◌+◌, ◌≤◌, ◌<◌, length};
ghost use Rattle.voice.specs.Blank.{places};
ghost use Rattle.queueing.specs.Queue.{pushed, pushed_all};

use voice::record::{Entry, Voice};

#[tactic(auto, unfolding(crate::specs::Queue::pushed))]
pub fn push(mut v: Voice, e: Entry) -> Voice
    requires { v.queued < places }
    ensures { result ≡ pushed e v }
{
    v.queue[v.queued] = e;
    v.queued += 1;
    v
}

// One after the other, as the definition has it: a copy of the slice would need a law that says so, and that is longer.
pub fn push_entries(mut v: Voice, entries: &[Entry]) -> Voice
    requires { v.queued + length entries.now ≤ places }
    ensures { result ≡ pushed_all entries.now v }
{
    for e in entries {
        v = push(v, *e);
    }
    v
}
