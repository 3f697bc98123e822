// The entries that a configuration adds, made once as a list.
ghost use Rattle.std.specs.Prelude.{◌≡◌, [], ◌∷◌, ◌++◌, ◌+◌, ◌≤◌, ◌<◌, length};
ghost use Rattle.entries.specs.Entries.{slots_entries, slot_count, added};
ghost use Rattle.entries.specs.Inner.{at_most};

use crate::entry::{Adding, Slot};
use fields::config::CONFIG_SIZE;
use settings::dirty;
use settings::dirty::flag;
use std::marker::Model;
use voice::record::{Entry, Format};

// An embedded entry, and one for each slot.
pub const ADDED: usize = 5;

pub const SLOTS: usize = 4;

// A list of at most so many entries, in the order in which they are queued. They lie in the value itself, and a copy of it copies them.
#[derive(Clone, Copy)]
pub struct Added {
    entries: [Entry; ADDED],
    count: usize,
}

impl Model for Added {
    ghost use Rattle.std.specs.Prelude.{◌≡◌, ◌≤◌, ◌++◌, length, take, drop};
    ghost use Rattle.std.proofs.Common.{arith, take-append-drop, length-take-le};
    ghost use Rattle.entries.specs.Inner.{Listed, at_most};

    ghost Value = { Listed };

    ghost view = { λ a. record { items = take a.count a.entries; spare = drop a.count a.entries } };

    ghost invariant = { λ a. (a.count ≤ at_most) × (length a.entries ≡ at_most) };

    ghost inverse = { λ l. record { entries = l.items ++ l.spare; count = length l.items } };

    ghost inverse_ok = { λ a h i. record {
      entries = take-append-drop a.count a.entries i;
      count = length-take-le a.count a.entries (omega (arith, h.0, h.1)) i;
    } };
}

impl Added {
    pub fn new() -> Self
        ensures { result.items ≡ [] }
    {
        Added {
            entries: [Entry::default(); ADDED],
            count: 0,
        }
    }

    // One entry more.
    pub fn push(&mut self, e: Entry)
        requires { length self.old.items < at_most }
        ensures list { self.new.items ≡ self.old.items ++ (e ∷ []) }
        ensures count { length self.new.items ≡ length self.old.items + 1 }
    {
        self.entries[self.count] = e;
        self.count += 1;
    }

    pub fn as_slice(&self) -> &[Entry]
        ensures value { result.now ≡ self.now.items }
        ensures fits { length result.now ≤ at_most }
    {
        &self.entries[..self.count]
    }
}

impl<'a> Adding<'a> {
    // Adds the entries of the slots, each where its slot adds one.
    fn add_slots(self, entries: &mut Added)
        requires { length entries.old.items ≤ 1 }
        ensures list { entries.new.items ≡
            entries.old.items ++ slots_entries self.entry.bytes.now self.entry.format self.entry.stereo slot_count }
        ensures count { length entries.new.items ≤ at_most }
    {
        for number in 0..SLOTS {
            let slot = Slot { number };
            if slot.adds(self.bytes) {
                entries.push(self.of_slot(slot));
            }
        }
    }
}

// The embedded entry, then the slots' ones, each where it is flagged, in the order in which they are queued.
#[tactic(auto, unfolding(crate::specs::Entries::added))]
pub fn to_add(bytes: &[u8; CONFIG_SIZE], format: Format, stereo: bool) -> Added
    ensures list { result.items ≡ added bytes.now format stereo }
    ensures count { length result.items ≤ at_most }
{
    let adding = Adding {
        bytes,
        format,
        stereo,
    };
    let mut entries = Added::new();
    if flag(bytes, dirty::EMBEDDED_BUFFER) {
        entries.push(adding.embedded());
    }
    if flag(bytes, dirty::BUFFER_QUEUE) {
        adding.add_slots(&mut entries);
    }
    entries
}
