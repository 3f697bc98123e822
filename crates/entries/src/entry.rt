// An entry as a configuration gives it: the embedded one, and that of a slot.
ghost use Rattle.std.specs.Prelude.{◌≡◌, ◌+◌, ◌≤◌, ◌<◌, true, length};
ghost use Rattle.fields.specs.Fields.{configuration, slot, slot_at, total};
ghost use Rattle.entries.specs.Entries.{history_at, position_in, embedded, slot_count, slot_length, slot_entry, slot_adds};

use adpcm::History;
use fields::config::CONFIG_SIZE;
use fields::{config, slot};
use little::{read_dsp32, read16, signed_at};
use settings::dirty;
use settings::dirty::flag;
use voice::blank::kept_if;
use voice::record::{Entry, Format};

// Two signed halves.
fn history_at(bytes: &[u8; CONFIG_SIZE], at: usize) -> History
    requires { at + 4 ≤ length bytes.now }
    ensures { result ≡ history_at true bytes.now at }
{
    History {
        yn1: signed_at(bytes, at),
        yn2: signed_at(bytes, at + 2),
    }
}

// The play position, where it is flagged.
fn position_in(bytes: &[u8; CONFIG_SIZE]) -> u32
    ensures { result ≡ position_in bytes.now }
{
    if flag(bytes, dirty::PLAY_POSITION) {
        read_dsp32(bytes, config::PLAY_POSITION)
    } else {
        0
    }
}

// One of the four slots of a configuration, by its number.
#[derive(Clone, Copy)]
pub struct Slot {
    pub number: usize,
    ghost is_slot: { number < slot_count },
}

impl Slot {
    // Where it stands.
    fn at(self) -> usize
        ensures place { result ≡ slot_at self.number }
        ensures inside { result + total slot ≤ total configuration }
    {
        config::BUFFERS + self.number * slot::BUFFER_SIZE
    }

    pub fn length(self, bytes: &[u8; CONFIG_SIZE]) -> u32
        ensures { result ≡ slot_length bytes.now self.number }
    {
        read_dsp32(bytes, self.at() + slot::LENGTH)
    }

    // Whether it adds its entry: its bit of the mask is set, and it is not empty.
    pub fn adds(self, bytes: &[u8; CONFIG_SIZE]) -> bool
        ensures { result ≡ slot_adds bytes.now self.number }
    {
        (read16(bytes, config::BUFFERS_DIRTY) >> self.number) % 2 == 1 && self.length(bytes) != 0
    }
}

// A configuration, with the format and the channels that its entries take.
#[derive(Clone, Copy)]
pub struct Adding<'a> {
    pub bytes: &'a [u8; CONFIG_SIZE],
    pub format: Format,
    pub stereo: bool,
}

impl<'a> Adding<'a> {
    // The embedded entry.
    #[tactic(auto, unfolding(crate::specs::Entries::embedded))]
    pub fn embedded(self) -> Entry
        ensures { result ≡ embedded self.entry.bytes.now self.entry.format self.entry.stereo }
    {
        let bytes = self.bytes;
        let flags2 = read16(bytes, config::FLAGS2);
        let has_adpcm = flags2 % 2 == 1;
        Entry {
            address: read_dsp32(bytes, config::ADDRESS),
            length: read_dsp32(bytes, config::LENGTH),
            format: self.format,
            stereo: self.stereo,
            looping: flags2 / 2 % 2 == 1,
            id: read16(bytes, config::BUFFER_ID),
            has_adpcm,
            adpcm: kept_if(
                has_adpcm,
                history_at(bytes, config::ADPCM_YN),
                History::default(),
            ),
            from_queue: false,
            play_position: position_in(bytes),
            has_played: false,
        }
    }

    // The entry of a slot.
    #[tactic(auto, unfolding(crate::specs::Entries::slot_entry))]
    pub fn of_slot(self, slot: Slot) -> Entry
        ensures { result ≡ slot_entry self.entry.bytes.now self.entry.format self.entry.stereo slot.number }
    {
        let bytes = self.bytes;
        let at = slot.at();
        let has_adpcm = bytes[at + slot::HAS_ADPCM] != 0;
        Entry {
            address: read_dsp32(bytes, at + slot::ADDRESS),
            length: slot.length(bytes),
            format: self.format,
            stereo: self.stereo,
            looping: bytes[at + slot::LOOPING] != 0,
            id: read16(bytes, at + slot::BUFFER_ID),
            has_adpcm,
            adpcm: kept_if(
                has_adpcm,
                history_at(bytes, at + slot::ADPCM_YN),
                History::default(),
            ),
            from_queue: true,
            play_position: 0,
            has_played: false,
        }
    }
}
