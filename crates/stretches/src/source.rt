// Where an entry's samples lie: PCM in one part of the window, ADPCM in the lane.
ghost use Rattle.std.specs.Prelude.{◌≡◌, ℕ, ℤ, ◌+◌, ◌*◌, ◌≤◌, ◌<◌, length, IfSome, is_some};
ghost use Rattle.stretches.specs.Source.{size8, size_of, held_by, valued_in, sample_in, entry_bytes, is_held};
ghost use Rattle.stretches.specs.Source.{AtHand, is_at_hand};

use dequeue::align;
use little::signed_at;
use samples::{Sample, alike, high_byte};
use track::player::Player;
use voice::record::{Entry, Format};
use window::{ADDRESSES, Window};

#[tactic(auto, unfolding(crate::specs::Source::size_of))]
fn size_of(e: Entry) -> u32
    ensures value { result ≡ size_of e }
    ensures upper_bound { result ≤ 4 }
{
    match (e.format, e.stereo) {
        (Format::Pcm16, true) => 4,
        (Format::Pcm8, true) | (Format::Pcm16, false) => 2,
        (Format::Pcm8, false) | (Format::Adpcm, _) => 1,
    }
}

// The bytes of a PCM entry, or none where one is absent or lies past the last address. No `Option`: an ADPCM entry is at hand without its
// bytes, for which an empty part would have to stand again.
#[tactic(auto, unfolding(crate::specs::Source::entry_bytes))]
fn entry_bytes<'a>(window: Window<'a>, e: Entry) -> &'a [u8]
    ensures { result.now ≡ entry_bytes window.entry.bytes.now window.entry.base e }
{
    let count = e.length as usize * size_of(e) as usize;
    let start = align(e.address);
    if start as usize + count >= ADDRESSES {
        return &window.bytes[..0];
    }
    window.physical(start, count as u32)
}

// The sample at a place of values that a closure reads: in stereo there are two for each place, the left one first.
fn pcm_in<F: Fn(usize) -> i16>(stereo: bool, place: usize, value: F) -> Sample
    requires callable { (k : ℕ) → k < (place + 1) * size8 stereo → F.pre value k }
    requires few { place < 9223372036854775808 }
    ensures { (given : ℕ → ℤ)
        → ((k : ℕ) → k < (place + 1) * size8 stereo → (v : ℤ) → F.post value k v → v ≡ given k)
        → result ≡ valued_in given stereo place }
{
    if stereo {
        return Sample {
            left: value(place * 2),
            right: value(place * 2 + 1),
        };
    }
    alike(value(place))
}

// Whether every sample of an entry is at hand, where so many were decoded.
#[tactic(auto, unfolding(crate::specs::Source::is_held))]
fn is_held(bytes: &[u8], decoded: u32, e: Entry) -> bool
    ensures { result ≡ is_held bytes.now decoded e }
{
    match e.format {
        Format::Adpcm => e.length <= decoded,
        _ => !bytes.is_empty(),
    }
}

// An entry, and what holds all of its samples.
#[derive(Clone, Copy)]
pub struct Source<'a> {
    pub lane: &'a [i16],
    pub bytes: &'a [u8],
    pub played: Entry,
    pub ghost holds: { played.length * size_of played ≤ held_by lane.now bytes.now played.format },
}

// A player whose entry is as long as the record says, of which at least two samples are left, and the samples of which are all at hand.
#[derive(Clone, Copy)]
pub struct Ready<'a> {
    pub player: Player<'a>,
    pub source: Source<'a>,
    pub ghost same_lane: { source.lane.now ≡ player.lane.now },
    pub ghost at_hand: { AtHand player.window.bytes.now player.window.base player.track source.bytes.now source.played },
    pub ghost two_left: { 1 < player.cursor.remaining },
}

// The same player, exactly where its entry is such a one.
#[tactic(auto, unfolding(crate::specs::Source::is_at_hand))]
pub fn at_hand(player: Player<'_>) -> Option<Ready<'_>>
    ensures found { is_some result ≡
        is_at_hand player.entry.window.bytes.now player.entry.window.base player.entry.track player.entry.cursor }
    ensures same_player { IfSome result (λ r. r.player ≡ player.entry) }
{
    let e = player.track.playing?;
    let bytes = entry_bytes(player.window, e);
    if e.length != player.track.length
        || player.cursor.remaining < 2
        || !is_held(bytes, player.track.decoded, e)
    {
        return None;
    }
    let source = Source {
        lane: player.lane,
        bytes,
        played: e,
    };
    Some(Ready { player, source })
}

impl Source<'_> {
    // The sample at a place of the entry.
    #[tactic(auto, unfolding(crate::specs::Source::sample_in))]
    pub fn sample(&self, place: usize) -> Sample
        requires { place < self.now.played.length }
        ensures { result ≡ sample_in self.now.lane.now self.now.bytes.now self.now.played place }
    {
        match self.played.format {
            Format::Pcm8 => pcm_in(self.played.stereo, place, |k| high_byte(self.bytes[k])),
            Format::Pcm16 => pcm_in(self.played.stereo, place, |k| signed_at(self.bytes, k * 2)),
            Format::Adpcm => alike(self.lane[place]),
        }
    }
}
