// Of module 5, one produced sample. A `Track` is what is fixed while an entry plays, and its `heard_at` the sample at a place of the entry.
// A `Cursor` is where playing is in it: how many samples remain, and the fraction. A `Player` has both, with the window and the lane that
// samples are taken from; its `sound` is the sample that a voice produces there: the entry's own, or, with interpolation and a fraction
// other than 0, the one between it and the next. Nothing is refused; of each player no more remains than the record's length, and the lane
// holds what was decoded.
#![tactic(auto)]

ghost use Rattle.std.specs.Prelude.{◌≡◌, ◌≤◌, ◌<◌, length};
ghost use Rattle.track.specs.Track.{track_of, cursor_of, between_samples, heard_at};
ghost use Rattle.track.specs.Laid.{put};
ghost use Rattle.numbers.specs.Sizes.{FRAME_SAMPLES};

use mixing::interpolate::interpolate;
use numbers::sizes::FRAME;
use samples::{Sample, sample_at, silent};
use steps::step::Cursor;
use voice::record::{Entry, Interpolation, Voice};
use window::Window;

pub mod player;

// What is fixed while an entry plays: the entry, where one plays; the record's length, and how many samples of the lane were decoded; the
// rate; and whether samples are taken as they are.
#[derive(Clone, Copy)]
pub struct Track {
    pub playing: Option<Entry>,
    pub length: u32,
    pub decoded: u32,
    pub rate: f64,
    pub plain: bool,
}

impl Track {
    // The sample at a place of the entry, and past its end its last.
    #[tactic(auto, using(samples::proofs::Decoded::sample_cut), unfolding(crate::specs::Track::heard_at))]
    pub fn heard_at(self, window: Window<'_>, lane: &[i16], place: usize) -> Sample
        requires { self.decoded ≤ length lane.now }
        ensures { result ≡ heard_at window.entry.bytes.now window.entry.base lane.now self place }
    {
        let Some(e) = self.playing else {
            return silent();
        };
        let last = e.length.saturating_sub(1) as usize;
        let decoded = &lane[..self.decoded as usize];
        sample_at(window, decoded, e, place.min(last) as u32)
    }
}

pub fn track_of(v: &Voice) -> Track
    ensures { result ≡ track_of v.now }
{
    Track {
        playing: v.has_playing.then_some(v.playing),
        length: v.length,
        decoded: v.decoded,
        rate: v.rate,
        plain: v.interpolation == Interpolation::None,
    }
}

pub fn cursor_of(v: &Voice) -> Cursor
    ensures { result ≡ cursor_of v.now }
{
    Cursor {
        remaining: v.remaining,
        fraction: v.fraction,
    }
}

#[tactic(auto, unfolding(crate::specs::Track::between_samples))]
pub fn between(a: Sample, b: Sample, fraction: f64) -> Sample
    ensures { result ≡ between_samples a b fraction }
{
    Sample {
        left: interpolate(a.left, b.left, fraction),
        right: interpolate(a.right, b.right, fraction),
    }
}

// Puts a sample at a place of a frame.
#[tactic(auto, unfolding(crate::specs::Laid::put))]
pub fn put(frame: &mut [i16; FRAME], k: usize, s: Sample)
    requires { k < FRAME_SAMPLES }
    ensures { frame.new ≡ put frame.old k s }
{
    frame[k * 2] = s.left;
    frame[k * 2 + 1] = s.right;
}
