// The samples of a stretch, by where they lie in the entry and their fractions.
ghost use Rattle.std.specs.Prelude.{◌≡◌, ℕ, ◌+◌, ◌||◌, ◌≤◌, ◌<◌, length, get_or, true};
ghost use Rattle.numbers.specs.Sizes.{FRAME_SAMPLES};
ghost use Rattle.stretches.specs.Source.{is_mono};
ghost use Rattle.stretches.specs.Stored.{stored, all_zero, blended, here_at, next_at, blended_at, noted_at};

use crate::source::Source;
use crate::store::{store, stored_at};
use numbers::sizes::FRAME;
use samples::{Sample, alike};
use track::{Track, between};
use voice::record::{Entry, Format};

// Both sides of each sample are alike.
#[tactic(auto, unfolding(crate::specs::Source::is_mono))]
fn is_mono(e: Entry) -> bool
    ensures { result ≡ is_mono e }
{
    !e.stereo || e.format == Format::Adpcm
}

// Whether each fraction is 0, as at a whole rate.
fn all_zero(fractions: &[f64]) -> bool
    ensures { result ≡ all_zero fractions.now (length fractions.now) }
{
    fractions.iter().all(|f| *f == 0.0)
}

// The sample between two. At a fraction of 0 it is the first, and that needs no test.
fn blend(a: Sample, b: Sample, fraction: f64) -> Sample
    ensures { result ≡ blended a b fraction }
{
    between(a, b, fraction)
}

// Places of an entry, none of which is its last, and a fraction for each, in two slices as a walk notes them: loops take several of each at
// a time, and one slice of pairs was slower. By the track samples are taken as they are, or not.
#[derive(Clone, Copy)]
pub struct Noted<'a> {
    pub source: Source<'a>,
    pub track: Track,
    pub places: &'a [u32],
    pub fractions: &'a [f64],
    pub ghost one_for_each: { length fractions.now ≡ length places.now },
    pub ghost within: { (i : ℕ) → i < length places.now → get_or places.now i 0 + 1 < source.played.length },
}

// The frame and how many of its samples are there already are two parameters: a struct of both would hold a `&mut`, beside which no ghost
// field can stand, and of the rest of the frame as a slice each contract would ask that its length is even.
impl Noted<'_> {
    // The sample at a place.
    fn here(&self, i: usize) -> Sample
        requires { i < length self.now.places.now }
        ensures { let s = self.now.source in
            result ≡ here_at s.lane.now s.bytes.now s.played self.now.places.now i }
    {
        self.source.sample(self.places[i] as usize)
    }

    // The sample behind it.
    fn next(&self, i: usize) -> Sample
        requires { i < length self.now.places.now }
        ensures { let s = self.now.source in
            result ≡ next_at s.lane.now s.bytes.now s.played self.now.places.now i }
    {
        self.source.sample(self.places[i] as usize + 1)
    }

    // What lies between the samples at the places and the next, where both sides are alike. First come the values and then what lies
    // between, of which the compiler then does several at a time: in one pass a fifth more instructions were counted.
    fn play_mono(&self, frame: &mut [i16; FRAME], output: usize)
        requires mono { is_mono self.now.source.played ≡ true }
        requires room { output + length self.now.places.now ≤ FRAME_SAMPLES }
        ensures { let s = self.now.source in
            frame.new ≡
            stored (blended_at s.lane.now s.bytes.now s.played self.now.places.now self.now.fractions.now)
            output (length self.now.places.now) frame.old }
    {
        let mut pairs = [0; FRAME];
        let count = self.places.len();
        store(
            &mut pairs,
            0,
            count,
            |i| Sample {
                left: self.here(i).left,
                right: self.next(i).left,
            },
        );
        store(frame, output, count, |i| {
            let pair = stored_at(&pairs, i);
            blend(alike(pair.left), alike(pair.right), self.fractions[i])
        });
    }

    // Whether all the samples are those of the places as they are.
    fn is_plain(&self) -> bool
        ensures { let fractions = self.now.fractions.now in
            result ≡ (self.now.track.plain || all_zero fractions (length fractions)) }
    {
        self.track.plain || all_zero(self.fractions)
    }

    // What the places and fractions give.
    pub fn play(&self, frame: &mut [i16; FRAME], output: usize)
        requires { output + length self.now.places.now ≤ FRAME_SAMPLES }
        ensures { let s = self.now.source in
            frame.new ≡
            stored
            (noted_at s.lane.now s.bytes.now s.played self.now.track self.now.places.now
            self.now.fractions.now) output (length self.now.places.now) frame.old }
    {
        let count = self.places.len();
        if self.is_plain() {
            store(frame, output, count, |i| self.here(i));
        } else if is_mono(self.source.played) {
            self.play_mono(frame, output);
        } else {
            store(frame, output, count, |i| {
                blend(self.here(i), self.next(i), self.fractions[i])
            });
        }
    }
}
