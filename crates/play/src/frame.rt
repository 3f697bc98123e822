// What a voice plays in one frame.
ghost use Rattle.std.specs.Prelude.{◌≡◌, ◌≤◌, ◌<◌, pos, length, replicate};
ghost use Rattle.numbers.specs.Sizes.{FRAME_SAMPLES, FRAME};
ghost use Rattle.adpcm.specs.Sizes.{most_samples};
ghost use Rattle.voice.specs.Malformed.{WellFormed};
ghost use Rattle.track.specs.Laid.{laid, Turned};
ghost use Rattle.play.specs.Play.{frame_of, is_silent, opened, switched_off, silent_frame, playing_frame, played};
ghost use Rattle.play.specs.Inner.{filled};

use crate::entry::play_entry;
use dequeue::dequeue;
use numbers::sizes::{FRAME, FRAME_SAMPLES};
use steps::stretch::Reached;
use track::player::Player;
use voice::record::Voice;
use window::Window;

// The functions below take a record and a lane beside it, and ask each time that the one is well-formed for the other: a lent record may be
// malformed, and a lane of any length is a `&mut` slice, beside which no ghost field can say so.

// What a frame comes to: the record, and how many samples were produced.
#[derive(Clone, Copy)]
pub struct Played {
    pub voice: Voice,
    pub produced: usize,
}

// The record as a silent frame begins.
#[tactic(auto, unfolding(crate::specs::Play::opened))]
fn open(mut v: Voice) -> Voice
    ensures { result ≡ opened v }
{
    v.ran_out_at_frame_end = false;
    v.frame = [0; FRAME];
    v
}

#[tactic(auto, unfolding(crate::specs::Play::switched_off))]
fn switch_off(mut v: Voice) -> Voice
    ensures { result ≡ switched_off v }
{
    v.enabled = false;
    v.buffer_update = true;
    v.last_buffer_id = v.current_buffer_id;
    v.current_buffer_id = 0;
    v.position = 0;
    v
}

// A frame spent on a dequeue, or the voice switched off.
#[tactic(auto, unfolding(crate::specs::Play::silent_frame))]
fn be_silent(v: Voice, window: Window<'_>, lane: &mut [i16]) -> Voice
    requires well_formed { WellFormed (length lane.old) v }
    requires short_lane { length lane.old ≤ most_samples }
    ensures record { result ≡ (silent_frame window.entry.bytes.now window.entry.base v lane.old).voice }
    ensures lane { lane.new ≡ (silent_frame window.entry.bytes.now window.entry.base v lane.old).lane }
{
    match dequeue(v, window, lane) {
        Some(w) => w,
        None => switch_off(v),
    }
}

// Plays what is left of the entry at hand.
#[tactic(auto, using(track::proofs::Onward::laid_none))]
fn play_left(player: Player<'_>, frame: &mut [i16; FRAME]) -> Reached
    ensures none { player.entry.cursor.remaining ≡ 0
        → result ≡ record { cursor = player.entry.cursor; count = 0 } }
    ensures some { 0 < player.entry.cursor.remaining
        → Turned player.entry.track player.entry.cursor FRAME_SAMPLES result }
    ensures frame { let p = player.entry in
        frame.new ≡ laid p.window.bytes.now p.window.base p.lane.now p.track p.cursor 0 result.count frame.old }
{
    if player.cursor.remaining == 0 {
        return Reached {
            cursor: player.cursor,
            count: 0,
        };
    }
    play_entry(player, frame, 0)
}

// Plays what is left of the entry at hand, and then entries one after the other, until the frame is full or nothing is queued. Stores go
// to the record in its place, since one that is handed on is copied.
fn play_entries(
    mut v: Voice,
    window: Window<'_>,
    lane: &mut [i16],
    frame: &mut [i16; FRAME],
) -> Played
    requires well_formed { WellFormed (length lane.old) v }
    requires short_lane { length lane.old ≤ most_samples }
    requires silent { frame.old ≡ replicate FRAME (pos 0) }
    ensures record { result.voice ≡ (filled window.entry.bytes.now window.entry.base v lane.old).voice }
    ensures lane { lane.new ≡ (filled window.entry.bytes.now window.entry.base v lane.old).lane }
    ensures frame { frame.new ≡ frame_of (filled window.entry.bytes.now window.entry.base v lane.old).samples }
    ensures produced { result.produced ≡ length (filled window.entry.bytes.now window.entry.base v lane.old).samples }
{
    let first = play_left(Player::of(&v, window, lane), frame);
    v.remaining = first.cursor.remaining;
    v.fraction = first.cursor.fraction;
    let mut output = first.count;
    // an entry gives many samples or few, so the count does not step by one
    while output < FRAME_SAMPLES {
        let Some(x) = dequeue(v, window, lane) else {
            break;
        };
        let r = play_entry(Player::of(&x, window, lane), frame, output);
        v = x;
        v.remaining = r.cursor.remaining;
        v.fraction = r.cursor.fraction;
        output += r.count;
    }
    Played {
        voice: v,
        produced: output,
    }
}

// A frame that plays.
#[tactic(auto, unfolding(crate::specs::Play::playing_frame, crate::specs::Play::ended))]
fn play(mut v: Voice, window: Window<'_>, lane: &mut [i16]) -> Played
    requires well_formed { WellFormed (length lane.old) v }
    requires short_lane { length lane.old ≤ most_samples }
    ensures record { result.voice ≡ (playing_frame window.entry.bytes.now window.entry.base v lane.old).voice }
    ensures lane { lane.new ≡ (playing_frame window.entry.bytes.now window.entry.base v lane.old).lane }
    ensures produced { result.produced ≡ (playing_frame window.entry.bytes.now window.entry.base v lane.old).produced }
{
    v.position = v.length - v.remaining;
    let mut frame = [0; FRAME];
    let mut p = play_entries(v, window, lane, &mut frame);
    let full = p.produced == FRAME_SAMPLES;
    p.voice.ran_out_at_frame_end = p.voice.remaining == 0 && full;
    p.voice.frame = frame;
    p
}

// Whether the voice spends the frame silent: nothing remains, and it does not follow on.
#[tactic(auto, unfolding(crate::specs::Play::follows_on))]
fn is_silent(v: &Voice) -> bool
    ensures { result ≡ is_silent v.now }
{
    let follows_on = v.ran_out_at_frame_end && v.queued != 0;
    v.remaining == 0 && !follows_on
}

// Plays one frame.
#[tactic(auto, unfolding(crate::specs::Play::played, crate::specs::Play::silent_frame))]
pub fn play_frame(v: Voice, window: Window<'_>, lane: &mut [i16]) -> Played
    requires well_formed { WellFormed (length lane.old) v }
    requires short_lane { length lane.old ≤ most_samples }
    ensures record { result.voice ≡ (played window.entry.bytes.now window.entry.base v lane.old).voice }
    ensures lane { lane.new ≡ (played window.entry.bytes.now window.entry.base v lane.old).lane }
    ensures produced { result.produced ≡ (played window.entry.bytes.now window.entry.base v lane.old).produced }
{
    if is_silent(&v) {
        return Played {
            voice: be_silent(open(v), window, lane),
            produced: 0,
        };
    }
    play(v, window, lane)
}
