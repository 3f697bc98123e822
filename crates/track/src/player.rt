// An entry being played, and where playing is in it.
ghost use Rattle.std.specs.Prelude.{◌≡◌, ◌≤◌, length};
ghost use Rattle.track.specs.Track.{track_of, cursor_of, sound_of};

use crate::{Track, between, cursor_of, track_of};
use samples::Sample;
use steps::step::Cursor;
use voice::record::Voice;
use window::Window;

// What samples are taken from, and where playing begins.
#[derive(Clone, Copy)]
pub struct Player<'a> {
    pub window: Window<'a>,
    pub lane: &'a [i16],
    pub track: Track,
    pub cursor: Cursor,
    pub ghost remains: { cursor.remaining ≤ track.length },
    pub ghost in_lane: { track.decoded ≤ length lane.now },
}

impl<'a> Player<'a> {
    // What a record's entry is played from, and where. What a player has as facts is asked of the record, which may be malformed when lent.
    pub fn of(v: &Voice, window: Window<'a>, lane: &'a [i16]) -> Self
        requires remains { v.now.remaining ≤ v.now.length }
        requires in_lane { v.now.decoded ≤ length lane.now }
        ensures window { result.window ≡ window.entry }
        ensures lane { result.lane.now ≡ lane.now }
        ensures track { result.track ≡ track_of v.now }
        ensures cursor { result.cursor ≡ cursor_of v.now }
    {
        Player {
            window,
            lane,
            track: track_of(v),
            cursor: cursor_of(v),
        }
    }

    // The sample that is produced where playing is at a cursor.
    #[tactic(auto, unfolding(crate::specs::Track::sound_of))]
    pub fn sound(self, cursor: Cursor) -> Sample
        requires { cursor.remaining ≤ self.track.length }
        ensures { result ≡
            sound_of self.entry.window.bytes.now self.entry.window.base self.entry.lane.now self.entry.track cursor }
    {
        let place = (self.track.length - cursor.remaining) as usize;
        let first = self.track.heard_at(self.window, self.lane, place);
        if self.track.plain || cursor.fraction == 0.0 {
            return first;
        }
        let next = self.track.heard_at(self.window, self.lane, place + 1);
        between(first, next, cursor.fraction)
    }
}
