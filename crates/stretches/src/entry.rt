// A stretch of an entry, at its rate.
ghost use Rattle.std.specs.Prelude.{◌≡◌, true, ◌≤◌};
ghost use Rattle.std.specs.Float.Ieee.{eq};
ghost use Rattle.numbers.specs.Literals.{+0, +1};
ghost use Rattle.numbers.specs.Sizes.{FRAME_SAMPLES};
ghost use Rattle.stretches.specs.Onward.{PlaysOn};

use crate::noted::Noted;
use crate::source::{Ready, at_hand};
use crate::store::store;
use numbers::sizes::{FRAME, FRAME_SAMPLES};
use steps::plain::reach;
use steps::stretch::{Course, Reached};
use track::player::Player;

// The frame and how many of its samples are there already are two parameters: a struct of both would hold a `&mut`, beside which no ghost
// field can stand, and of the rest of the frame as a slice each contract would ask that its length is even.
impl Ready<'_> {
    // At rate 1.0 from a fraction of 0.0: the samples as they are.
    fn run(self, frame: &mut [i16; FRAME], output: usize) -> Reached
        requires room { output ≤ FRAME_SAMPLES }
        requires rate { self.player.track.rate ≡ +1 }
        requires on_a_sample { eq self.player.cursor.fraction +0 ≡ true }
        ensures { PlaysOn self.entry.player output frame.old frame.new result }
    {
        let cursor = self.player.cursor;
        let reached = reach(cursor, FRAME_SAMPLES - output);
        let first = (self.player.track.length - cursor.remaining) as usize;
        store(
            frame,
            output,
            reached.count,
            |i| self.source.sample(first + i),
        );
        reached
    }

    // At any rate: the walk through the entry, and then the samples.
    fn walk(self, frame: &mut [i16; FRAME], output: usize) -> Reached
        requires { output ≤ FRAME_SAMPLES }
        ensures { PlaysOn self.entry.player output frame.old frame.new result }
    {
        let mut places = [0; FRAME_SAMPLES];
        let mut fractions = [0.0; FRAME_SAMPLES];
        let course = Course {
            size: self.player.track.length,
            rate: self.player.track.rate,
            start: self.player.cursor,
            room: FRAME_SAMPLES - output,
        };
        let reached = course.walk(&mut places, &mut fractions);
        let noted = Noted {
            source: self.source,
            track: self.player.track,
            places: &places[..reached.count],
            fractions: &fractions[..reached.count],
        };
        noted.play(frame, output);
        reached
    }
}

// Plays on into the frame from `output`.
pub fn play_on(player: Player<'_>, frame: &mut [i16; FRAME], output: usize) -> Reached
    requires { output ≤ FRAME_SAMPLES }
    ensures { PlaysOn player.entry output frame.old frame.new result }
{
    let Some(ready) = at_hand(player) else {
        return Reached {
            cursor: player.cursor,
            count: 0,
        };
    };
    if player.track.rate == 1.0 && player.cursor.fraction == 0.0 {
        ready.run(frame, output)
    } else {
        ready.walk(frame, output)
    }
}
