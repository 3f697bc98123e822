// Steps at rate 1.0 from a fraction of 0.0: each takes one sample, and the fraction stays 0.0.
ghost use Rattle.std.specs.Prelude.{◌≡◌, true, ◌≤◌, ◌<◌};
ghost use Rattle.std.specs.Float.Ieee.{eq};
ghost use Rattle.numbers.specs.Literals.{+0, +1};
ghost use Rattle.numbers.specs.Sizes.{FRAME_SAMPLES};
ghost use Rattle.steps.specs.Stretch.{Stretched};

use crate::step::Cursor;
use crate::stretch::Reached;

// How far such steps come with so much room, until the entry has no two left.
pub fn reach(c: Cursor, room: usize) -> Reached
    requires room_in_frame { room ≤ FRAME_SAMPLES }
    requires two_left { 1 < c.remaining }
    requires on_a_sample { eq c.fraction +0 ≡ true }
    ensures { Stretched +1 c room result }
{
    let remaining = c.remaining as usize;
    let count = room.min(remaining - 2);
    if count == 0 {
        return Reached {
            cursor: c,
            count: 0,
        };
    }
    Reached {
        cursor: Cursor {
            remaining: c.remaining - (count as u32),
            fraction: 0.0,
        },
        count,
    }
}
