// An entry played into a frame.
ghost use Rattle.std.specs.Prelude.{◌≡◌, ◌-◌, ◌<◌};
ghost use Rattle.numbers.specs.Sizes.{FRAME_SAMPLES};
ghost use Rattle.track.specs.Laid.{laid, Turned};

use numbers::sizes::{FRAME, FRAME_SAMPLES};
use steps::step::step;
use steps::stretch::Reached;
use stretches::entry::play_on;
use track::player::Player;
use track::put;

// The frame and how many of its samples are there already are two parameters: a struct of both would hold a `&mut`, beside which no ghost
// field can stand, and of the rest of the frame as a slice each contract would ask that its length is even.

// Plays a sample at a time: at least one, and on until the frame is full or nothing remains.
fn play_plain(player: Player<'_>, frame: &mut [i16; FRAME], output: usize) -> Reached
    requires { output < FRAME_SAMPLES }
    ensures turned { Turned player.entry.track player.entry.cursor (FRAME_SAMPLES - output) result }
    ensures frame_after { let p = player.entry in
        frame.new ≡
        laid p.window.bytes.now p.window.base p.lane.now p.track p.cursor output result.count frame.old }
{
    let mut cursor = player.cursor;
    for n in 0..FRAME_SAMPLES - output {
        put(frame, output + n, player.sound(cursor));
        cursor = step(cursor, player.track.rate);
        if cursor.remaining == 0 {
            return Reached {
                cursor,
                count: n + 1,
            };
        }
    }
    Reached {
        cursor,
        count: FRAME_SAMPLES - output,
    }
}

// Plays on into the frame from `output`, the quick way as far as that goes.
pub fn play_entry(player: Player<'_>, frame: &mut [i16; FRAME], output: usize) -> Reached
    requires { output < FRAME_SAMPLES }
    ensures turned { Turned player.entry.track player.entry.cursor (FRAME_SAMPLES - output) result }
    ensures frame_after { let p = player.entry in
        frame.new ≡
        laid p.window.bytes.now p.window.base p.lane.now p.track p.cursor output result.count frame.old }
{
    let quick = play_on(player, frame, output);
    let reached = output + quick.count;
    if reached >= FRAME_SAMPLES {
        return quick;
    }
    let mut rest = player;
    rest.cursor = quick.cursor;
    let plain = play_plain(rest, frame, reached);
    Reached {
        cursor: plain.cursor,
        count: quick.count + plain.count,
    }
}
