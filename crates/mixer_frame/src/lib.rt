// Of module 7, the frame of a call that is served. `frame_of` takes the state in force, the region that is read and the 1,920 values of the
// mixes: mix 0 is heard as given, mixes 1 and 2 as the title returned them in that region where their aux bus is on, and the three are
// added in turn to silence. `write_out` puts the new mixes of the aux buses that are on, and the final samples, into the other region.
// Nothing is refused: that the places lie in the regions is required, which the mixer's call knows from an accepted layout.
#![tactic(auto)]

ghost use Rattle.std.specs.Prelude.{◌≡◌, cond, ◌+◌, ◌≤◌, ◌<◌, length};
ghost use Rattle.lists.specs.Splice.{part, splice};
ghost use Rattle.mix_bytes.specs.Mixes.{words_in, word_bytes};
ghost use Rattle.mix_bytes.specs.Sizes.{final_bytes, aux_bytes, intermediate_bytes};
ghost use Rattle.downmix.specs.Downmix.{downmixed};
ghost use Rattle.mixer_state.specs.State.{aux_on};
ghost use Rattle.mixer_frame.specs.Frame.{mix_of, aux_at, frame_of, out_of};

use downmix::downmix;
use layout::Layout;
use little::part_at;
use mix_bytes::sizes::AUX_BYTES;
use mix_bytes::{put_values, read_mix};
use mixer_state::Mixer;
use numbers::sizes::{FRAME, MIX, MIXES};

// Mix k of the three that are given.
fn mix_of(k: usize, given: &[i32; MIXES]) -> &[i32; MIX]
    requires { k < 3 }
    ensures { result.now ≡ mix_of k given.now }
{
    part_at(given, k * MIX)
}

// Adds the mix of an aux bus to the frame as it reaches the output: what the title made of it where the bus is on, else as it is given.
fn add_heard(
    frame: &mut [i16; FRAME],
    l: Layout,
    state: Mixer,
    read: &[u8],
    given: &[i32; MIXES],
    bus: usize,
)
    requires bus_bound { bus < 2 }
    requires in_region { l.intermediate_samples + intermediate_bytes ≤ length read.now }
    ensures { frame.new ≡ downmixed state (bus + 1)
        (cond (aux_on state bus) (words_in (part (aux_at l bus) aux_bytes read.now)) (mix_of (bus + 1) given.now)) frame.old }
{
    let mix = mix_of(bus + 1, given);
    let returned = part_at(read, l.intermediate_samples as usize + bus * AUX_BYTES);
    if state.aux[bus] {
        downmix(frame, &read_mix(returned), state, bus + 1);
    } else {
        downmix(frame, mix, state, bus + 1);
    }
}

// The frame that a state makes of the mixes given and those in the region that is read.
pub fn frame_of(l: Layout, state: Mixer, read: &[u8], given: &[i32; MIXES]) -> [i16; FRAME]
    requires { l.intermediate_samples + intermediate_bytes ≤ length read.now }
    ensures { result ≡ frame_of l state read.now given.now }
{
    let mut frame = [0i16; FRAME];
    downmix(&mut frame, mix_of(0, given), state, 0);
    add_heard(&mut frame, l, state, read, given, 0);
    add_heard(&mut frame, l, state, read, given, 1);
    frame
}

// Sends the new mix of an aux bus to its place where the bus is on. Whether it is on is a parameter, as in the definitions: with a branch
// for each bus the caller's proof would go four ways.
fn send(on: bool, mix: &[i32; MIX], write: &mut [u8], at: usize)
    requires { at + aux_bytes ≤ length write.old }
    ensures { write.new ≡ cond on (splice write.old at (word_bytes mix.now)) write.old }
{
    if on {
        put_values(mix, write, at);
    }
}

// Writes the mixes that go to the title, and the final samples.
pub fn write_out(
    l: Layout,
    state: Mixer,
    given: &[i32; MIXES],
    frame: &[i16; FRAME],
    write: &mut [u8],
)
    requires intermediate_bytes_in_bounds { l.intermediate_samples + intermediate_bytes ≤ length write.old }
    requires final_bytes_in_bounds { l.final_samples + final_bytes ≤ length write.old }
    ensures { write.new ≡ out_of l state given.now frame.now write.old }
{
    let at = l.intermediate_samples as usize;
    send(state.aux[0], mix_of(1, given), write, at);
    send(state.aux[1], mix_of(2, given), write, at + AUX_BYTES);
    put_values(frame, write, l.final_samples as usize);
}
