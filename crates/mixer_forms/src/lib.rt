// Test only: the mixer's state, its layout and its frame in bytes. Numbers are little-endian, words have 32 bits. The state has 16 bytes:
// the volumes' bits as words; aux 0, aux 1 and mono, 1 for on; a zero. The layout has seven offsets as words, in document 01's order, and
// the frame 320 halves. Nothing is refused: each function asks for its bytes.
#![tactic(auto)]

ghost use Rattle.std.specs.Prelude.{◌+◌, ◌≤◌, length};

use layout::Layout;
use mixer_state::{Mixer, Output};
use numbers::sizes::FRAME;
use replaying::held::{put_each, read_array};

// Where the switches begin in a state.
const SWITCHES: usize = 12;

pub fn state_of(bytes: &[u8]) -> Mixer
    requires { 16 ≤ length bytes.now }
{
    let [aux0, aux1, mono]: [bool; 3] = read_array(&bytes[SWITCHES..]);
    Mixer {
        volume: read_array(bytes),
        aux: [aux0, aux1],
        output: if mono { Output::Mono } else { Output::Stereo },
    }
}

pub fn put_state(state: Mixer, bytes: &mut [u8], at: usize)
    requires { at + 16 ≤ length bytes.old }
{
    put_each(&state.volume, &mut bytes[at..]);
    let [aux0, aux1] = state.aux;
    let mono = state.output == Output::Mono;
    put_each(&[aux0, aux1, mono, false], &mut bytes[at + SWITCHES..]);
}

pub fn layout_of(bytes: &[u8], at: usize) -> Layout
    requires { at + 28 ≤ length bytes.now }
{
    let [
        configurations,
        statuses,
        coefficients,
        frame_counter,
        mixer_configuration,
        final_samples,
        intermediate_samples,
    ]: [u32; 7] = read_array(&bytes[at..]);
    Layout {
        configurations,
        statuses,
        coefficients,
        frame_counter,
        mixer_configuration,
        final_samples,
        intermediate_samples,
    }
}

pub fn put_frame(frame: &[i16; FRAME], bytes: &mut [u8], at: usize)
    requires { at + 640 ≤ length bytes.old }
{
    put_each(frame, &mut bytes[at..]);
}
