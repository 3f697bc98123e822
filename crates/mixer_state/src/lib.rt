// Of module 7, the mixer's state: what is kept from frame to frame, and the configuration that changes it. `parse_config` takes the state
// by value and the configuration's 44 bytes and gives the state back, each field changed only where its bit of the dirty word is set;
// `clear_dirty` then clears that word in the region. Nothing is refused: that the region has room is required, which the mixer's call
// knows from an accepted layout.
#![tactic(auto)]

pub mod configuration;

ghost use Rattle.std.specs.Prelude.{◌≡◌};
ghost use Rattle.mixer_state.specs.State.{default_mixer};

use numbers::sizes::MIX_COUNT;

#[derive(Clone, Copy, PartialEq, Eq)]
pub enum Output {
    Mono,
    Stereo,
}

// How loud each mix comes out, the first the master volume and the others the aux returns; whether mixes 1 and 2 go through the title;
// and the output kind.
#[derive(Clone, Copy)]
pub struct Mixer {
    pub volume: [f32; MIX_COUNT],
    pub aux: [bool; 2],
    pub output: Output,
}

// The state before the first frame. By hand, since the fact of a derive would not name `default_mixer`.
impl Default for Mixer {
    ghost is_default = { λ m. m ≡ default_mixer };

    fn default() -> Mixer {
        Mixer {
            volume: [0.0; MIX_COUNT],
            aux: [false; 2],
            output: Output::Stereo,
        }
    }
}
