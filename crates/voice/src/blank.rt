// What stands where something is off or empty, and a voice as it is before anything is set.
ghost use Rattle.std.specs.Prelude.{◌≡◌, cond};
ghost use Rattle.voice.specs.Blank.{default_voice};

use crate::record::{Entry, Format, Interpolation, Voice};
use adpcm::History;
use filters::state::Filters;
use numbers::sizes::{COEFFICIENTS, FRAME, GAINS, MIX_COUNT};

// How many entries a record has room for.
pub const PLACES: usize = 64;

// How many of them may be queued, all of them: two names, since of a lent record more may be counted.
pub const LIMIT: usize = PLACES;

// A value under a mark: it stays where the mark is on, and its blank stands where the mark is off.
pub fn kept_if<T: Copy>(on: bool, value: T, blank: T) -> T
    ensures { result ≡ cond on value blank }
{
    if on { value } else { blank }
}

impl Default for Voice {
    ghost is_default = { λ v. v ≡ default_voice };

    #[tactic(auto, unfolding(crate::specs::Blank::blank_entry, crate::specs::Blank::default_voice))]
    fn default() -> Voice {
        Voice {
            enabled: false,
            sync_count: 0,
            rate: 1.0,
            format: Format::Pcm16,
            interpolation: Interpolation::Polyphase,
            stereo: false,
            filters: Filters::default(),
            gain: [0.0; GAINS],
            has_ramp: [false; MIX_COUNT],
            ramp: [0.0; GAINS],
            coefficients: [0; COEFFICIENTS],
            history: History::default(),
            queue: [Entry::default(); PLACES],
            queued: 0,
            has_playing: false,
            playing: Entry::default(),
            decoded: 0,
            remaining: 0,
            length: 0,
            fraction: 0.0,
            current_buffer_id: 0,
            last_buffer_id: 0,
            buffer_update: false,
            position: 0,
            frame: [0; FRAME],
            ran_out_at_frame_end: false,
        }
    }
}
