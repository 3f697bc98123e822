// How a call begins that is not refused, and what it carries from voice to voice.
ghost use Rattle.std.specs.Prelude.{◌≡◌, [], length};
ghost use Rattle.stems.specs.Call.{no_mixes};
ghost use Rattle.calls.specs.Begin.{Counted, is_second, second_of};

use crate::refused::Refused;
use little::read16;
use numbers::sizes::MIXES;
use region::{Region, current_region};
use stems::Fixed;

// What a call carries from voice to voice: the region that is read, and the voices refused so far.
#[derive(Clone, Copy)]
pub struct Turn {
    pub read: Region,
    pub refused: Refused,
}

// Sets the mixes to 0, and chooses the region to be read, once for the call. No voice is refused yet.
pub fn begin(fixed: Fixed, region0: &[u8], region1: &[u8], mixes: &mut [i32; MIXES]) -> Turn
    requires { Counted fixed (length region0.now) (length region1.now) }
    ensures region { is_second result.read ≡ second_of fixed region0.now region1.now }
    ensures refused { result.refused.items ≡ [] }
    ensures mixes { mixes.new ≡ no_mixes }
{
    mixes.fill(0);
    let at = fixed.layout.frame_counter as usize;
    Turn {
        read: current_region(read16(region0, at), read16(region1, at)),
        refused: Refused::new(),
    }
}
