// What a voice adds to the mixes.
ghost use Rattle.std.specs.Prelude.{◌≡◌};
ghost use Rattle.voice_frame.specs.VoiceFrame.{parts_of, mixed_with};

use mix_voice::fade::mix_voice;
use numbers::ranged::ranged;
use numbers::sizes::MIXES;
use voice::record::Voice;

// Adds a voice's frame to the mixes, where it is enabled.
pub fn mix_into(v: &Voice, mixes: &mut [i32; MIXES])
    ensures { mixes.new ≡ mixed_with (parts_of v.now) mixes.old }
{
    if v.enabled {
        mix_voice(mixes, &v.frame, &v.gain, &v.ramp, v.has_ramp);
    } else {
        ranged(mixes);
    }
}
