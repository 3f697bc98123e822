// What a flag of the dirty word does to the gains of a mix.
ghost use Rattle.std.specs.Prelude.{◌≡◌, ◌*◌, ◌^◌, ◌<◌};
ghost use Rattle.lists.specs.Tabulate.{tabulate};
ghost use Rattle.numbers.specs.Bits.{gain};
ghost use Rattle.little.specs.Little.{at32};
ghost use Rattle.fields.specs.Fields.{gain_at};
ghost use Rattle.settings.specs.Dirty.{GAIN};
ghost use Rattle.settings.specs.Steps.{gain_step};

use crate::dirty;
use crate::dirty::flag;
use fields::config;
use fields::config::CONFIG_SIZE;
use little::read32;
use numbers::bits::gain_of;
use voice::record::Voice;

// A mix is a number below 3, as in the definitions, and the index of its gains: a type of its own would be turned back into it.

// The four gains of a mix.
fn gains_in(bytes: &[u8; CONFIG_SIZE], mix: usize) -> [f32; 4]
    requires { mix < 3 }
    ensures { result ≡ tabulate (λ channel. gain (at32 bytes.now (gain_at mix channel))) 4 }
{
    std::array::from_fn(|channel| gain_of(read32(bytes, config::GAIN + (mix * 4 + channel) * 4)))
}

// The bit of the dirty word that a mix's gains have.
fn bit_of(mix: usize) -> u32
    requires { mix < 3 }
    ensures bit { result ≡ GAIN * 2 ^ mix }
    ensures some { 0 < result }
{
    dirty::GAIN << mix
}

// The gains so far are kept to fade from.
#[tactic(auto, unfolding(crate::specs::Steps::gain_step))]
pub fn gain_step(mut v: Voice, bytes: &[u8; CONFIG_SIZE], mix: usize) -> Voice
    requires { mix < 3 }
    ensures { result ≡ gain_step bytes.now mix v }
{
    if flag(bytes, bit_of(mix)) {
        let at = mix * 4;
        let old = v.gain;
        v.ramp[at..at + 4].copy_from_slice(&old[at..at + 4]);
        v.gain[at..at + 4].copy_from_slice(&gains_in(bytes, mix));
        v.has_ramp[mix] = true;
    }
    v
}
