// The voices that a call refused, which it gives back as a list.
ghost use Rattle.std.specs.Prelude.{◌≡◌, ◌+◌, ◌≤◌, ◌<◌, [], ◌∷◌, ◌++◌, length};
ghost use Rattle.refusals.specs.Numbers.{number_of};
ghost use Rattle.refusals.specs.declared.Refusal.TheVariants.{QueueFull};
ghost use Rattle.stems.specs.Memory.{VOICES};
ghost use Rattle.calls.specs.Refused.{refusals_of, refused_after};

use crate::voice_number::VoiceNumber;
use numbers::sizes;
use refusals::Refusal;
use std::marker::Model;

pub const VOICES: usize = sizes::VOICES;

// A voice that was refused, and why.
#[derive(Clone, Copy, PartialEq, Eq, Debug)]
pub struct RefusedVoice {
    pub voice: u8,
    pub refusal: Refusal,
}

// What stands in the places of a list that hold no voice.
impl Default for RefusedVoice {
    ghost is_default = { λ r. (r.voice ≡ 0) × (r.refusal ≡ QueueFull) };

    fn default() -> RefusedVoice {
        RefusedVoice {
            voice: 0,
            refusal: Refusal::QueueFull,
        }
    }
}

// The refused voices, in the order in which they were refused. The list is a struct of its own, since the kit's lists of fixed room are
// no `Copy`.
#[derive(Clone, Copy)]
pub struct Refused {
    places: [RefusedVoice; VOICES],
    count: usize,
}

impl Model for Refused {
    ghost use Rattle.std.specs.Prelude.{◌≡◌, ◌≤◌, length, take};
    ghost use Rattle.std.proofs.Common.{arith, sym, length-take-le};
    ghost use Rattle.stems.specs.Memory.{VOICES};
    ghost use Rattle.calls.specs.Places.{Items, padded};

    ghost Value = { Items };

    ghost view = { λ r. record { items = take r.count r.places } };

    ghost invariant = { λ r. (r.count ≤ VOICES) × (length r.places ≡ VOICES) × (r.places ≡ padded (take r.count r.places)) };

    ghost inverse = { λ list. record { places = padded list.items; count = length list.items } };

    ghost inverse_ok = { λ r h i. record {
      places = sym h.2 i;
      count = length-take-le r.count r.places (omega (arith, h.0, h.1)) i;
    } };
}

impl Refused {
    // A list of no voice.
    pub fn new() -> Refused
        ensures { result.items ≡ [] }
    {
        Refused {
            places: [RefusedVoice::default(); VOICES],
            count: 0,
        }
    }

    // How many voices are listed.
    pub fn len(&self) -> usize
        ensures number { result ≡ length self.now.items }
        ensures most { result ≤ VOICES }
    {
        self.as_slice().len()
    }

    // The voices listed.
    pub fn as_slice(&self) -> &[RefusedVoice]
        ensures voices { result.now ≡ self.now.items }
        ensures most { length result.now ≤ VOICES }
    {
        &self.places[..self.count]
    }

    // Lists a voice behind the others.
    pub fn push(&mut self, voice: RefusedVoice)
        requires { length self.old.items < VOICES }
        ensures { self.new.items ≡ self.old.items ++ voice ∷ [] }
    {
        self.places[self.count] = voice;
        self.count += 1;
    }
}

// Lists a voice behind the others if its turn refused it.
pub fn note(refused: &mut Refused, voice: VoiceNumber, outcome: Result<(), Refusal>)
    requires { length refused.old.items < VOICES }
    ensures few { length refused.new.items ≤ length refused.old.items + 1 }
    ensures items { refusals_of refused.new.items ≡ refused_after voice.number (number_of outcome) (refusals_of refused.old.items) }
{
    if let Err(refusal) = outcome {
        refused.push(RefusedVoice {
            voice: voice.number as u8,
            refusal,
        });
    }
}
