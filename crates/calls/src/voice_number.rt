// A voice's number, by which its own parts are found in all that is lent.
ghost use Rattle.std.specs.Prelude.{◌<◌};
ghost use Rattle.stems.specs.Memory.{VOICES};

// The number of one of the voices.
#[derive(Clone, Copy)]
pub struct VoiceNumber {
    pub number: usize,
    ghost is_voice: { number < VOICES },
}
