// The bits of a dirty word, which say which fields a title changed.
ghost use Rattle.std.specs.Prelude.{◌≡◌, ◌<◌};
ghost use Rattle.fields.specs.Flags.{flagged};

// Whether a bit of a word, given as a power of two, is set. That it is above 0 is asked and in no type: bits are numbers, some of which
// are shifted from others. By division, since any bit above 0 is taken: `word & bit` would say the same
// of a power of two alone.
pub fn flagged(word: u32, bit: u32) -> bool
    requires { 0 < bit }
    ensures { result ≡ flagged word bit }
{
    word / bit % 2 == 1
}
