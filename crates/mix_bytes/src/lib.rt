// Of module 7, mixes and final samples as bytes in a region, little-endian. `read_mix` takes a mix from the bytes that a title returned;
// `put_values` writes a mix, or the final samples, at a place. Nothing is refused: that the place lies in the region is required, which
// the mixer's call knows from an accepted layout.
#![tactic(auto)]

pub mod sizes;

ghost use Rattle.std.specs.Prelude.{◌≡◌, refl, ℕ, List, ◌+◌, ◌*◌, ◌≤◌, ◌<◌, length};
ghost use mathlib.Core.List.{flat_map};
ghost use Rattle.lists.specs.Splice.{splice};
ghost use Rattle.numbers.specs.Wrap.{signed32};
ghost use Rattle.numbers.specs.Sizes.{MIX};
ghost use Rattle.little.specs.Little.{at32};
ghost use Rattle.mix_bytes.specs.Mixes.{words_in, word_of, half_of};

use crate::sizes::AUX_BYTES;
use numbers::sizes::MIX;

// A number that stands in N bytes of a region, the lowest first.
pub trait Stored<const N: usize>: Copy {
    ghost bytes_of: { Self → List ℕ };

    fn stored(self) -> [u8; N]
        ensures { result ≡ bytes_of self };

    ghost wide: { (x : Self) → length (bytes_of x) ≡ N };
}

// A value of a mix.
impl Stored<4> for i32 {
    ghost bytes_of = { word_of };

    ghost wide = { λ x. refl };

    fn stored(self) -> [u8; 4] {
        self.to_le_bytes()
    }
}

// A final sample.
impl Stored<2> for i16 {
    ghost bytes_of = { half_of };

    ghost wide = { λ x. refl };

    fn stored(self) -> [u8; 2] {
        self.to_le_bytes()
    }
}

// Value i of the mix that bytes hold.
fn word_at(bytes: &[u8; AUX_BYTES], i: usize) -> i32
    requires { i < MIX }
    ensures { result ≡ signed32 (at32 bytes.now (i * 4)) }
{
    little::read32(bytes, i * 4).cast_signed()
}

// Reads what a title made of a mix.
pub fn read_mix(bytes: &[u8; AUX_BYTES]) -> [i32; MIX]
    ensures { result ≡ words_in bytes.now }
{
    std::array::from_fn(|i| word_at(bytes, i))
}

// Writes the bytes of each value in turn, at a place and not through `as_chunks_mut`, which tells nothing of what the bytes end as.
fn write_values<T: Stored<N>, const N: usize>(values: &[T], bytes: &mut [u8])
    requires { length values.now * N ≡ length bytes.old }
    ensures { bytes.new ≡ flat_map T.bytes_of values.now }
{
    for (i, value) in values.iter().enumerate() {
        little::put(bytes, i * N, &value.stored());
    }
}

// Puts values at their place in a region.
pub fn put_values<T: Stored<N>, const N: usize>(values: &[T], region: &mut [u8], at: usize)
    requires { at + length values.now * N ≤ length region.old }
    ensures { region.new ≡ splice region.old at (flat_map T.bytes_of values.now) }
{
    write_values(values, &mut region[at..at + values.len() * N]);
}

#[cfg(test)]
mod tests {
    use super::*;

    // Both kinds of values, as their own bytes and nothing else.
    #[test]
    fn values_stand_at_their_place(rt: HostRuntime) {
        let mut region = [9u8; 6];
        put_values(&[-2i16, 0x102], &mut region, 1);
        assert_eq!(rt; region, [9, 254, 255, 2, 1, 9]);
        put_values(&[-3i32], &mut region, 2);
        assert_eq!(rt; region, [9, 254, 253, 255, 255, 255]);
    }
}
