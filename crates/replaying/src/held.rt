// A value that stands in bytes, and in which ones: a number little-endian, a float by its bits, of which all that are not a number have the
// same, and a mark as a byte that is on unless it is 0. What reads or puts such values says which.
ghost use Rattle.std.specs.Prelude.{◌≡◌, ◌<◌, ◌≤◌, ◌==◌, ℕ, List, [], ◌∷◌, ◌++◌, length, drop, replicate, slice_index};
ghost use Rattle.std.specs.Prelude.{not, to_bits, from_bits, refl};
ghost use Rattle.std.specs.Int.{w16, w32, w64, from_bool, cast_signed, cast_unsigned, from_le_bytes, to_le_bytes};
ghost use Rattle.std.proofs.Common.{lit<, lit≤};
ghost use lib.Ieee.{binary32, binary64};
ghost use Rattle.replaying.specs.Stored.{front_of, read_over};

use std::num::{
    f32_from_bits_with_nan, f32_to_bits_with_nan, f64_from_bits_with_nan, f64_to_bits_with_nan,
};

pub trait Held<const N: usize>: Copy {
    // how many bytes there are: one at the least, and eight at the most
    ghost some: { 0 < N };

    ghost few: { N ≤ 8 };

    // the value that bytes hold, and the bytes that hold a value
    ghost held: { List ℕ → Self };

    ghost bytes_of: { Self → List ℕ };

    fn of(bytes: [u8; N]) -> Self
        ensures { result ≡ held bytes.entry };

    fn stored(self) -> [u8; N]
        ensures { result ≡ bytes_of self };

    ghost wide: { (x : Self) → length (bytes_of x) ≡ N };
}

// The value that the bytes begin with, or that of zeros where they are too few.
pub fn read<const N: usize, T: Held<N>>(bytes: &[u8]) -> T
    ensures { result ≡ T.held (front_of N bytes.now) }
{
    T::of(*bytes.first_chunk::<N>().unwrap_or(&[0; N]))
}

// Puts a value where the bytes begin, or nothing where they are too few.
pub fn put<const N: usize, T: Held<N>>(value: T, bytes: &mut [u8])
    ensures room { N ≤ length bytes.old → bytes.new ≡ T.bytes_of value ++ drop N bytes.old }
    ensures none { length bytes.old < N → bytes.new ≡ bytes.old }
{
    if N <= bytes.len() {
        bytes[..N].copy_from_slice(&value.stored());
    }
}

// Reads values one after the other, as many as both have.
pub fn read_each<const N: usize, T: Held<N>>(bytes: &[u8], values: &mut [T])
    ensures { values.new ≡ read_over T.held N bytes.now values.old }
{
    let (parts, _) = bytes.as_chunks::<N>();
    let count = parts.len().min(values.len());
    for (i, part) in parts[..count].iter().enumerate() {
        values[i] = T::of(*part);
    }
}

// The first K values, those of zeros for what the bytes do not have.
pub fn read_array<const N: usize, const K: usize, T: Held<N>>(bytes: &[u8]) -> [T; K]
    ensures { result ≡ read_over T.held N bytes.now (replicate K (T.held (replicate N 0))) }
{
    let mut values = [T::of([0; N]); K];
    read_each::<N, T>(bytes, &mut values);
    values
}

// Puts values one after the other, as many as both have.
pub fn put_each<const N: usize, T: Held<N>>(values: &[T], bytes: &mut [u8]) {
    let (parts, _) = bytes.as_chunks_mut::<N>();
    for (part, value) in parts.iter_mut().zip(values) {
        *part = value.stored();
    }
}

impl Held<1> for bool {
    ghost some = { lit< tt };

    ghost few = { lit≤ tt };

    ghost held = { λ bytes. not (slice_index bytes 0 == 0) };

    ghost bytes_of = { λ x. from_bool x ∷ [] };

    ghost wide = { λ x. refl };

    fn of(bytes: [u8; 1]) -> bool
        ensures { result ≡ not (slice_index bytes 0 == 0) }
    {
        bytes[0] != 0
    }

    fn stored(self) -> [u8; 1]
        ensures { result ≡ from_bool self ∷ [] }
    {
        [u8::from(self)]
    }
}

impl Held<2> for u16 {
    ghost some = { lit< tt };

    ghost few = { lit≤ tt };

    ghost held = { from_le_bytes w16 };

    ghost bytes_of = { to_le_bytes w16 };

    ghost wide = { λ x. refl };

    fn of(bytes: [u8; 2]) -> u16
        ensures { result ≡ from_le_bytes w16 bytes }
    {
        u16::from_le_bytes(bytes)
    }

    fn stored(self) -> [u8; 2]
        ensures { result ≡ to_le_bytes w16 self }
    {
        self.to_le_bytes()
    }
}

impl Held<2> for i16 {
    ghost some = { lit< tt };

    ghost few = { lit≤ tt };

    ghost held = { λ bytes. cast_signed w16 (from_le_bytes w16 bytes) };

    ghost bytes_of = { λ x. to_le_bytes w16 (cast_unsigned w16 x) };

    ghost wide = { λ x. refl };

    fn of(bytes: [u8; 2]) -> i16
        ensures { result ≡ cast_signed w16 (from_le_bytes w16 bytes) }
    {
        i16::from_le_bytes(bytes)
    }

    fn stored(self) -> [u8; 2]
        ensures { result ≡ to_le_bytes w16 (cast_unsigned w16 self) }
    {
        self.to_le_bytes()
    }
}

impl Held<4> for u32 {
    ghost some = { lit< tt };

    ghost few = { lit≤ tt };

    ghost held = { from_le_bytes w32 };

    ghost bytes_of = { to_le_bytes w32 };

    ghost wide = { λ x. refl };

    fn of(bytes: [u8; 4]) -> u32
        ensures { result ≡ from_le_bytes w32 bytes }
    {
        u32::from_le_bytes(bytes)
    }

    fn stored(self) -> [u8; 4]
        ensures { result ≡ to_le_bytes w32 self }
    {
        self.to_le_bytes()
    }
}

impl Held<4> for i32 {
    ghost some = { lit< tt };

    ghost few = { lit≤ tt };

    ghost held = { λ bytes. cast_signed w32 (from_le_bytes w32 bytes) };

    ghost bytes_of = { λ x. to_le_bytes w32 (cast_unsigned w32 x) };

    ghost wide = { λ x. refl };

    fn of(bytes: [u8; 4]) -> i32
        ensures { result ≡ cast_signed w32 (from_le_bytes w32 bytes) }
    {
        i32::from_le_bytes(bytes)
    }

    fn stored(self) -> [u8; 4]
        ensures { result ≡ to_le_bytes w32 (cast_unsigned w32 self) }
    {
        self.to_le_bytes()
    }
}

impl Held<8> for u64 {
    ghost some = { lit< tt };

    ghost few = { lit≤ tt };

    ghost held = { from_le_bytes w64 };

    ghost bytes_of = { to_le_bytes w64 };

    ghost wide = { λ x. refl };

    fn of(bytes: [u8; 8]) -> u64
        ensures { result ≡ from_le_bytes w64 bytes }
    {
        u64::from_le_bytes(bytes)
    }

    fn stored(self) -> [u8; 8]
        ensures { result ≡ to_le_bytes w64 self }
    {
        self.to_le_bytes()
    }
}

impl Held<4> for f32 {
    ghost some = { lit< tt };

    ghost few = { lit≤ tt };

    ghost held = { λ bytes. from_bits binary32 (from_le_bytes w32 bytes) };

    ghost bytes_of = { λ x. to_le_bytes w32 (to_bits binary32 x) };

    ghost wide = { λ x. refl };

    fn of(bytes: [u8; 4]) -> f32
        ensures { result ≡ from_bits binary32 (from_le_bytes w32 bytes) }
    {
        f32_from_bits_with_nan(u32::from_le_bytes(bytes))
    }

    fn stored(self) -> [u8; 4]
        ensures { result ≡ to_le_bytes w32 (to_bits binary32 self) }
    {
        f32_to_bits_with_nan(self).to_le_bytes()
    }
}

impl Held<8> for f64 {
    ghost some = { lit< tt };

    ghost few = { lit≤ tt };

    ghost held = { λ bytes. from_bits binary64 (from_le_bytes w64 bytes) };

    ghost bytes_of = { λ x. to_le_bytes w64 (to_bits binary64 x) };

    ghost wide = { λ x. refl };

    fn of(bytes: [u8; 8]) -> f64
        ensures { result ≡ from_bits binary64 (from_le_bytes w64 bytes) }
    {
        f64_from_bits_with_nan(u64::from_le_bytes(bytes))
    }

    fn stored(self) -> [u8; 8]
        ensures { result ≡ to_le_bytes w64 (to_bits binary64 self) }
    {
        f64_to_bits_with_nan(self).to_le_bytes()
    }
}

#[cfg(test)]
mod tests {
    use super::*;

    #[test]
    fn values_come_back(rt: HostRuntime) {
        let mut bytes = [0u8; 14];
        put_each(&[1.5f32, -2.0], &mut bytes);
        put_each(&[-3i16, 4], &mut bytes[8..]);
        put(true, &mut bytes[12..]);
        let [first, second] = read_array::<4, 2, f32>(&bytes);
        assert!(rt; first == 1.5 && second == -2.0);
        let [third, fourth] = read_array::<2, 2, i16>(&bytes[8..]);
        assert!(rt; third == -3 && fourth == 4);
        let mark: bool = read(&bytes[12..]);
        assert!(rt; mark && bytes[13] == 0);
    }

    #[test]
    fn too_few_bytes(rt: HostRuntime) {
        let [first, second] = read_array::<4, 2, u32>(&[1, 0, 0, 0, 9]);
        assert!(rt; first == 1 && second == 0);
        let mut bytes = [7u8; 3];
        put(5u32, &mut bytes);
        assert!(rt; bytes[0] == 7);
    }
}
