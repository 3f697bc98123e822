// A value that stands in bytes, of which nothing says in which ones: a clause of the trait would ask every type for an answer. Each type of
// `held` is one.
ghost use Rattle.std.specs.Prelude.{◌≡◌, ◌<◌, ◌≤◌, ◌==◌, [], ◌∷◌, not, slice_index, to_bits, from_bits};
ghost use Rattle.std.specs.Int.{w16, w32, w64, from_bool, cast_signed, cast_unsigned, from_le_bytes, to_le_bytes};
ghost use Rattle.std.proofs.Common.{lit<, lit≤};
ghost use lib.Ieee.{binary32, binary64};

use crate::held::Held;

pub trait InBytes<const N: usize>: Copy {
    // how many bytes there are: one at the least, and eight at the most
    ghost some: { 0 < N };

    ghost few: { N ≤ 8 };

    fn of(bytes: [u8; N]) -> Self;

    fn stored(self) -> [u8; N];
}

impl InBytes<1> for bool {
    ghost some = { lit< tt };

    ghost few = { lit≤ tt };

    fn of(bytes: [u8; 1]) -> bool
        ensures { result ≡ not (slice_index bytes 0 == 0) }
    {
        Held::of(bytes)
    }

    fn stored(self) -> [u8; 1]
        ensures { result ≡ from_bool self ∷ [] }
    {
        Held::stored(self)
    }
}

impl InBytes<2> for u16 {
    ghost some = { lit< tt };

    ghost few = { lit≤ tt };

    fn of(bytes: [u8; 2]) -> u16
        ensures { result ≡ from_le_bytes w16 bytes }
    {
        Held::of(bytes)
    }

    fn stored(self) -> [u8; 2]
        ensures { result ≡ to_le_bytes w16 self }
    {
        Held::stored(self)
    }
}

impl InBytes<2> for i16 {
    ghost some = { lit< tt };

    ghost few = { lit≤ tt };

    fn of(bytes: [u8; 2]) -> i16
        ensures { result ≡ cast_signed w16 (from_le_bytes w16 bytes) }
    {
        Held::of(bytes)
    }

    fn stored(self) -> [u8; 2]
        ensures { result ≡ to_le_bytes w16 (cast_unsigned w16 self) }
    {
        Held::stored(self)
    }
}

impl InBytes<4> for u32 {
    ghost some = { lit< tt };

    ghost few = { lit≤ tt };

    fn of(bytes: [u8; 4]) -> u32
        ensures { result ≡ from_le_bytes w32 bytes }
    {
        Held::of(bytes)
    }

    fn stored(self) -> [u8; 4]
        ensures { result ≡ to_le_bytes w32 self }
    {
        Held::stored(self)
    }
}

impl InBytes<4> for i32 {
    ghost some = { lit< tt };

    ghost few = { lit≤ tt };

    fn of(bytes: [u8; 4]) -> i32
        ensures { result ≡ cast_signed w32 (from_le_bytes w32 bytes) }
    {
        Held::of(bytes)
    }

    fn stored(self) -> [u8; 4]
        ensures { result ≡ to_le_bytes w32 (cast_unsigned w32 self) }
    {
        Held::stored(self)
    }
}

impl InBytes<8> for u64 {
    ghost some = { lit< tt };

    ghost few = { lit≤ tt };

    fn of(bytes: [u8; 8]) -> u64
        ensures { result ≡ from_le_bytes w64 bytes }
    {
        Held::of(bytes)
    }

    fn stored(self) -> [u8; 8]
        ensures { result ≡ to_le_bytes w64 self }
    {
        Held::stored(self)
    }
}

impl InBytes<4> for f32 {
    ghost some = { lit< tt };

    ghost few = { lit≤ tt };

    fn of(bytes: [u8; 4]) -> f32
        ensures { result ≡ from_bits binary32 (from_le_bytes w32 bytes) }
    {
        Held::of(bytes)
    }

    fn stored(self) -> [u8; 4]
        ensures { result ≡ to_le_bytes w32 (to_bits binary32 self) }
    {
        Held::stored(self)
    }
}

impl InBytes<8> for f64 {
    ghost some = { lit< tt };

    ghost few = { lit≤ tt };

    fn of(bytes: [u8; 8]) -> f64
        ensures { result ≡ from_bits binary64 (from_le_bytes w64 bytes) }
    {
        Held::of(bytes)
    }

    fn stored(self) -> [u8; 8]
        ensures { result ≡ to_le_bytes w64 (to_bits binary64 self) }
    {
        Held::stored(self)
    }
}
