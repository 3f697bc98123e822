// Test only: what the programs that replay the oracle's answers share: values that stand in bytes one after the other, those that say how
// (`held`) and any (`stored`), and a sum. Nothing is refused: what one side has too few of, the other keeps.
#![tactic(auto)]

pub mod answering;
pub mod held;
pub mod stored;

ghost use Rattle.std.specs.Prelude.{◌≡◌, ◌<◌, ◌≤◌, ℕ, length, fold};
ghost use Rattle.std.proofs.Common.{lit<, lit≤};
ghost use Rattle.replaying.specs.Stored.{with_place};

use stored::InBytes;

// The value that the bytes begin with, or that of zeros where they are too few.
pub fn read<const N: usize, T: InBytes<N>>(bytes: &[u8]) -> T {
    T::of(*bytes.first_chunk::<N>().unwrap_or(&[0; N]))
}

// Puts a value where the bytes begin, or nothing where they are too few.
pub fn put<const N: usize, T: InBytes<N>>(value: T, bytes: &mut [u8])
    ensures none { length bytes.old < N → bytes.new ≡ bytes.old }
{
    if N <= bytes.len() {
        bytes[..N].copy_from_slice(&value.stored());
    }
}

// Reads values one after the other, as many as both have.
pub fn read_each<const N: usize, T: InBytes<N>>(bytes: &[u8], values: &mut [T]) {
    let (parts, _) = bytes.as_chunks::<N>();
    for (value, part) in values.iter_mut().zip(parts) {
        *value = T::of(*part);
    }
}

// The first K values, those of zeros for what the bytes do not have.
pub fn read_array<const N: usize, const K: usize, T: InBytes<N>>(bytes: &[u8]) -> [T; K] {
    let mut values = [T::of([0; N]); K];
    read_each::<N, T>(bytes, &mut values);
    values
}

// Puts values one after the other, as many as both have.
pub fn put_each<const N: usize, T: InBytes<N>>(values: &[T], bytes: &mut [u8]) {
    let (parts, _) = bytes.as_chunks_mut::<N>();
    for (part, value) in parts.iter_mut().zip(values) {
        *part = value.stored();
    }
}

// The sum so far, with one word more.
fn with_place(total: u32, word: u32) -> u32
    ensures { result ≡ with_place total word }
{
    total.wrapping_mul(31).wrapping_add(word)
}

// A sum in which every byte and its place count.
pub fn sum(bytes: &[u8]) -> u32
    ensures { result ≡ fold with_place 0 bytes.now }
{
    bytes
        .iter()
        .fold(0, |total, byte| with_place(total, u32::from(*byte)))
}

// The same of values, each by its word.
pub fn sum_of<T: Copy, F: Fn(T) -> u32>(values: &[T], word: F) -> u32
    requires { F.IsAlwaysCallable word }
    ensures { (h : T → ℕ) → ((x : T) (r : ℕ) → F.post word x r → r ≡ h x)
        → result ≡ fold (λ total x. with_place total (h x)) 0 values.now }
{
    values
        .iter()
        .fold(0, |total, value| with_place(total, word(*value)))
}

#[cfg(test)]
mod tests {
    use super::*;

    // a type that says nothing of its bytes
    #[derive(Clone, Copy)]
    struct Pair(u8, u8);

    impl InBytes<2> for Pair {
        ghost some = { lit< tt };

        ghost few = { lit≤ tt };

        fn of(bytes: [u8; 2]) -> Pair {
            Pair(bytes[1], bytes[0])
        }

        fn stored(self) -> [u8; 2] {
            [self.1, self.0]
        }
    }

    #[test]
    fn any_type_stands_in_bytes(rt: HostRuntime) {
        let mut bytes = [0u8; 6];
        put(Pair(1, 2), &mut bytes);
        put_each(&[Pair(3, 4), Pair(5, 6)], &mut bytes[2..]);
        let first: Pair = read(&bytes);
        assert!(rt; first.0 == 1 && first.1 == 2 && bytes[0] == 2);
        let [_, last]: [Pair; 2] = read_array(&bytes[2..]);
        assert!(rt; last.0 == 5 && last.1 == 6);
        let mut pairs = [Pair(0, 0); 4];
        read_each(&bytes, &mut pairs);
        assert!(rt; pairs[1].0 == 3 && pairs[2].1 == 6 && pairs[3].0 == 0);
        let half: u16 = read(&bytes);
        assert!(rt; half == 0x0102);
    }

    #[test]
    fn places_count(rt: HostRuntime) {
        assert!(rt; sum(&[1, 2]) == 33 && sum(&[2, 1]) == 63);
        assert!(rt; sum_of(&[0i32, -1], i32::cast_unsigned) == u32::MAX);
    }
}
