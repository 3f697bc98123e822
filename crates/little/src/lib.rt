// Numbers in lent bytes: little-endian halves and words, signed halves, and the DSP's dsp32, a word with its higher half first. Reading
// takes bytes and a place and gives the number; writing stores its bytes there and leaves every other byte. Nothing is refused: each
// function asks that the bytes from the place on lie in the slice, which the caller knows from an accepted layout. A size has a function of
// its own: one generic function over type and size would be no plainer at its calls, `read::<u16, 2>(s, at)` for `read16(s, at)`.
#![tactic(auto)]

ghost use Rattle.std.specs.Prelude.{◌≡◌, ◌+◌, ◌*◌, ◌/◌, ◌%◌, ◌≤◌, length};
ghost use Rattle.lists.specs.Splice.{part, splice};
ghost use Rattle.numbers.specs.Wrap.{signed16};
ghost use Rattle.little.specs.Little.{at16, signed_halves, at32, at_dsp32, bytes16, bytes32, dsp32_bytes};

// The 16-bit number at a place.
pub fn read16(s: &[u8], at: usize) -> u16
    requires { at + 2 ≤ length s.now }
    ensures { result ≡ at16 s.now at }
{
    u16::from_le_bytes([s[at], s[at + 1]])
}

// The signed 16-bit number at a place.
pub fn signed_at(s: &[u8], at: usize) -> i16
    requires { at + 2 ≤ length s.now }
    ensures { result ≡ signed16 (at16 s.now at) }
{
    read16(s, at).cast_signed()
}

// The signed 16-bit numbers that the bytes begin with, as many as the array holds.
pub fn signed_halves<const N: usize>(bytes: &[u8]) -> [i16; N]
    requires { N * 2 ≤ length bytes.now }
    ensures { result ≡ signed_halves N bytes.now }
{
    std::array::from_fn(|i| signed_at(bytes, i * 2))
}

// The 32-bit number at a place.
pub fn read32(s: &[u8], at: usize) -> u32
    requires { at + 4 ≤ length s.now }
    ensures { result ≡ at32 s.now at }
{
    u32::from_le_bytes([s[at], s[at + 1], s[at + 2], s[at + 3]])
}

// A number with its halves exchanged.
fn exchanged(n: u32) -> u32
    ensures { result ≡ n % 65536 * 65536 + n / 65536 }
{
    n.rotate_left(16)
}

// The 32-bit number at a place, as the DSP stores it.
pub fn read_dsp32(s: &[u8], at: usize) -> u32
    requires { at + 4 ≤ length s.now }
    ensures { result ≡ at_dsp32 s.now at }
{
    exchanged(read32(s, at))
}

// N values of a slice, from a place on.
pub fn part_at<T, const N: usize>(values: &[T], at: usize) -> &[T; N]
    requires { at + N ≤ length values.now }
    ensures { result.now ≡ part at N values.now }
{
    values[at..at + N].as_array().unwrap()
}

// Stores bytes at a place; every other byte stays.
pub fn put(s: &mut [u8], at: usize, bytes: &[u8])
    requires { at + length bytes.now ≤ length s.old }
    ensures { s.new ≡ splice s.old at bytes.now }
{
    let end = at + bytes.len();
    s[at..end].copy_from_slice(bytes);
}

// Stores a 16-bit number at a place.
pub fn write16(s: &mut [u8], at: usize, value: u16)
    requires { at + 2 ≤ length s.old }
    ensures { s.new ≡ splice s.old at (bytes16 value) }
{
    put(s, at, &value.to_le_bytes());
}

// Stores a 32-bit number at a place.
pub fn write32(s: &mut [u8], at: usize, value: u32)
    requires { at + 4 ≤ length s.old }
    ensures { s.new ≡ splice s.old at (bytes32 value) }
{
    put(s, at, &value.to_le_bytes());
}

// Stores a 32-bit number at a place, as the DSP has it.
pub fn write_dsp32(s: &mut [u8], at: usize, value: u32)
    requires { at + 4 ≤ length s.old }
    ensures { s.new ≡ splice s.old at (dsp32_bytes value) }
{
    write32(s, at, exchanged(value));
}
