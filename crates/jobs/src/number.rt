// A call of a function on numbers alone. The part has 28 bytes: a number's kind as number_jobs has it, a word; its operands, three numbers
// of 64 bits. The answer is a number of 64 bits.
use replaying::held::{read, read_array};

const PART: usize = 28;

pub fn answer(part: &[u8]) -> Option<[u8; 8]> {
    let part = part.as_array::<PART>()?;
    let [a, b, c] = read_array::<8, 3, u64>(&part[4..]);
    Some(number_jobs::number(read(part), a, b, c).to_le_bytes())
}
