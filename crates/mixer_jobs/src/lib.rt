// Test only: a call of the mixer, all that it is lent in bytes. `answer` takes a job's part and gives its answer, or none where the part
// has not the form. Numbers are little-endian, words have 32 bits. The part has 596 bytes:
//   0  the state, 16 bytes, as mixer_forms has it
//  16  the layout's seven offsets as words, in document 01's order
//  44  words: how long regions 0 and 1 are, 65,537 at most; how many values the mixes have, 1,921 at most; the region number
//  60  the byte that fills region 0, the one that fills region 1, two zeros
//  64  the mixer's configuration, 44 bytes
// 108  61 words, which the intermediate samples repeat
// 352  61 words, which the mixes repeat
// A region is the first of 65,537 bytes. Configuration and intermediate samples are put at their places in those of region 0, or of
// region 1 if the region number is not 0, each if it ends within them. The answer has 668 bytes:
//   0  the number, three zeros
//   4  the state
//  20  the frame
// 660  a sum over every byte of region 0, and one of region 1, as words
#![tactic(auto)]

ghost use Rattle.std.specs.Prelude.{◌<◌, ◌≤◌, ◌^◌};

use fields::mixer_config::CONFIG_SIZE;
use mixer::tick::{Mixed, tick};
use mixer_forms::{layout_of, put_frame, put_state, state_of};
use numbers::sizes::{MIX, MIXES};
use refusals::answered;
use replaying::held::{put_each, read, read_array};
use replaying::sum;

const PART: usize = 596;

pub const ANSWER: usize = 668;

const MOST_BYTES: usize = 65537;

// One value more than the mixes have.
const MOST_VALUES: usize = MIXES + 1;

// The values of two mixes, of four bytes each.
const INTERMEDIATE: usize = 2 * MIX * 4;

const WORDS: usize = 61;

const WORD_BYTES: usize = WORDS * 4;

fn size_at(part: &[u8; PART], at: usize) -> usize
    requires { at ≤ 596 }
    ensures { result < 2 ^ 32 }
{
    read::<4, u32>(&part[at..]) as usize
}

fn mixes_of(part: &[u8; PART]) -> [i32; MOST_VALUES] {
    let words: [i32; WORDS] = read_array(&part[352..]);
    std::array::from_fn(|i| words[i % WORDS])
}

fn intermediate_of(part: &[u8; PART]) -> [u8; INTERMEDIATE] {
    let words = &part[108..352];
    std::array::from_fn(|i| words[i % WORD_BYTES])
}

// Puts bytes at a place of a region, if they end within it.
fn put_at<const N: usize>(bytes: &[u8; N], at: usize, region: &mut [u8; MOST_BYTES])
    requires { at < 2 ^ 32 }
{
    if let Some(place) = region.get_mut(at..at + N) {
        place.copy_from_slice(bytes);
    }
}

// Puts the configuration and the intermediate samples into the region that is read.
fn put_read(part: &[u8; PART], region: &mut [u8; MOST_BYTES]) {
    let configuration = part[64..].first_chunk::<CONFIG_SIZE>().unwrap();
    put_at(configuration, size_at(part, 32), region);
    put_at(&intermediate_of(part), size_at(part, 40), region);
}

fn answer_of(mixed: Mixed, first: &[u8], second: &[u8]) -> [u8; ANSWER] {
    let mut answer = [0u8; ANSWER];
    answer[0] = answered(mixed.outcome);
    put_state(mixed.mixer, &mut answer, 4);
    put_frame(&mixed.frame, &mut answer, 20);
    let sums = [sum(first), sum(second)];
    put_each(&sums, &mut answer[660..]);
    answer
}

// Makes the call on regions of so many bytes, with so many values for mixes.
fn call(part: &[u8; PART], one: usize, two: usize, many: usize) -> [u8; ANSWER]
    requires one_bound { one ≤ MOST_BYTES }
    requires two_bound { two ≤ MOST_BYTES }
    requires many_bound { many ≤ MOST_VALUES }
{
    let mut first = [part[60]; MOST_BYTES];
    let mut second = [part[61]; MOST_BYTES];
    let which = read(&part[56..]);
    if which == 0 {
        put_read(part, &mut first);
    } else {
        put_read(part, &mut second);
    }
    let values = mixes_of(part);
    let first = &mut first[..one];
    let second = &mut second[..two];
    let mixed = tick(
        state_of(part),
        layout_of(part, 16),
        which,
        first,
        second,
        &values[..many],
    );
    answer_of(mixed, first, second)
}

// The sizes are tested before any memory is filled.
pub fn answer(part: &[u8]) -> Option<[u8; ANSWER]> {
    let part = part.as_array::<PART>()?;
    let one = size_at(part, 44);
    let two = size_at(part, 48);
    let many = size_at(part, 52);
    if one > MOST_BYTES || two > MOST_BYTES || many > MOST_VALUES {
        return None;
    }
    Some(call(part, one, two, many))
}
