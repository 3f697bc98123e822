// Module 2, the ADPCM decoder. `decode_adpcm` takes bytes, a count of samples, 16 coefficients, a history and an output, for any values and
// lengths. It refuses with number 9, and leaves history and output, where the count is over 65,536, the bytes are not the count's whole
// frames, or the output is too short; else it fills the first places of the output and leaves the last two samples in the history. Frames
// of eight bytes are handed on as parts of the bytes, and the part of the output that a frame fills is lent to it. `bytes_of` says how many
// bytes a count's whole frames are.
#![tactic(auto)]

ghost use Rattle.std.specs.Prelude.{◌≡◌, ◌++◌, ◌*◌, ◌/◌, ◌%◌, ◌^◌, ◌+◌, ◌≤◌, ◌<◌, length, take, drop, get_or, pos};
ghost use Rattle.numbers.specs.Within.{Is};
ghost use Rattle.refusals.specs.Numbers.{number_of};
ghost use Rattle.adpcm.specs.Code.{code, first_nibble, second_nibble, codes_by, frame_codes, frames_of, signed_nibble};
ghost use Rattle.adpcm.specs.Code.{sum_of, after, samples_of, history_after, decoded_samples, decoded_history};
ghost use Rattle.adpcm.specs.Sizes.{frame_bytes, frame_samples, most_samples};
ghost use Rattle.adpcm.specs.Adpcm.{sample_of, decode_answer, decode_output};

use numbers::sizes::COEFFICIENTS;
use numbers::whole::{clamped, product, wrapped};
use refusals::Refusal;

// A frame has a header and two nibbles a byte, one for each sample.
pub const FRAME_BYTES: usize = 8;

pub const FRAME_SAMPLES: usize = 14;

pub const MOST_SAMPLES: usize = 65536;

// How many bytes hold so many samples: whole frames, of which the last may not be full.
pub fn bytes_of(samples: usize) -> usize
    ensures { result ≡ frames_of samples * frame_bytes }
{
    samples.div_ceil(FRAME_SAMPLES) * FRAME_BYTES
}

// The last two samples, the newer first, which the next ones follow on from. It is made by the names of its fields, no `From` of two
// numbers, so that which is the newer is read where it is made.
#[derive(Clone, Copy, Default)]
pub struct History {
    pub yn1: i16,
    pub yn2: i16,
}

impl History {
    // Takes a sample more: the newer of the two becomes the older.
    fn push(&mut self, sample: i16)
        ensures { self.new ≡ record { yn1 = sample; yn2 = self.old.yn1 } }
    {
        *self = History {
            yn1: sample,
            yn2: self.yn1,
        };
    }
}

// Four bits of a byte, one sample's part of a frame.
#[derive(Clone, Copy)]
struct Nibble {
    bits: u8,
    ghost four_bits: { bits < 16 },
}

impl Nibble {
    // The one of a byte that comes first.
    fn first(byte: u8) -> Nibble
        ensures { result.bits ≡ first_nibble byte }
    {
        Nibble { bits: byte / 16 }
    }

    fn second(byte: u8) -> Nibble
        ensures { result.bits ≡ second_nibble byte }
    {
        Nibble { bits: byte % 16 }
    }

    fn signed(self) -> i64
        ensures { Is 8 (signed_nibble self.bits) result }
    {
        i64::from((self.bits + 8) % 16) - 8
    }
}

// What the header of a frame says of its samples: the exponent of their scale, and the two coefficients of their predictor.
#[derive(Clone, Copy)]
struct Header {
    exponent: u8,
    c1: i16,
    c2: i16,
    ghost exponent_bound: { exponent < 16 },
}

impl Header {
    fn read(byte: u8, coefficients: &[i16; COEFFICIENTS]) -> Header
        ensures exponent { result.exponent ≡ byte % 16 }
        ensures c1 { result.c1 ≡ get_or coefficients.now (byte / 16 % 8 * 2) (pos 0) }
        ensures c2 { result.c2 ≡ get_or coefficients.now (byte / 16 % 8 * 2 + 1) (pos 0) }
    {
        let predictor = usize::from(byte / 16 % 8);
        Header {
            exponent: byte % 16,
            c1: coefficients[predictor * 2],
            c2: coefficients[predictor * 2 + 1],
        }
    }

    // Two to the exponent.
    fn scale(self) -> i64
        ensures { Is 32768 (pos (2 ^ self.exponent)) result }
    {
        i64::from(1u32 << self.exponent)
    }

    // The sum of a sample's code and the history, as a whole number.
    fn sum(self, nibble: Nibble, h: History) -> i64
        ensures { Is 2684355584 (sum_of h (code self.exponent self.c1 self.c2 nibble.bits)) result }
    {
        let xn = nibble.signed() * self.scale() * 2048;
        xn + 1024 + product(self.c1, h.yn1) + product(self.c2, h.yn2)
    }

    // The sample of a nibble, which the history takes: the sum wrapped, shifted and clamped.
    fn sample(self, nibble: Nibble, history: &mut History) -> i16
        ensures sample { result ≡ sample_of history.old (code self.exponent self.c1 self.c2 nibble.bits) }
        ensures history { history.new ≡
            after sample_of history.old (code self.exponent self.c1 self.c2 nibble.bits) }
    {
        let sample = clamped(wrapped(self.sum(nibble, *history)) >> 11);
        history.push(sample);
        sample
    }

    // Decodes as many samples of the frame as `samples` holds, 14 at most: the two of a byte in a turn, and then the one that may be
    // left. They go by index, since of `chunks_mut` no proof knows what the slice ends as.
    fn decode(self, frame: &[u8; FRAME_BYTES], history: &mut History, samples: &mut [i16])
        requires { length samples.old ≤ frame_samples }
        ensures samples { samples.new ≡
            samples_of sample_of history.old (take (length samples.old) (codes_by self.exponent self.c1 self.c2 frame.now)) }
        ensures history { history.new ≡
            history_after sample_of history.old (take (length samples.old) (codes_by self.exponent self.c1 self.c2 frame.now)) }
    {
        let pairs = samples.len() / 2;
        for i in 0..pairs {
            let byte = frame[i + 1];
            samples[i * 2] = self.sample(Nibble::first(byte), history);
            samples[i * 2 + 1] = self.sample(Nibble::second(byte), history);
        }
        if samples.len() % 2 == 1 {
            samples[pairs * 2] = self.sample(Nibble::first(frame[pairs + 1]), history);
        }
    }
}

// Decodes as many samples of a frame as `samples` holds, 14 at most.
fn decode_frame(
    frame: &[u8; FRAME_BYTES],
    coefficients: &[i16; COEFFICIENTS],
    history: &mut History,
    samples: &mut [i16],
)
    requires { length samples.old ≤ frame_samples }
    ensures samples { samples.new ≡
        samples_of sample_of history.old (take (length samples.old) (frame_codes coefficients.now frame.now)) }
    ensures history { history.new ≡
        history_after sample_of history.old (take (length samples.old) (frame_codes coefficients.now frame.now)) }
{
    let header = Header::read(frame[0], coefficients);
    // of a whole frame the number of turns is known, which lets the compiler unroll them
    match samples.as_mut_array::<FRAME_SAMPLES>() {
        Some(whole) => header.decode(frame, history, whole),
        None => header.decode(frame, history, samples),
    }
}

// Decodes as many samples as `samples` holds from the bytes of their frames. Each frame's part of them goes by index, since of `chunks_mut`
// no proof knows what the slice ends as. The history is kept in a local meanwhile: what is lent would be stored and read at each sample.
// (With the least of 14 and how many are left, in place of where a part ends, the compiler clamps by jumps, and loud samples take twice as
// long.)
fn decode_all(
    data: &[u8],
    coefficients: &[i16; COEFFICIENTS],
    history: &mut History,
    samples: &mut [i16],
)
    requires { length «data».now ≡ frames_of (length samples.old) * frame_bytes }
    ensures samples { samples.new ≡
        decoded_samples sample_of coefficients.now history.old «data».now (length samples.old) }
    ensures history { history.new ≡
        decoded_history sample_of coefficients.now history.old «data».now (length samples.old) }
{
    let mut last = *history;
    let (frames, _) = data.as_chunks::<FRAME_BYTES>();
    for (i, frame) in frames.iter().enumerate() {
        let start = i * FRAME_SAMPLES;
        let end = (start + FRAME_SAMPLES).min(samples.len());
        decode_frame(frame, coefficients, &mut last, &mut samples[start..end]);
    }
    *history = last;
}

// Decodes `count` samples into the first places of `samples`, or refuses.
pub fn decode_adpcm(
    data: &[u8],
    count: usize,
    coefficients: &[i16; COEFFICIENTS],
    history: &mut History,
    samples: &mut [i16],
) -> Result<(), Refusal>
    ensures answer { number_of result ≡
        (decode_answer coefficients.now history.old «data».now count samples.old).number }
    ensures history { history.new ≡
        (decode_answer coefficients.now history.old «data».now count samples.old).history }
    ensures output { samples.new ≡
        decode_output coefficients.now history.old «data».now count samples.old }
{
    if count > MOST_SAMPLES || data.len() != bytes_of(count) || samples.len() < count {
        return Err(Refusal::Decode);
    }
    decode_all(data, coefficients, history, &mut samples[..count]);
    Ok(())
}
