// The sizes of the input and the output, each named once.

use adpcm::{FRAME_BYTES, FRAME_SAMPLES};
use numbers::sizes::COEFFICIENTS;

// The width of a column.
pub const WIDTH: usize = 8;
// A line: two columns and a newline.
pub const LINE: usize = 2 * WIDTH + 1;
// The input before the frames: the coefficients, yn1, yn2 and the count.
pub const HEADER: usize = (COEFFICIENTS + 3) * 2;
// The largest count.
pub const MOST_SAMPLES: usize = 65535;
// The frames of that many samples, their bytes counted by hand: a constant can call no `adpcm::bytes_of`.
pub const MOST_FRAMES: usize = (MOST_SAMPLES + FRAME_SAMPLES - 1) / FRAME_SAMPLES * FRAME_BYTES;
// The longest input that is complete.
pub const LONGEST: usize = HEADER + MOST_FRAMES;
// The program's buffer for its input: one byte more, by which bytes left over are noticed.
pub const INPUT_ROOM: usize = LONGEST + 1;
// The longest listing: a line for each sample, two lines of headings and the history.
pub const OUTPUT_ROOM: usize = (MOST_SAMPLES + 3) * LINE;
