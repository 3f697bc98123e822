// The tables of the listing, line by line, and the 9 that stands in their place.
ghost use Rattle.std.specs.Prelude.{◌≡◌, ◌+◌, ◌*◌, ◌≤◌, length};
ghost use Rattle.listing.specs.Sizes.{line_bytes, most_samples, output_room};
ghost use Rattle.listing.specs.Inner.{Put};
ghost use Rattle.listing.specs.Listing.{rows, tables, only_nine};

use crate::sizes::{LINE, OUTPUT_ROOM, WIDTH};
use crate::text::{column, line, number, signed};
use adpcm::History;
use refusals::Refusal;

// Puts a line for each sample, after the first line. How many samples there are at most is asked, since no type of a slice says
// it. Lines go to their places, since of `chunks_mut` no proof knows what the slice ends as.
fn put_rows(samples: &[i16], output: &mut [u8; OUTPUT_ROOM])
    requires { length samples.now ≤ most_samples }
    ensures { Put output.old line_bytes (rows 0 samples.now) output.new ((length samples.now + 1) * line_bytes) }
{
    for (i, y) in samples.iter().enumerate() {
        let row = line(&number(i as u64), &signed(*y));
        little::put(output, (i + 1) * LINE, &row);
    }
}

// Puts the samples and the history, each under a line of headings.
pub fn put_tables(samples: &[i16], h: History, output: &mut [u8; OUTPUT_ROOM]) -> usize
    requires { length samples.now ≤ most_samples }
    ensures tables { Put output.old 0 (tables samples.now h) output.new result }
    ensures next { result ≤ output_room }
{
    let headings = line(&column(b"sample"), &column(b"value"));
    little::put(output, 0, &headings);
    put_rows(samples, output);
    let at = (samples.len() + 1) * LINE;
    let headings = line(&column(b"yn1"), &column(b"yn2"));
    little::put(output, at, &headings);
    let newer = signed(h.yn1);
    let older = signed(h.yn2);
    little::put(output, at + LINE, &line(&newer, &older));
    at + 2 * LINE
}

// Puts the number of a decode that is refused, 9, in one column.
pub fn put_nine(output: &mut [u8; OUTPUT_ROOM]) -> usize
    ensures { Put output.old 0 only_nine output.new result }
{
    little::put(output, 0, &number(u64::from(Refusal::Decode.number())));
    little::put(output, WIDTH, b"\n");
    WIDTH + 1
}
