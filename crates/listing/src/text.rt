// Columns and lines of text. `Display` and `write!` are not used here: of a write that fails nothing is known, and that a write into room
// enough succeeds stands in no contract of theirs.
ghost use Rattle.std.specs.Prelude.{◌≡◌, ◌≤◌, ◌++◌, length};
ghost use Rattle.std.specs.Fmt.{decimal, signed_decimal};
ghost use Rattle.listing.specs.Text.{column, newline};
ghost use Rattle.listing.specs.Sizes.{width};

use crate::sizes::{LINE, WIDTH};
use itoa::write_digits;

// A text right-justified in a column.
pub fn column(text: &[u8]) -> [u8; WIDTH]
    requires { length text.now ≤ width }
    ensures { result ≡ column width text.now }
{
    let mut column = [b' '; WIDTH];
    little::put(&mut column, WIDTH - text.len(), text);
    column
}

// A number in decimal, in a column that it fits. Its digits are written where they stand, at the column's end.
pub fn number(n: u64) -> [u8; WIDTH]
    requires { length (decimal n) ≤ width }
    ensures { result ≡ column width (decimal n) }
{
    let mut column = [b' '; WIDTH];
    write_digits(n, &mut column, WIDTH);
    column
}

// A sample in decimal, in a column, which every sample fits: its digits, and the sign before them.
pub fn signed(n: i16) -> [u8; WIDTH]
    ensures { result ≡ column width (signed_decimal n) }
{
    let mut column = [b' '; WIDTH];
    let first = write_digits(u64::from(n.unsigned_abs()), &mut column, WIDTH);
    if n < 0 {
        column[first - 1] = b'-';
    }
    column
}

// A line of two columns.
pub fn line(left: &[u8; WIDTH], right: &[u8; WIDTH]) -> [u8; LINE]
    ensures { result ≡ left.now ++ (right.now ++ newline) }
{
    let mut line = [b'\n'; LINE];
    little::put(&mut line, 0, left);
    little::put(&mut line, WIDTH, right);
    line
}
