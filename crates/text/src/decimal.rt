// Numbers written in decimal.
ghost use Rattle.std.specs.Prelude.{◌≡◌, ◌++◌, ◌+◌, ◌≤◌, length};
ghost use Rattle.text.specs.Decimal.{digit_count, decimal};
ghost use Rattle.text.specs.Written.{Put};

use crate::row;

// The number of digits of a number.
fn digits(number: u64) -> usize
    ensures { result ≡ digit_count number }
{
    number.checked_ilog10().unwrap_or(0) as usize + 1
}

// Writes a number in decimal into the line from `at` on; returns where it ends.
// By hand: of a lent slice `write!` promises how many bytes it wrote, and not which; `InlineText` has its own buffer.
// A line and a place are no struct: public functions take both, and each of their callers would build one anew.
pub fn put(line: &mut [u8], at: usize, number: u64) -> usize
    requires { at + digit_count number ≤ length line.old }
    ensures { Put line.old at (decimal number) line.new result }
{
    let count = digits(number);
    let mut left = number;
    for k in (0..count).rev() {
        line[at + k] = b'0' + (left % 10) as u8;
        left /= 10;
    }
    at + count
}

// Writes a word and a number after it; returns where they end.
// A line and a place, as in `put`.
pub fn put_after(line: &mut [u8], at: usize, word: &[u8], number: u64) -> usize
    requires { at + length (word.now ++ decimal number) ≤ length line.old }
    ensures { Put line.old at (word.now ++ decimal number) line.new result }
{
    let start = row::put(line, at, word);
    put(line, start, number)
}
