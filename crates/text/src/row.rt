// The text of a row: its tick and its cores, in decimal.
ghost use Rattle.std.specs.Prelude.{[], ◌∷◌, ◌++◌, ◌+◌, ◌≤◌, length, take, drop};
ghost use Rattle.text.specs.Decimal.{decimal};
ghost use Rattle.text.specs.Format.{newline};
ghost use Rattle.text.specs.Output.{fields, longest_cells, longest_line};
ghost use Rattle.text.specs.Written.{Put};
ghost use Rattle.model.specs.Sizes.{most_cores};

use crate::decimal;
use model::ROW;

// The most bytes that the cells of a row can take: for each of 64 cores a space and the three digits of a byte, and a newline.
pub const CELLS: usize = ROW * (1 + 3) + 1;

// The most bytes that a line can take: a tick and the cells of its row.
pub const LINE: usize = crate::DIGITS + CELLS;

// Writes bytes into the line from `at` on; returns where they end.
// A line and a place, as in `decimal::put`.
pub fn put(line: &mut [u8], at: usize, bytes: &[u8]) -> usize
    requires { at + length bytes.now ≤ length line.old }
    ensures { Put line.old at bytes.now line.new result }
{
    let end = at + bytes.len();
    line[at..end].copy_from_slice(bytes);
    end
}

// Writes `count` bytes, those of `from` that begin at `start`, into `to` from `at` on; returns where they end.
pub fn copy(from: &[u8], start: usize, count: usize, to: &mut [u8], at: usize) -> usize
    requires { (start + count ≤ length from.now) × (at + count ≤ length to.old) }
    ensures { Put to.old at (take count (drop start from.now)) to.new result }
{
    put(to, at, &from[start..start + count])
}

// Writes a byte's value in decimal into the text from `at` on; returns where it ends.
// By hand, as `decimal::put`; digit by digit, since each row of a printed table has up to 64 of them.
fn put_byte(text: &mut [u8], at: usize, number: u8) -> usize
    requires { at + 3 ≤ length text.old }
    ensures { (Put text.old at (decimal number) text.new result) × (result ≤ at + 3) }
{
    if number < 10 {
        text[at] = b'0' + number;
        return at + 1;
    }
    if number < 100 {
        text[at] = b'0' + number / 10;
        text[at + 1] = b'0' + number % 10;
        return at + 2;
    }
    decimal::put(text, at, number as u64)
}

// Writes the positions of the first `cores` cores, a space before each, and a newline; returns where they end.
// By hand, as `decimal::put`: the bytes go into the caller's slice.
pub fn put_cells(row: [u8; ROW], cores: usize, text: &mut [u8]) -> usize
    requires { (cores ≤ most_cores) × (longest_cells ≤ length text.old) }
    ensures { (Put text.old 0 (fields (take cores row) ++ (newline ∷ [])) text.new result) × (result ≤ longest_cells) }
{
    let mut at: usize = 0;
    for position in &row[..cores] {
        text[at] = b' ';
        at = put_byte(text, at + 1, *position);
    }
    text[at] = b'\n';
    at + 1
}

// Writes the line of a row: the tick, and the text of its cores; returns where it ends. The room as in `first::put_pair`.
// By hand, as `decimal::put`.
pub fn put_row(line: &mut [u8], tick: u32, text: &[u8]) -> usize
    requires { (length text.now ≤ longest_cells) × (longest_line ≤ length line.old) }
    ensures { (Put line.old 0 (decimal tick ++ text.now) line.new result) × (result ≤ longest_line) }
{
    let at = decimal::put(line, 0, tick as u64);
    put(line, at, text)
}
