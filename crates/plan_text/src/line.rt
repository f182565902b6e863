// A line of a supplied plan: the tick and the numbers of a row, as the program prints them.
ghost use Rattle.std.specs.Prelude.{◌≡◌, ◌≤◌, length, drop, take};
ghost use Rattle.plan_text.specs.Line.{most_cells, is_verdict, row_in, words_after, cells_of, read_line};

use model::ROW;

// The number of cells of a row that are read: one more than a row can have.
pub const CELLS: usize = ROW + 1;

// The number of bytes of a line that decide, whatever follows them: a tick, that many numbers with a space before each, and one byte more.
pub const LONG: usize = text::DIGITS + CELLS * (1 + text::DIGITS) + 1;

// A row that was read: its tick and its numbers, zeros past the count.
// An array with its count stands for a list, without a heap.
// Not `arrayvec`: an ArrayVec is not Copy, as this is, and `read_line` of specs/Line has `count`, and zeros past it.
#[derive(Clone, Copy)]
pub struct Line {
    pub tick: u32,
    pub count: usize,
    pub cells: [u8; CELLS],
}

// The row of a tick and of the numbers from `start` on, a space before each.
fn cells_from(line: &[u8], start: usize, tick: u32) -> Option<Line>
    requires { start ≤ length line.now }
    ensures { result ≡ read_line (cells_of tick (take most_cells (words_after (drop start line.now)))) }
{
    let mut cells = [0u8; CELLS];
    let mut count: usize = 0;
    let mut at = start;
    // A loop over the words is no plainer: a space at the end of the line begins one more, which is empty, and an empty rest has none.
    while at < line.len() {
        if count == CELLS {
            return Some(Line { tick, count, cells });
        }
        let end = text::line::end_from(line, at + 1, b' ');
        let number = text::line::number(&line[at + 1..end])?;
        cells[count] = u8::try_from(number).ok()?;
        count += 1;
        at = end;
    }
    Some(Line { tick, count, cells })
}

// The row in a line, if there is one.
pub fn read(line: &[u8]) -> Option<Line>
    ensures { result ≡ read_line (row_in line.now) }
{
    let end = text::line::end_from(line, 0, b' ');
    let tick = text::line::number(&line[..end])?;
    cells_from(line, end, tick)
}

// Whether a line begins as the program's first line does where rows follow it.
pub fn is_verdict(line: &[u8]) -> bool
    ensures { result ≡ is_verdict line.now }
{
    let firm = line.starts_with(b"firm");
    let full = line.starts_with(b"full");
    let miss = line.starts_with(b"miss");
    (line.len() < LONG) & (firm | (full | miss))
}
