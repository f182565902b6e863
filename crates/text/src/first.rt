// The first line that is printed, the verdict's, and the number of rows after it.
ghost use Rattle.std.specs.Prelude.{◌≡◌, [], ◌∷◌, ◌+◌, ◌≤◌, length};
ghost use Rattle.text.specs.Decimal.{decimal};
ghost use Rattle.text.specs.Output.{space, line_of, longest_line, first_line};
ghost use Rattle.text.specs.Written.{Put};
ghost use Rattle.judge.specs.JudgeAnswer.{verdict_meaning};
ghost use Rattle.text.specs.FirstLine.{end_of};

use crate::{decimal, row};
use judge::Verdict;

// Writes a space and a number; returns where they end.
// A line and a place, as in `decimal::put`.
// By hand, as `decimal::put`.
pub fn put_field(line: &mut [u8], at: usize, number: u32) -> usize
    requires { at + 11 ≤ length line.old }
    ensures { (Put line.old at (space ∷ decimal number) line.new result) × (result ≤ at + 11) }
{
    decimal::put_after(line, at, b" ", number as u64)
}

// Writes a line of a word and numbers, a space before each; returns where it ends.
// By hand, as `decimal::put`: the bytes go into the caller's slice.
pub fn put_line(line: &mut [u8], word: &[u8], numbers: &[u64]) -> usize
    requires { length (line_of word.now numbers.now) ≤ length line.old }
    ensures { Put line.old 0 (line_of word.now numbers.now) line.new result }
{
    let mut at = row::put(line, 0, word);
    for number in numbers {
        at = decimal::put_after(line, at, b" ", *number);
    }
    line[at] = b'\n';
    at + 1
}

// Writes a line of a word and two numbers; returns where it ends.
// The room is a clause, and no array's type: callers lend longer buffers, too.
// By hand, as `decimal::put`.
pub fn put_pair(line: &mut [u8], word: &[u8], first: u32, second: u32) -> usize
    requires { (length word.now ≤ 7) × (longest_line ≤ length line.old) }
    ensures { (Put line.old 0 (line_of word.now (first ∷ second ∷ [])) line.new result) × (result ≤ longest_line) }
{
    put_line(line, word, &[first as u64, second as u64])
}

// Writes the first line, the verdict's; returns where it ends. The room as in `put_pair`.
// By hand, as `decimal::put`.
pub fn put_first(line: &mut [u8], verdict: Verdict) -> usize
    requires { longest_line ≤ length line.old }
    ensures { (Put line.old 0 (first_line (verdict_meaning verdict)) line.new result) × (result ≤ longest_line) }
{
    match verdict {
        Verdict::Firm(start, period) => put_pair(line, b"firm", start, period),
        Verdict::Full(start, period) => put_pair(line, b"full", start, period),
        Verdict::Miss(tick, position) => put_pair(line, b"miss", tick, position),
        Verdict::Refused(number, position) => put_pair(line, b"refused", number, position),
    }
}

// The number of rows: up to the horizon, or up to but not including the tick of the miss; a refusal has none.
pub fn rows_end(verdict: Verdict, horizon: u32) -> u32
    ensures { result ≡ end_of verdict horizon }
{
    match verdict {
        Verdict::Firm(_, _) => horizon,
        Verdict::Full(_, _) => horizon,
        Verdict::Miss(tick, _) => tick,
        Verdict::Refused(_, _) => 0,
    }
}
