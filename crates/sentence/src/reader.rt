// Words and numbers read from the front of a text: what is there, and the text after it.
ghost use mathlib.Core.Bool.{◌&&◌, true};
ghost use Rattle.std.specs.Prelude.{◌≡◌, ◌≤◌, ◌<◌, MatchOption, eqb, leb, ltb, drop, length};
ghost use Rattle.text.specs.Decimal.{Digits, value};
ghost use Rattle.sentence.specs.Facts.{limit};
ghost use Rattle.sentence.specs.Reading.{starts_with, digits_of, NumberOf, FieldOf, PartOf, PartsOf, HeadOf};
ghost use Rattle.model.specs.Sizes.{most_tasks};

use model::MOST_TASKS;

// A part of a sentence: its task and its count.
#[derive(Clone, Copy)]
pub struct Part {
    pub task: u64,
    pub count: u64,
}

// The numbers of a sentence before its parts.
#[derive(Clone, Copy)]
pub struct Head {
    pub position: u64,
    pub tick: u64,
    pub had: u64,
    pub length: u64,
}

// Whether the bytes from `at` on begin with a word.
// No call of ours is left: it stays since docs/PROOFS.md names it.
pub fn begins_with(bytes: &[u8], at: usize, word: &[u8]) -> bool
    requires { at ≤ length bytes.now }
    ensures { result ≡ starts_with word.now (drop at bytes.now) }
{
    bytes[at..].starts_with(word)
}

// The number of digits at the front of a text.
fn digit_count(text: &[u8]) -> usize
    ensures { result ≡ digits_of text.now }
{
    text.iter()
        .position(|byte| !byte.is_ascii_digit())
        .unwrap_or(text.len())
}

// Whether a zero is in front of other digits.
fn is_padded(first: u8, count: usize) -> bool
    ensures { result ≡ eqb first 48 && ltb 1 count }
{
    (first == b'0') & (1 < count)
}

// The number that digits represent, if it is below 2^64.
fn value_of(digits: &[u8]) -> Option<u64>
    requires { Digits digits.now }
    ensures { MatchOption result (limit ≤ value digits.now) (λ v. (v ≡ value digits.now) × (v < limit)) }
{
    let mut value: u64 = 0;
    for byte in digits {
        value = value.checked_mul(10)?.checked_add((*byte - b'0') as u64)?;
    }
    Some(value)
}

// The number at the front of a text, of all the digits there: no zero in front of others, and below 2^64.
// By hand: `parse` takes a plus sign, and a zero in front.
// Not text's reader: that one takes ten digits at most, zeros in front too (`NumberOf`).
fn read_number(text: &[u8]) -> Option<(u64, &[u8])>
    ensures { NumberOf text.now result }
{
    let count = digit_count(text);
    if count == 0 || is_padded(text[0], count) {
        return None;
    }
    let (digits, rest) = text.split_at(count);
    let value = value_of(digits)?;
    Some((value, rest))
}

// The number after a word at the front of a text.
fn read_field<'a>(text: &'a [u8], word: &[u8]) -> Option<(u64, &'a [u8])>
    ensures { FieldOf text.now word.now result }
{
    let number = text.strip_prefix(word)?;
    read_number(number)
}

// The part at the front of a text.
fn read_part(text: &[u8]) -> Option<(Part, &[u8])>
    ensures { PartOf text.now result }
{
    let (task, text) = read_field(text, b"; task ")?;
    let (count, text) = read_field(text, b" ran ")?;
    Some((Part { task, count }, text))
}

// Whether a part may follow one of the task `last`, in the sentence of a late task at a position.
fn may_follow(last: u64, position: u64, part: Part) -> bool
    ensures { result ≡ ltb last part.task && (ltb part.task position && ltb 0 part.count) }
{
    (last < part.task) & ((part.task < position) & (0 < part.count))
}

// The counts of the parts that a text consists of, up to the full stop at its end.
pub(crate) fn read_parts(parts: &[u8], position: u64) -> Option<[u64; MOST_TASKS]>
    requires { position ≤ most_tasks }
    ensures { PartsOf parts.now position result }
{
    let mut ran = [0u64; MOST_TASKS];
    let mut last: u64 = 0;
    let mut text = parts;
    while let Some((part, rest)) = read_part(text) {
        if !may_follow(last, position, part) {
            return None;
        }
        ran[(part.task - 1) as usize] = part.count;
        last = part.task;
        text = rest;
    }
    if text == b".".as_slice() {
        Some(ran)
    } else {
        None
    }
}

// Whether a task at such a position may be late, with this number of ticks had out of its length.
fn may_be_late(position: u64, had: u64, length: u64) -> bool
    ensures { result ≡ leb 1 position && (leb position most_tasks && ltb had length) }
{
    (1 <= position) & ((position <= 32) & (had < length))
}

// The head of a sentence, up to `ticks`.
pub(crate) fn read_head(text: &[u8]) -> Option<(Head, &[u8])>
    ensures { HeadOf text.now result }
{
    let (position, text) = read_field(text, b"task ")?;
    let (tick, text) = read_field(text, b" misses at tick ")?;
    let (had, text) = read_field(text, b" with ")?;
    let (length, text) = read_field(text, b" of ")?;
    if !may_be_late(position, had, length) {
        return None;
    }
    let parts = text.strip_prefix(b" ticks")?;
    let head = Head {
        position,
        tick,
        had,
        length,
    };
    Some((head, parts))
}
