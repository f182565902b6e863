// A sentence written into a buffer.
// By hand: of a lent slice `write!` promises how many bytes it wrote, and not which; `InlineText` has its own buffer.
ghost use Rattle.std.specs.Prelude.{[], ◌∷◌, ◌+◌, ◌≤◌, length};
ghost use Rattle.text.specs.Written.{Put};
ghost use Rattle.sentence.specs.Facts.{named, named_from, facts_by};
ghost use Rattle.sentence.specs.Sentence.{parts, sentence_text};

use crate::Facts;
use model::MOST_TASKS;
use text::{decimal, row};

// Writes the part of the task at `place`, counted from 0, if it ran; returns where it ends.
// By hand, as `decimal::put`.
fn put_part(line: &mut [u8], at: usize, place: usize, count: u64) -> usize
    requires { (place ≤ 31) × (at + length (parts (named_from place (count ∷ [])) []) ≤ length line.old) }
    ensures { Put line.old at (parts (named_from place (count ∷ [])) []) line.new result }
{
    if count == 0 {
        return at;
    }
    let middle = decimal::put_after(line, at, b"; task ", place as u64 + 1);
    decimal::put_after(line, middle, b" ran ", count)
}

// Writes the parts from `from` on; returns where they end.
// By hand, as `decimal::put`.
fn put_parts(line: &mut [u8], from: usize, ran: [u64; MOST_TASKS]) -> usize
    requires { from + length (parts (named ran) []) ≤ length line.old }
    ensures { Put line.old from (parts (named ran) []) line.new result }
{
    let mut at = from;
    for (place, count) in ran.iter().enumerate() {
        at = put_part(line, at, place, *count);
    }
    at
}

// Writes the sentence at the front of a buffer that it fits in; returns its length.
// By hand, as `decimal::put`.
pub fn put(facts: Facts, line: &mut [u8]) -> usize
    requires { length (sentence_text (facts_by facts)) ≤ length line.old }
    ensures { Put line.old 0 (sentence_text (facts_by facts)) line.new result }
{
    let ran = facts.ran;
    let a = decimal::put_after(line, 0, b"task ", facts.position as u64);
    let b = decimal::put_after(line, a, b" misses at tick ", facts.tick);
    let c = decimal::put_after(line, b, b" with ", facts.had);
    let d = decimal::put_after(line, c, b" of ", facts.length);
    let e = row::put(line, d, b" ticks");
    let f = put_parts(line, e, ran);
    line[f] = b'.';
    f + 1
}
