// The miss in a sentence: written, and parsed.
#![tactic(auto)]

ghost use Rattle.std.specs.Prelude.{◌≡◌, suc, ◌≤◌, length};
ghost use Rattle.model.specs.Verdict.{FirstMiss};
ghost use Rattle.table.specs.Fit.{loaded_table};
ghost use Rattle.sentence.specs.Parsed.{found_in, FactsOf};
ghost use Rattle.sentence.specs.Waiting.{facts_at, facts_in};
ghost use Rattle.sentence.specs.Counting.{LengthsWithin};
ghost use Rattle.sentence.specs.SentenceAnswer.{answered, by_buffer, by_table, sentence_meaning, left_in, SentenceOf};

use model::{MOST_TASKS, Refusal};
use table::Fitting;

pub mod counting; // counting.rt: the facts of a miss, counted in the full-length run
pub mod reader; // reader.rt: a sentence parsed
pub mod writer; // writer.rt: a sentence written

// No sentence is longer than this, for ticks up to 1,000,000,000.
pub const LONGEST: usize = 700;

// The facts of a miss: `ran[q]` is the count of the task at position q + 1, and 0 where it has no part.
// Zeros where a task has no part, since C reads 32 counts.
#[derive(Clone, Copy, Default)]
pub struct Facts {
    pub position: u32,
    pub tick: u64,
    pub had: u64,
    pub length: u64,
    pub ran: [u64; MOST_TASKS],
}

// The facts of a sentence; none where the bytes are no sentence of expressible facts.
pub fn facts_of(bytes: &[u8]) -> Option<Facts>
    ensures { FactsOf bytes.now (found_in result) }
{
    let (head, parts) = reader::read_head(bytes)?;
    let ran = reader::read_parts(parts, head.position)?;
    Some(Facts {
        position: head.position as u32,
        tick: head.tick,
        had: head.had,
        length: head.length,
        ran,
    })
}

// Writes the sentence of a miss of a place at a tick at the front of the buffer, and returns its length; 18 where the buffer is too short.
fn write_miss(
    fitting: Fitting,
    tick: u32,
    place: usize,
    buffer: &mut [u8],
) -> Result<usize, Refusal>
    requires { FirstMiss (loaded_table fitting.loaded) tick (suc place) × (tick ≤ fitting.loaded.horizon) × LengthsWithin fitting.loaded }
    ensures { (answered result ≡ by_buffer (facts_at (loaded_table fitting.loaded) tick place) (length buffer.old))
        × (buffer.new ≡ left_in (sentence_meaning (answered result)) (facts_at (loaded_table fitting.loaded) tick place) buffer.old) }
{
    let facts = counting::count(fitting.loaded, tick, place);
    // an array and its length, and not yet the caller's buffer: there is no heap, and on 18 the buffer stays as it was
    let mut text = [0u8; LONGEST];
    let length = writer::put(facts, &mut text);
    if buffer.len() < length {
        return Err(Refusal::ShortBuffer);
    }
    Ok(text::row::put(buffer, 0, &text[..length]))
}

// The sentence of a table that passed: number 17 or 18, or its first miss.
fn by_table(fitting: Fitting, buffer: &mut [u8]) -> Result<usize, Refusal>
    requires { LengthsWithin fitting.loaded }
    ensures { (answered result ≡ by_table (loaded_table fitting.loaded) (length buffer.old))
        × (buffer.new ≡ left_in (sentence_meaning (answered result)) (facts_in (loaded_table fitting.loaded)) buffer.old) }
{
    let table = fitting.loaded;
    match judge::fastest::first_miss(table, table.horizon + 1) {
        None => Err(Refusal::NoMiss),
        Some(miss) => write_miss(fitting, miss.tick, miss.position as usize - 1, buffer),
    }
}

// Writes the sentence of the first miss of the table in these words at the front of the buffer, and returns its length; or the first number that applies,
// and the buffer as found.
pub fn sentence(words: &[u32], buffer: &mut [u8]) -> Result<usize, Refusal>
    ensures { SentenceOf words.now buffer.old buffer.new (answered result) }
{
    let fitting = Fitting::load(words)?;
    by_table(fitting, buffer)
}
