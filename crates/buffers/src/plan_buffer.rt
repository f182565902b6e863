// A supplied plan in a lent buffer of words: the words of its run, its tick, and four words for each note. A taken row leaves the places past the count
// as found, and the notes but where it arrives at the last S; words of a note that are no phase are read as Resting(0), which no run has.
ghost use Rattle.std.specs.Prelude.{◌≡◌, ◌+◌, ◌≤◌, length, take, drop};
ghost use Rattle.plan_check.specs.RowAnswer.{answer_in};
ghost use Rattle.buffers.specs.Encoding.{places};
ghost use Rattle.buffers.specs.Supplied.{notes_at, note_size, plan_words, note_words, notes_words, put_at, plan_over, note_in, notes_in, plan_read, decode_plan};
ghost use Rattle.buffers.specs.CheckRow.{check_row_from};

use crate::run_buffer;
use crate::run_buffer::PhaseWords;
use model::Refusal;
use phase::Phase;
use plan_check::{Note, Progress, SuppliedPlan};

// The index of the tick: right after the run.
const TICK: usize = run_buffer::WORDS;
// Where the notes begin.
const NOTES: usize = TICK + 1;
// The words of a note.
const EACH: usize = 4;
// The words of a plan.
pub const WORDS: usize = NOTES + EACH * run_buffer::PLACES;

// Writes a note at `at`; the words before and after it stay.
fn put_note(note: Note, at: usize, words: &mut [u32])
    requires { at + note_size ≤ length words.old }
    ensures { words.new ≡ put_at at (note_words note) words.old }
{
    let phase = PhaseWords::from(note.phase);
    words[at] = phase.kind;
    words[at + 1] = phase.first;
    words[at + 2] = phase.second;
    words[at + 3] = phase.third;
}

// Writes the first `shown` notes; the words before and after them stay.
fn put_notes(noted: [Note; run_buffer::PLACES], shown: usize, words: &mut [u32])
    requires { (shown ≤ places) × (plan_words ≤ length words.old) }
    ensures { words.new ≡ put_at notes_at (notes_words (take shown noted)) words.old }
{
    // By index: of a slice written through `chunks_exact_mut` std promises the length alone.
    for i in 0..shown {
        put_note(noted[i], NOTES + EACH * i, words);
    }
}

// Writes the head and the first `shown` places of the run, the tick, and where they are recorded the first `shown` notes; all else stays.
pub fn put_plan(plan: SuppliedPlan, shown: usize, noting: bool, words: &mut [u32])
    requires { (shown ≤ places) × (plan_words ≤ length words.old) }
    ensures { words.new ≡ plan_over noting shown plan words.old }
{
    run_buffer::put_run(plan.run, shown, words);
    words[TICK] = plan.tick;
    if noting {
        put_notes(plan.noted, shown, words);
    }
}

// The note in these words.
// No TryFrom, since words that are no phase are a note too.
fn note_in(words: &[u32; EACH]) -> Note
    ensures { result ≡ note_in words.now }
{
    let phase = Phase::try_from(PhaseWords {
        kind: words[0],
        first: words[1],
        second: words[2],
        third: words[3],
    });
    Note {
        phase: phase.unwrap_or(Phase::Resting(0)),
    }
}

// The notes of the plan at the front of the buffer.
fn notes_in(words: &[u32]) -> [Note; run_buffer::PLACES]
    requires { plan_words ≤ length words.now }
    ensures { result ≡ notes_in places (drop notes_at words.now) }
{
    // any note will do here: each place is written below
    let nothing = Note {
        phase: Phase::Resting(0),
    };
    let (notes, _) = words[NOTES..].as_chunks::<EACH>();
    let mut noted = [nothing; run_buffer::PLACES];
    for (i, note) in notes[..run_buffer::PLACES].iter().enumerate() {
        noted[i] = note_in(note);
    }
    noted
}

// The plan at the front of the buffer, or none: any words are a tick, and any are notes. No `TryFrom`, like `run_in`.
fn plan_in(words: &[u32]) -> Option<SuppliedPlan>
    ensures { result ≡ plan_read (decode_plan words.now) }
{
    if words.len() < WORDS {
        return None;
    }
    let run = run_buffer::run_in(words)?;
    Some(SuppliedPlan {
        run,
        tick: words[TICK],
        noted: notes_in(words),
    })
}

// The row taken by the plan that the buffer holds, and the plan after it written up to its count; 14 where it holds none. A refusal leaves the words as
// found.
pub fn take(words: &mut [u32], row: &[u8]) -> Result<Progress, Refusal>
    ensures { record { answer = answer_in result; buffer = words.new } ≡ check_row_from (decode_plan words.old) row.now words.old }
{
    let Some(plan) = plan_in(words) else {
        return Err(Refusal::NotARun);
    };
    let extent = plan.extent()?;
    let (progress, next) = plan.enter(extent, row)?;
    put_plan(next, next.run.count, next.tick == extent.start, words);
    Ok(progress)
}
