// A run through a whole list of entries.
ghost use Rattle.std.specs.Prelude.{◌≡◌, ◌++◌, ◌≤◌, length, drop, cond, eqb};
ghost use Rattle.model.specs.Advance.{withdraw, withdraw_all};
ghost use Rattle.model.specs.Refusal.{number_of, position_of};
ghost use Rattle.model.specs.Refusals.{refused};
ghost use Rattle.run.specs.Advance.{advanced};
ghost use Rattle.refinement.specs.Entries.{entry_of, run_after_list};
ghost use Rattle.refinement.specs.Listing.{is_entry, listed, entry_count, entry_by, entries_in};
ghost use Rattle.refinement.specs.Replay.{code, EntryAnswer, codes, slices_fit, replayed_run};
ghost use Rattle.refinement.specs.Replayed.{replayed_in};
ghost use Rattle.model.specs.Sizes.{most_cores};

use crate::ReplayError;
use model::{ROW, Refusal};
use run::Run;

// A refusal as one number: number × 256 + position.
// A number, since C reads it.
fn code(refusal: Refusal) -> u32
    requires { EntryAnswer (refused (number_of refusal) (position_of refusal)) }
    ensures { result ≡ code (refused (number_of refusal) (position_of refusal)) }
{
    refusal.number() * 256 + refusal.position()
}

// Whether words of this kind with this last word are an entry's: an advance's, or a withdrawal's, whose last word is 0.
// A number, since C's entries are words, and `is_entry` of specs/ answers of every kind.
fn is_entry(kind: u32, second: u32) -> bool
    ensures { result ≡ is_entry kind second }
{
    (kind == 0) | (((kind == 1) | (kind == 2)) & (second == 0))
}

// Whether the words are a list of entries: three words each, none over, each an entry's.
fn listed(entries: &[u32]) -> bool
    ensures { result ≡ listed entries.now }
{
    entries.len() % 3 == 0
        && entries
            .chunks_exact(3)
            .all(|entry| is_entry(entry[0], entry[2]))
}

// Whether the words are a list of entries, and slices of this number of numbers and bytes have space for its answers and its last row.
fn fits(entries: &[u32], numbers: usize, bytes: usize) -> bool
    ensures { result ≡ slices_fit entries.now numbers bytes }
{
    let count = entries.len() / 3;
    listed(entries) & ((count <= numbers) & (ROW <= bytes))
}

// A withdrawal on a run, by the first two words of its entry.
// Not inlined: its copies of the run would lie beside those of `replay`, for which a call of C has no stack.
#[inline(never)]
fn withdrawn(run: Run, kind: u32, first: u32) -> Result<Run, Refusal>
    ensures { advanced run result ≡ entry_of run (cond (eqb kind 1) (withdraw first) (withdraw_all first)) }
{
    if kind == 1 {
        return run.withdraw(first);
    }
    run.withdraw_all(first)
}

// An entry on a run, by its three words: the next run, or why it is refused.
// The kind is a number, since C's entries are words, and `entry_by` answers for every kind.
pub fn enter(run: Run, kind: u32, first: u32, second: u32) -> Result<Run, Refusal>
    ensures { advanced run result ≡ entry_of run (entry_by kind first second) }
{
    if kind == 0 {
        return run.advance(first, second);
    }
    withdrawn(run, kind, first)
}

// The run after the list; its answers are written as numbers, 0 for taken.
fn enter_all(mut run: Run, entries: &[u32], numbers: &mut [u32]) -> Run
    requires { entry_count entries.now ≤ length numbers.old }
    ensures { (result ≡ run_after_list run (entries_in entries.now))
        × (numbers.new ≡ codes run (entries_in entries.now) ++ drop (entry_count entries.now) numbers.old) }
{
    let (triples, _) = entries.as_chunks::<3>();
    for (i, entry) in triples.iter().enumerate() {
        match enter(run, entry[0], entry[1], entry[2]) {
            Ok(next) => {
                numbers[i] = 0;
                run = next;
            }
            Err(refusal) => numbers[i] = code(refusal),
        }
    }
    run
}

// Writes the row; the bytes after it are unchanged.
pub fn put(row: [u8; ROW], bytes: &mut [u8])
    requires { most_cores ≤ length bytes.old }
    ensures { bytes.new ≡ row ++ drop most_cores bytes.old }
{
    bytes[..ROW].copy_from_slice(&row);
}

// A run that has started, through the list of entries: its answers and its last row are written, zeros where the row is refused.
// The slices are apart, as C lends them to `replay`, which hands all on: a struct of them would be made and taken apart again.
pub(crate) fn replay_run(
    run: Run,
    entries: &[u32],
    numbers: &mut [u32],
    bytes: &mut [u8],
) -> Result<(), ReplayError>
    ensures { record { answer = replayed_in result; numbers = numbers.new; bytes = bytes.new }
        ≡ replayed_run run entries.now numbers.old bytes.old }
{
    if !fits(entries, numbers.len(), bytes.len()) {
        return Err(ReplayError::Unfit);
    }
    let last = enter_all(run, entries, numbers);
    match last.row(0) {
        Ok(row) => {
            put(row, bytes);
            Ok(())
        }
        Err(refusal) => {
            put([0; ROW], bytes);
            Err(ReplayError::Row(refusal))
        }
    }
}
