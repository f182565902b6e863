// The calls on a run in a buffer, and for a replay.
ghost use Rattle.std.specs.Prelude.{◌≡◌, [], ◌∷◌, Result};
ghost use Rattle.capi.specs.Replays.{replay_call};
ghost use Rattle.capi.specs.Runs.{start_call, row_call, sets_call, working_call, entry_call, advance_call, withdraw_call, withdraw_all_call};
ghost use Rattle.model.specs.Advance.{Entry};
ghost use Rattle.run.specs.Advance.{advanced};
ghost use Rattle.refinement.specs.Entries.{entry_of};

use crate::results;
use buffers::figures::put_figures;
use buffers::{answer_words, run_buffer};
use model::{MOST_TASKS, ROW, Refusal};
use run::Run;

// The run of a table's words as it starts, all its words, into the front of `run`: case 0, or 3 Refused number position and the run of all zeros.
#[unsafe(no_mangle)]
pub extern "C" fn sivorandra_start(words: &[u32], run: &mut [u32], answer: &mut [u32]) -> u32
    ensures { record { value = result; lent = run.new ∷ (answer.new ∷ []) } ≡ start_call words.now run.old answer.old }
{
    results::answered(run, run_buffer::WORDS, answer, |run| {
        let started = run::start(words);
        // an empty run beside a refusal, as C is promised
        let first = started.unwrap_or(run::starts::empty());
        run_buffer::put_run(first, run_buffer::PLACES, run);
        results::encoded(started, 0)
    })
}

// The row of the present tick into the first 64 bytes of `row`. Bit p of `empties` is set if the job of position p + 1, released in this
// tick, is empty. Case 0, or 3 Refused number position and 64 zeros; 14 where `run` holds no run.
#[unsafe(no_mangle)]
pub extern "C" fn sivorandra_row(
    run: &[u32],
    empties: u32,
    row: &mut [u8],
    answer: &mut [u32],
) -> u32
    ensures { record { value = result; lent = row.new ∷ (answer.new ∷ []) } ≡ row_call run.now empties row.old answer.old }
{
    let shown = run_buffer::ask(run, |held| held.row(empties));
    results::answered(row, ROW, answer, |row| {
        // zeros beside a refusal, as C is promised
        refinement::replays::put(shown.unwrap_or([0; ROW]), row);
        results::encoded(shown, 0)
    })
}

// The sets of cores of the present tick into the first 32 words of `sets`, one of each position, core 0 the lowest bit, with `empties` as for row: held
// cores are in the holder's, lent ones in the borrower's and fenced ones in none. Case 0, or 3 Refused number position and 32 zeros; 14 where `run`
// holds no run.
#[unsafe(no_mangle)]
pub extern "C" fn sivorandra_sets(
    run: &[u32],
    empties: u32,
    sets: &mut [u64],
    answer: &mut [u32],
) -> u32
    ensures { record { value = result; lent = sets.new ∷ (answer.new ∷ []) } ≡ sets_call run.now empties sets.old answer.old }
{
    let shown = run_buffer::ask(run, |held| held.sets(empties));
    results::answered(sets, MOST_TASKS, answer, |sets| {
        // zeros beside a refusal, as C is promised
        put_figures(shown.unwrap_or([0; MOST_TASKS]), sets);
        results::encoded(shown, 0)
    })
}

// The set of the positions whose job has cores in the present tick and works into the first word of `set`, bit 0 for position 1, with `empties` as for
// row: those for which a report bit is admitted. Case 0, or 3 Refused number position and 0; 14 where `run` holds no run.
#[unsafe(no_mangle)]
pub extern "C" fn sivorandra_working(
    run: &[u32],
    empties: u32,
    set: &mut [u32],
    answer: &mut [u32],
) -> u32
    ensures { record { value = result; lent = set.new ∷ (answer.new ∷ []) } ≡ working_call run.now empties set.old answer.old }
{
    let shown = run_buffer::ask(run, |held| held.working(empties));
    results::answered(set, 1, answer, |set| {
        // zeros beside a refusal, as C is promised
        set[0] = shown.unwrap_or(0);
        results::encoded(shown, 0)
    })
}

// An entry on the run that the buffer holds.
// 0 or 1, and no Result, since C reads it as the status of its call (include/sivorandra.h).
fn enter<E: FnOnce(Run) -> Result<Run, Refusal>>(
    run: &mut [u32],
    answer: &mut [u32],
    entry: E,
) -> u32
    requires { E.IsAlwaysCallable entry }
    ensures { (x : Entry) → ((r : Run) (next : Result Run Refusal) → E.post entry r next → advanced r next ≡ entry_of r x)
        → record { value = result; lent = run.new ∷ (answer.new ∷ []) } ≡ entry_call x run.old answer.old }
{
    // Not by `answered` (tried): of a function of the caller's that is called in a closure the proof learns too little.
    if !answer_words::fit(0, 0, answer) {
        return 1;
    }
    let entered = run_buffer::enter(run, entry);
    answer_words::put(results::encoded(entered, 0), answer);
    0
}

// The run one tick on. Bit p of `reports` is set if the job of position p + 1 ends after this tick, and bit p of `empties` if it is released
// in this tick and empty. Case 0, or 3 Refused number position and `run` as found; 14 where `run` holds no run.
#[unsafe(no_mangle)]
pub extern "C" fn sivorandra_advance(
    run: &mut [u32],
    reports: u32,
    empties: u32,
    answer: &mut [u32],
) -> u32
    ensures { record { value = result; lent = run.new ∷ (answer.new ∷ []) } ≡ advance_call run.old reports empties answer.old }
{
    enter(run, answer, |held| held.advance(reports, empties))
}

// The run with a position withdrawn: a job of it that was released before this tick goes on, one released in this tick, and all later ones, are empty.
// Case 0, or 3 Refused number position and `run` as found; 14 where `run` holds no run.
#[unsafe(no_mangle)]
pub extern "C" fn sivorandra_withdraw(run: &mut [u32], position: u32, answer: &mut [u32]) -> u32
    ensures { record { value = result; lent = run.new ∷ (answer.new ∷ []) } ≡ withdraw_call run.old position answer.old }
{
    enter(run, answer, |held| held.withdraw(position))
}

// The run with all positions of a set withdrawn, or none; bit p of `set` is for position p + 1. Case 0, or 3 Refused number position and `run` as
// found; 14 where `run` holds no run.
#[unsafe(no_mangle)]
pub extern "C" fn sivorandra_withdraw_all(run: &mut [u32], set: u32, answer: &mut [u32]) -> u32
    ensures { record { value = result; lent = run.new ∷ (answer.new ∷ []) } ≡ withdraw_all_call run.old set answer.old }
{
    enter(run, answer, |held| held.withdraw_all(set))
}

// The run of a table's words, taken through all of `entries`, three words each, 0, reports and empties, or 1, position and 0, or 2, set and 0: its
// answers go into `numbers`, its last row, asked with no empty job, into the first 64 bytes of `row`.
// Case 0: the last row is shown; 4: the last row is refused, number position; 3: the start is Refused number position, and both as found.
// 0 or 1, and no Result, since C reads it as the status of its call (include/sivorandra.h).
// Not by `answered`: two slices are lent, and `replay` itself says that they do not fit.
#[unsafe(no_mangle)]
pub extern "C" fn sivorandra_replay(
    words: &[u32],
    entries: &[u32],
    numbers: &mut [u32],
    row: &mut [u8],
    answer: &mut [u32],
) -> u32
    ensures { record { value = result; lent = numbers.new ∷ (row.new ∷ (answer.new ∷ [])) } ≡ replay_call words.now entries.now numbers.old row.old answer.old }
{
    if answer_words::fit(0, 0, answer) {
        let replayed = refinement::replay(words, entries, numbers, row);
        if let Some(encoded) = answer_words::of_replayed(replayed) {
            answer_words::put(encoded, answer);
            return 0;
        }
    }
    1
}
