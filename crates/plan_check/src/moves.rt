// One tick of a supplied plan: each task in the row has worked, and at the last S the phases are recorded.
ghost use Rattle.std.specs.Prelude.{◌≡◌, false, ◌≤◌, ◌<◌, suc};
ghost use Rattle.model.specs.Sizes.{most_tasks, most_word};
ghost use Rattle.run.specs.Numbers.{run_out};
ghost use Rattle.plan_check.specs.Shown.{worked_with};
ghost use Rattle.plan_check.specs.State.{state_at, noting, start_in};

use crate::rows::BYTES;
use crate::{Note, SuppliedPlan};
use model::MOST_TASKS;
use run::Run;

// The run one tick on, in a row with these counts of cells.
fn worked(run: Run, cells: &[u8; BYTES]) -> Run
    requires { run_out run ≡ false }
    ensures { result ≡ worked_with run cells.now }
{
    let mut next = run;
    // By an index: after a `zip` with `iter_mut` nothing is known of the array (tried in rule and priority_order).
    for i in 0..run.count {
        next.tasks[i] = run.tasks[i].next(run.rule, false, 0 < cells[i + 1], false, false);
    }
    next
}

// The phases of the tasks below the count recorded; the rest of the array stays.
fn noting(run: Run, noted: [Note; MOST_TASKS]) -> [Note; MOST_TASKS]
    requires { run.count ≤ most_tasks }
    ensures { result ≡ noting run noted }
{
    let mut notes = noted;
    // By an index, as in `worked`.
    for i in 0..run.count {
        notes[i].phase = run.tasks[i].phase;
    }
    notes
}

// A run that arrives at a tick: at the last S its phases are recorded.
// The start alone, and its clause: an Extent that held the fact would ask more of the callers of `enter`, who build one.
pub(crate) fn state_at(run: Run, tick: u32, start: u32, noted: [Note; MOST_TASKS]) -> SuppliedPlan
    requires fact_1 { run.count ≤ most_tasks }
    requires fact_2 { start ≡ start_in run }
    ensures { result ≡ state_at run tick noted }
{
    SuppliedPlan {
        run,
        tick,
        noted: if tick == start {
            noting(run, noted)
        } else {
            noted
        },
    }
}

impl SuppliedPlan {
    // The state after a row with these counts of cells.
    pub(crate) fn after(self, start: u32, cells: &[u8; BYTES]) -> SuppliedPlan
        requires fact_1 { run_out self.run ≡ false }
        requires fact_2 { start ≡ start_in self.run }
        requires fact_3 { self.tick < most_word }
        ensures { result ≡ state_at (worked_with self.run cells.now) (suc self.tick) self.noted }
    {
        state_at(worked(self.run, cells), self.tick + 1, start, self.noted)
    }
}
