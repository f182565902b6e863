// Plans from the supplier's own planner, taken row by row: a state by value, its beginning, and the answer to each row.
#![tactic(auto)]

ghost use Rattle.std.specs.Prelude.{◌≡◌, ◌<◌, length};
ghost use Rattle.plan_check.specs.Extent.{Ready};
ghost use Rattle.plan_check.specs.Begin.{BeginOf, beginning};
ghost use Rattle.plan_check.specs.RowAnswer.{entered_in};
ghost use Rattle.plan_check.specs.CheckRow.{CheckRowOf, check_row_of};

pub mod extent; // extent.rt: the extent of a plan, and numbers 14 and 9
pub mod begins; // begins.rt: a state of all zeros
mod bounds; // bounds.rt: number 14 of a state, 25 and 26
mod moves; // moves.rt: one tick, and the phases recorded
mod rows; // rows.rt: the cells of a row, and number 24

use extent::Extent;
use model::{MOST_TASKS, Refusal};
use phase::Phase;
use run::Run;

// A phase recorded at the last S.
#[derive(Clone, Copy)]
pub struct Note {
    pub phase: Phase,
}

// A supplied plan between two rows: a run, its tick, and the phases recorded at the last S.
// The notes stand beside the run's tasks: C's words of a plan, and `kept_plan` of specs, have the run and then the notes.
#[derive(Clone, Copy)]
pub struct SuppliedPlan {
    pub run: Run,
    pub tick: u32,
    pub noted: [Note; MOST_TASKS],
}

// What a row that is taken brings a plan to: more rows are to come, or it was the last and the plan is accepted.
#[derive(Clone, Copy)]
pub enum Progress {
    Taken,
    Accepted,
}

// The state at tick 0 for the words of a table, with any verdict; or the first of 1 to 9 and 19 that applies.
pub fn begin(words: &[u32]) -> Result<SuppliedPlan, Refusal>
    ensures { BeginOf words.now (beginning result) }
{
    let table = table::load(words)?;
    let run = run::starts::begun(table);
    Ok(moves::state_at(run, 0, table.start, begins::blank()))
}

impl SuppliedPlan {
    // The row of a tick before the horizon, one byte a core: 25, 24, or the answer of the state after it.
    fn shown(self, extent: Extent, row: &[u8]) -> Result<(Progress, SuppliedPlan), Refusal>
        requires fact_1 { Ready self.run extent.start extent.horizon }
        requires fact_2 { self.tick < extent.horizon }
        requires fact_3 { length row.now ≡ self.run.cores }
        ensures { entered_in self result ≡ check_row_of self row.now }
    {
        let run = self.run;
        let tick = self.tick;
        if bounds::missed(run) {
            return Err(Refusal::DeadlineMissed(tick));
        }
        let Some(cells) = rows::counted(row, run.fence, run.count) else {
            return Err(Refusal::BadRow(tick));
        };
        if rows::any_wrong(run, &cells) {
            return Err(Refusal::BadRow(tick));
        }
        let next = self.after(extent.start, &cells);
        let progress = next.answer_at(extent.horizon)?;
        Ok((progress, next))
    }

    // The answer of `check_row` to the row of this tick, where its extent is known, for plans of many rows: the next state has the same one.
    pub fn enter(self, extent: Extent, row: &[u8]) -> Result<(Progress, SuppliedPlan), Refusal>
        requires { Ready self.run extent.start extent.horizon }
        ensures { (entered_in self result ≡ check_row_of self row.now) × Ready (entered_in self result).plan.run extent.start extent.horizon }
    {
        if extent.horizon <= self.tick {
            return Err(Refusal::BadRange);
        }
        if row.len() != self.run.cores as usize {
            return Err(Refusal::ShortRows);
        }
        self.shown(extent, row)
    }

    // The row of this tick, one byte a core: the state one tick on, where it is taken or accepted as the last one; or 14, 9, 10, 11, 25, 24 and, after
    // the last row, 25 and 26 at the horizon.
    // Not inlined: its copies of the plan would take stack in a loop that knows the extent, and calls `enter`.
    #[inline(never)]
    pub fn check_row(self, row: &[u8]) -> Result<(Progress, SuppliedPlan), Refusal>
        ensures { CheckRowOf self row.now (entered_in self result) }
    {
        let extent = self.extent()?;
        self.enter(extent, row)
    }
}
