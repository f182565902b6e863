// The run in the cab: rule, core count, fence, the withdrawn set and the tasks with their phases; start, row, sets, working, advance, and withdrawals
// of one position or of several together.
#![tactic(auto)]

ghost use Rattle.run.specs.Row.{RowOf, row_asked};
ghost use Rattle.run.specs.Sets.{SetsOf, sets_asked};
ghost use Rattle.run.specs.Advance.{AdvanceOf, advanced};
ghost use Rattle.run.specs.Start.{StartOf, started};
ghost use Rattle.run.specs.Withdraw.{WithdrawOf, WithdrawAllOf};
ghost use Rattle.run.specs.Working.{WorkingOf, working_asked};

mod bits; // bits.rt: sets of places
mod bounds; // bounds.rt: number 14
mod choosing; // choosing.rt: one pass over the tasks in the present tick
mod moves; // moves.rt: one tick
mod parameters; // parameters.rt: the tasks as a table has them
mod allocation; // allocation.rt: the positions that are given cores in a tick, those that borrow some, and the cores that are shown
pub mod starts; // starts.rt: the run of a table as it starts
mod tick; // tick.rt: the present tick, which row, sets, working and advance use
mod withdrawals; // withdrawals.rt: whether a run is firm, and positions withdrawn

use model::{MOST_TASKS, ROW, Refusal};
use phase::Task;

// A run: the rule's number, the core count, the set of fenced cores, the set of withdrawn positions (bit 0 for position 1), and the tasks in
// priority order, of which the first count are used.
// The rule is any number, since `run_out` tests it (14). An array with its count stands for a list, without a heap.
#[derive(Clone, Copy)]
pub struct Run {
    pub rule: u32,
    pub cores: u32,
    pub fence: u64,
    pub withdrawn: u32,
    pub count: usize,
    pub tasks: [Task; MOST_TASKS],
}

// The run of a table's words as it starts; or the first of 1 to 9 and 19 that applies, or 13 where the table misses a deadline.
pub fn start(words: &[u32]) -> Result<Run, Refusal>
    ensures { StartOf words.now (started result) }
{
    let table = table::load(words)?;
    if judge::fastest::first_miss(table, table.horizon + 1).is_some() {
        return Err(Refusal::TableMisses);
    }
    Ok(starts::begun(table))
}

impl Run {
    // The sets of cores of the present tick, one of each position, core 0 the lowest bit: held cores are in the holder's, lent ones in the borrower's and
    // fenced ones in none, and a position past the count has none. Bit p of `empties` is set if the job of position p + 1, released in this tick, is
    // empty. Refused: 14, 15 with the lowest late position, or 20.
    pub fn sets(self, empties: u32) -> Result<[u64; MOST_TASKS], Refusal>
        ensures { SetsOf self empties (sets_asked result) }
    {
        let tick = self.tick(empties)?;
        Ok(tick.sets)
    }

    // The set of the positions whose job has cores in the present tick, its own or lent ones, and works: those for which a report bit is admitted. Bit 0 is
    // for position 1. Bit p of `empties` is set if the job of position p + 1, released in this tick, is empty. Refused: 14, 15 with the lowest late
    // position, or 20.
    pub fn working(self, empties: u32) -> Result<u32, Refusal>
        ensures { WorkingOf self empties (working_asked result) }
    {
        let tick = self.tick(empties)?;
        Ok(tick.working)
    }

    // The row of the present tick, one byte a core: the position or 0 for idle, held cores with the holder's position and lent ones with the borrower's,
    // 255 on a fenced core; bytes past the core count are 0. Bit p of `empties` is set if the job of position p + 1, released in this tick, is empty.
    // Refused: 14, 15 with the lowest late position, or 20. Its bytes come from the sets and the fence.
    pub fn row(self, empties: u32) -> Result<[u8; ROW], Refusal>
        ensures { RowOf self empties (row_asked result) }
    {
        let tick = self.tick(empties)?;
        Ok(rule::row_in(self.cores, self.fence, &tick.sets[..self.count]))
    }

    // The run one tick on. Bit p of `reports` is set if the job of position p + 1 ends after this tick, and bit p of `empties` if it is
    // released in this tick and empty. Refused: 14, 15 with the lowest late position, 20 or 16.
    pub fn advance(self, reports: u32, empties: u32) -> Result<Run, Refusal>
        ensures { AdvanceOf self reports empties (advanced self result) }
    {
        let tick = self.tick(empties)?;
        let ending = reports & tick.working;
        if ending != reports {
            return Err(Refusal::BadReport);
        }
        Ok(self.moved(tick.given, tick.lent, reports, empties))
    }

    // The run with a position withdrawn: a job of it released before the present tick goes on, one released in this tick and all later ones
    // are empty. Refused: 14, 21 or 22. 15 is not tested.
    pub fn withdraw(self, position: u32) -> Result<Run, Refusal>
        ensures { WithdrawOf self position (advanced self result) }
    {
        self.may_withdraw()?;
        if (position == 0) | ((self.count as u32) < position) {
            return Err(Refusal::NoPosition);
        }
        Ok(self.with_withdrawn(1u32 << (position - 1)))
    }

    // The run with all positions of a set withdrawn together, bit 0 for position 1. Refused: 14, 21, for the empty set too, or 22 where a position is past
    // the count. 15 is not tested.
    pub fn withdraw_all(self, set: u32) -> Result<Run, Refusal>
        ensures { WithdrawAllOf self set (advanced self result) }
    {
        self.may_withdraw()?;
        if bits::past(set, self.count) {
            return Err(Refusal::NoPosition);
        }
        Ok(self.with_withdrawn(set))
    }
}
