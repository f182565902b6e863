// The table in the supplier's words: the numbers 1 to 9 and 19, the chain, the tasks, S, P and the horizon.
#![tactic(auto)]

ghost use Rattle.table.specs.Load.{LoadOf};

pub mod limits; // limits.rt: numbers 2, 3, 19, 7 and 8 on plain values
mod header; // header.rt: numbers 1, 2, 3, 19 and 4
mod chain; // chain.rt: the walk along the chain, numbers 5 and 6
pub mod checks; // checks.rt: numbers 7 to 9, and what passes
mod start; // start.rt: S of a position from the S before it
pub mod positions; // positions.rt: the walk along the positions that finds the last S
mod fitting; // fitting.rt: a table that is fit to be run
pub mod hyperperiod; // hyperperiod.rt: P, the least common multiple of the periods, of 2T where widths differ

pub use fitting::Fitting;
use model::{MOST_TASKS, Refusal};

// The number of words of the header, and of each record.
pub const HEADER: usize = 5;

pub const RECORD: usize = 7;

// The most words of a table.
pub const MOST_WORDS: usize = HEADER + RECORD * MOST_TASKS;

// A task of the table: offset O, width v of its odd jobs, length C, deadline D, period T, and width w of its even jobs.
// The default is zeros: no task, the value past the count.
#[derive(Clone, Copy, Default)]
pub struct Task {
    pub offset: u32,
    pub width: u32,
    pub length: u32,
    pub deadline: u32,
    pub period: u32,
    pub second: u32,
}

// A table: the cores, the fence, which is a set of them, the tasks in priority order, zeros past the count, the last S, P and the horizon.
// The rule is a number, since columns and printers take a table of any rule. An array with its count stands for a list, without a heap.
// What public functions ask of it (`Fit`, an end within the horizon) stands in their clauses, since pages name them.
// Private functions that run the table take a `Fitting`; those that need the count alone ask for it.
// The default is zeros: a table without tasks.
#[derive(Clone, Copy, Default)]
pub struct Loaded {
    pub count: usize,
    pub cores: u32,
    pub fence: u64,
    pub rule: u32,
    pub tasks: [Task; MOST_TASKS],
    pub start: u32,
    pub period: u32,
    pub horizon: u32,
}

// The table that the words represent, or the first number that applies.
pub fn load(words: &[u32]) -> Result<Loaded, Refusal>
    ensures { LoadOf words.now result }
{
    header::check(words)?;
    let chain = chain::walk(words)?;
    checks::by_tasks(words[1], header::fence_in(words), words[2], chain)
}
