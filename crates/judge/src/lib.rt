// The verdict on a table's words, from its full-length run: tick by tick, event by event, or by the fastest way.
#![tactic(auto)]

ghost use Rattle.std.specs.Prelude.{◌≡◌, ◌+◌, suc, ◌≤◌, map, max, min};
ghost use Rattle.model.specs.Task.{rule_of};
ghost use Rattle.model.specs.Firm.{parallelism_monotonic, firm};
ghost use Rattle.model.specs.Sizes.{most_tasks};
ghost use Rattle.table.specs.Task.{task_of};
ghost use Rattle.table.specs.Fit.{loaded_table, Fit};
ghost use Rattle.judge.specs.FirstMiss.{FindsFirstMiss, missed_before, miss_of, by_miss};
ghost use Rattle.judge.specs.Judged.{Judged, accepted_of};

use table::{Loaded, Task};

pub mod by_events; // by_events.rt: the first miss, from event to event
pub mod by_ticks; // by_ticks.rt: the first miss, tick by tick
mod cost; // cost.rt: which of the two is the faster one for a table
pub mod fastest; // fastest.rt: the first miss, by the interference test or by the faster of the two

// The judge's answer: Firm with S and P, Full with S and P, Miss with tick and position, or Refused with number and position.
// No Result: docs/SCOPE.md names this enum, whose cases carry S and P, tick and position, or number and position.
#[derive(Clone, Copy)]
pub enum Verdict {
    Firm(u32, u32),
    Full(u32, u32),
    Miss(u32, u32),
    Refused(u32, u32),
}

// A deadline missed: its tick, and the position of the task.
#[derive(Clone, Copy, PartialEq, Eq)]
pub struct Miss {
    pub tick: u32,
    pub position: u32,
}

// A run where it has stopped, by ticks or by events, and the first deadline missed, or none.
#[derive(Clone, Copy)]
pub struct Ran<R> {
    pub registers: R,
    pub missed: Option<Miss>,
}

// The larger of a task's two widths.
// Stays over the library's max: a public function of a crate that docs/ names as something to use (docs/PROOFS.md).
pub fn wider(a: u32, b: u32) -> u32
    ensures { result ≡ max a b }
{
    a.max(b)
}

// The smaller of a task's two widths.
// Stays over the library's min, as `wider` does.
pub fn narrower(a: u32, b: u32) -> u32
    ensures { result ≡ min a b }
{
    a.min(b)
}

// Whether widths never fall along the tasks: the larger of each is at most the smaller of the next.
fn parallelism_monotonic(tasks: &[Task]) -> bool
    ensures { result ≡ parallelism_monotonic (map task_of tasks.now) }
{
    tasks.windows(2).all(|pair| {
        let above = &pair[0];
        let here = &pair[1];
        wider(above.width, above.second) <= narrower(here.width, here.second)
    })
}

// Whether the rule and the widths of the tasks are firm, that is predictable for shorter jobs too: rules 2, 3 and 4, and any other where widths never fall.
// The verdict tests it of a table, number 21 of a run. The rule is a number, since it answers for every number.
// No plainer with an enum: the rule comes as the number that public functions take; it would be made for this test.
pub fn is_firm(rule: u32, tasks: &[Task]) -> bool
    ensures { result ≡ firm (rule_of rule) (map task_of tasks.now) }
{
    match rule {
        2..=4 => true,
        _ => parallelism_monotonic(tasks),
    }
}

// The verdict on a table that misses no deadline.
// The count has a clause, here and in verdict_by: a `Fitting` would ask more of callers, who judge any 32 tasks.
pub fn accepted(table: Loaded) -> Verdict
    requires { table.count ≤ most_tasks }
    ensures { result ≡ accepted_of table }
{
    if is_firm(table.rule, &table.tasks[..table.count]) {
        return Verdict::Firm(table.start, table.period);
    }
    Verdict::Full(table.start, table.period)
}

// The verdict on a table by the first miss of its full-length run up to and including the horizon: that miss, or accepted.
fn verdict_by(table: Loaded, missed: Option<Miss>) -> Verdict
    requires { table.count ≤ most_tasks }
    ensures { result ≡ by_miss (miss_of missed) (accepted_of table) }
{
    match missed {
        None => accepted(table),
        Some(miss) => Verdict::Miss(miss.tick, miss.position),
    }
}

// The verdict on a table's words, with its first miss found by this function.
fn judge_by<F: Fn(Loaded, u32) -> Option<Miss>>(first_miss: F, words: &[u32]) -> Verdict
    requires { FindsFirstMiss (F.pre first_miss) (F.post first_miss) }
    ensures { Judged words.now result }
{
    match table::load(words) {
        Ok(table) => verdict_by(table, first_miss(table, table.horizon + 1)),
        Err(refusal) => Verdict::Refused(refusal.number(), refusal.position()),
    }
}

// The verdict on a table's words, by the fastest way.
pub fn judge(words: &[u32]) -> Verdict
    ensures { Judged words.now result }
{
    judge_by(fastest::first_miss, words)
}
