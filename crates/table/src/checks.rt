// Numbers 7 to 9 of a table whose chain ends, and what passes.
ghost use Rattle.std.specs.Prelude.{◌≡◌, ◌≤◌, ◌+◌, length, map};
ghost use Rattle.table.specs.Task.{task_of, tasks_of, InLimits};
ghost use Rattle.table.specs.Limits.{horizon_out};
ghost use Rattle.table.specs.Answer.{answer_in, tasks_answer, by_horizon, by_tasks};
ghost use Rattle.table.specs.Load.{code_tasks, passing, loaded_by, table_with};
ghost use Rattle.model.specs.Refusal.{numbered};
ghost use Rattle.model.specs.Sizes.{most_cores, most_tasks};

use crate::chain::Chain;
use crate::limits::MOST_HORIZON;
use crate::{Loaded, Task};
use model::Refusal;

// Whether the last S plus P exceeds the longest horizon (number 9).
pub fn horizon_out(start: u32, period: u32) -> bool
    ensures { result ≡ horizon_out (start + period) }
{
    u64::from(MOST_HORIZON) < u64::from(start) + u64::from(period)
}

// A table whose tasks are within their limits: number 9, or the table.
// What it asks of the chain stands in clauses: `last_start` and `hyperperiod`, which pages name, ask it of any tasks.
fn by_horizon(cores: u32, fence: u64, rule: u32, chain: Chain) -> Result<Loaded, Refusal>
    requires some { 1 ≤ chain.count }
    requires few { chain.count ≤ most_tasks }
    requires limits { InLimits chain.tasks chain.count }
    requires tasks { chain.tasks ≡ code_tasks (tasks_of chain.tasks chain.count) }
    ensures { numbered result ≡ loaded_by (by_horizon (table_with cores fence rule (tasks_of chain.tasks chain.count))) (passing rule (table_with cores fence rule (tasks_of chain.tasks chain.count))) }
{
    let tasks = &chain.tasks[..chain.count];
    let start = crate::positions::last_start(tasks);
    let period = crate::hyperperiod::hyperperiod(tasks);
    if horizon_out(start, period) {
        return Err(Refusal::LongHorizon);
    }
    Ok(Loaded {
        count: chain.count,
        cores,
        fence,
        rule,
        tasks: chain.tasks,
        start,
        period,
        horizon: start + period,
    })
}

// Number 7 or 8 of the first task that breaks one, on this number of unfenced cores.
fn check_tasks(wide: u32, tasks: &[Task]) -> Result<(), Refusal>
    requires { length tasks.now ≤ most_tasks }
    ensures { answer_in result ≡ tasks_answer wide (map task_of tasks.now) }
{
    for (place, task) in tasks.iter().enumerate() {
        let position = place as u32 + 1;
        if crate::limits::width_out(wide, *task) {
            return Err(Refusal::BadWidth(position));
        }
        if crate::limits::times_out(*task) {
            return Err(Refusal::BadTime(position));
        }
    }
    Ok(())
}

// A table whose header passes and whose chain ends: number 7 or 8 of the first task that breaks one, or by the horizon.
pub(crate) fn by_tasks(cores: u32, fence: u64, rule: u32, chain: Chain) -> Result<Loaded, Refusal>
    requires cores { cores ≤ most_cores }
    requires some { 1 ≤ chain.count }
    requires few { chain.count ≤ most_tasks }
    requires tasks { chain.tasks ≡ code_tasks (tasks_of chain.tasks chain.count) }
    ensures { numbered result ≡ loaded_by (by_tasks (table_with cores fence rule (tasks_of chain.tasks chain.count))) (passing rule (table_with cores fence rule (tasks_of chain.tasks chain.count))) }
{
    let wide = cores::unfenced_count(cores, fence);
    check_tasks(wide, &chain.tasks[..chain.count])?;
    by_horizon(cores, fence, rule, chain)
}
