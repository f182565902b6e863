// S of a position after the first, from the S before it (scope: S; the field: start of the periodic part): one expression, with no branch here or in
// anything it calls.
ghost use Rattle.std.specs.Prelude.{◌≡◌, ◌≤◌};
ghost use Rattle.model.specs.Horizon.{release_from};
ghost use Rattle.table.specs.Task.{task_of, TimesWithin};

use crate::Task;

// Above every offset, and above every tick that is passed.
const BIAS: u32 = 67_108_864;

// The first release of the task that is not before t: its offset where t is earlier.
pub(crate) fn release_from(task: Task, t: u32) -> u32
    requires fact_1 { TimesWithin task }
    requires fact_2 { t ≤ 32000000 }
    ensures { result ≡ release_from (task_of task) t }
{
    let offset = task.offset;
    let period = task.period;
    let ahead = t + BIAS - offset;
    // 1 where t has reached the offset, 0 before it
    let reached = ahead / BIAS;
    let since = ahead % BIAS * reached;
    offset + (since + (period - 1)) / period * period
}
