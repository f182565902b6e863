// P, the least common multiple of the periods, 2T for a task whose widths differ (scope: P; the field: hyperperiod).
ghost use Rattle.std.specs.Prelude.{◌≡◌, ◌+◌, length, map, min};
ghost use Rattle.model.specs.Horizon.{hyperperiod};
ghost use Rattle.model.specs.Task.{cycle};
ghost use Rattle.table.specs.Task.{task_of, InLimits};
ghost use Rattle.table.specs.Gcd.{Gcd};
ghost use Rattle.table.specs.Limits.{most_horizon};

use crate::Task;
use crate::limits::MOST_HORIZON;

// A tick more than the longest horizon.
const PAST: u32 = MOST_HORIZON + 1;

// The greatest common divisor.
// By hand: the library has no greatest common divisor.
pub(crate) fn gcd(a: u64, b: u64) -> u64
    ensures { Gcd a b result }
{
    let mut x = a;
    let mut y = b;
    while 0 < y {
        let rest = x % y;
        x = y;
        y = rest;
    }
    x
}

// The number of ticks after which a task's releases and widths repeat: T, or 2T where its widths differ.
fn cycle(task: Task) -> u64
    ensures { result ≡ cycle (task_of task) }
{
    let period = u64::from(task.period);
    if task.width == task.second {
        period
    } else {
        2 * period
    }
}

// P, or one more than the longest horizon where it is above that.
// One more than the limit and no Option, since the clause is `min (hyperperiod ..) (most_horizon + 1)`, and pages name it.
pub fn hyperperiod(tasks: &[Task]) -> u32
    requires { InLimits tasks.now (length tasks.now) }
    ensures { result ≡ min (hyperperiod (map task_of tasks.now)) (most_horizon + 1) }
{
    let mut multiple: u64 = 1;
    for task in tasks {
        let span = cycle(*task);
        multiple = multiple / gcd(multiple, span) * span;
        if u64::from(MOST_HORIZON) < multiple {
            return PAST;
        }
    }
    multiple as u32
}
