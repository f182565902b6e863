// The limits on plain values: numbers 2, 3, 19, 7 and 8.
ghost use Rattle.std.specs.Prelude.{◌≡◌};
ghost use Rattle.table.specs.Task.{task_of};
ghost use Rattle.table.specs.Words.{fence_of};
ghost use Rattle.table.specs.Limits.{cores_out, rule_out, fence_out, width_out, times_out, task_number};

use crate::Task;
use model::MOST_CORES;

// The largest O, C and T.
pub const MOST_TIME: u32 = 1_000_000;

// The longest horizon.
pub const MOST_HORIZON: u32 = 1_000_000_000;

// The weight of the fence's second word.
pub const HIGH: u64 = 4_294_967_296;

// Whether the core count is not 1 to 64 (number 2).
// No plainer as one with `rule_out`: a call that names both ends is longer than the expression.
pub fn cores_out(cores: u32) -> bool
    ensures { result ≡ cores_out cores }
{
    !((1 <= cores) & (cores <= MOST_CORES))
}

// Whether the rule is not 1 to 4 (number 3).
// Numbers, since this is the test of which numbers are a rule. No plainer as one with `cores_out`.
pub fn rule_out(rule: u32) -> bool
    ensures { result ≡ rule_out rule }
{
    !((1 <= rule) & (rule <= 4))
}

// The fence from its two words, low word first.
pub fn fence_of(low: u32, high: u32) -> u64
    ensures { result ≡ fence_of low high }
{
    u64::from(low) + u64::from(high) * HIGH
}

// Whether the fence contains a core past the count, or all cores (number 19).
pub fn fence_out(cores: u32, fence: u64) -> bool
    ensures { result ≡ fence_out cores fence }
{
    (cores <= MOST_CORES) & (cores::first_cores(cores) <= fence)
}

// Whether a width of a task, that of its odd jobs or that of its even ones, is 0 or above the number of unfenced cores (number 7).
pub(crate) fn width_out(wide: u32, task: Task) -> bool
    ensures { result ≡ width_out wide (task_of task) }
{
    ((task.width == 0) | (wide < task.width)) | ((task.second == 0) | (wide < task.second))
}

// Whether a task's O, C, T or D is outside its limits (number 8).
pub(crate) fn times_out(task: Task) -> bool
    ensures { result ≡ times_out (task_of task) }
{
    (MOST_TIME < task.offset)
        | (!((1 <= task.length) & (task.length <= MOST_TIME))
            | (!((1 <= task.period) & (task.period <= MOST_TIME))
                | !((1 <= task.deadline) & (task.deadline <= task.period))))
}

// The number that turns a task down on this number of unfenced cores: 7, else 8; 0 where neither does.
// A number and 0 for none: what may not change, `task_number` of specs/Limits, of which `task_out` there is made.
pub fn task_number(wide: u32, task: Task) -> u32
    ensures { result ≡ task_number wide (task_of task) }
{
    let broad = width_out(wide, task);
    let late = times_out(task);
    if broad {
        return 7;
    }
    if late {
        return 8;
    }
    0
}
