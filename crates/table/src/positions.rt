// The walk along the positions that finds the last S.
ghost use Rattle.std.specs.Prelude.{◌≡◌, ◌≤◌, length, map};
ghost use Rattle.model.specs.Horizon.{last_s};
ghost use Rattle.model.specs.Sizes.{most_tasks};
ghost use Rattle.table.specs.Task.{task_of, InLimits};

use crate::Task;
use crate::start::release_from;

// The last S.
pub fn last_start(tasks: &[Task]) -> u32
    requires some { 1 ≤ length tasks.now }
    requires few { length tasks.now ≤ most_tasks }
    requires limits { InLimits tasks.now (length tasks.now) }
    ensures { result ≡ last_s (map task_of tasks.now) }
{
    let mut start = tasks[0].offset;
    for task in &tasks[1..] {
        start = release_from(*task, start);
    }
    start
}
