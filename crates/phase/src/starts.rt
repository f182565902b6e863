// A task as it starts from a table, and the value of a place past the count.
ghost use Rattle.std.specs.Prelude.{◌≡◌};
ghost use Rattle.table.specs.Task as table;
ghost use Rattle.phase.specs.Phase.{start_state};
ghost use Rattle.phase.specs.Task.{unused, start_task};

use crate::{Phase, Task};

// A place past the count: zeros, odd and Resting(0).
// Not derived: the phase of zeros is Resting(0), which no derive gives. One impl for Phase and derives above it are no
// plainer: clauses name this value by its definition.
pub fn unused() -> Task
    ensures { result ≡ unused }
{
    Task {
        parameters: table::Task::default(),
        even: false,
        phase: Phase::Resting(0),
    }
}

// The phase at tick 0 of a task of this offset.
fn start_phase(offset: u32) -> Phase
    ensures { result ≡ (start_state offset).phase }
{
    if offset == 0 {
        Phase::Working(0, 0, 0)
    } else {
        Phase::Coming(offset)
    }
}

impl From<table::Task> for Task {
    ghost from_gives = { λ task started. started ≡ start_task (table.task_of task) };

    // A task of the table as it starts: its first job is an odd one.
    fn from(task: table::Task) -> Task {
        Task {
            parameters: task,
            even: false,
            phase: start_phase(task.offset),
        }
    }
}
