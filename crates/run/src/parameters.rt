// The tasks of a run as a table has them.
ghost use Rattle.std.specs.Prelude.{◌≡◌, ◌≤◌};
ghost use Rattle.model.specs.Sizes.{most_tasks};
ghost use Rattle.table.specs.Task.{tasks_of};
ghost use Rattle.run.specs.Run.{parameters_in, tasks_in};

use crate::Run;
use model::MOST_TASKS;

impl Run {
    // The tasks below the count, without their phases; no task past it.
    pub fn parameters(self) -> [table::Task; MOST_TASKS]
        requires { self.count ≤ most_tasks }
        ensures { (result ≡ parameters_in self) × (tasks_of result self.count ≡ tasks_in self) }
    {
        let mut tasks = [table::Task::default(); MOST_TASKS];
        for (i, task) in self.tasks[..self.count].iter().enumerate() {
            tasks[i] = task.parameters;
        }
        tasks
    }
}
