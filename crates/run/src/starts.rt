// The run of a table as it starts.
ghost use Rattle.std.specs.Prelude.{◌≡◌, ◌≤◌};
ghost use Rattle.table.specs.Fit.{loaded_table};
ghost use Rattle.run.specs.Start.{started_run, empty_run};
ghost use Rattle.model.specs.Sizes.{most_tasks};

use crate::Run;
use model::MOST_TASKS;
use phase::Task;
use table::Loaded;

// The run of all zeros with every phase Resting(0), which 14 turns down: what stands for the run of a start that is refused.
// Not derived: the phase of zeros is Resting(0), which no derive gives. One impl for Phase and derives above it are no
// plainer: clauses name this value by its definition.
pub fn empty() -> Run
    ensures { result ≡ empty_run }
{
    let place = phase::starts::unused();
    let tasks = [place; MOST_TASKS];
    Run {
        rule: 0,
        cores: 0,
        fence: 0,
        withdrawn: 0,
        count: 0,
        tasks,
    }
}

// The run of a table that was loaded, as it starts. Not inlined: its copies would take stack while the table is judged.
// It is public: a `Fitting` would ask more than the count.
#[inline(never)]
pub fn begun(table: Loaded) -> Run
    requires { table.count ≤ most_tasks }
    ensures { result ≡ started_run table.rule (loaded_table table) }
{
    let place = phase::starts::unused();
    let mut places = [place; MOST_TASKS];
    for (i, task) in table.tasks[..table.count].iter().enumerate() {
        places[i] = Task::from(*task);
    }
    Run {
        rule: table.rule,
        cores: table.cores,
        fence: table.fence,
        withdrawn: 0,
        count: table.count,
        tasks: places,
    }
}
