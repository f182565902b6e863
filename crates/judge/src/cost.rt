// Which of the two judges is the faster one for a table.
ghost use Rattle.std.specs.Prelude.{◌≡◌, ◌≤◌};
ghost use Rattle.judge.specs.Cost.{jobs_of, event_cost, tick_cost, ticks_cheaper};

use table::{Loaded, Task};

// The sample of ticks in which events and work are counted.
const SAMPLE: u32 = 1_000_000;

// The cost of a job for the event judge, in ticks of one job's work, as measured: where its deadline is the next release (implicit deadline) ..
const IMPLICIT_DEADLINE: u32 = 16;

// .. and where the deadline is an event of its own (constrained deadline).
const CONSTRAINED_DEADLINE: u32 = 36;

// The jobs of a task in the sample; none where there is no task.
fn jobs_of(task: Task) -> u32
    ensures { (result ≡ jobs_of task) × (result ≤ 1000000) }
{
    let period = task.period;
    if period == 0 {
        return 0;
    }
    SAMPLE / period
}

// The cost of a task for the event judge.
fn event_cost(task: Task) -> u32
    ensures { (result ≡ event_cost task) × (result ≤ 36000000) }
{
    let jobs = jobs_of(task);
    let deadline = task.deadline;
    let period = task.period;
    if deadline == period {
        return jobs * IMPLICIT_DEADLINE;
    }
    jobs * CONSTRAINED_DEADLINE
}

// Its cost for the tick judge.
fn tick_cost(task: Task) -> u64
    ensures { (result ≡ tick_cost task) × (result ≤ 4294967296000000) }
{
    let jobs = jobs_of(task);
    jobs as u64 * task.length as u64
}

// Whether the tick judge is the faster one.
pub(crate) fn ticks_cheaper(table: Loaded) -> bool
    ensures { result ≡ ticks_cheaper table }
{
    let mut work: u64 = 0;
    let mut events: u64 = 0;
    for task in &table.tasks {
        work += tick_cost(*task);
        events += event_cost(*task) as u64;
    }
    u64::from(SAMPLE) + work <= events
}
