// The interference on a place: how many cores the places above are given in a window at most.
ghost use Rattle.std.specs.Prelude.{◌≡◌, ◌+◌, ◌*◌, ◌≤◌, min, get_or};
ghost use Rattle.model.specs.Interference.{cores_in, interference_in};
ghost use Rattle.table.specs.Limits.{most_time};
ghost use Rattle.table.specs.Task.{task_of};
ghost use Rattle.table.specs.Fit.{loaded_table};
ghost use Rattle.interference.specs.Bounds.{most_cores_in, most_interference, most_span};

use crate::search::Search;
use table::Task;

// In how many ticks jobs of this length are given cores at most, where `whole` jobs are in the window and `rest` ticks of one more.
fn ticks_of(length: u32, whole: u32, rest: u32) -> u32
    requires { (whole * length ≤ most_span) × (length ≤ most_time) }
    ensures { result ≡ whole * length + min length rest }
{
    whole * length + length.min(rest)
}

// How many cores a task is given at most in `waits` ticks of a window, summed over the ticks; one division gives the workload of all jobs and of every second one.
fn cores_in(task: Task, end: u32, window: u32, waits: u32) -> u64
    requires { (1 ≤ task.period) × (task.period ≤ most_time) × (task.length ≤ task.period) × (task.length ≤ end) × (end ≤ most_time) × (window ≤ most_time) × (waits ≤ most_time) }
    ensures { (result ≡ cores_in (task_of task) end window waits) × (result ≤ most_cores_in) }
{
    let length = task.length;
    let period = task.period;
    let narrow = task.width.min(task.second);
    let wide = task.width.max(task.second);
    let span = window + end - length;
    let whole = span / period;
    let rest = span % period;
    let all = waits.min(ticks_of(length, whole, rest));
    let sum = narrow as u64 * all as u64;
    if wide == narrow {
        return sum;
    }
    let second = waits.min(ticks_of(length, whole / 2, whole % 2 * period + rest));
    sum + (wide - narrow) as u64 * second as u64
}

impl Search {
    // How many cores the places above its own are given at most in `waits` ticks of a window, summed over the ticks.
    // By one index, since the bounds above are found one after another.
    pub(crate) fn interference_in(&self, window: u32, waits: u32) -> u64
        requires { (window ≤ most_time) × (waits ≤ most_time) }
        ensures { (result ≡ interference_in (loaded_table self.now.table) (λ i. get_or self.now.ends i 0) self.now.place window waits) × (result ≤ most_interference) }
    {
        let mut sum: u64 = 0;
        for i in 0..self.place {
            sum += cores_in(self.table.tasks[i], self.ends[i], window, waits);
        }
        sum
    }
}
