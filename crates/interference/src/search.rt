// The search for the window of a place: twice as many ticks of waiting until one passes, then halvings. At most 41 windows are tried.
ghost use Rattle.std.specs.Prelude.{cond, ◌≡◌, ℕ, suc, ◌+◌, ◌/◌, ◌≤◌, ◌<◌, get_or};
ghost use Rattle.model.specs.Interference.{bound_from, first_window, most_halvings, most_tries, need, shortened_window, suffices};
ghost use Rattle.model.specs.Task.{task};
ghost use Rattle.table.specs.Limits.{most_time};
ghost use Rattle.table.specs.Fit.{loaded_table, Fit};
ghost use Rattle.interference.specs.Bounds.{Above, Sought};

use model::MOST_TASKS;
use table::Loaded;

// How many windows are tried upwards at most: the ticks of waiting double from 1 to past 1,000,000.
const MOST_TRIES: u32 = 21;

// How many halvings there are at most.
const MOST_HALVINGS: u32 = 20;

// A shortest and a longest window.
#[derive(Clone, Copy)]
struct Range {
    low: u32,
    high: u32,
}

// A search for the window of a place: its table, the windows of the places above it, and how many cores these are given at least in a tick in which a job of it
// waits.
#[derive(Clone, Copy)]
pub(crate) struct Search {
    pub(crate) table: Loaded,
    pub(crate) ends: [u32; MOST_TASKS],
    pub(crate) place: usize,
    pub(crate) wanted: u32,
    ghost sought: { Sought table ends place wanted },
}

impl Search {
    // Whether a window passes the test.
    fn passes(&self, window: u32) -> bool
        requires { ((task (loaded_table self.now.table) self.now.place).length ≤ window) × (window ≤ (task (loaded_table self.now.table) self.now.place).deadline) }
        ensures { result ≡ suffices (loaded_table self.now.table) (λ i. get_or self.now.ends i 0) self.now.place window }
    {
        let waits = window + 1 - self.table.tasks[self.place].length;
        let given = self.interference_in(window, waits);
        given < waits as u64 * self.wanted as u64
    }

    // The first window that passes, from the job's length on with twice the ticks of waiting each time, or one more than its deadline.
    // No Option: one more than the deadline is the upper end that the halvings take.
    fn first_window(&self) -> u32
        ensures { result ≡ first_window (loaded_table self.now.table) (λ i. get_or self.now.ends i 0) self.now.place most_tries (task (loaded_table self.now.table) self.now.place).length }
    {
        let length = self.table.tasks[self.place].length;
        let deadline = self.table.tasks[self.place].deadline;
        if deadline < length {
            return deadline + 1;
        }
        let mut window = length;
        for _ in 0..MOST_TRIES {
            if self.passes(window) {
                return window;
            }
            if deadline <= window {
                return deadline + 1;
            }
            window = deadline.min(window + (window + 1 - length));
        }
        deadline + 1
    }

    // One halving: the shorter half where the window in the middle passes, else the longer.
    fn halve(&self, low: u32, high: u32) -> Range
        requires { ((task (loaded_table self.now.table) self.now.place).length ≤ low) × (low < high) × (high ≤ suc (task (loaded_table self.now.table) self.now.place).deadline) }
        ensures { (result.low ≡ cond (suffices (loaded_table self.now.table) (λ i. get_or self.now.ends i 0) self.now.place ((low + high) / 2)) low (suc ((low + high) / 2)))
            × (result.high ≡ cond (suffices (loaded_table self.now.table) (λ i. get_or self.now.ends i 0) self.now.place ((low + high) / 2)) ((low + high) / 2) high) }
    {
        let middle = (low + high) / 2;
        if self.passes(middle) {
            return Range { low, high: middle };
        }
        Range {
            low: middle + 1,
            high,
        }
    }

    // The window of the place: one that passes, or one more than its deadline where none is found.
    // No Option: `bound_from` of model/specs/Interference gives that number, and `test` asks only if it is too large.
    // Not one bisection with slack's: this range has its lower end, as `bound_from` says, and slack's has not.
    pub(crate) fn bound(&self) -> u32
        ensures { result ≡ bound_from (loaded_table self.now.table) (λ i. get_or self.now.ends i 0) self.now.place }
    {
        let mut low = self.table.tasks[self.place].length;
        let mut high = self.first_window();
        for _ in 0..MOST_HALVINGS {
            if high <= low {
                return high;
            }
            let next = self.halve(low, high);
            low = next.low;
            high = next.high;
        }
        high
    }
}
