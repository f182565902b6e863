// The table's numbers, place by place, as the machine is stepped with them.
ghost use Rattle.std.specs.Prelude.{◌≡◌};
ghost use Rattle.simulation.specs.TickState.{numbers_of, loaded_numbers, paired_in};

use crate::TRIPLE;
use model::MOST_TASKS;
use model::sets::places_where;
use rule::PAIR;
use table::{Loaded, Task};

// The constants of a run, beside the tasks: the rule, the number of cores, the fence, the number of tasks, and the set of the places with two widths.
// The rule is a number, since a table of any rule has columns (`numbers_of`).
#[derive(Clone, Copy)]
pub struct Setting {
    pub rule: u32,
    pub cores: u32,
    pub fence: u64,
    pub count: usize,
    pub paired: u32,
}

// The numbers of a table that its run is stepped with; `widths` has the first of each place before the second, `times` has the lengths first,
// then the deadlines, then the periods.
// One array of widths, since rule's public functions and `widths_in` (rule/specs/Widths) speak of one list.
// One of times, as one of places beside it (`machine::Machine`): `release` copies from one to the other.
#[derive(Clone, Copy)]
pub struct Columns {
    pub setting: Setting,
    pub widths: [u32; PAIR],
    pub times: [u32; TRIPLE],
}

// The set of the places whose two widths differ.
pub fn paired_in(tasks: [Task; MOST_TASKS]) -> u32
    ensures { result ≡ paired_in tasks }
{
    places_where(MOST_TASKS, |i| tasks[i].width != tasks[i].second)
}

// The numbers of a table, place by place.
pub fn columns_of(table: Loaded) -> Columns
    ensures { numbers_of result ≡ loaded_numbers table }
{
    let mut widths = [0u32; PAIR];
    let mut times = [0u32; TRIPLE];
    for (i, task) in table.tasks.iter().enumerate() {
        widths[i] = task.width;
        widths[MOST_TASKS + i] = task.second;
        times[i] = task.length;
        times[crate::DEADLINE + i] = task.deadline;
        times[crate::PERIOD + i] = task.period;
    }
    let setting = Setting {
        rule: table.rule,
        cores: table.cores,
        fence: table.fence,
        count: table.count,
        paired: paired_in(table.tasks),
    };
    Columns {
        setting,
        widths,
        times,
    }
}
