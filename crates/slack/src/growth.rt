// A table that passed, with the C of one task grown: whether it misses, and how far one task may grow.
ghost use Rattle.std.specs.Prelude.{true, ◌≡◌, ◌+◌, ◌≤◌, ◌<◌};
ghost use Rattle.model.specs.Task.{task};
ghost use Rattle.table.specs.Limits.{most_time};
ghost use Rattle.table.specs.Fit.{loaded_table};
ghost use Rattle.slack.specs.Answer.{slack_in, has_slack};
ghost use Rattle.slack.specs.Longer.{grown};
ghost use Rattle.slack.specs.Ordered.{ordered};
ghost use Rattle.slack.specs.Slack.{misses, slack};

use model::MOST_TASKS;
use table::Fitting;

// Whether a deadline is missed.
fn misses(table: Fitting) -> bool
    ensures { result ≡ misses (loaded_table table.loaded) }
{
    judge::fastest::first_miss(table.loaded, table.loaded.horizon + 1).is_some()
}

// Whether a deadline is missed with the task at a place longer by `growth` ticks.
// The place is a number: a task by reference would not say which one of the table grows.
fn misses_longer(table: Fitting, place: usize, growth: u32) -> bool
    requires { (place < table.loaded.count) × ((task (loaded_table table.loaded) place).length + growth ≤ most_time) }
    ensures { result ≡ misses (grown (loaded_table table.loaded) place growth) }
{
    let mut longer = table.loaded;
    longer.tasks[place].length += growth;
    misses(Fitting { loaded: longer })
}

// Whether the rule and the widths are those that slack is given for.
// The rule is a number, as the table has it.
// No plainer with an enum: the rule comes as the number that public functions take; it would be made for this test.
fn is_ordered(table: Fitting) -> bool
    ensures { result ≡ ordered (loaded_table table.loaded).rule (loaded_table table.loaded).tasks }
{
    let loaded = &table.loaded;
    match loaded.rule {
        3 | 4 => false,
        _ => judge::is_firm(loaded.rule, &loaded.tasks[..loaded.count]),
    }
}

// Whether slack is given for a table: it is so ordered, and accepted.
pub(crate) fn is_given(table: Fitting) -> bool
    ensures { result ≡ has_slack (loaded_table table.loaded) }
{
    is_ordered(table) && !misses(table)
}

// The slack of the task at a place: bisection between a growth that fits and one that misses, from none and from one past the deadline.
// A bisection by hand: the library's is over a slice, and here a number is sought.
// Not one bisection with that of `interference`, which asks at the middle of another range.
fn slack_at(table: Fitting, place: usize) -> u32
    requires { (place < table.loaded.count) × (has_slack (loaded_table table.loaded) ≡ true) }
    ensures { result ≡ slack (loaded_table table.loaded) place }
{
    let task = table.loaded.tasks[place];
    let mut fits: u32 = 0;
    let mut late = task.deadline - task.length + 1;
    while fits + 1 < late {
        let middle = (fits + late) / 2;
        if misses_longer(table, place, middle) {
            late = middle;
        } else {
            fits = middle;
        }
    }
    fits
}

// The slack of each task, and zeros past the count.
// Not inlined: its copies of the table would lie beside those of `is_given`, for which a call of C has no stack.
#[inline(never)]
pub(crate) fn figures(table: Fitting) -> [u32; MOST_TASKS]
    requires { has_slack (loaded_table table.loaded) ≡ true }
    ensures { result ≡ slack_in (loaded_table table.loaded) }
{
    let mut figures = [0u32; MOST_TASKS];
    for place in 0..table.loaded.count {
        figures[place] = slack_at(table, place);
    }
    figures
}
