// The first miss by the fastest way. A table that passes the interference test misses no deadline, and is not simulated.
// Else the faster of the two judges answers. The choice depends on the table alone: on the number of events of its tasks in a sample of
// ticks. Where nearly every tick is an event, the tick judge is faster, else the event judge.
ghost use Rattle.std.specs.Prelude.{◌+◌, ◌≤◌};
ghost use Rattle.table.specs.Fit.{loaded_table, Fit};
ghost use Rattle.judge.specs.FirstMiss.{MissedOf, miss_of};

use crate::Miss;
use table::Loaded;

// The first deadline that the full-length run misses before tick `end`, at equal ticks the first in priority.
// Table and end apart: the function is public, and `judge_by` takes it as it is.
pub fn first_miss(table: Loaded, end: u32) -> Option<Miss>
    requires { Fit table × (end ≤ table.horizon + 1) }
    ensures { MissedOf (loaded_table table) end (miss_of result) }
{
    if interference::test(table).is_some() {
        return None;
    }
    if crate::cost::ticks_cheaper(table) {
        return crate::by_ticks::first_miss(table, end);
    }
    crate::by_events::first_miss(table, end)
}
