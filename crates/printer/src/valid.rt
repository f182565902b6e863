// Whether the numbers of any printer are in their limits.
ghost use Rattle.std.specs.Prelude.{◌≡◌};
ghost use Rattle.simulation.specs.Places.{segment};
ghost use Rattle.printer.specs.Valid.{table_valid, owed, within, valid};

use crate::Printer;
use model::sets::places_where;
use model::{MOST_CORES, MOST_TASKS};
use simulation::TRIPLE;
use table::Loaded;
use table::limits::MOST_HORIZON;
use text::row::{CELLS, LINE};

// Whether a table's count, core count and tasks are in their limits.
// What may not change: 0 is none in `task_number` of table/specs/Limits, of which `task_out` is made.
fn table_valid(table: Loaded) -> bool
    ensures { result ≡ table_valid table }
{
    let count = table.count;
    let cores = table.cores;
    if MOST_TASKS < count {
        return false;
    }
    if MOST_CORES < cores {
        return false;
    }
    let wide = cores::unfenced_count(cores, table.fence);
    table.tasks[..count]
        .iter()
        .all(|task| table::limits::task_number(wide, *task) == 0)
}

// The set of the places that are owed ticks.
fn owed(places: [u32; TRIPLE]) -> u32
    ensures { result ≡ owed (segment 0 places) }
{
    places_where(MOST_TASKS, |i| 0 < places[i])
}

// Whether every place of one set is in another.
// One expression: the library has no sets of bits.
fn within(a: u32, b: u32) -> bool
    ensures { result ≡ within a b }
{
    a & b == a
}

impl Printer {
    // Whether the printer can be stepped.
    pub(crate) fn valid(self) -> bool
        ensures { result ≡ valid self }
    {
        let table = self.table;
        let stage = self.stage;
        let registers = stage.registers;
        let places = self.places;
        let fits = table_valid(table);
        let claims = within(registers.claiming, owed(places));
        let chosen = within(registers.granted, registers.chosen);
        fits & ((registers.tick <= self.end)
            & ((self.end <= MOST_HORIZON)
                & ((stage.ready <= LINE)
                    & ((self.given <= stage.ready) & ((stage.text <= CELLS) & (claims & chosen))))))
    }
}
