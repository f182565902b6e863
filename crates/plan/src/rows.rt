// The rows of a plan, written into the lent buffer.
ghost use Rattle.std.specs.Prelude.{◌≡◌, false, ◌-◌, ◌*◌, ◌≤◌, length};
ghost use Rattle.model.specs.Search.{any};
ghost use Rattle.model.specs.Verdict.{missed_in};
ghost use Rattle.table.specs.Fit.{loaded_table};
ghost use Rattle.plan.specs.Plan.{with_rows};

use table::Fitting;

// Writes rows `a` up to but not including `b` of a full-length run that meets every deadline before `b`.
pub(crate) fn write(fitting: Fitting, a: u32, b: u32, out: &mut [u8])
    requires { (b ≤ fitting.loaded.horizon) × (any b (missed_in (loaded_table fitting.loaded)) ≡ false) × ((b - a) * fitting.loaded.cores ≤ length out.old) }
    ensures { out.new ≡ with_rows (loaded_table fitting.loaded) a b out.old }
{
    let table = fitting.loaded;
    let cores = table.cores as usize;
    let columns = simulation::columns::columns_of(table);
    let idle = rule::show(
        table.rule,
        table.cores,
        table.fence,
        0,
        0,
        &columns.widths,
        table.count,
    );
    let machine = simulation::machine::start(table);
    let mut registers = machine.registers;
    let mut places = machine.places;
    let mut shown: u32 = 0;
    let mut even: u32 = 0;
    let mut row = idle;
    // An iterator over the rows of `out` is no plainer: the ticks before `a` are run too, and none of them takes a row.
    let mut at: usize = 0;
    while registers.tick < b {
        let tick = registers.tick;
        registers = simulation::ticks::step(&columns, registers, &mut places);
        if a <= tick {
            // Like printer's test, but what is made anew here is the bytes of a row, and there its text.
            if (registers.chosen != shown) | (registers.even != even) {
                let fresh = rule::show(
                    table.rule,
                    table.cores,
                    table.fence,
                    registers.chosen,
                    registers.even,
                    &columns.widths,
                    table.count,
                );
                row = fresh;
                shown = registers.chosen;
                even = registers.even;
            }
            out[at..at + cores].copy_from_slice(&row[..cores]);
            at += cores;
        }
    }
}
