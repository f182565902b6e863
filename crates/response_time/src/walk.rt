// The full-length run of a table that passed, from event to event, and the worst-case response time of each task in it.
ghost use Rattle.std.specs.Prelude.{◌≡◌, suc};
ghost use Rattle.judge.specs.FirstMiss.{missed_before, by_miss};
ghost use Rattle.table.specs.Fit.{loaded_table};
ghost use Rattle.judge.specs.Judged.{accepted_of};
ghost use Rattle.response_time.specs.ResponseTimes.{answered, response_times_in, response_times_by};

use model::{MOST_TASKS, Refusal};
use table::Fitting;

// Jumps up to the horizon and past it, and records the response time of each job that ends; a missed deadline is 13.
// Not inlined: what it holds would take stack while the table is loaded, for which a call of C has none.
#[inline(never)]
pub(crate) fn times_of(fitting: Fitting) -> Result<[u32; MOST_TASKS], Refusal>
    ensures { answered result ≡ response_times_by (by_miss (missed_before (loaded_table fitting.loaded) (suc fitting.loaded.horizon)) (accepted_of fitting.loaded)) (response_times_in (loaded_table fitting.loaded)) }
{
    let table = fitting.loaded;
    let columns = simulation::columns::columns_of(table);
    let machine = simulation::events::start(table);
    let mut registers = machine.registers;
    let mut places = machine.places;
    let mut responses = [0u32; MOST_TASKS];
    while registers.tick <= table.horizon {
        if crate::recording::any_left(registers.claiming & registers.due, &places) {
            return Err(Refusal::TableMisses);
        }
        let on = judge::by_events::run_on(&columns, registers, &mut places, registers.tick + 1);
        registers = on.registers;
        let ended = registers.chosen & (registers.chosen ^ registers.claiming);
        crate::recording::record_ends(
            ended,
            registers.tick,
            &columns.times,
            &places,
            &mut responses,
        );
    }
    Ok(responses)
}
