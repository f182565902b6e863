// The rows of the full-length run, into a lent buffer.
#![tactic(auto)]

ghost use Rattle.std.specs.Prelude.{◌≡◌, length};
ghost use Rattle.table.specs.Fit.{loaded_table};
ghost use Rattle.plan.specs.Plan.{planned, by_plan, plan_meaning, buffer_of, PlanOf};

use model::Refusal;
use table::Fitting;

mod rows; // rows.rt: rows into the buffer

// The plan of a table that passed: number 10, 11 or 12, or the rows.
fn by_table(fitting: Fitting, a: u32, b: u32, out: &mut [u8]) -> Result<(), Refusal>
    ensures { (planned result ≡ by_plan (loaded_table fitting.loaded) a b (length out.old)) × (out.new ≡ buffer_of (plan_meaning (planned result)) (loaded_table fitting.loaded) a b out.old) }
{
    let table = fitting.loaded;
    if b < a {
        return Err(Refusal::BadRange);
    }
    if table.horizon < b {
        return Err(Refusal::BadRange);
    }
    let bytes = (b - a) as u64 * table.cores as u64;
    if (out.len() as u64) < bytes {
        return Err(Refusal::ShortRows);
    }
    match judge::fastest::first_miss(table, b) {
        None => {
            rows::write(fitting, a, b, out);
            Ok(())
        }
        Some(_) => Err(Refusal::PastMiss),
    }
}

// Rows `a` up to but not including `b` of the full-length run of the table in these words, core 0 first, one byte a core; or the first number that applies,
// and the buffer as found.
pub fn plan(words: &[u32], a: u32, b: u32, out: &mut [u8]) -> Result<(), Refusal>
    ensures { PlanOf words.now a b out.old out.new (planned result) }
{
    let fitting = Fitting::load(words)?;
    by_table(fitting, a, b, out)
}
