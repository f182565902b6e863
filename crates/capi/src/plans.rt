// The calls for a plan, and for plans by others.
ghost use Rattle.std.specs.Prelude.{◌≡◌, [], ◌∷◌};
ghost use Rattle.capi.specs.Calls.{plan_call};
ghost use Rattle.capi.specs.CheckRow.{begin_call, check_row_call};

use crate::results;
use buffers::answer_words::AnswerWords;
use buffers::{plan_buffer, run_buffer};

// Rows a up to but not including b of the full-length run into `rows`, one byte a core: case 0, or 3 Refused number position and the rows as found.
#[unsafe(no_mangle)]
pub extern "C" fn sivorandra_plan(
    words: &[u32],
    a: u32,
    b: u32,
    rows: &mut [u8],
    answer: &mut [u32],
) -> u32
    ensures { record { value = result; lent = rows.new ∷ (answer.new ∷ []) } ≡ plan_call words.now a b rows.old answer.old }
{
    results::answered(rows, 0, answer, |rows| {
        let planned = plan::plan(words, a, b, rows);
        results::encoded(planned, 0)
    })
}

// The plan of a table's words from the supplier's own planner as it begins, all its words, into the front of `plan`: case 0, or 3 Refused number position
// and the plan of all zeros.
#[unsafe(no_mangle)]
pub extern "C" fn sivorandra_check_begin(words: &[u32], plan: &mut [u32], answer: &mut [u32]) -> u32
    ensures { record { value = result; lent = plan.new ∷ (answer.new ∷ []) } ≡ begin_call words.now plan.old answer.old }
{
    results::answered(plan, plan_buffer::WORDS, answer, |plan| {
        let begun = plan_check::begin(words);
        // an empty plan beside a refusal, as C is promised
        let first = begun.unwrap_or(plan_check::begins::empty());
        plan_buffer::put_plan(first, run_buffer::PLACES, true, plan);
        results::encoded(begun, 0)
    })
}

// The row of the plan's present tick, one byte a core, as the supplier has it: case 0 taken, 6 taken as the last, and the whole plan accepted; or
// 3 Refused number tick and `plan` as found; 14 where `plan` holds no plan.
#[unsafe(no_mangle)]
pub extern "C" fn sivorandra_check_row(plan: &mut [u32], row: &[u8], answer: &mut [u32]) -> u32
    ensures { record { value = result; lent = plan.new ∷ (answer.new ∷ []) } ≡ check_row_call plan.old row.now answer.old }
{
    results::answered(plan, 0, answer, |plan| {
        let entered = plan_buffer::take(plan, row);
        AnswerWords::from(entered)
    })
}
