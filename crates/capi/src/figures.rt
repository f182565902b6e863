// The calls for a number of each task.
ghost use Rattle.std.specs.Prelude.{◌≡◌, [], ◌∷◌};
ghost use Rattle.capi.specs.Figures.{bounds_call, response_times_call, slack_call};

use crate::results;
use buffers::figures::put_figures;
use model::MOST_TASKS;

// The worst-case response time of each task of a table's words into the first 32 words of `figures`, 0 past the last task: case 0, or 3 Refused number
// position and 32 zeros.
#[unsafe(no_mangle)]
pub extern "C" fn sivorandra_response_times(
    words: &[u32],
    figures: &mut [u32],
    answer: &mut [u32],
) -> u32
    ensures { record { value = result; lent = figures.new ∷ (answer.new ∷ []) } ≡ response_times_call words.now figures.old answer.old }
{
    results::answered(figures, MOST_TASKS, answer, |figures| {
        let found = response_time::response_times(words);
        // zeros beside a refusal, as C is promised
        put_figures(found.unwrap_or([0; MOST_TASKS]), figures);
        results::encoded(found, 0)
    })
}

// The slack of each task of a table's words into the first 32 words of `figures`, 0 past the last task: case 0, or 3 Refused number position and
// 32 zeros.
#[unsafe(no_mangle)]
pub extern "C" fn sivorandra_slack(words: &[u32], figures: &mut [u32], answer: &mut [u32]) -> u32
    ensures { record { value = result; lent = figures.new ∷ (answer.new ∷ []) } ≡ slack_call words.now figures.old answer.old }
{
    results::answered(figures, MOST_TASKS, answer, |figures| {
        let found = slack::slack(words);
        // zeros beside a refusal, as C is promised
        put_figures(found.unwrap_or([0; MOST_TASKS]), figures);
        results::encoded(found, 0)
    })
}

// The response-time bound of each task of a table's words into the first 32 words of `figures`, 0 past the last task: case 0 and 1 where the table passes
// the interference test; case 0 and 0 where it does not, and 32 zeros; or 3 Refused number position and 32 zeros.
#[unsafe(no_mangle)]
pub extern "C" fn sivorandra_bounds(words: &[u32], figures: &mut [u32], answer: &mut [u32]) -> u32
    ensures { record { value = result; lent = figures.new ∷ (answer.new ∷ []) } ≡ bounds_call words.now figures.old answer.old }
{
    results::answered(figures, MOST_TASKS, answer, |figures| {
        let found = interference::response_bounds(words);
        let bounds = found.unwrap_or(None);
        // zeros beside a refusal, as C is promised
        put_figures(bounds.unwrap_or([0; MOST_TASKS]), figures);
        results::encoded(found, u32::from(bounds.is_some()))
    })
}
