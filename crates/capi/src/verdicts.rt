// The calls for a verdict, and for the tasks in conflict.
ghost use Rattle.std.specs.Prelude.{◌≡◌, true, false, [], ◌∷◌};
ghost use Rattle.std.specs.Fn.{FnOnceReturnsAt};
ghost use Rattle.buffers.specs.declared.answer_words.AnswerWords.{AnswerWords};
ghost use Rattle.buffers.specs.AnswerWords.{answer_fits, answer_written};
ghost use Rattle.capi.specs.Calls.{judge_call, conflict_call};

use buffers::answer_words;
use buffers::answer_words::AnswerWords;

// A call that writes to no other slice, by the words of a table: 0 where `answer` has space; else 1, and it is as found.
// No plainer by `results::answered`: each call would lend an empty slice and take one that it does not use.
// 0 or 1, and no Result, since C reads it as the status of its call (include/sivorandra.h).
fn answered<F: FnOnce(&[u32]) -> AnswerWords>(words: &[u32], answer: &mut [u32], call: F) -> u32
    requires { F.IsAlwaysCallable call }
    ensures fits { answer_fits answer.old ≡ true
        → (given : AnswerWords) × FnOnceReturnsAt F.FnOnce call words.now given × (result ≡ 0) × (answer.new ≡ answer_written given answer.old) }
    ensures short { answer_fits answer.old ≡ false → (result ≡ 1) × (answer.new ≡ answer.old) }
{
    if !answer_words::fit(0, 0, answer) {
        return 1;
    }
    answer_words::put(call(words), answer);
    0
}

// The verdict on a table's words: case 0 Firm S P, 1 Full S P, 2 Miss tick position, 3 Refused number position.
#[unsafe(no_mangle)]
pub extern "C" fn sivorandra_judge(words: &[u32], answer: &mut [u32]) -> u32
    ensures { record { value = result; lent = answer.new ∷ [] } ≡ judge_call words.now answer.old }
{
    answered(
        words,
        answer,
        |words| AnswerWords::from(judge::judge(words)),
    )
}

// The same verdict, tick by tick.
#[unsafe(no_mangle)]
pub extern "C" fn sivorandra_judge_ticks(words: &[u32], answer: &mut [u32]) -> u32
    ensures { record { value = result; lent = answer.new ∷ [] } ≡ judge_call words.now answer.old }
{
    answered(
        words,
        answer,
        |words| AnswerWords::from(judge::by_ticks::judge(words)),
    )
}

// The same verdict, event by event.
#[unsafe(no_mangle)]
pub extern "C" fn sivorandra_judge_events(words: &[u32], answer: &mut [u32]) -> u32
    ensures { record { value = result; lent = answer.new ∷ [] } ≡ judge_call words.now answer.old }
{
    answered(
        words,
        answer,
        |words| AnswerWords::from(judge::by_events::judge(words)),
    )
}

// The tasks in conflict of a table's words, of which none can be dropped: case 0 and the set of their positions, bit p for position p + 1, or 3 Refused
// number position.
#[unsafe(no_mangle)]
pub extern "C" fn sivorandra_conflict(words: &[u32], answer: &mut [u32]) -> u32
    ensures { record { value = result; lent = answer.new ∷ [] } ≡ conflict_call words.now answer.old }
{
    answered(
        words,
        answer,
        |words| AnswerWords::from(conflict::conflict(words)),
    )
}
