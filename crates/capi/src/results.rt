// The body of a call that writes to a lent slice, and its answer in three words.
ghost use Rattle.std.specs.Prelude.{◌≡◌, ◌≤◌, true, false, length};
ghost use Rattle.std.specs.Fn.{FnOnceReturnsAt, FnOnceReturnsAtMut};
ghost use Rattle.table.specs.Answer.{answer_in};
ghost use Rattle.buffers.specs.declared.answer_words.AnswerWords.{AnswerWords};
ghost use Rattle.buffers.specs.AnswerWords.{slices_fit, answer_written, of_given};

use buffers::answer_words;
use buffers::answer_words::AnswerWords;
use model::Refusal;

// Given, with a number beside it, or refused.
pub(crate) fn encoded<T: Copy>(given: Result<T, Refusal>, beside: u32) -> AnswerWords
    ensures { result ≡ of_given (answer_in given) beside }
{
    AnswerWords::from(given.map(|_| beside))
}

// A call that writes to a lent slice, and is answered in three words: 0 where the slice has the `need` elements that the call writes, and `answer` space; else
// 1, and both are as found.
// 0 or 1, and no Result, since C reads it as the status of its call (include/sivorandra.h).
pub(crate) fn answered<T, C: FnOnce(&mut [T]) -> AnswerWords>(
    lent: &mut [T],
    need: usize,
    answer: &mut [u32],
    call: C,
) -> u32
    requires { (x : _) → need ≤ length x.now → C.pre call x }
    ensures fits { slices_fit (length lent.old) need answer.old ≡ true
        → (words : AnswerWords) × FnOnceReturnsAtMut C.FnOnce call lent.old words lent.new × (result ≡ 0) × (answer.new ≡ answer_written words answer.old) }
    ensures short { slices_fit (length lent.old) need answer.old ≡ false → (result ≡ 1) × (lent.new ≡ lent.old) × (answer.new ≡ answer.old) }
{
    if !answer_words::fit(lent.len(), need, answer) {
        return 1;
    }
    let words = call(lent);
    answer_words::put(words, answer);
    0
}
