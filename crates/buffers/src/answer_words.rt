// An answer in three words: the case and its two numbers.
ghost use Rattle.std.specs.Prelude.{◌≡◌, ◌≤◌, length, cond, Some, None};
ghost use Rattle.model.specs.Refusal.{number_of, position_of};
ghost use Rattle.plan_check.specs.RowAnswer.{answer_in};
ghost use Rattle.refinement.specs.Replayed.{replayed_in};
ghost use Rattle.buffers.specs.AnswerWords.{answer_words, of_verdict, of_result, fitted, of_replayed, of_taken, of_read_back};
ghost use Rattle.std.specs.Option.{is_some};
ghost use Rattle.buffers.specs.AnswerWords.{answer_size, slices_fit, answer_written};

use judge::Verdict;
use model::Refusal;
use plan_check::Progress;
use refinement::ReplayError;
use sentence::Facts;

// The words of an answer.
const WORDS: usize = 3;

// The case and its two numbers, 0 where it has none.
// The kind is a number, and so are the kinds in the functions below, since C reads these words.
#[derive(Clone, Copy)]
pub struct AnswerWords {
    pub kind: u32,
    pub first: u32,
    pub second: u32,
}

// A case and its two numbers.
fn answer_words(kind: u32, first: u32, second: u32) -> AnswerWords
    ensures { result ≡ answer_words kind first second }
{
    AnswerWords {
        kind,
        first,
        second,
    }
}

// Given, with a number beside it, 0 where there is none.
pub fn given(beside: u32) -> AnswerWords
    ensures { result ≡ answer_words 0 beside 0 }
{
    answer_words(0, beside, 0)
}

// Refused, with number and position.
impl From<Refusal> for AnswerWords {
    ghost from_gives = { λ refusal words. words ≡ answer_words 3 (number_of refusal) (position_of refusal) };

    fn from(refusal: Refusal) -> AnswerWords {
        answer_words(3, refusal.number(), refusal.position())
    }
}

// The judge's four cases.
impl From<Verdict> for AnswerWords {
    ghost from_gives = { λ verdict words. words ≡ of_verdict verdict };

    fn from(verdict: Verdict) -> AnswerWords {
        match verdict {
            Verdict::Firm(start, period) => answer_words(0, start, period),
            Verdict::Full(start, period) => answer_words(1, start, period),
            Verdict::Miss(tick, position) => answer_words(2, tick, position),
            Verdict::Refused(number, position) => answer_words(3, number, position),
        }
    }
}

// Given, with a number beside it, or refused.
impl From<Result<u32, Refusal>> for AnswerWords {
    ghost from_gives = { λ given words. words ≡ of_result given };

    fn from(found: Result<u32, Refusal>) -> AnswerWords {
        match found {
            Ok(beside) => given(beside),
            Err(refusal) => AnswerWords::from(refusal),
        }
    }
}

// A replay's answer; none where the lent slices do not fit.
pub fn of_replayed(replayed: Result<(), ReplayError>) -> Option<AnswerWords>
    ensures { result ≡ cond (fitted (replayed_in replayed)) (Some (of_replayed (replayed_in replayed))) None }
{
    match replayed {
        Ok(()) => Some(given(0)),
        Err(ReplayError::Start(refusal)) => Some(AnswerWords::from(refusal)),
        Err(ReplayError::Row(refusal)) => Some(AnswerWords {
            kind: 4,
            ..AnswerWords::from(refusal)
        }),
        Err(ReplayError::Unfit) => None,
    }
}

// The answer to a row: taken, accepted, or refused with number and tick.
impl From<Result<Progress, Refusal>> for AnswerWords {
    ghost from_gives = { λ given words. words ≡ of_taken (answer_in given) };

    fn from(entered: Result<Progress, Refusal>) -> AnswerWords {
        match entered {
            Ok(Progress::Taken) => given(0),
            Ok(Progress::Accepted) => answer_words(6, 0, 0),
            Err(refusal) => AnswerWords::from(refusal),
        }
    }
}

// Parsed, or no sentence.
impl From<Option<Facts>> for AnswerWords {
    ghost from_gives = { λ found words. words ≡ of_read_back (is_some found) };

    fn from(found: Option<Facts>) -> AnswerWords {
        match found {
            Some(_) => given(0),
            None => answer_words(5, 0, 0),
        }
    }
}

// Whether the answer has space for its three words, and another lent slice of `have` elements has the `need` that a call writes.
// 0 and 0 for a call with no other slice, since capi/specs/Calls has `slices_fit have need` of both; a need of 0 is a true number.
pub fn fit(have: usize, need: usize, answer: &[u32]) -> bool
    ensures { result ≡ slices_fit have need answer.now }
{
    (need <= have) & (WORDS <= answer.len())
}

// Writes the three words; the words after them stay.
pub fn put(encoded: AnswerWords, answer: &mut [u32])
    requires { answer_size ≤ length answer.old }
    ensures { answer.new ≡ answer_written encoded answer.old }
{
    answer[0] = encoded.kind;
    answer[1] = encoded.first;
    answer[2] = encoded.second;
}
