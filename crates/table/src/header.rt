// Numbers 1, 2, 3, 19 and 4.
ghost use Rattle.std.specs.Prelude.{◌≡◌, ◌≤◌, length};
ghost use Rattle.table.specs.Words.{header_words, fence};
ghost use Rattle.table.specs.Answer.{answer_in, header_answer};

use crate::{HEADER, RECORD};
use model::{MOST_TASKS, Refusal};

// The fence in the header.
pub(crate) fn fence_in(words: &[u32]) -> u64
    requires { header_words ≤ length words.now }
    ensures { result ≡ fence words.now }
{
    crate::limits::fence_of(words[3], words[4])
}

// The first of these numbers that applies.
pub(crate) fn check(words: &[u32]) -> Result<(), Refusal>
    ensures { answer_in result ≡ header_answer words.now }
{
    if words.len() < HEADER {
        return Err(Refusal::NotATable);
    }
    let rest = words.len() - HEADER;
    if rest % RECORD != 0 {
        return Err(Refusal::NotATable);
    }
    if MOST_TASKS < rest / RECORD {
        return Err(Refusal::NotATable);
    }
    if crate::limits::cores_out(words[1]) {
        return Err(Refusal::BadCores);
    }
    if crate::limits::rule_out(words[2]) {
        return Err(Refusal::BadRule);
    }
    if crate::limits::fence_out(words[1], fence_in(words)) {
        return Err(Refusal::BadFence);
    }
    if words[0] == 0 {
        return Err(Refusal::NoHead);
    }
    Ok(())
}
