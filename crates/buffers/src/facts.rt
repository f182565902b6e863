// The facts of a miss in a lent buffer of words.
ghost use Rattle.std.specs.Prelude.{◌++◌, ◌≡◌, ◌≤◌, length, drop};
ghost use Rattle.model.specs.Sizes.{most_tasks};
ghost use Rattle.buffers.specs.Facts.{fact_words, in_words};

use crate::figures;
use sentence::Facts;

// The words in front of the counts: position, tick, ticks had, and C.
const HEAD: usize = 4;
// The counts, one for each position.
const COUNTS: usize = model::MOST_TASKS;
// The words of facts.
pub const WORDS: usize = HEAD + COUNTS;

// Writes the words of facts; the words after them stay.
pub fn put_facts(facts: Facts, words: &mut [u64])
    requires { fact_words ≤ length words.old }
    ensures { (words.new ≡ in_words facts.position facts.tick facts.had facts.length facts.ran ++ drop fact_words words.old)
        × (length facts.ran ≡ most_tasks) }
{
    words[0] = facts.position as u64;
    words[1] = facts.tick;
    words[2] = facts.had;
    words[3] = facts.length;
    let ran = facts.ran;
    figures::put_figures(ran, &mut words[HEAD..]);
}
