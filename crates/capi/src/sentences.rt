// The calls for a sentence, and for its facts.
ghost use Rattle.std.specs.Prelude.{◌≡◌, ◌≤◌, [], ◌∷◌, ◌++◌, length, drop};
ghost use Rattle.sentence.specs.Parsed.{parsed};
ghost use Rattle.sentence.specs.Waiting.{facts_of};
ghost use Rattle.sentence.specs.SentenceAnswer.{sentence_answer_of, sentence_meaning, left_in};
ghost use Rattle.buffers.specs.AnswerWords.{of_sentence, of_parsed};
ghost use Rattle.buffers.specs.Facts.{fact_words, fact_words_of};
ghost use Rattle.capi.specs.Sentences.{sentence_call, facts_call};

use crate::results;
use buffers::answer_words::AnswerWords;
use buffers::{answer_words, facts};

// The sentence of a table's words at the front of a buffer, and its length in words.
// By hand: a length is a usize, and `From<Result<u32, Refusal>>` takes a u32.
fn sentence_in(words: &[u32], buffer: &mut [u8]) -> AnswerWords
    ensures left { buffer.new ≡ left_in (sentence_meaning (sentence_answer_of words.now (length buffer.old))) (facts_of words.now) buffer.old }
    ensures answer { result ≡ of_sentence (sentence_answer_of words.now (length buffer.old)) }
{
    match sentence::sentence(words, buffer) {
        Ok(length) => answer_words::given(length as u32),
        Err(refusal) => AnswerWords::from(refusal),
    }
}

// The miss of a table's words in a sentence at the front of `buffer`: case 0 and its length, or 3 Refused number position and the buffer as found.
#[unsafe(no_mangle)]
pub extern "C" fn sivorandra_sentence(words: &[u32], buffer: &mut [u8], answer: &mut [u32]) -> u32
    ensures { record { value = result; lent = buffer.new ∷ (answer.new ∷ []) } ≡ sentence_call words.now buffer.old answer.old }
{
    results::answered(buffer, 0, answer, |buffer| sentence_in(words, buffer))
}

// The facts in the bytes of a sentence at the front of a buffer, zeros where there are none, and which it is in words.
fn facts_in(bytes: &[u8], facts: &mut [u64]) -> AnswerWords
    requires { fact_words ≤ length facts.old }
    ensures left { facts.new ≡ fact_words_of (parsed bytes.now) ++ drop fact_words facts.old }
    ensures answer { result ≡ of_parsed (parsed bytes.now) }
{
    let found = sentence::facts_of(bytes);
    // zeros beside a refusal, as C is promised
    facts::put_facts(found.unwrap_or_default(), facts);
    AnswerWords::from(found)
}

// The facts in the bytes of a sentence into the first 36 words of `facts`: position, tick, ticks had, C, and the counts of positions 1 to 32,
// 0 for one that has no part. Case 0; 5 where the bytes are no sentence, and 36 zeros.
#[unsafe(no_mangle)]
pub extern "C" fn sivorandra_facts(bytes: &[u8], facts: &mut [u64], answer: &mut [u32]) -> u32
    ensures { record { value = result; lent = facts.new ∷ (answer.new ∷ []) } ≡ facts_call bytes.now facts.old answer.old }
{
    results::answered(facts, facts::WORDS, answer, |facts| facts_in(bytes, facts))
}
