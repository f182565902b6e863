// Answers a question on a table: the first line of standard input is the question's word, and the table follows, one decimal number a line.
// The question `verdict` is answered by the verdict's line;
// `why` by the miss in a sentence, or by the refusal;
// `longest` by a line for each task, its position and the worst-case response time of its jobs, or by the refusal;
// `clash` by one line, the positions of the tasks in conflict, or by the refusal;
// `spare` by a line for each task, its position and its slack, or by the refusal;
// `bounds` by a line for each task, its position and its response-time bound, by `none` where the table does not pass the interference test, or by the refusal.
#![tactic(auto)]

ghost use Rattle.std.specs.Prelude.{◌≡◌, ◌+◌, ◌≤◌, length, take};
ghost use Rattle.model.specs.Sizes.{most_tasks};
ghost use Rattle.table.specs.Numbers.{NoneApplies};
ghost use Rattle.table.specs.Words.{table_of};
ghost use Rattle.text.specs.Written.{Put};
ghost use Rattle.text.specs.Format.{words_of, numbers_in};
ghost use Rattle.stream.specs.Sent.{SentOf, sent_of};
ghost use Rattle.query.specs.Figures.{figure_lines};
ghost use Rattle.query.specs.Positions.{spaced_at, position_line};
ghost use Rattle.query.specs.Query.{answer_room, refusal_line, PutOf, verdict_text, why_of, response_times_text, conflict_text, slack_text, bounds_text, answer_to, word_of, query_output};

use model::sets::Members;
use model::{MOST_TASKS, Refusal};
use sentence::LONGEST;
use std::io::Write;
use stream::{Cut, Program};
use text::ENOUGH;

// A question on a table.
// A `match` on it and no table of functions, which `rt ci` refuses.
#[derive(Clone, Copy)]
enum Question {
    Why,
    ResponseTimes,
    Conflict,
    Slack,
    Bounds,
    Verdict,
}

// The most bytes of a question's word and its newline.
const WORD: usize = 8;

// The number of bytes of an input that decide all that is printed for it: the longest question, and as many as a table takes.
const INPUT: usize = WORD + ENOUGH;

// The most bytes of an answer: a sentence and a newline.
const ROOM: usize = LONGEST + 1;

// Writes the verdict's line at the front of the line; returns where it ends.
fn verdict(words: &[u32], line: &mut [u8; ROOM]) -> usize
    ensures { (result ≤ answer_room) × (take result line.new ≡ verdict_text words.now) }
{
    let verdict = judge::judge(words);
    text::first::put_first(line, verdict)
}

// Writes a refusal at the front of the line; returns where it ends.
fn put_refusal(line: &mut [u8; ROOM], refusal: Refusal) -> usize
    ensures { (result ≤ answer_room) × (take result line.new ≡ refusal_line refusal) }
{
    text::first::put_pair(line, b"refused", refusal.number(), refusal.position())
}

// Writes why a table misses at the front of the line; returns where it ends, or the refusal.
fn why(words: &[u32], line: &mut [u8; ROOM]) -> Result<usize, Refusal>
    ensures { PutOf (why_of words.now) line.new result }
{
    let length = sentence::sentence(words, line)?;
    line[length] = b'\n';
    Ok(length + 1)
}

// Writes a line for each number, its position and the number, at the front of the lines; returns where they end.
// By hand: `write!` into an array promises how many bytes it wrote, and not which, and no heap is a rule.
fn put_figures(figures: &[u32], lines: &mut [u8; ROOM]) -> usize
    requires { length figures.now ≤ most_tasks }
    ensures { (Put lines.old 0 (figure_lines 0 figures.now) lines.new result) × (result ≤ answer_room) }
{
    let mut at: usize = 0;
    for (place, figure) in figures.iter().enumerate() {
        let middle = text::decimal::put(lines, at, place as u64 + 1);
        let end = text::first::put_field(lines, middle, *figure);
        lines[end] = b'\n';
        at = end + 1;
    }
    at
}

// Writes a line for each task of a table that passes, its position and its number, at the front of the lines; returns where they end.
fn put_answer(
    words: &[u32],
    figures: [u32; MOST_TASKS],
    lines: &mut [u8; ROOM],
) -> Result<usize, Refusal>
    requires { NoneApplies words.now }
    ensures { PutOf (figure_lines 0 (take (length (table_of words.now).tasks) figures)) lines.new result }
{
    let table = table::load(words)?;
    Ok(put_figures(&figures[..table.count], lines))
}

// Writes the worst-case response time of each task at the front of the lines; returns where they end, or the refusal.
fn response_times(words: &[u32], lines: &mut [u8; ROOM]) -> Result<usize, Refusal>
    ensures { PutOf (response_times_text words.now) lines.new result }
{
    let figures = response_time::response_times(words)?;
    put_answer(words, figures, lines)
}

// Writes a number, after a space where it is not the first of its line; returns where it ends.
// By hand: of a lent slice `write!` promises how many bytes it wrote, and not which; `InlineText` has its own buffer.
fn put_spaced(line: &mut [u8], at: usize, number: u32) -> usize
    requires { at + 11 ≤ length line.old }
    ensures { (Put line.old at (spaced_at at number) line.new result) × (result ≤ at + 11) }
{
    if at == 0 {
        return text::decimal::put(line, 0, number as u64);
    }
    text::first::put_field(line, at, number)
}

// Writes the positions of a set on one line, a space between two; returns where the line ends.
// By hand, as in `put_figures`.
fn put_positions(set: u32, line: &mut [u8; ROOM]) -> usize
    ensures { (Put line.old 0 (position_line set) line.new result) × (result ≤ answer_room) }
{
    let mut at: usize = 0;
    for place in Members::from(set) {
        at = put_spaced(line, at, place as u32 + 1);
    }
    line[at] = b'\n';
    at + 1
}

// Writes the positions of the tasks in conflict on one line; returns where it ends, or the refusal.
fn conflict(words: &[u32], line: &mut [u8; ROOM]) -> Result<usize, Refusal>
    ensures { PutOf (conflict_text words.now) line.new result }
{
    let kept = conflict::conflict(words)?;
    Ok(put_positions(kept, line))
}

// Writes the slack of each task at the front of the lines; returns where they end, or the refusal.
fn slack(words: &[u32], lines: &mut [u8; ROOM]) -> Result<usize, Refusal>
    ensures { PutOf (slack_text words.now) lines.new result }
{
    let figures = slack::slack(words)?;
    put_answer(words, figures, lines)
}

// Writes the response-time bound of each task at the front of the lines, or that there is none; returns where they end, or the refusal.
fn bounds(words: &[u32], lines: &mut [u8; ROOM]) -> Result<usize, Refusal>
    ensures { PutOf (bounds_text words.now) lines.new result }
{
    let tested = interference::response_bounds(words)?;
    match tested {
        Some(figures) => put_answer(words, figures, lines),
        None => Ok(text::row::put(lines, 0, b"none\n")),
    }
}

// Writes the answer to a question on a table at the front of the lines; returns where it ends, or the refusal that is the answer.
fn put_given(question: Question, words: &[u32], lines: &mut [u8; ROOM]) -> Result<usize, Refusal>
    ensures { PutOf (answer_to question words.now) lines.new result }
{
    match question {
        Question::Why => why(words, lines),
        Question::ResponseTimes => response_times(words, lines),
        Question::Conflict => conflict(words, lines),
        Question::Slack => slack(words, lines),
        Question::Bounds => bounds(words, lines),
        Question::Verdict => Ok(verdict(words, lines)),
    }
}

// Writes the answer to a question on a table, or its refusal, at the front of the lines; returns where it ends.
fn put(question: Question, words: &[u32], lines: &mut [u8; ROOM]) -> usize
    ensures { (result ≤ answer_room) × (take result lines.new ≡ answer_to question words.now) }
{
    match put_given(question, words, lines) {
        Ok(end) => end,
        Err(refusal) => put_refusal(lines, refusal),
    }
}

// Prints the answer to a question on the table in these bytes.
fn send_answer<W: Write>(out: &mut W, question: Question, bytes: &[u8]) -> Result<usize, Cut>
    ensures { SentOf 0 (answer_to question (numbers_in (words_of bytes.now))) (sent_of result) }
{
    let mut lines = [0u8; ROOM];
    // No plainer as one in text: a new public function with its own clause, for these four lines in three crates.
    let length = match text::read(bytes) {
        Some(words) => put(question, words.as_slice(), &mut lines),
        // what is no table's text has no numbers, and no words are refused likewise: 1 0
        None => put(question, &[], &mut lines),
    };
    stream::send(out, 0, &lines[..length])
}

// The word of a question, and a newline.
fn word_of(question: Question) -> &'static [u8]
    ensures { result.now ≡ word_of question }
{
    match question {
        Question::Why => b"why\n",
        Question::ResponseTimes => b"longest\n",
        Question::Conflict => b"clash\n",
        Question::Slack => b"spare\n",
        Question::Bounds => b"bounds\n",
        Question::Verdict => b"verdict\n",
    }
}

// The program `query`.
struct Query;

impl Program for Query {
    ghost text = { query_output };

    fn print<W: Write>(out: &mut W, bytes: &[u8]) -> Result<usize, Cut> {
        let questions = [
            Question::Why,
            Question::ResponseTimes,
            Question::Conflict,
            Question::Slack,
            Question::Bounds,
            Question::Verdict,
        ];
        for question in questions {
            if let Some(table) = bytes.strip_prefix(word_of(question)) {
                return send_answer(out, question, table);
            }
        }
        stream::send(out, 0, b"no such question\n")
    }
}

// A main for each program: the runtime is handed to it alone, and all else is `stream::answer`.
fn main(rt: HostRuntime) {
    let mut bytes = [0u8; INPUT];
    let _ = stream::answer::<Query, _, _, _>(
        &mut rt.stdin(),
        &mut rt.stdout(),
        &mut rt.stderr(),
        b"ask",
        &mut bytes,
    );
}
