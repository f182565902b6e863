// A run in a lent buffer of words: its head, and then its places, of which those past the count are neither read nor changed by row, sets, advance and the
// withdrawals.
ghost use Rattle.std.specs.Prelude.{◌≡◌, ◌++◌, ◌≤◌, length, drop};
ghost use Rattle.buffers.specs.Encoding.{head_words, each_words, places, run_words, of_phase, place_words, count_word};
ghost use Rattle.buffers.specs.Encoding.{overwritten, phase_read, place_read, run_read, decode};
ghost use Rattle.run.specs.Answer.{answer_in};
ghost use Rattle.buffers.specs.Runs.{Asked, EntryOn};

use model::Refusal;
use phase::{Phase, Task};
use run::Run;
use table::limits::HIGH;

// The words in front of the places: rule, cores, count, the fence in two, and the withdrawn set.
const HEAD: usize = 6;
// The words of a place.
const EACH: usize = 11;
// The index of the parity of a place's job ..
const PARITY: usize = 6;
// .. the kind of its phase ..
const KIND: usize = PARITY + 1;
// .. its first number ..
const FIRST: usize = KIND + 1;
// .. its second ..
const SECOND: usize = KIND + 2;
// .. and its third.
const THIRD: usize = KIND + 3;
// The places of a run.
pub const PLACES: usize = model::MOST_TASKS;
// The words of a run.
pub const WORDS: usize = HEAD + EACH * PLACES;

// A phase in words: its kind and three numbers, 0 for one that it does not have.
// The kind is a number, here and in the conversions below, since C's run has words.
#[derive(Clone, Copy)]
pub struct PhaseWords {
    pub kind: u32,
    pub first: u32,
    pub second: u32,
    pub third: u32,
}

impl From<Phase> for PhaseWords {
    ghost from_gives = { λ phase words. words ≡ of_phase phase };

    fn from(phase: Phase) -> PhaseWords {
        match phase {
            Phase::Coming(left) => PhaseWords {
                kind: 0,
                first: left,
                second: 0,
                third: 0,
            },
            Phase::Working(z, had, reserved) => PhaseWords {
                kind: 1,
                first: z,
                second: had,
                third: reserved,
            },
            Phase::Holding(z, reserved) => PhaseWords {
                kind: 2,
                first: z,
                second: reserved,
                third: 0,
            },
            Phase::Resting(z) => PhaseWords {
                kind: 3,
                first: z,
                second: 0,
                third: 0,
            },
        }
    }
}

// Words that are no phase are an error.
impl TryFrom<PhaseWords> for Phase {
    type Error = ();

    ghost try_from_gives = { λ words found. found ≡ phase_read words };

    fn try_from(words: PhaseWords) -> Result<Phase, ()> {
        match words {
            PhaseWords {
                kind: 0,
                first,
                second: 0,
                third: 0,
            } => Ok(Phase::Coming(first)),
            PhaseWords {
                kind: 1,
                first,
                second,
                third,
            } => Ok(Phase::Working(first, second, third)),
            PhaseWords {
                kind: 2,
                first,
                second,
                third: 0,
            } => Ok(Phase::Holding(first, second)),
            PhaseWords {
                kind: 3,
                first,
                second: 0,
                third: 0,
            } => Ok(Phase::Resting(first)),
            _ => Err(()),
        }
    }
}

// Writes a place into the first words.
// By hand, word by word, since they are written in place into the run that C lends.
fn put_place(task: Task, words: &mut [u32])
    requires { each_words ≤ length words.old }
    ensures { words.new ≡ place_words task ++ drop each_words words.old }
{
    let phase = PhaseWords::from(task.phase);
    words[0] = task.parameters.offset;
    words[1] = task.parameters.width;
    words[2] = task.parameters.length;
    words[3] = task.parameters.deadline;
    words[4] = task.parameters.period;
    words[5] = task.parameters.second;
    words[PARITY] = u32::from(task.even);
    words[KIND] = phase.kind;
    words[FIRST] = phase.first;
    words[SECOND] = phase.second;
    words[THIRD] = phase.third;
}

// The count in a word.
// 33 and no Option, since `count_word` of specs/ gives it for a count past the places.
fn count_word(count: usize) -> u32
    ensures { result ≡ count_word count }
{
    count.min(PLACES + 1) as u32
}

// Writes the head of the run; the words after it stay.
fn put_head(run: Run, words: &mut [u32])
    requires { head_words ≤ length words.old }
    ensures { words.new ≡ overwritten 0 run words.old }
{
    words[0] = run.rule;
    words[1] = run.cores;
    words[2] = count_word(run.count);
    words[3] = (run.fence % HIGH) as u32;
    words[4] = (run.fence / HIGH) as u32;
    words[5] = run.withdrawn;
}

// Writes the head and the first `shown` places of the run; the words after them stay.
// The places shown are a number, here and in put_plan, since a beginning shows all 32 and an entry those of the run.
pub fn put_run(run: Run, shown: usize, words: &mut [u32])
    requires { (shown ≤ places) × (run_words ≤ length words.old) }
    ensures { words.new ≡ overwritten shown run words.old }
{
    put_head(run, words);
    // By index: of a slice written through `chunks_exact_mut` std promises the length alone.
    for i in 0..shown {
        put_place(run.tasks[i], &mut words[HEAD + EACH * i..]);
    }
}

// The place in these words; none where they have no parity or no phase.
// No TryFrom, since neither an array nor a task is of this crate.
fn place_in(words: &[u32; EACH]) -> Option<Task>
    ensures { result ≡ place_read words.now }
{
    if 1 < words[PARITY] {
        return None;
    }
    let phase = Phase::try_from(PhaseWords {
        kind: words[KIND],
        first: words[FIRST],
        second: words[SECOND],
        third: words[THIRD],
    });
    Some(Task {
        parameters: table::Task {
            offset: words[0],
            width: words[1],
            length: words[2],
            deadline: words[3],
            period: words[4],
            second: words[5],
        },
        even: words[PARITY] == 1,
        phase: phase.ok()?,
    })
}

// The run at the front of the buffer, or none. The places past its count are not read: zeros and Resting(0).
// A function and no `TryFrom`, since neither words nor a run are of this crate.
pub(crate) fn run_in(words: &[u32]) -> Option<Run>
    ensures { result ≡ run_read (decode words.now) }
{
    if words.len() < WORDS {
        return None;
    }
    let count = words[2] as usize;
    if PLACES < count {
        return None;
    }
    let (places, _) = words[HEAD..].as_chunks::<EACH>();
    let mut tasks = [phase::starts::unused(); PLACES];
    for (i, place) in places[..count].iter().enumerate() {
        tasks[i] = place_in(place)?;
    }
    let fence = table::limits::fence_of(words[3], words[4]);
    Some(Run {
        rule: words[0],
        cores: words[1],
        fence,
        withdrawn: words[5],
        count,
        tasks,
    })
}

// What the run that the buffer holds answers to a question; 14 where it holds none.
pub fn ask<T, Q: FnOnce(Run) -> Result<T, Refusal>>(
    words: &[u32],
    question: Q,
) -> Result<T, Refusal>
    requires { Q.IsAlwaysCallable question }
    ensures { Asked (Q.post question) (decode words.now) result }
{
    // No `ok_or`: a copy of the run less on the stack, of which C is promised how much a call takes.
    match run_in(words) {
        Some(held) => question(held),
        None => Err(Refusal::NotARun),
    }
}

// An entry on the run that the buffer holds: the next run is written over its places, and the words past them stay; a refusal leaves all words as found.
// 14 where it holds none.
pub fn enter<E: FnOnce(Run) -> Result<Run, Refusal>>(
    words: &mut [u32],
    entry: E,
) -> Result<(), Refusal>
    requires { E.IsAlwaysCallable entry }
    ensures { EntryOn (E.post entry) (decode words.old) words.old (record { answer = answer_in result; buffer = words.new }) }
{
    let held = run_in(words).ok_or(Refusal::NotARun)?;
    let next = entry(held)?;
    put_run(next, held.count, words);
    Ok(())
}
