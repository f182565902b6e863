// A whole list of entries: the run of a table through all of them, and its refinement of the book.
#![tactic(auto)]

ghost use Rattle.refinement.specs.Replay.{ReplayOf};
ghost use Rattle.refinement.specs.Replayed.{replayed_in};

pub mod replays; // replays.rt: a run through a whole list of entries

use model::Refusal;

// Why a replay shows no row: the start is refused, or the last row; or the lent slices do not fit: too short, or the entries' words are no list of
// entries.
#[derive(Clone, Copy, PartialEq, Eq)]
pub enum ReplayError {
    Start(Refusal),
    Row(Refusal),
    Unfit,
}

// A replay: the run of a table's words, started and taken through all of `entries`, three words each: 0, the reports and the empties of an advance;
// 1, the position and 0 of a withdrawal; 2, the set and 0 of one of several positions together. Each answer goes into `numbers`, the last row, asked
// with no empty job, into `bytes`, zeros where it is refused; a refused start, and slices that do not fit, leave both as found.
pub fn replay(
    words: &[u32],
    entries: &[u32],
    numbers: &mut [u32],
    bytes: &mut [u8],
) -> Result<(), ReplayError>
    ensures { ReplayOf words.now entries.now numbers.old
        bytes.old (record { answer = replayed_in result; numbers = numbers.new; bytes = bytes.new }) }
{
    let run = run::start(words).map_err(ReplayError::Start)?;
    replays::replay_run(run, entries, numbers, bytes)
}
