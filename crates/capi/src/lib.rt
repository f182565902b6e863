// The library to link: the judge, the plan, the replay, the run in the cab and plans by others for C and Rust, on numbers and lent slices.
// Each function but sivorandra_version returns 0 where the call is answered, and 1 where a lent slice is too short or a list of entries is none: then
// everything is as found. Short rows of a plan are 11 instead, and a buffer lent to row, sets, working, advance, a withdrawal or take that is too short for a run or
// a plan holds none: 14. The answer is in the first three words of `answer`: a case and two numbers.
// C reads 0 or 1 of each call as its status. Names that differ in one word are C's (include/sivorandra.h).
// Each clause names its own call of specs/, word for word what C is promised; a type would not be plainer.
#![tactic(auto)]

ghost use Rattle.std.specs.Prelude.{◌≡◌};
ghost use Rattle.capi.specs.Version.{version};

mod figures; // figures.rt: the calls for a number of each task
mod plans; // plans.rt: the calls for a plan, and for plans by others
mod results; // results.rt: the body of a call that writes to a lent slice, and its answer in three words
mod runs; // runs.rt: the calls on a run in a buffer, and for a replay
mod sentences; // sentences.rt: the calls for a sentence, and for its facts
mod verdicts; // verdicts.rt: the calls for a verdict, and for the tasks in conflict

// The version of the library as one number: major * 10000 + minor * 100 + patch.
const VERSION: u32 = 2700;

// The version of the library that is linked; the header has its own.
#[unsafe(no_mangle)]
pub extern "C" fn sivorandra_version() -> u32
    ensures { result ≡ version }
{
    VERSION
}
