// A task with its phase: its state in the run, and what that claims.
#![tactic(auto)]

ghost use Rattle.std.specs.Prelude.{◌≡◌};
ghost use Rattle.model.specs.Task.{rule_of};
ghost use Rattle.phase.specs.Phase.{claiming, idles, working};

mod bounds; // bounds.rt: the limits of a task and its phase, and lateness
mod empties; // empties.rt: a phase as it is seen when cores are chosen
mod moves; // moves.rt: one tick
pub mod starts; // starts.rt: a task as it starts, and a place past the count

// The phase of a task in the run, with its counts: Coming(ticks left to the first release; the field: not yet released), Working(ticks since release, ticks
// had, ticks reserved; the field: pending), Holding(ticks since release, ticks reserved; the field: completed early, processors reserved),
// Resting(ticks since release; the field: completed).
#[derive(Clone, Copy, PartialEq, Eq)]
pub enum Phase {
    Coming(u32),
    Working(u32, u32, u32),
    Holding(u32, u32),
    Resting(u32),
}

// The state of a task: whether its job is an even one, and its phase.
#[derive(Clone, Copy)]
pub struct TaskState {
    pub even: bool,
    pub phase: Phase,
}

// A task of the run: the task of the table that it is, whether its job is an even one (odd until the second release, then changing at each), and its phase.
#[derive(Clone, Copy)]
pub struct Task {
    pub parameters: table::Task,
    pub even: bool,
    pub phase: Phase,
}

// Whether a job that ended holds its cores: under rules 3 and 4.
// A rule is a number here: a task answers under the rule of any run (`run_out`).
// No plainer with an enum: the rule comes as the number that public functions take; it would be made for this test.
fn idles(rule: u32) -> bool
    ensures { result ≡ idles (rule_of rule) }
{
    (rule == 3) | (rule == 4)
}

impl Phase {
    // Whether a task in this phase claims cores.
    pub fn claims(self) -> bool
        ensures { result ≡ claiming self }
    {
        matches!(self, Phase::Working(_, _, _) | Phase::Holding(_, _))
    }

    // Whether a task in this phase is Working.
    pub fn works(self) -> bool
        ensures { result ≡ working self }
    {
        matches!(self, Phase::Working(_, _, _))
    }
}
