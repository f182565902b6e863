// One tick of a task: its next state.
// A rule is a number here: a task answers under the rule of any run, and number 14 is what tests it (`run_out`).
ghost use Rattle.std.specs.Prelude.{◌≡◌, cond, ◌+◌, ◌<◌};
ghost use Rattle.model.specs.Sizes.{most_word};
ghost use Rattle.model.specs.Task.{rule_of};
ghost use Rattle.phase.specs.Phase.{resting, holding, ended, worked, next_state};
ghost use Rattle.phase.specs.Task.{task_of, next_task};
ghost use Rattle.phase.specs.NoOverflow.{NoOverflow};

use crate::{Phase, Task, TaskState};

// The reserved ticks after this one: one more where cores are given.
fn counted(reserved: u32, given: bool) -> u32
    requires { reserved < most_word }
    ensures { result ≡ cond given (reserved + 1) reserved }
{
    if given { reserved + 1 } else { reserved }
}

impl Task {
    // The state of a task whose job has ended, z ticks after its release: it rests, or the next job is released, whose parity is the other one.
    fn rested(self, z: u32) -> TaskState
        ensures { result ≡ resting (task_of self) self.even z }
    {
        if z == self.parameters.period {
            TaskState {
                even: !self.even,
                phase: Phase::Working(0, 0, 0),
            }
        } else {
            TaskState {
                even: self.even,
                phase: Phase::Resting(z),
            }
        }
    }

    // The state of a task that holds its cores, with z and the reserved ticks of the tick that has passed counted.
    fn held(self, z: u32, reserved: u32) -> TaskState
        ensures { result ≡ holding (task_of self) self.even z reserved }
    {
        if (reserved == self.parameters.length) | (z == self.parameters.deadline) {
            self.rested(z)
        } else {
            TaskState {
                even: self.even,
                phase: Phase::Holding(z, reserved),
            }
        }
    }

    // The state of a task whose job has just ended.
    // The rule is any number (`rule_of`).
    fn ended(self, rule: u32, z: u32, reserved: u32) -> TaskState
        ensures { result ≡ ended (rule_of rule) (task_of self) self.even z reserved }
    {
        if crate::idles(rule) {
            self.held(z, reserved)
        } else {
            self.rested(z)
        }
    }

    // The state of a task after a tick of work, own or lent.
    // The rule is any number (`rule_of`).
    fn worked(self, rule: u32, reported: bool, z: u32, had: u32, reserved: u32) -> TaskState
        ensures { result ≡ worked (rule_of rule) (task_of self) reported self.even z had reserved }
    {
        if reported | (had == self.parameters.length) {
            self.ended(rule, z, reserved)
        } else {
            TaskState {
                even: self.even,
                phase: Phase::Working(z, had, reserved),
            }
        }
    }

    // The state of the task one tick on from the seen phase, by whether it is given cores in this tick, whether it borrows some and whether
    // it is reported.
    // `next`, which the pages name, is given each of these apart; a struct of them would be made for this one call.
    // The rule is any number, as `idles` takes it.
    fn stepped(self, rule: u32, given: bool, lent: bool, reported: bool, seen: Phase) -> TaskState
        requires { NoOverflow seen }
        ensures { result ≡ next_state (rule_of rule) (task_of self) given lent reported self.even seen }
    {
        match seen {
            Phase::Coming(left) => {
                let still = left - 1;
                if still == 0 {
                    TaskState {
                        even: self.even,
                        phase: Phase::Working(0, 0, 0),
                    }
                } else {
                    TaskState {
                        even: self.even,
                        phase: Phase::Coming(still),
                    }
                }
            }
            Phase::Working(z, had, reserved) => {
                if given | lent {
                    self.worked(rule, reported, z + 1, had + 1, counted(reserved, given))
                } else {
                    let waited = z + 1;
                    TaskState {
                        even: self.even,
                        phase: Phase::Working(waited, had, reserved),
                    }
                }
            }
            Phase::Holding(z, reserved) => self.held(z + 1, counted(reserved, given)),
            Phase::Resting(z) => self.rested(z + 1),
        }
    }

    // The task one tick on, by whether its job is empty if it is released in this tick, whether it is given cores, whether it borrows some and whether
    // it is reported.
    // The rule is any number (`rule_of`).
    pub fn next(self, rule: u32, empty: bool, given: bool, lent: bool, reported: bool) -> Task
        requires { NoOverflow self.phase }
        ensures { result ≡ next_task (rule_of rule) empty given lent reported self }
    {
        let seen = self.phase.emptied(rule, empty);
        let state = self.stepped(rule, given, lent, reported, seen);
        Task {
            even: state.even,
            phase: state.phase,
            ..self
        }
    }
}
