// The limits of a task and of its phase, and lateness.
// A rule is a number here: a task answers under the rule of any run, and number 14 is what tests it (`run_out`).
ghost use Rattle.std.specs.Prelude.{◌≡◌};
ghost use Rattle.model.specs.Task.{rule_of};
ghost use Rattle.phase.specs.Phase.{phase_in, late_in};
ghost use Rattle.phase.specs.Task.{task_of, out_in};

use crate::{Phase, Task};

impl Task {
    // Whether the task's phase is within its limits, and so is its parity.
    // The rule is any number (`rule_of`).
    fn phase_in(self, rule: u32) -> bool
        ensures { result ≡ phase_in (rule_of rule) (task_of self) self.even self.phase }
    {
        match self.phase {
            Phase::Coming(left) => ((1 <= left) & (left <= self.parameters.offset)) & !self.even,
            Phase::Working(z, had, reserved) => {
                let alike = (rule == 4) | (reserved == had);
                (z <= self.parameters.deadline)
                    & ((had < self.parameters.length) & ((had <= z) & ((reserved <= had) & alike)))
            }
            Phase::Holding(z, reserved) => {
                crate::idles(rule)
                    & ((z < self.parameters.deadline)
                        & ((reserved < self.parameters.length) & (reserved <= z)))
            }
            Phase::Resting(z) => (1 <= z) & (z < self.parameters.period),
        }
    }

    // Whether the task breaks 7 or 8 on this number of unfenced cores, or its phase or its parity is outside the limits.
    // What may not change: 0 is none in `task_number` of table/specs/Limits, of which `task_out` is made.
    // The rule is any number (`rule_of`).
    pub fn out(self, rule: u32, wide: u32) -> bool
        ensures { result ≡ out_in wide (rule_of rule) self }
    {
        (table::limits::task_number(wide, self.parameters) != 0) | !self.phase_in(rule)
    }

    // Whether the task is Working at its deadline.
    pub fn late(self) -> bool
        ensures { result ≡ late_in self.parameters.deadline self.phase }
    {
        matches!(self.phase, Phase::Working(z, _, _) if z == self.parameters.deadline)
    }
}
