// A phase as it is seen when cores are chosen: whether its job is released in this tick, and an empty job.
// A rule is a number here: a task answers under the rule of any run, and number 14 is what tests it (`run_out`).
ghost use Rattle.std.specs.Prelude.{◌≡◌};
ghost use Rattle.model.specs.Task.{rule_of};
ghost use Rattle.phase.specs.Phase.{released, phase_emptied};

use crate::Phase;

impl Phase {
    // Whether a task in this phase is Working at (0,0): its job is released in this tick.
    pub fn released(self) -> bool
        ensures { result ≡ released self }
    {
        matches!(self, Phase::Working(0, 0, _))
    }

    // The phase as cores are chosen, by whether a job released in this tick is empty.
    // The rule is any number (`rule_of`).
    pub fn emptied(self, rule: u32, empty: bool) -> Phase
        ensures { result ≡ phase_emptied (rule_of rule) empty self }
    {
        if empty & self.released() {
            if crate::idles(rule) {
                Phase::Holding(0, 0)
            } else {
                Phase::Resting(0)
            }
        } else {
            self
        }
    }
}
