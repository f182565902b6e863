// Whether a run's rule and widths are firm (number 21), and positions withdrawn from it.
ghost use Rattle.std.specs.Prelude.{◌≡◌, ◌≤◌, false};
ghost use Rattle.model.specs.Sizes.{most_tasks};
ghost use Rattle.run.specs.Answer.{answer_in};
ghost use Rattle.run.specs.Run.{firm_in, withdrawn_in};
ghost use Rattle.run.specs.Withdraw.{withdraw_answer};

use crate::Run;
use model::Refusal;

impl Run {
    // Whether the rule and the widths are firm, by the judge's test.
    // No type of runs that pass 14: it would be built for this one call, of `may_withdraw`.
    pub(crate) fn is_firm(self) -> bool
        requires { self.count ≤ most_tasks }
        ensures { result ≡ firm_in self }
    {
        let tasks = self.parameters();
        judge::is_firm(self.rule, &tasks[..self.count])
    }

    // Whether positions of the run may be withdrawn; 14 or 21.
    pub(crate) fn may_withdraw(self) -> Result<(), Refusal>
        ensures { answer_in result ≡ withdraw_answer self false }
    {
        if self.out() {
            return Err(Refusal::NotARun);
        }
        if !self.is_firm() {
            return Err(Refusal::NotFirm);
        }
        Ok(())
    }

    // The run with the positions of a set withdrawn: only the withdrawn set changes.
    pub(crate) fn with_withdrawn(self, set: u32) -> Run
        ensures { result ≡ withdrawn_in set self }
    {
        let mut run = self;
        run.withdrawn = self.withdrawn | set;
        run
    }
}
