// A loaded table that is fit to be run.
ghost use Rattle.table.specs.Fit.{Fit};

use crate::Loaded;
use model::Refusal;

// The table, and in the type what a run needs of it.
// No impl Model: it is Copy, so a view would have to give back all fields. No table of the model has the rule's number,
// S, P and the horizon.
#[derive(Clone, Copy)]
pub struct Fitting {
    pub loaded: Loaded,
    pub ghost fit: { Fit loaded },
}

impl Fitting {
    ghost use Rattle.table.specs.Fitting.{loaded_in};
    ghost use Rattle.table.specs.Load.{LoadOf};

    // The table that the words represent, which is fit to be run, or the first number that applies.
    pub fn load(words: &[u32]) -> Result<Fitting, Refusal>
        ensures { LoadOf words.now (loaded_in result) }
    {
        let loaded = crate::load(words)?;
        Ok(Fitting { loaded })
    }
}
