// A state of all zeros: the state of a refused beginning, with nothing recorded.
ghost use Rattle.std.specs.Prelude.{◌≡◌};
ghost use Rattle.plan_check.specs.Begin.{empty_state};
ghost use Rattle.plan_check.specs.State.{blank};

use crate::{Note, SuppliedPlan};
use model::MOST_TASKS;
use phase::Phase;

// Nothing recorded.
// Not derived: the phase of zeros is Resting(0), which no derive gives. One impl for Phase and derives above it are no
// plainer: clauses name this value by its definition.
pub(crate) fn blank() -> [Note; MOST_TASKS]
    ensures { result ≡ blank }
{
    let note = Note {
        phase: Phase::Resting(0),
    };
    [note; MOST_TASKS]
}

// A state of all zeros, which 14 turns down: its run is that of a refused start.
// Not derived, as `blank`: `empty_state` of specs, which C finds after a refused beginning, has Resting(0).
pub fn empty() -> SuppliedPlan
    ensures { result ≡ empty_state }
{
    SuppliedPlan {
        run: run::starts::empty(),
        tick: 0,
        noted: blank(),
    }
}
