// The global that a value may be assigned through, if there is one (01, 3.1): naga's `assignable_global`.
#![tactic(auto, unfolding(definitions::specs::Report::global_from, definitions::specs::Module::absent))]

ghost use Rattle.std.specs.Prelude.{◌≡◌};
ghost use Rattle.std.proofs.Math.Option.{none};
ghost use Rattle.definitions.specs.Report.{global_from};
ghost use Rattle.vocabulary.specs.Said.{assignable_said, global_said};

use crate::ids;
use crate::ids::GlobalIndex;

// A global's number as reports write it, NONE where there is none (01, 7.4). No `Option`: of one, `Some` of 65,535
// would be a value that no report has, and whatever writes one (`memory::set_expression`) would have to ask for more.
#[derive(Clone, Copy, Debug, PartialEq, Eq)]
pub struct AssignableGlobal(pub u16);

impl AssignableGlobal {
    pub fn none() -> Self
        ensures { assignable_said result ≡ none }
    {
        AssignableGlobal(ids::NONE)
    }

    pub fn global(self) -> Option<GlobalIndex>
        ensures { global_said result ≡ assignable_said self }
    {
        if self.0 == ids::NONE {
            None
        } else {
            Some(GlobalIndex(self.0))
        }
    }
}

impl From<GlobalIndex> for AssignableGlobal {
    ghost from_gives = { λ g a. assignable_said a ≡ global_from g.0 };

    fn from(g: GlobalIndex) -> Self {
        AssignableGlobal(g.0)
    }
}
