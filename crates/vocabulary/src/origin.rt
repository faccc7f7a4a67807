// Where non-uniformity comes from (01, 3.5): naga's `NonUniformResult`. One type, one join.
#![tactic(auto, unfolding(definitions::specs::Origin::origin_from, definitions::specs::Origin::has_origin, definitions::specs::Origin::or_else, definitions::specs::Module::absent))]

ghost use Rattle.std.specs.Prelude.{◌≡◌};
ghost use Rattle.definitions.specs.Origin.{nowhere, or_else, origin_from, has_origin};
ghost use Rattle.vocabulary.specs.Said.{origin_said, expression_said};

use crate::ids;
use crate::ids::ExpressionIndex;

// An expression's number as reports write it, NONE where there is none. No `Option`: of one, `Some` of 65,535 would be
// a value that no report has, and whatever writes one (`memory::set_expression`, `report::put_section`) would have to
// ask for more.
#[derive(Clone, Copy, Debug, PartialEq, Eq)]
pub struct Origin(pub u16);

impl Origin {
    pub fn none() -> Self
        ensures { origin_said result ≡ nowhere }
    {
        Origin(ids::NONE)
    }

    pub fn expression(self) -> Option<ExpressionIndex>
        ensures { expression_said result ≡ origin_said self }
    {
        if self.0 == ids::NONE {
            None
        } else {
            Some(ExpressionIndex(self.0))
        }
    }

    pub fn present(self) -> bool
        ensures { result ≡ has_origin (origin_said self) }
    {
        self.0 != ids::NONE
    }

    // This one or, where there is none, the other.
    pub fn or_else(self, other: Origin) -> Self
        ensures { origin_said result ≡ or_else (origin_said self) (origin_said other) }
    {
        if self.0 == ids::NONE { other } else { self }
    }
}

impl From<ExpressionIndex> for Origin {
    ghost from_gives = { λ e o. origin_said o ≡ origin_from e.0 };

    fn from(e: ExpressionIndex) -> Self {
        Origin(e.0)
    }
}
