// Expression, global and argument numbers: each of its own type, so that none can be passed where another is meant
// (01, 13).
#![tactic(auto, unfolding(definitions::specs::Module::absent))]

ghost use Rattle.std.specs.Prelude.{◌≡◌, eqb};
ghost use Rattle.definitions.specs.Module.{absent};

// The number that names nothing: an absent operand, no origin, no assignable global (01, 1.7, 7.2, 7.4).
pub const NONE: u16 = 65535;

// An expression of the function at hand; in a pool of operands also NONE, where an operand is absent.
#[derive(Clone, Copy, Debug, PartialEq, Eq, PartialOrd, Ord)]
pub struct ExpressionIndex(pub u16);

#[derive(Clone, Copy, Debug, PartialEq, Eq, PartialOrd, Ord)]
pub struct GlobalIndex(pub u16);

#[derive(Clone, Copy, Debug, PartialEq, Eq, PartialOrd, Ord)]
pub struct ArgumentIndex(pub u16);

impl ExpressionIndex {
    pub fn is_absent(self) -> bool
        ensures { result ≡ eqb self.0 absent }
    {
        self.0 == NONE
    }
}
