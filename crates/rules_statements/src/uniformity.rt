// What statements come to (01, 5.1), and how that joins (5.7).
ghost use Rattle.std.specs.Prelude.{◌≡◌};
ghost use Rattle.definitions.specs.Walk.{nothing, joined, exit};
ghost use Rattle.vocabulary.specs.Said.{disruptor_said};
ghost use Rattle.rules_statements.specs.Said.{outcome_said, summary_outcome, SummaryOf};

use report::Summary;
use vocabulary::disruptor::UniformityDisruptor;
use vocabulary::flags::{ExitFlags, Mask, UniformityRequirements};
use vocabulary::origin::Origin;

#[derive(Clone, Copy, Debug, PartialEq, Eq)]
pub struct FunctionUniformity {
    pub origin: Origin,
    pub requirements: UniformityRequirements,
    pub exit: ExitFlags,
}

impl FunctionUniformity {
    // What comes of a statement that does nothing to control flow.
    pub fn new() -> Self
        ensures { outcome_said result ≡ nothing }
    {
        FunctionUniformity {
            origin: Origin::none(),
            requirements: UniformityRequirements::empty(),
            exit: ExitFlags::empty(),
        }
    }

    // One after the other: the first origin that there is, the union of the rest.
    pub fn join(self, other: FunctionUniformity) -> Self
        ensures { outcome_said result ≡ joined (outcome_said self) (outcome_said other) }
    {
        FunctionUniformity {
            origin: self.origin.or_else(other.origin),
            requirements: self.requirements.join(other.requirements),
            exit: self.exit.join(other.exit),
        }
    }

    // The disruptor that is left behind where there was none (01, 5.6).
    pub fn exit_disruptor(self) -> Option<UniformityDisruptor>
        ensures { disruptor_said result ≡ exit (outcome_said self) }
    {
        if self.exit.may_return() {
            Some(UniformityDisruptor::Return)
        } else if self.exit.may_kill() {
            Some(UniformityDisruptor::Discard)
        } else {
            None
        }
    }
}

// What a callee's summary says of a Call (5.2).
impl From<Summary> for FunctionUniformity {
    ghost from_gives = { λ y o. outcome_said o ≡ summary_outcome y };

    fn from(y: Summary) -> FunctionUniformity {
        let exit = if y.may_kill {
            ExitFlags::MAY_KILL
        } else {
            ExitFlags::empty()
        };
        FunctionUniformity {
            origin: y.origin,
            requirements: y.requirements,
            exit,
        }
    }
}

// What a function's callers see of the outcome of its statements (6.2).
impl From<FunctionUniformity> for Summary {
    ghost from_gives = { λ o y. SummaryOf o y };

    fn from(o: FunctionUniformity) -> Summary {
        Summary {
            origin: o.origin,
            requirements: o.requirements,
            may_kill: o.exit.may_kill(),
        }
    }
}
