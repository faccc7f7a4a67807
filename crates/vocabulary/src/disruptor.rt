// What has made control flow non-uniform (01, 5.1). Where nothing has, there is `None`, as in naga; of two that follow
// one another the first counts, as `Option::or` has it.
#![tactic(auto, unfolding(definitions::specs::Walk::disruptor_of))]

ghost use Rattle.std.specs.Prelude.{◌≡◌};
ghost use Rattle.definitions.specs.Walk.{disruptor_of};
ghost use Rattle.vocabulary.specs.Said.{origin_said, disruptor_said};

use crate::ids::ExpressionIndex;
use crate::origin::Origin;

#[derive(Clone, Copy, Debug, PartialEq, Eq)]
pub enum UniformityDisruptor {
    Expression(ExpressionIndex),
    Return,
    Discard,
}

impl UniformityDisruptor {
    pub fn of_origin(o: Origin) -> Option<Self>
        ensures { disruptor_said result ≡ disruptor_of (origin_said o) }
    {
        o.expression().map(UniformityDisruptor::Expression)
    }
}
