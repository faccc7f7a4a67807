// The origin of a leaf (01, 3.5), and what a kind requires (3.6).
ghost use Rattle.std.specs.Prelude.{◌≡◌, cond};
ghost use Rattle.definitions.specs.Expressions as rules;
ghost use Rattle.definitions.specs.Origin.{nowhere, from_expression};
ghost use Rattle.vocabulary.specs.Said.{origin_said};
ghost use Rattle.rules_expressions.specs.Facts.{FormedExpression};

use module::{Expression, Sheet};
use vocabulary::codes::{AddressSpace, BuiltIn};
use vocabulary::flags::{Mask, UniformityRequirements};
use vocabulary::ids::{ArgumentIndex, GlobalIndex};
use vocabulary::kinds::{ExpressionKind, SampleLevel};
use vocabulary::origin::Origin;

// Whether an expression is itself where non-uniformity comes from: an argument that is no uniform built-in, a global
// in a space that is not uniform, a local variable.
fn own_origin(m: &[u8], s: Sheet, x: Expression) -> bool
    requires { FormedExpression m.now s x.index.0 x }
    ensures { result ≡ rules.own_origin m.now s.function x.index.0 }
{
    match x.kind {
        ExpressionKind::FUNCTION_ARGUMENT => {
            module::argument(m, s, ArgumentIndex(x.number)) == BuiltIn::OTHER
        }
        ExpressionKind::GLOBAL_VARIABLE => {
            !AddressSpace::is_uniform(module::space(m, GlobalIndex(x.number)))
        }
        ExpressionKind::LOCAL_VARIABLE => true,
        _ => false,
    }
}

// The origin of a leaf that is no CallResult: itself, or none.
pub fn leaf_origin(m: &[u8], s: Sheet, x: Expression) -> Origin
    requires { FormedExpression m.now s x.index.0 x }
    ensures { origin_said result ≡ cond (rules.own_origin m.now s.function x.index.0) (from_expression x.index.0) nowhere }
{
    if own_origin(m, s, x) {
        Origin::from(x.index)
    } else {
        Origin::none()
    }
}

// What a kind requires by itself.
pub fn requirements(kind: u8, sub: u8) -> UniformityRequirements
    ensures { result.0 ≡ rules.own_requirements kind sub }
{
    match kind {
        ExpressionKind::DERIVATIVE => UniformityRequirements::DERIVATIVE,
        ExpressionKind::IMAGE_SAMPLE => match sub {
            SampleLevel::AUTO | SampleLevel::BIAS => UniformityRequirements::IMPLICIT_LEVEL,
            _ => UniformityRequirements::empty(),
        },
        ExpressionKind::COOPERATIVE_LOAD | ExpressionKind::COOPERATIVE_MULTIPLY_ADD => {
            UniformityRequirements::COOP_OPS
        }
        _ => UniformityRequirements::empty(),
    }
}
