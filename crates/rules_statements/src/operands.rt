// What the operands of a statement do (01, 5.2). Nothing else in this crate knows a kind's operands.
ghost use Rattle.std.specs.Prelude.{◌≡◌};
ghost use Rattle.definitions.specs.Roles as roles;
ghost use Rattle.definitions.specs.Walk as walks;
ghost use Rattle.vocabulary.specs.Said.{origin_said};
ghost use Rattle.memory.specs.Changes.{mask_of};
ghost use Rattle.rules_statements.specs.Results.{known_state, CountsBelow, bound, WalkContext, StatementAt, OperandsResult};

use memory::Work;
use module::{Sheet, Statement};
use rules_pairs::lists::Lists;
use vocabulary::flags::GlobalUse;
use vocabulary::ids::ExpressionIndex;
use vocabulary::kinds::StatementKind;
use vocabulary::origin::Origin;

// The role of an operand, by kind and position: what it marks. All but a kind's first operand read.
fn role(kind: u8, position: u16) -> GlobalUse
    ensures { result.0 ≡ mask_of (roles.use_of (roles.s_role kind position)) }
{
    match (kind, position) {
        (StatementKind::STORE, 0) => GlobalUse::WRITE,
        _ => GlobalUse::READ,
    }
}

// Each operand counts, and marks what its role says.
pub fn add_refs(m: &[u8], s: Sheet, work: &mut Work, x: Statement)
    requires { WalkContext m.now s × StatementAt m.now s x.index x
        × CountsBelow m.now s.function work.old (bound x.index) }
    ensures { OperandsResult m.now s x.index work.old work.new }
{
    for j in 0..x.count {
        let e = module::pooled(m, s, x.first + j);
        memory::add_ref(work, e, role(x.kind, j));
    }
}

// The origin of the first operand, if there is one: what a Return gives back, the condition of an If, the selector of a
// Switch.
pub fn origin(m: &[u8], s: Sheet, work: &Work, x: Statement) -> Origin
    requires { WalkContext m.now s × StatementAt m.now s x.index x }
    ensures { (l : Lists) → origin_said result
        ≡ walks.operand_origin m.now s.function x.index (known_state m.now s.function l work.now) }
{
    if x.count == 0 {
        Origin::none()
    } else {
        memory::origin(work, module::pooled(m, s, x.first))
    }
}
