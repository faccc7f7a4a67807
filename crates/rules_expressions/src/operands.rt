// What the operands of an expression do (01, 3.2, 3.3, 3.5 and 4.1). Nothing else in this crate knows a kind's
// operands.
ghost use Rattle.std.specs.Prelude.{◌≡◌, ◌≢◌, ℕ};
ghost use Rattle.definitions.specs.Module.{absent};
ghost use Rattle.definitions.specs.Roles as roles;
ghost use Rattle.vocabulary.specs.Said.{origin_said};
ghost use Rattle.memory.specs.Changes.{mask_of};
ghost use Rattle.memory.specs.Facts.{ValidCount};
ghost use Rattle.rules_expressions.specs.Operands.{OperandResult, ValidOperands, OperandsResult};

use memory::Work;
use module::{Expression, Sheet};
use vocabulary::flags::{GlobalUse, Mask};
use vocabulary::ids::ExpressionIndex;
use vocabulary::kinds::ExpressionKind;
use vocabulary::origin::Origin;

// The role of an operand, by kind and position: what it marks. The base of an access is carried and marks nothing;
// all but a kind's first operand read.
fn role(kind: u8, position: u16) -> GlobalUse
    ensures { (sub : ℕ) → result.0 ≡ mask_of (roles.use_of (roles.role kind sub position)) }
{
    // The position first: by one match of both, as statements have it, modules take 4 in a hundred instructions more
    // (measured).
    if position != 0 {
        return GlobalUse::READ;
    }
    match kind {
        ExpressionKind::ACCESS | ExpressionKind::ACCESS_INDEX => GlobalUse::empty(),
        ExpressionKind::IMAGE_QUERY | ExpressionKind::ARRAY_LENGTH => GlobalUse::QUERY,
        _ => GlobalUse::READ,
    }
}

// One operand, which may be absent. `found` is the origin so far; the first that there is stays.
fn refer(work: &mut Work, y: ExpressionIndex, with: GlobalUse, found: Origin) -> Origin
    requires { y.0 ≢ absent → ValidCount work.old y.0 }
    ensures { OperandResult work.old work.new y.0 with.0 (origin_said found) (origin_said result) }
{
    if y.is_absent() {
        return found;
    }
    let o = memory::add_ref(work, y, with);
    found.or_else(o)
}

// Each operand that is there counts, and marks what its role says. The answer is the first origin among them.
pub fn refer_all(m: &[u8], s: Sheet, work: &mut Work, x: Expression) -> Origin
    requires { ValidOperands m.now s work.old x }
    ensures { OperandsResult m.now s.function x.index.0 work.old work.new (origin_said result) }
{
    let mut found = Origin::none();
    for j in 0..x.count {
        let y = module::pooled(m, s, x.first + j);
        found = refer(work, y, role(x.kind, j), found);
    }
    found
}
