// The global that an expression carries (01, 3.3 and 3.4): naga's `assignable_global`.
ghost use Rattle.std.specs.Prelude.{◌≡◌, cond, ◌<◌, eqb};
ghost use Rattle.std.proofs.Math.Option.{none};
ghost use Rattle.definitions.specs.Report.{global_from};
ghost use Rattle.definitions.specs.State as state;
ghost use Rattle.definitions.specs.Expressions as rules;
ghost use Rattle.vocabulary.specs.Said.{assignable_said};
ghost use Rattle.memory.specs.View.{Shape, viewed};
ghost use Rattle.rules_expressions.specs.Facts.{FormedExpression};

use memory::Work;
use module::{Expression, Sheet};
use vocabulary::assignable::AssignableGlobal;
use vocabulary::ids::GlobalIndex;
use vocabulary::kinds::ExpressionKind;

// A global starts with itself, every other kind with none.
pub fn own_global(x: Expression) -> AssignableGlobal
    ensures { assignable_said result ≡ cond (eqb x.kind 2) (global_from x.number) none }
{
    if x.kind == ExpressionKind::GLOBAL_VARIABLE {
        AssignableGlobal::from(GlobalIndex(x.number))
    } else {
        AssignableGlobal::none()
    }
}

// What an expression that is no leaf carries: it starts with none, and only the base of an Access or an AccessIndex
// hands its global on.
pub fn carried(m: &[u8], s: Sheet, work: &Work, x: Expression) -> AssignableGlobal
    requires { FormedExpression m.now s x.index.0 x × (4 < x.kind) }
    ensures { (h : Shape) → h.known ≡ x.index.0 → assignable_said result
        ≡ state.carried (state.operands_of m.now s.function x.index.0) (viewed h work.now) (rules.own_global m.now s.function x.index.0) }
{
    match x.kind {
        ExpressionKind::ACCESS | ExpressionKind::ACCESS_INDEX => {
            memory::assignable(work, module::pooled(m, s, x.first))
        }
        _ => AssignableGlobal::none(),
    }
}
