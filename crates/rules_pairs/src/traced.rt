// Tracing an end of a sampling from an expression (01, 4.3).
ghost use Rattle.std.specs.Prelude.{◌≡◌};
ghost use Rattle.definitions.specs.Ends as paper;
ghost use Rattle.rules_pairs.specs.Said.{traced_said};
ghost use Rattle.rules_pairs.specs.Tracing.{ValidTrace, ValidBase, based};

use module::Sheet;
use vocabulary::ids::{ArgumentIndex, ExpressionIndex, GlobalIndex};
use vocabulary::kinds::ExpressionKind;

// What an expression traces to.
// Three cases, and no option of an end: 01, 13.1 names the form `let Global(..) else` over them.
#[derive(Clone, Copy, Debug, PartialEq, Eq)]
pub enum Traced {
    Global(GlobalIndex),
    Argument(ArgumentIndex),
    Neither,
}

// A global and an argument are themselves; an access is its base, if that is a global.
pub fn trace(m: &[u8], s: Sheet, e: ExpressionIndex) -> Traced
    requires { ValidTrace m.now s e.0 }
    ensures { traced_said result ≡ paper.trace m.now s.function e.0 }
{
    let x = module::expression_at(m, s, e);
    match x.kind {
        ExpressionKind::FUNCTION_ARGUMENT => Traced::Argument(ArgumentIndex(x.number)),
        ExpressionKind::GLOBAL_VARIABLE => Traced::Global(GlobalIndex(x.number)),
        ExpressionKind::ACCESS | ExpressionKind::ACCESS_INDEX => trace_base(m, s, x.first),
        _ => Traced::Neither,
    }
}

// The base of an access stands at a place of the pool.
fn trace_base(m: &[u8], s: Sheet, first: u16) -> Traced
    requires { ValidBase m.now s first }
    ensures { traced_said result ≡ based m.now s.function first }
{
    let base = module::pooled(m, s, first);
    let b = module::expression_at(m, s, base);
    if b.kind == ExpressionKind::GLOBAL_VARIABLE {
        Traced::Global(GlobalIndex(b.number))
    } else {
        Traced::Neither
    }
}
