// Access to a binding array (01, 3.7).
ghost use Rattle.std.specs.Prelude.{◌≡◌, ◌<◌};
ghost use Rattle.definitions.specs.Checks.{first};
ghost use Rattle.definitions.specs.Expressions as rules;
ghost use Rattle.definitions.specs.Module as file;
ghost use Rattle.vocabulary.specs.Said.{step_said};
ghost use Rattle.memory.specs.View.{Shape, viewed};
ghost use Rattle.rules_expressions.specs.Rules.{buffer_base, index_check};
ghost use Rattle.rules_expressions.specs.Facts.{FormedSheet, FormedExpression, ValidAccessBase};

use memory::Work;
use module::{Expression, Sheet};
use vocabulary::codes::{AddressSpace, Capabilities};
use vocabulary::flags::Mask;
use vocabulary::ids::{ExpressionIndex, GlobalIndex};
use vocabulary::kinds::{BindingArray, ExpressionKind};
use vocabulary::refusal::Refusal;

// The space of a base that is a global. Apart from `is_buffer`, which finds out whether it is one: by an option, what is
// asked of a base that is known to be a global would be tested again.
fn space_of(m: &[u8], s: Sheet, base: ExpressionIndex) -> u8
    requires { FormedSheet m.now s × (base.0 < s.expressions) × (file.kind m.now s.function base.0 ≡ 2) }
    ensures { result ≡ file.space m.now (file.number m.now s.function base.0) }
{
    let y = module::expression_at(m, s, base);
    module::space(m, GlobalIndex(y.number))
}

// Whether a base is a global in Uniform or Storage.
fn is_buffer(m: &[u8], s: Sheet, base: ExpressionIndex) -> bool
    requires { FormedSheet m.now s × (base.0 < s.expressions) }
    ensures { result ≡ buffer_base m.now s.function base.0 }
{
    let y = module::expression_at(m, s, base);
    y.kind == ExpressionKind::GLOBAL_VARIABLE
        && AddressSpace::is_buffer(module::space(m, GlobalIndex(y.number)))
}

// The capability that a non-uniform index asks for.
fn wanted(m: &[u8], s: Sheet, x: Expression, base: ExpressionIndex) -> Capabilities
    requires { FormedExpression m.now s x.index.0 x × ValidAccessBase m.now s x base.0 }
    ensures { result.0 ≡ rules.capability_asked m.now s.function x.index.0 }
{
    match x.sub {
        BindingArray::STORAGE_IMAGES => Capabilities::STORAGE_IMAGES,
        BindingArray::SAMPLED => Capabilities::SAMPLED,
        _ => {
            if space_of(m, s, base) == AddressSpace::UNIFORM {
                Capabilities::UNIFORM_BUFFERS
            } else {
                Capabilities::STORAGE_BUFFERS
            }
        }
    }
}

// 9 where the index has an origin and the capability is missing.
fn check_index(
    m: &[u8],
    s: Sheet,
    work: &Work,
    x: Expression,
    base: ExpressionIndex,
) -> Result<(), Refusal>
    requires { FormedExpression m.now s x.index.0 x × ValidAccessBase m.now s x base.0 × (x.kind ≡ 5) }
    ensures { (h : Shape) → h.known ≡ x.index.0 → step_said result ≡ first (index_check m.now s.function x.index.0 (viewed h work.now)) }
{
    let index = module::pooled(m, s, x.first + 1);
    let o = memory::origin(work, index);
    if !o.present() {
        return Ok(());
    }
    let allowed = module::capabilities(m);
    if allowed.intersects(wanted(m, s, x, base)) {
        return Ok(());
    }
    Err(Refusal::Capability(s.function, x.index))
}

// 8 where the base of a binding array of buffers is no buffer, then 9. Other expressions have nothing to check.
pub fn check(m: &[u8], s: Sheet, work: &Work, x: Expression) -> Result<(), Refusal>
    requires { FormedExpression m.now s x.index.0 x }
    ensures { (h : Shape) → h.known ≡ x.index.0 → step_said result ≡ first (rules.access m.now s.function x.index.0 (viewed h work.now)) }
{
    // One return a test: by `||`, `&&` and one call of `check_index`, modules take 4 in a thousand instructions more
    // (measured).
    if x.kind != ExpressionKind::ACCESS {
        return Ok(());
    }
    if x.sub == BindingArray::NOT {
        return Ok(());
    }
    let base = module::pooled(m, s, x.first);
    if x.sub != BindingArray::BUFFERS {
        return check_index(m, s, work, x, base);
    }
    if is_buffer(m, s, base) {
        return check_index(m, s, work, x, base);
    }
    Err(Refusal::Base(s.function, x.index))
}
