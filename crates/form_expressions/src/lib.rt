// The form of expressions (01, 2.6). `fast` skips those that a quick test accepts; `exact` checks any other in the
// paper's order, and gives its refusal.
#![tactic(auto)]

ghost use Rattle.std.specs.Prelude.{◌≡◌};
ghost use Rattle.definitions.specs.Bytes.{range};
ghost use Rattle.definitions.specs.Module as file;
ghost use Rattle.definitions.specs.Checks.{for_each};
ghost use Rattle.definitions.specs.Form as checks;
ghost use Rattle.vocabulary.specs.Said.{step_said};
ghost use Rattle.module.specs.Sheets.{ValidSheet};

use fast::QuickTables;
use module::Sheet;
use vocabulary::ids::ExpressionIndex;
use vocabulary::refusal::Refusal;

mod exact;
mod fast;

// A file and its sheet stay two parameters here too: one value of both was tried, see module's Sheet.
pub fn all(m: &[u8], s: Sheet) -> Result<(), Refusal>
    requires { ValidSheet m.now s }
    ensures { step_said result ≡ for_each (checks.expression_form m.now s.function) (range 0 (file.expressions m.now s.function)) }
{
    let globals = module::globals(m);
    // The quick test's tables are laid out once, before the loop.
    let quick = QuickTables::new(m, s);
    // The search jumps ahead, past all that the quick test accepts.
    let mut from = ExpressionIndex(0);
    while let Some(e) = quick.skip_valid(m, s, from) {
        exact::expression(m, s, globals, e)?;
        from = ExpressionIndex(e.0 + 1);
    }
    Ok(())
}
