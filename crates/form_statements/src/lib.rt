// The form of statements (01, 2.7 to 2.9), and the number of arms (2.5, 7).
#![tactic(auto)]

ghost use Rattle.std.specs.Prelude.{◌≡◌};
ghost use Rattle.vocabulary.specs.Said.{step_said};
ghost use Rattle.module.specs.Sheets.{ValidSheet};
ghost use Rattle.form_statements.specs.Groups.{statements_form};
ghost use Rattle.form_statements.specs.Context.{ValidArgumentCounts};

use module::Sheet;
use vocabulary::refusal::Refusal;

mod exact;
mod extents;
mod fast;

// What the quick tests accept is valid. Where they don't, all statements are checked again in the paper's order, which
// yields the refusal, if there is one.
// A file and its sheet stay two parameters here too: one value of both was tried (see Sheet in module).
pub fn all(m: &[u8], s: Sheet, argument_counts: &[u16; limits::FUNCTIONS]) -> Result<(), Refusal>
    requires { ValidSheet m.now s × ValidArgumentCounts m.now s.function argument_counts.now }
    ensures { step_said result ≡ statements_form m.now s.function }
{
    if fast::quick_accepts(m, s, argument_counts) {
        return Ok(());
    }
    exact::all(m, s, argument_counts)
}
