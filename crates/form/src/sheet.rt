// A function's sheet (01, 2.5).
ghost use Rattle.std.specs.Prelude.{◌≡◌, ◌||◌, ltb};
ghost use Rattle.definitions.specs.Bytes.{range};
ghost use Rattle.definitions.specs.Limits.{version_1};
ghost use Rattle.definitions.specs.Module as file;
ghost use Rattle.definitions.specs.Checks.{first, for_each};
ghost use Rattle.definitions.specs.Form as checks;
ghost use Rattle.vocabulary.specs.Said.{step_said};
ghost use Rattle.module.specs.Sheets.{ValidSheet};
ghost use Rattle.form.specs.Groups.{listed_at};
ghost use Rattle.form.specs.Layout.{SheetStartLayout};
ghost use Rattle.form_statements.specs.Context.{ValidArgumentCounts};

use crate::LENGTH_BYTES;
use module::Sheet;
use vocabulary::codes::BuiltIn;
use vocabulary::ids::{ArgumentIndex, ExpressionIndex};
use vocabulary::refusal::Refusal;

// The flag byte's only bit: control flow is checked in this function (1.8).
const CONTROL_FLOW_CHECKED: u8 = 1;

// The whole sheet, part by part.
// The numbers of arguments go as an array: a value that said whose they are would still be held against m and s in every
// contract.
pub fn check_sheet(
    m: &[u8],
    s: Sheet,
    argument_counts: &[u16; limits::FUNCTIONS],
) -> Result<(), Refusal>
    requires { SheetStartLayout m.now s × ValidArgumentCounts m.now s.function argument_counts.now }
    ensures { step_said result ≡ checks.sheet_form version_1 m.now s.function tt }
{
    header(m, s)?;
    arguments(m, s)?;
    form_expressions::all(m, s)?;
    form_statements::all(m, s, argument_counts)?;
    initialisers(m, s)?;
    named(m, s)
}

// A count over its limit.
fn over_limits(s: Sheet) -> bool
    ensures { result ≡ (ltb version_1.arguments s.arguments || (ltb version_1.expressions s.expressions || (ltb version_1.operands s.operands || (ltb version_1.statements s.statements || (ltb version_1.initialisers s.initialisers || ltb version_1.named s.named))))) }
{
    limits::over_counts(
        s.arguments,
        s.expressions,
        s.operands,
        s.statements,
        s.initialisers,
        s.named,
    )
}

// 2.5, 2 to 4, of a sheet whose 17 bytes are there.
fn header(m: &[u8], s: Sheet) -> Result<(), Refusal>
    requires { SheetStartLayout m.now s }
    ensures { step_said result ≡ first (checks.sheet_header version_1 m.now s.function) }
{
    if over_limits(s) {
        return Err(Refusal::Count(s.function));
    }
    let at = s.at;
    if at + LENGTH_BYTES + numbers::get32(m, at) as usize != s.end {
        return Err(Refusal::Length(s.function));
    }
    if m.len() < s.end {
        return Err(Refusal::Length(s.function));
    }
    if CONTROL_FLOW_CHECKED < numbers::get8(m, at + LENGTH_BYTES) {
        return Err(Refusal::Code(s.function, 0));
    }
    Ok(())
}

// 2.5, 5.
// As with space bytes, one function of both was tried: a closure repeats the clauses.
fn arguments(m: &[u8], s: Sheet) -> Result<(), Refusal>
    requires { ValidSheet m.now s }
    ensures { step_said result ≡ for_each (checks.argument_code m.now s.function) (range 0 (file.arguments m.now s.function)) }
{
    for a in 0..s.arguments {
        if BuiltIn::LAST < module::argument(m, s, ArgumentIndex(a)) {
            return Err(Refusal::Code(s.function, a));
        }
    }
    Ok(())
}

// 2.5, 8 and 9: x stands at place i of a list of expressions.
fn listed(s: Sheet, i: u16, x: ExpressionIndex) -> Result<(), Refusal>
    ensures { step_said result ≡ first (listed_at s.function i s.expressions x.0) }
{
    if x.is_absent() {
        return Err(Refusal::Shape(s.function, i));
    }
    if s.expressions <= x.0 {
        return Err(Refusal::Range(s.function, i));
    }
    Ok(())
}

// Two loops of three lines: one function of both would take a closure that repeats the clauses of `listed`.
fn initialisers(m: &[u8], s: Sheet) -> Result<(), Refusal>
    requires { ValidSheet m.now s }
    ensures { step_said result ≡ for_each (checks.listed_form m.now s.function (file.initialiser m.now s.function)) (range 0 (file.initialisers m.now s.function)) }
{
    for i in 0..s.initialisers {
        listed(s, i, module::initialiser(m, s, i))?;
    }
    Ok(())
}

fn named(m: &[u8], s: Sheet) -> Result<(), Refusal>
    requires { ValidSheet m.now s }
    ensures { step_said result ≡ for_each (checks.listed_form m.now s.function (file.named_at m.now s.function)) (range 0 (file.named m.now s.function)) }
{
    for i in 0..s.named {
        listed(s, i, module::named(m, s, i))?;
    }
    Ok(())
}
