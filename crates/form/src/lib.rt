// The form of a module file (01, section 2): every check before any rule, in the paper's order, in one pass over the
// file. Any bytes get `Ok` or the one numbered refusal that the definitions say; nothing is asked of the caller.
#![tactic(auto)]

ghost use Rattle.std.specs.Prelude.{◌≡◌, ◌+◌, ◌≤◌, length};
ghost use Rattle.definitions.specs.Bytes.{range};
ghost use Rattle.definitions.specs.Limits.{version_1};
ghost use Rattle.definitions.specs.Module as file;
ghost use Rattle.definitions.specs.Checks.{first, for_each};
ghost use Rattle.definitions.specs.Form as checks;
ghost use Rattle.vocabulary.specs.Said.{step_said};
ghost use Rattle.form.specs.Groups.{header_form, counts_form, sheets_form};
ghost use Rattle.form.specs.Layout.{ValidHeader};

use vocabulary::codes::{AddressSpace, Capabilities};
use vocabulary::ids::GlobalIndex;
use vocabulary::refusal::Refusal;

mod sheet;

// Bytes of a length field, with which the file and each sheet begin (1.2, 1.3). The version or the flag stands behind
// it.
const LENGTH_BYTES: usize = 4;

pub fn form(m: &[u8]) -> Result<(), Refusal>
    ensures { step_said result ≡ checks.form version_1 m.now }
{
    header(m)?;
    spaces(m)?;
    sheets(m)
}

// 2.1 to 2.4: the header, up to the first space byte.
fn header(m: &[u8]) -> Result<(), Refusal>
    ensures { step_said result ≡ first (header_form m.now) }
{
    if m.len() < module::SPACES {
        return Err(Refusal::Length(0));
    }
    if limits::over_file(m.len()) {
        return Err(Refusal::Length(0));
    }
    if numbers::get32(m, 0) as usize + LENGTH_BYTES != m.len() {
        return Err(Refusal::Length(0));
    }
    if limits::unknown_version(numbers::get8(m, LENGTH_BYTES)) {
        return Err(Refusal::Length(0));
    }
    counts(m)
}

fn counts(m: &[u8]) -> Result<(), Refusal>
    requires { 10 ≤ length m.now }
    ensures { step_said result ≡ first (counts_form m.now) }
{
    let globals = module::globals(m);
    if limits::over_globals(globals) {
        return Err(Refusal::Count(0));
    }
    if limits::over_functions(module::functions(m)) {
        return Err(Refusal::Count(0));
    }
    if m.len() < module::SPACES + usize::from(globals) {
        return Err(Refusal::Length(0));
    }
    if Capabilities::ALL.0 < module::capabilities(m).0 {
        return Err(Refusal::Code(0, 0));
    }
    Ok(())
}

// 2.4: each space byte in turn. The loop over argument bytes (2.5) is like it: one function of both would take a
// closure that repeats the clauses.
fn spaces(m: &[u8]) -> Result<(), Refusal>
    requires { ValidHeader m.now }
    ensures { step_said result ≡ for_each (checks.space_code m.now) (range 0 (file.globals m.now)) }
{
    let n = module::globals(m);
    for g in 0..n {
        if AddressSpace::LAST < module::space(m, GlobalIndex(g)) {
            return Err(Refusal::Code(0, g));
        }
    }
    Ok(())
}

// 2.5: each sheet in turn, the next where the last one ended; 2.10: what is left over. How many arguments each
// function takes is kept for the calls of it.
fn sheets(m: &[u8]) -> Result<(), Refusal>
    requires { ValidHeader m.now }
    ensures { step_said result ≡ sheets_form m.now }
{
    let n = module::functions(m);
    let mut at = module::SPACES + usize::from(module::globals(m));
    let mut argument_counts = [0u16; limits::FUNCTIONS];
    for f in 0..n {
        if m.len() < at + module::ARGUMENTS {
            return Err(Refusal::Length(f));
        }
        let s = module::sheet_at(m, f, at);
        sheet::check_sheet(m, s, &argument_counts)?;
        argument_counts[usize::from(f)] = s.arguments;
        at = s.end;
    }
    if at < m.len() {
        return Err(Refusal::Length(n));
    }
    Ok(())
}
