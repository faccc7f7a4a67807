// The form of all statements, check by check in the paper's order (01, 2.7 to 2.9), and the number of arms. The
// refusal is that of the first check that fails.
ghost use Rattle.std.specs.Prelude.{◌≡◌, false, ◌&&◌, ◌||◌, not, ltb, leb, eqb, get_or, ◌+◌, ◌≤◌, ◌<◌};
ghost use Rattle.definitions.specs.Bytes.{range};
ghost use Rattle.definitions.specs.Limits.{version_1};
ghost use Rattle.definitions.specs.Checks.{first, any};
ghost use Rattle.definitions.specs.Roles as roles;
ghost use Rattle.definitions.specs.Form as checks;
ghost use Rattle.vocabulary.specs.Said.{step_said};
ghost use Rattle.module.specs.Sheets.{ValidSheet, IsStatement};
ghost use Rattle.limits.specs.Sizes.{functions_size};
ghost use Rattle.form_records.specs.OperandChecks.{operands_found};
ghost use Rattle.form_statements.specs.Groups as groups;
ghost use Rattle.form_statements.specs.Groups.{statements_form};
ghost use Rattle.form_statements.specs.Operands.{absent_at, unknown_at};
ghost use Rattle.form_statements.specs.Context.{ValidArgumentCounts, ValidContext};

use crate::extents::{Extent, OpenExtents};
use form_records::{NO_SUB, OperandFault};
use module::{Sheet, Statement};
use vocabulary::kinds::StatementKind;
use vocabulary::refusal::Refusal;

// Each statement in turn, and then the first If or Loop that does not hold two arms. Every statement is opened when
// it has passed, and closed when its end has come.
pub fn all(m: &[u8], s: Sheet, argument_counts: &[u16; limits::FUNCTIONS]) -> Result<(), Refusal>
    requires { ValidSheet m.now s × ValidArgumentCounts m.now s.function argument_counts.now }
    ensures { step_said result ≡ statements_form m.now s.function }
{
    let mut extents = OpenExtents::new(s.statements);
    let mut bad = None;
    for t in 0..s.statements {
        let x = module::statement_at(m, s, t);
        statement(m, s, argument_counts, x, extents.owner(), extents.depth())?;
        extents.hold_one();
        extents.open(t, x.kind, x.end);
        bad = extents.close(t + 1, bad);
    }
    match bad {
        Some(t) => Err(Refusal::Shape(s.function, t)),
        None => Ok(()),
    }
}

// The statement x, which an owner directly holds and so many are around.
fn statement(
    m: &[u8],
    s: Sheet,
    argument_counts: &[u16; limits::FUNCTIONS],
    x: Statement,
    owner: Extent,
    depth: usize,
) -> Result<(), Refusal>
    requires context { ValidContext m.now s argument_counts.now x.index owner.kind owner.end depth }
    requires read { IsStatement m.now s.function x.index x }
    ensures { step_said result ≡ first (checks.statement_form version_1 m.now s.function x.index) }
{
    if unknown_code(x) {
        return Err(Refusal::Code(s.function, x.index));
    }
    if misshapen(x) {
        return Err(Refusal::Shape(s.function, x.index));
    }
    let found = operands(m, s, x);
    if found == Err(OperandFault::Misplaced) {
        return Err(Refusal::Shape(s.function, x.index));
    }
    if badly_nested(x, owner) {
        return Err(Refusal::Shape(s.function, x.index));
    }
    if found.is_err() {
        return Err(Refusal::Range(s.function, x.index));
    }
    if unnamed(s, x) {
        return Err(Refusal::Range(s.function, x.index));
    }
    if limits::over_depth(depth) {
        return Err(Refusal::Deep(s.function, x.index));
    }
    if miscalled(argument_counts, x) {
        return Err(Refusal::Arguments(s.function, x.index));
    }
    Ok(())
}

// Its kind is unknown, or has no such sub.
// Kinds and subs stay named numbers: a file's byte may be any, and a check answers for each (see kinds in vocabulary).
fn unknown_code(x: Statement) -> bool
    ensures { result ≡ groups.unknown_code x }
{
    StatementKind::LAST < x.kind || !has_sub(x.kind, x.sub)
}

pub fn has_sub(kind: u8, sub: u8) -> bool
    ensures { result ≡ roles.s_has_sub kind sub }
{
    if kind == StatementKind::ARM {
        sub <= StatementKind::FALLS_THROUGH
    } else {
        sub == NO_SUB
    }
}

// Its kind takes another number of operands, or it has a field without use that is not zero.
fn misshapen(x: Statement) -> bool
    ensures { result ≡ groups.misshapen x }
{
    !takes(x.kind, x.count) || idle_number(x.kind, x.number) || idle_first(x)
}

pub fn takes(kind: u8, count: u16) -> bool
    ensures { result ≡ roles.s_takes kind count }
{
    match kind {
        StatementKind::RETURN | StatementKind::LOOP => count <= 1,
        StatementKind::STORE => count == 2,
        StatementKind::CALL => true,
        StatementKind::IF | StatementKind::SWITCH => count == 1,
        _ => count == 0,
    }
}

// A number that the kind has no use for, and that is not zero (1.9).
fn idle_number(kind: u8, number: u16) -> bool
    ensures { result ≡ (not (roles.s_has_number kind) && ltb 0 number) }
{
    !has_number(kind) && 0 < number
}

fn has_number(kind: u8) -> bool
    ensures { result ≡ roles.s_has_number kind }
{
    kind == StatementKind::EMIT || kind == StatementKind::CALL
}

// A first operand where there are none; of an Emit it is the range's end.
fn idle_first(x: Statement) -> bool
    ensures { result ≡ (not (eqb x.kind 0) && eqb x.count 0 && ltb 0 x.first) }
{
    x.kind != StatementKind::EMIT && x.count == 0 && 0 < x.first
}

// A statement without operands has no part of the pool. Of one that has some, none is absent, and each is one of the
// expressions.
fn operands(m: &[u8], s: Sheet, x: Statement) -> Result<(), OperandFault>
    requires { ValidSheet m.now s }
    ensures { result ≡ operands_found (eqb x.count 0 || leb (x.first + x.count) s.operands) (any (absent_at m.now s.function x) (range 0 x.count)) (any (unknown_at m.now s.function s.expressions x) (range 0 x.count)) }
{
    if x.count == 0 {
        return Ok(());
    }
    form_records::operands(
        m,
        s,
        x.first,
        x.count,
        |_, o| o.is_absent(),
        |_, o| s.expressions <= o.0,
    )
}

// 2.8: its end, or how it stands to its owner.
fn badly_nested(x: Statement, owner: Extent) -> bool
    ensures { result ≡ groups.badly_nested x.index x owner.kind owner.end }
{
    x.end <= x.index
        || owner.end < x.end
        || overlong(x)
        || misowned(x.kind, owner.kind)
        || falls_astray(x.sub, owner.kind)
}

// One that holds no others ends behind itself.
fn overlong(x: Statement) -> bool
    ensures { result ≡ (not (checks.holds_others x.kind) && not (eqb x.end (x.index + 1))) }
{
    !StatementKind::holds_others(x.kind) && usize::from(x.end) != usize::from(x.index) + 1
}

// An Arm that no If, Switch or Loop holds, or another statement that one of them holds.
fn misowned(kind: u8, owner: u8) -> bool
    ensures { result ≡ checks.misowned kind owner }
{
    if kind == StatementKind::ARM {
        !StatementKind::holds_arms(owner)
    } else {
        StatementKind::holds_arms(owner)
    }
}

// Only an arm of a Switch falls through.
pub fn falls_astray(sub: u8, owner: u8) -> bool
    ensures { result ≡ (eqb sub 1 && not (eqb owner 9)) }
{
    sub == StatementKind::FALLS_THROUGH && owner != StatementKind::SWITCH
}

// An Emit's range starts past its end or ends past the expressions, or a Call's callee is no lower function.
fn unnamed(s: Sheet, x: Statement) -> bool
    ensures { result ≡ groups.unnamed s.function s.expressions x }
{
    match x.kind {
        StatementKind::EMIT => x.first < x.number || s.expressions < x.first,
        StatementKind::CALL => s.function <= x.number,
        _ => false,
    }
}

// A Call with another number of arguments than its callee takes.
fn miscalled(argument_counts: &[u16; limits::FUNCTIONS], x: Statement) -> bool
    requires { x.kind ≡ 6 → x.number < functions_size }
    ensures { result ≡ (eqb x.kind 6 && not (eqb x.count (get_or argument_counts.now x.number 0))) }
{
    x.kind == StatementKind::CALL && x.count != argument_counts[usize::from(x.number)]
}
