// The form of one expression, check by check in the paper's order (01, 2.6): 4, 5, 6. Its refusal is that of the
// first check that fails.
ghost use Rattle.std.specs.Prelude.{◌≡◌, false, ◌&&◌, not, cond, ◌+◌, ◌≤◌, ◌<◌, ltb, leb, eqb};
ghost use Rattle.definitions.specs.Bytes.{range};
ghost use Rattle.definitions.specs.Module as file;
ghost use Rattle.definitions.specs.Checks.{first, any};
ghost use Rattle.definitions.specs.Roles as roles;
ghost use Rattle.definitions.specs.Form as checks;
ghost use Rattle.vocabulary.specs.Said.{step_said};
ghost use Rattle.module.specs.Sheets.{ValidSheet};
ghost use Rattle.form_records.specs.OperandChecks.{operands_found};
ghost use Rattle.form_expressions.specs.Groups as groups;
ghost use Rattle.form_expressions.specs.Operands.{misplaced_at, late_at};
ghost use Rattle.form_expressions.specs.Required.{required_of, ValidFields};

use form_records::{NO_SUB, OperandFault};
use module::{Expression, Sheet};
use vocabulary::ids::ExpressionIndex;
use vocabulary::kinds::{BindingArray, ExpressionKind, SampleLevel};
use vocabulary::refusal::Refusal;

// How many kinds there are.
pub const KINDS: usize = ExpressionKind::LAST as usize + 1;

// How many operands each kind has (4.1). Compose has any number. (This and the next are two rows of numbers, which 19
// structs of two numbers would not make plainer.)
const COUNTS: [u16; KINDS] = [0, 0, 0, 0, 0, 2, 1, 1, 1, 2, 3, 0, 4, 8, 5, 2, 1, 2, 3];

// How many of them, from the first on, must be there; of Compose all.
const REQUIRED: [u16; KINDS] = [0, 0, 0, 0, 0, 2, 1, 1, 1, 2, 3, ALL, 1, 3, 2, 1, 1, 2, 3];

const ALL: u16 = u16::MAX;

// Where the two levels stand among the operands of an ImageSample.
const LEVEL_1: u16 = 4;

const LEVEL_2: u16 = 5;

pub fn expression(m: &[u8], s: Sheet, globals: u16, e: ExpressionIndex) -> Result<(), Refusal>
    requires { ValidSheet m.now s × (e.0 < s.expressions) × (globals ≡ file.globals m.now) }
    ensures { step_said result ≡ first (checks.expression_form m.now s.function e.0) }
{
    let x = module::expression_at(m, s, e);
    if unknown_code(x) {
        return Err(Refusal::Code(s.function, e.0));
    }
    if misshapen(x) {
        return Err(Refusal::Shape(s.function, e.0));
    }
    operands(m, s, x).map_err(|fault| match fault {
        OperandFault::Misplaced => Refusal::Shape(s.function, e.0),
        OperandFault::Outside | OperandFault::Astray => Refusal::Range(s.function, e.0),
    })?;
    if unnamed(s, globals, x) {
        return Err(Refusal::Range(s.function, e.0));
    }
    Ok(())
}

// Its kind is unknown, or has no such sub.
// This, misshapen and idle_number are as those of statements, over another has_sub, takes and has_number. A trait
// that gives both sorts of record these three was sketched: with its two impls it is longer than the six functions.
#[tactic(auto, unfolding(crate::specs::Groups::unknown_code))]
fn unknown_code(x: Expression) -> bool
    ensures { result ≡ groups.unknown_code x }
{
    ExpressionKind::LAST < x.kind || !has_sub(x.kind, x.sub)
}

#[tactic(auto, unfolding(definitions::specs::Roles::has_sub))]
fn has_sub(kind: u8, sub: u8) -> bool
    ensures { result ≡ roles.has_sub kind sub }
{
    match kind {
        ExpressionKind::ACCESS => sub <= BindingArray::BUFFERS,
        ExpressionKind::IMAGE_SAMPLE => sub <= SampleLevel::GRADIENT,
        _ => sub == NO_SUB,
    }
}

// Its kind takes another number of operands, or it has a field without use that is not zero.
#[tactic(auto, unfolding(crate::specs::Groups::misshapen))]
fn misshapen(x: Expression) -> bool
    requires { x.kind ≤ 18 }
    ensures { result ≡ groups.misshapen x }
{
    !takes(x.kind, x.count) || idle_number(x.kind, x.number) || idle_first(x.first, x.count)
}

fn takes(kind: u8, count: u16) -> bool
    requires { kind ≤ 18 }
    ensures { result ≡ roles.takes kind count }
{
    kind == ExpressionKind::COMPOSE || count == COUNTS[usize::from(kind)]
}

// A number that the kind has no use for, and that is not zero (1.9).
fn idle_number(kind: u8, number: u16) -> bool
    ensures { result ≡ (not (roles.has_number kind) && ltb 0 number) }
{
    !has_number(kind) && 0 < number
}

// Not by `matches!`, with which the exact checks ran 4 % more instructions.
#[tactic(auto, unfolding(definitions::specs::Roles::has_number))]
fn has_number(kind: u8) -> bool
    ensures { result ≡ roles.has_number kind }
{
    kind == ExpressionKind::FUNCTION_ARGUMENT
        || kind == ExpressionKind::GLOBAL_VARIABLE
        || kind == ExpressionKind::CALL_RESULT
}

// A first operand where there are none.
fn idle_first(first: u16, count: u16) -> bool
    ensures { result ≡ (eqb count 0 && ltb 0 first) }
{
    count == 0 && 0 < first
}

// One that is misplaced, as its kind has it, and one that is not earlier.
fn operands(m: &[u8], s: Sheet, x: Expression) -> Result<(), OperandFault>
    requires { ValidSheet m.now s × ValidFields x }
    ensures { result ≡ operands_found (leb (x.first + x.count) s.operands) (any (misplaced_at m.now s.function x) (range 0 x.count)) (any (late_at m.now s.function x) (range 0 x.count)) }
{
    let required = required(x.kind);
    form_records::operands(
        m,
        s,
        x.first,
        x.count,
        |j, o| misplaced(x, required, j, o),
        |_, o| not_earlier(x.index, o),
    )
}

// How many operands of a kind, from the first on, must be there.
#[tactic(auto, unfolding(crate::specs::Required::required, crate::specs::Required::required_of))]
fn required(kind: u8) -> u16
    requires { kind ≤ 18 }
    ensures { result ≡ required_of kind }
{
    REQUIRED[usize::from(kind)]
}

// The operand o at position j is absent where it must be there, or there where it must be absent. Those past the
// required ones may be there or not, but for the levels of an ImageSample (4.2), which are there or not as its sub
// says.
#[tactic(auto, using(crate::proofs::KindTables::placed))]
fn misplaced(x: Expression, required: u16, j: u16, o: ExpressionIndex) -> bool
    requires { ValidFields x × (required ≡ required_of x.kind) × (j < x.count) }
    ensures { result ≡ roles.misplaced (roles.role x.kind x.sub j) o.0 }
{
    if j < required {
        o.is_absent()
    } else {
        x.kind == ExpressionKind::IMAGE_SAMPLE && mislevelled(x.sub, j, o)
    }
}

#[tactic(auto, unfolding(definitions::specs::Roles::misplaced, definitions::specs::Roles::level_1, definitions::specs::Roles::level_2))]
fn mislevelled(sub: u8, j: u16, o: ExpressionIndex) -> bool
    ensures { result ≡ cond (eqb j 4) (roles.misplaced (roles.level_1 sub) o.0) (cond (eqb j 5) (roles.misplaced (roles.level_2 sub) o.0) false) }
{
    match j {
        LEVEL_1 => o.is_absent() == (SampleLevel::EXACT <= sub),
        LEVEL_2 => o.is_absent() == (sub == SampleLevel::GRADIENT),
        _ => false,
    }
}

// The operand o of e is there, and is no earlier expression.
fn not_earlier(e: ExpressionIndex, o: ExpressionIndex) -> bool
    ensures { result ≡ (leb e.0 o.0 && not (eqb o.0 file.absent)) }
{
    e <= o && !o.is_absent()
}

// Its number names no argument of f, no global, or no lower function.
#[tactic(auto, unfolding(crate::specs::Groups::unnamed))]
fn unnamed(s: Sheet, globals: u16, x: Expression) -> bool
    ensures { result ≡ groups.unnamed s.function s.arguments globals x }
{
    match x.kind {
        ExpressionKind::FUNCTION_ARGUMENT => s.arguments <= x.number,
        ExpressionKind::GLOBAL_VARIABLE => globals <= x.number,
        ExpressionKind::CALL_RESULT => s.function <= x.number,
        _ => false,
    }
}
