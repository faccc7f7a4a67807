// Statements that quick tests accept: nearly all. The tests say only that a statement is valid; where one does not
// accept, everything is left to `exact`.
ghost use Rattle.std.specs.Prelude.{◌≡◌, true, false, cond, ◌&&◌, ltb, eqb, get_or, ◌<◌};
ghost use Rattle.definitions.specs.Limits.{version_1};
ghost use Rattle.definitions.specs.Module as file;
ghost use Rattle.definitions.specs.Checks.{first, fine};
ghost use Rattle.definitions.specs.Form as checks;
ghost use Rattle.module.specs.Sheets.{ValidSheet};
ghost use Rattle.limits.specs.Sizes.{functions_size};
ghost use Rattle.form_statements.specs.Groups.{statements_form};
ghost use Rattle.form_statements.specs.Context.{ValidArgumentCounts, ValidQuickContext};
ghost use Rattle.form_statements.specs.Quick.{ValidUses, ValidUnderOwner, ValidPart};

use crate::exact;
use crate::extents::{Extent, OpenExtents};
use form_records::NO_SUB;
use module::Sheet;
use vocabulary::kinds::StatementKind;

// Every statement is accepted, and every If and every Loop holds two arms. Only extents of statements that hold
// others are opened: the others end where they begin.
pub fn quick_accepts(m: &[u8], s: Sheet, argument_counts: &[u16; limits::FUNCTIONS]) -> bool
    requires { ValidSheet m.now s × ValidArgumentCounts m.now s.function argument_counts.now }
    ensures { result ≡ true → statements_form m.now s.function ≡ fine tt }
{
    let mut extents = OpenExtents::new(s.statements);
    for t in 0..s.statements {
        let kind = module::s_kind(m, s, t);
        if StatementKind::LAST < kind {
            return false;
        }
        let owner = extents.owner();
        if StatementKind::holds_others(kind) {
            // What it holds stands one deeper.
            if limits::over_depth(extents.depth() + 1) {
                return false;
            }
            let end = module::s_end(m, s, t);
            if !quick_accepts_holder(m, s, t, kind, end, owner) {
                return false;
            }
            extents.hold_one();
            extents.open(t, kind, end);
        } else {
            if !quick_accepts_leaf(m, s, argument_counts, t, kind, owner.kind) {
                return false;
            }
            extents.hold_one();
        }
        if extents.close(t + 1, None).is_some() {
            return false;
        }
    }
    true
}

// A statement that holds no others.
// m, s and t stay apart, as `module` takes them: its readers are asked for one field after another.
fn quick_accepts_leaf(
    m: &[u8],
    s: Sheet,
    argument_counts: &[u16; limits::FUNCTIONS],
    t: u16,
    kind: u8,
    owner: u8,
) -> bool
    requires { ValidQuickContext m.now s t kind owner × (checks.holds_others kind ≡ false) × ValidArgumentCounts m.now s.function argument_counts.now }
    ensures { result ≡ true → first (checks.statement_form version_1 m.now s.function t) ≡ fine tt }
{
    if module::s_sub(m, s, t) != NO_SUB
        || usize::from(module::s_end(m, s, t)) != usize::from(t) + 1
        || StatementKind::holds_arms(owner)
    {
        return false;
    }
    if kind == StatementKind::EMIT {
        quick_accepts_emit(m, s, t)
    } else {
        quick_accepts_uses(m, s, argument_counts, t, kind)
    }
}

// A statement that holds others, or may.
fn quick_accepts_holder(m: &[u8], s: Sheet, t: u16, kind: u8, end: u16, owner: Extent) -> bool
    requires { ValidQuickContext m.now s t kind owner.kind × (checks.holds_others kind ≡ true) × (end ≡ file.s_end m.now s.function t) × (owner.end ≡ checks.owner_end m.now s.function t) }
    ensures { result ≡ true → first (checks.statement_form version_1 m.now s.function t) ≡ fine tt }
{
    if end <= t || owner.end < end {
        return false;
    }
    if kind == StatementKind::ARM {
        quick_accepts_arm(m, s, t, owner.kind)
    } else {
        quick_accepts_block(m, s, t, kind, owner.kind)
    }
}

// An Arm has no operands, and its owner holds arms.
fn quick_accepts_arm(m: &[u8], s: Sheet, t: u16, owner: u8) -> bool
    requires { ValidSheet m.now s × (t < s.statements) × (file.s_kind m.now s.function t ≡ 11) }
    ensures { result ≡ true → ValidUnderOwner m.now s.function t owner }
{
    let sub = module::s_sub(m, s, t);
    StatementKind::holds_arms(owner)
        && exact::has_sub(StatementKind::ARM, sub)
        && !exact::falls_astray(sub, owner)
        && module::s_number(m, s, t) == 0
        && module::s_first(m, s, t) == 0
        && module::s_count(m, s, t) == 0
}

// A Block, an If, a Switch or a Loop.
fn quick_accepts_block(m: &[u8], s: Sheet, t: u16, kind: u8, owner: u8) -> bool
    requires { ValidQuickContext m.now s t kind owner × (checks.holds_others kind ≡ true) × (kind ≡ 11 → ⊥) }
    ensures { result ≡ true → ValidUnderOwner m.now s.function t owner }
{
    let count = module::s_count(m, s, t);
    !StatementKind::holds_arms(owner)
        && module::s_sub(m, s, t) == NO_SUB
        && module::s_number(m, s, t) == 0
        && exact::takes(kind, count)
        && quick_accepts_part(m, s, module::s_first(m, s, t), count)
}

// An Emit's range.
fn quick_accepts_emit(m: &[u8], s: Sheet, t: u16) -> bool
    requires { ValidSheet m.now s × (t < s.statements) × (file.s_kind m.now s.function t ≡ 0) }
    ensures { result ≡ true → ValidUses m.now s.function t }
{
    let end = module::s_first(m, s, t);
    module::s_number(m, s, t) <= end && end <= s.expressions && module::s_count(m, s, t) == 0
}

// The operands of any other, and what its number names.
fn quick_accepts_uses(
    m: &[u8],
    s: Sheet,
    argument_counts: &[u16; limits::FUNCTIONS],
    t: u16,
    kind: u8,
) -> bool
    requires { ValidSheet m.now s × ValidArgumentCounts m.now s.function argument_counts.now × (t < s.statements) × (kind ≡ file.s_kind m.now s.function t) × (kind ≡ 0 → ⊥) }
    ensures { result ≡ true → ValidUses m.now s.function t }
{
    let count = module::s_count(m, s, t);
    let number = module::s_number(m, s, t);
    exact::takes(kind, count)
        && quick_accepts_number(s, argument_counts, kind, number, count)
        && quick_accepts_part(m, s, module::s_first(m, s, t), count)
}

// A Call's callee is a lower function, which takes as many arguments; the number of any other has no use.
fn quick_accepts_number(
    s: Sheet,
    argument_counts: &[u16; limits::FUNCTIONS],
    kind: u8,
    number: u16,
    count: u16,
) -> bool
    requires { s.function < functions_size }
    ensures { result ≡ cond (eqb kind 6) (ltb number s.function && eqb count (get_or argument_counts.now number 0)) (eqb number 0) }
{
    if kind != StatementKind::CALL {
        return number == 0;
    }
    number < s.function && count == argument_counts[usize::from(number)]
}

// The part lies in the pool, and each operand is an expression. A statement without operands has no part.
fn quick_accepts_part(m: &[u8], s: Sheet, first: u16, count: u16) -> bool
    requires { ValidSheet m.now s }
    ensures { result ≡ true → ValidPart m.now s.function first count s.operands s.expressions }
{
    if count == 0 {
        return first == 0;
    }
    if usize::from(s.operands) < usize::from(first) + usize::from(count) {
        return false;
    }
    (0..count).all(|j| module::pooled(m, s, first + j).0 < s.expressions)
}
