// What the checks of both kinds of record, expressions and statements, share (01, 2.6 and 2.7).
#![tactic(auto)]

ghost use Rattle.std.specs.Prelude.{◌≡◌, ℕ, Bool, ◌+◌, ◌<◌, leb};
ghost use Rattle.definitions.specs.Bytes.{range};
ghost use Rattle.definitions.specs.Checks.{any};
ghost use Rattle.module.specs.Sheets.{ValidSheet};
ghost use Rattle.form_records.specs.OperandChecks.{operands_found, Tells};

use module::Sheet;
use vocabulary::ids::ExpressionIndex;

// `sub` of a record whose kind has none.
pub const NO_SUB: u8 = 0;

// Why a record's operands are not fine.
#[derive(Clone, Copy, Debug, PartialEq, Eq)]
pub enum OperandFault {
    // The record's part is not within the pool.
    Outside,
    // One is absent where it must be there, or there where it must be absent.
    Misplaced,
    // One names an expression that it may not.
    Astray,
}

// The `count` operands from `first` on, by two tests of an operand at its position. They are looked at only where
// their part is within the pool. A misplaced one counts first, wherever it stands; one that is astray counts only
// where none is misplaced.
// A file and its sheet stay two parameters here too: one value of both was tried, see module's Sheet.
pub fn operands<P, Q>(
    m: &[u8],
    s: Sheet,
    first: u16,
    count: u16,
    misplaced: P,
    astray: Q,
) -> Result<(), OperandFault>
where
    P: Fn(u16, ExpressionIndex) -> bool,
    Q: Fn(u16, ExpressionIndex) -> bool,
    requires valid { ValidSheet m.now s }
    requires misplaced_any { (j o : _) → j < count → P.pre misplaced j o }
    requires astray_any { (j o : _) → j < count → Q.pre astray j o }
    ensures { (p q : ℕ → Bool) → Tells (P.post misplaced) m.now s.function first count p → Tells (Q.post astray) m.now s.function first count q → result ≡ operands_found (leb (first + count) s.operands) (any p (range 0 count)) (any q (range 0 count)) }
{
    if usize::from(s.operands) < usize::from(first) + usize::from(count) {
        return Err(OperandFault::Outside);
    }
    let mut some_astray = false;
    for j in 0..count {
        let o = module::pooled(m, s, first + j);
        if misplaced(j, o) {
            return Err(OperandFault::Misplaced);
        }
        some_astray |= astray(j, o);
    }
    if some_astray {
        return Err(OperandFault::Astray);
    }
    Ok(())
}
