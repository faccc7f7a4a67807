// Expressions that a quick test accepts: most of them. The test says only that an expression is valid; one that it
// does not accept is left to `exact`. It has no branch on how many operands there are.
ghost use Rattle.std.specs.Prelude.{MatchOption, ◌≡◌, true, ◌+◌, ◌-◌, ◌*◌, ◌%◌, ◌≤◌, ◌<◌, length};
ghost use Rattle.definitions.specs.Bytes.{range};
ghost use Rattle.definitions.specs.Module as file;
ghost use Rattle.definitions.specs.Checks.{fine, first, for_each};
ghost use Rattle.definitions.specs.Form as checks;
ghost use Rattle.module.specs.Sheets.{ValidSheet};
ghost use Rattle.form_expressions.specs.QuickTables as tables;
ghost use Rattle.form_expressions.specs.QuickTables.{QuickTablesLayout};

use crate::exact::KINDS;
use form_records::NO_SUB;
use module::Sheet;
use vocabulary::ids::ExpressionIndex;
use vocabulary::kinds::ExpressionKind;

// How many operands a kind has: none, one or two, where the test can accept it; else 3. Of Compose, which has any
// number, two.
const FEW_OPERANDS: [u8; KINDS] = [0, 0, 0, 0, 0, 2, 1, 1, 1, 2, 3, 2, 3, 3, 3, 2, 1, 2, 3];

// Bytes of an operand in the pool.
const OPERAND_BYTES: usize = 2;

// What the quick test asks of an expression with so many operands.
#[derive(Clone, Copy)]
pub struct CountRow {
    // What `first` has to be below, so that they lie in the pool.
    pub first_below: u32,
    // The upper two bits of each of them, of two that are read as one number of four bytes.
    pub guard: u32,
}

// The tables of the quick test, for one sheet.
#[derive(Drop)]
pub struct QuickTables {
    // What `number` has to be below, by kind: how many arguments, globals and lower functions there are. Where it has
    // no use, it is zero.
    pub number_below: [u16; KINDS],
    // How many operands there are, by kind: a copy of FEW_OPERANDS, for with the constant read in its place modules
    // took 0.1 % more instructions (measured).
    pub few_operands: [u8; KINDS],
    pub by_count: [CountRow; 4],
}

// A file and its sheet go to each method beside the tables, as they do to every check (see Sheet in module).
impl QuickTables {
    pub fn new(m: &[u8], s: Sheet) -> QuickTables
        requires { ValidSheet m.now s }
        ensures { QuickTablesLayout m.now s result }
    {
        let mut number_below = [1u16; KINDS];
        number_below[ExpressionKind::FUNCTION_ARGUMENT as usize] = s.arguments;
        number_below[ExpressionKind::GLOBAL_VARIABLE as usize] = module::globals(m);
        number_below[ExpressionKind::CALL_RESULT as usize] = s.function;
        let operands = u32::from(s.operands);
        QuickTables {
            number_below,
            few_operands: FEW_OPERANDS,
            by_count: [
                CountRow {
                    first_below: 1,
                    guard: 0,
                },
                CountRow {
                    first_below: operands,
                    guard: 0xc000_0000,
                },
                CountRow {
                    first_below: operands.saturating_sub(1),
                    guard: 0xc000_c000,
                },
                CountRow {
                    first_below: 0,
                    guard: 0,
                },
            ],
        }
    }

    // The first expression from `from` on that the quick test does not accept. The test reads two operands wherever
    // it reads any, so it needs room for two behind the pool; without it nothing is skipped.
    pub fn skip_valid(&self, m: &[u8], s: Sheet, from: ExpressionIndex) -> Option<ExpressionIndex>
        requires { ValidSheet m.now s × (from.0 ≤ s.expressions) × QuickTablesLayout m.now s self.now }
        ensures { MatchOption result (for_each (checks.expression_form m.now s.function) (range from.0 (s.expressions - from.0)) ≡ fine tt) (λ e. (from.0 ≤ e.0) × (e.0 < s.expressions) × (for_each (checks.expression_form m.now s.function) (range from.0 (s.expressions - from.0)) ≡ for_each (checks.expression_form m.now s.function) (range e.0 (s.expressions - e.0)))) }
    {
        if m.len() < s.table + 2 * OPERAND_BYTES {
            return (from.0 < s.expressions).then_some(from);
        }
        for e in from.0..s.expressions {
            if !self.accepts(m, s, ExpressionIndex(e)) {
                return Some(ExpressionIndex(e));
            }
        }
        None
    }

    // The expression has no sub, its number is low enough, its operands lie in the pool, and each of them is earlier.
    fn accepts(&self, m: &[u8], s: Sheet, e: ExpressionIndex) -> bool
        requires { ValidSheet m.now s × (e.0 < s.expressions) × (s.table + 4 ≤ length m.now) × QuickTablesLayout m.now s self.now }
        ensures { result ≡ true → first (checks.expression_form m.now s.function e.0) ≡ fine tt }
    {
        let x = module::expression_at(m, s, e);
        let first_and_count = joined(x.first, x.count);
        let k = usize::from(x.kind);
        if ExpressionKind::LAST < x.kind || x.sub != NO_SUB || self.number_below[k] <= x.number {
            return false;
        }
        let few = self.few_operands[k];
        let p = first_if_count(first_and_count, few);
        let row = &self.by_count[usize::from(few)];
        p < row.first_below && guarded_earlier(e, entry(m, s, p), entry(m, s, p + 1), row.guard)
    }
}

// `first`, of `first` and `count` as one number, where the count is `full`; else a number of more than two bytes. So
// one comparison tells that the count is right and that the operands lie in the pool.
#[tactic(auto, using(crate::proofs::QuickGuards::split_by_count))]
fn first_if_count(first_and_count: u32, full: u8) -> u32
    ensures { result < 65536 → first_and_count ≡ 65536 * result + full }
{
    first_and_count
        .wrapping_sub(u32::from(full))
        .rotate_left(16)
}

// Two numbers of two bytes as one.
fn joined(a: u16, b: u16) -> u32
    ensures { result ≡ 65536 * a + b }
{
    (u32::from(a) << 16) | u32::from(b)
}

// What stands at a place of the pool, or behind it, where `module::pooled` does not read.
#[tactic(auto, using(module::proofs::Places::pooled_read))]
fn entry(m: &[u8], s: Sheet, p: u32) -> ExpressionIndex
    requires { ValidSheet m.now s × (s.pool + 2 * p + 2 ≤ length m.now) }
    ensures { result.0 ≡ file.pooled m.now s.function p }
{
    ExpressionIndex(numbers::get16(m, s.pool + OPERAND_BYTES * p as usize))
}

// Those of two operands that the guard asks for are earlier than e. Both stand in one number, each in two bytes.
// Where 2^14 - e is added to an operand below 2^14 that is not earlier, one of its upper two bits becomes set; in one
// that is not below 2^14 one is set already. The guard is these bits, of none, of the first operand or of both.
fn guarded_earlier(e: ExpressionIndex, a: ExpressionIndex, b: ExpressionIndex, guard: u32) -> bool
    requires { e.0 ≤ 16384 }
    ensures { result ≡ true → (guard ≡ 3221225472 → a.0 < e.0) × (guard ≡ 3221274624 → (a.0 < e.0) × (b.0 < e.0)) }
{
    let q = joined(a.0, b.0);
    (add_guard(e, q) | q) & guard == 0
}

fn add_guard(e: ExpressionIndex, q: u32) -> u32
    requires { e.0 ≤ 16384 }
    ensures { result ≡ (q + (16384 - e.0) * 65537) % 4294967296 }
{
    q.wrapping_add((16384 - u32::from(e.0)) * 65537)
}
