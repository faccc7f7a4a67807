// The working memory: what is known of a function while it is analysed, in one lent array (01, 9.2).
//
//      0  expression records, 9 bytes each, as in the report (01, 7.4)
//  18432  uses, one byte a global
//  18688  pairs, 6 bytes each
//  20224  mixed pairs, 6 bytes each
//  21760  where each function's section begins in the report, 4 bytes each
//  22016  end
//
// Only this crate and the pair lists know where something stands. Contracts say what is left byte for byte
// (specs/Changes); proofs/View says what that is to the state of the definitions.
#![tactic(auto, unfolding(crate::specs::Layout::sections_at, crate::specs::Layout::size))]

ghost use Rattle.std.specs.Prelude.{◌≡◌, cond, ◌+◌, ◌*◌, ◌≤◌, ◌<◌, ltb, length};
ghost use Rattle.vocabulary.specs.Said.{origin_said, assignable_said};
ghost use Rattle.definitions.specs.Bytes.{be16};
ghost use Rattle.definitions.specs.Origin.{origin_number};
ghost use Rattle.definitions.specs.Report.{global_number};
ghost use Rattle.memory.specs.Layout.{uses_at, sections_at, size};
ghost use Rattle.memory.specs.Changes.{origin_of_line, requirements_of_line, counted_once, with_use, with_line, with_query, begun, with_uses, table, section_at, with_section};
ghost use Rattle.memory.specs.Facts.{ValidLine, ValidCount, MemoryResult, ReferenceResult};

use vocabulary::assignable::AssignableGlobal;
use vocabulary::flags::{GlobalUse, Mask, UniformityRequirements};
use vocabulary::ids::ExpressionIndex;
use vocabulary::origin::Origin;

// An expression's record: its size, and its fields behind the origin.
pub const LINE: usize = 9;

pub const LINE_REQUIREMENTS: usize = 2;

pub const LINE_COUNT: usize = 3;

pub const LINE_ASSIGNABLE: usize = 7;

pub const USES: usize = 18432;

pub const PAIRS: usize = 18688;

pub const MIXED: usize = 20224;

pub const SECTIONS: usize = 21760;

pub const SIZE: usize = 22016;

// The lent working memory. Its length is part of the type (01, 9.2).
pub type Work = [u8; SIZE];

// How many globals there is room for.
const GLOBALS: u16 = (PAIRS - USES) as u16;

// An entry of a list of pairs: its size, and how many each of the two lists has room for (01, 1.4).
pub const ENTRY: usize = 6;

pub const ENTRIES: usize = (MIXED - PAIRS) / ENTRY;

// Where an expression's record begins.
fn line(e: ExpressionIndex) -> usize
    ensures { (result ≡ 9 * e.0) × (result < 589824) }
{
    LINE * usize::from(e.0)
}

// ---- what is known of an expression (01, 3.1)

#[tactic(auto, unfolding(crate::specs::Changes::origin_of_line))]
pub fn origin(work: &Work, e: ExpressionIndex) -> Origin
    requires { ValidLine work.now e.0 }
    ensures { origin_said result ≡ origin_of_line work.now e.0 }
{
    Origin(numbers::get16(work, line(e)))
}

#[tactic(auto, unfolding(crate::specs::Changes::requirements_of_line))]
pub fn requirements(work: &Work, e: ExpressionIndex) -> UniformityRequirements
    requires { ValidLine work.now e.0 }
    ensures { result.0 ≡ requirements_of_line work.now e.0 }
{
    UniformityRequirements(numbers::get8(work, line(e) + LINE_REQUIREMENTS))
}

pub fn assignable(work: &Work, e: ExpressionIndex) -> AssignableGlobal
    requires { ValidLine work.now e.0 }
    ensures { result.0 ≡ be16 work.now (9 * e.0 + 7) }
{
    AssignableGlobal(numbers::get16(work, line(e) + LINE_ASSIGNABLE))
}

// The line of an expression that is now known. References to it come later, so its count is left as it is.
pub fn set_expression(
    work: &mut Work,
    e: ExpressionIndex,
    o: Origin,
    r: UniformityRequirements,
    a: AssignableGlobal,
)
    requires { ValidLine work.old e.0 }
    ensures { MemoryResult work.new (with_line work.old e.0 (origin_number (origin_said o)) r.0 (global_number (assignable_said a))) }
{
    let at = line(e);
    numbers::set16(work, at, o.0);
    work[at + LINE_REQUIREMENTS] = r.0;
    numbers::set16(work, at + LINE_ASSIGNABLE, a.0);
}

// ---- references (01, 3.2 and 3.3)

#[tactic(auto, unfolding(crate::specs::Changes::counted_once, crate::specs::View::count_at))]
fn count_one(work: &mut Work, e: ExpressionIndex)
    requires { ValidCount work.old e.0 }
    ensures { MemoryResult work.new (counted_once work.old e.0) }
{
    let at = line(e) + LINE_COUNT;
    let n = numbers::get32(work, at);
    numbers::set32(work, at, n + 1);
}

// What a number marks: nothing, where it is no global's.
fn marked(global: AssignableGlobal, with: GlobalUse) -> GlobalUse
    ensures { result.0 ≡ cond (ltb global.0 256) with.0 0 }
{
    if global.0 < GLOBALS {
        with
    } else {
        GlobalUse::empty()
    }
}

// A use marked on a global, if there is one. Whether there is one can't be foreseen, so there is no branch on it:
// where there is none, some use byte is joined with nothing.
fn mark(work: &mut Work, global: AssignableGlobal, with: GlobalUse)
    ensures { MemoryResult work.new (with_use work.old global.0 with.0) }
{
    let at = USES + usize::from(global.0 % GLOBALS);
    let now = GlobalUse(work[at]);
    work[at] = now.join(marked(global, with)).0;
}

// A reference to e: counted, and marked on its assignable global. The answer is e's origin.
#[tactic(auto, unfolding(crate::specs::Changes::referred))]
pub fn add_ref(work: &mut Work, e: ExpressionIndex, with: GlobalUse) -> Origin
    requires { ValidCount work.old e.0 }
    ensures { ReferenceResult work.old work.new e.0 with.0 (origin_said result) }
{
    let o = origin(work, e);
    let global = assignable(work, e);
    count_one(work, e);
    mark(work, global, with);
    o
}

// ---- uses

// QUERY on a global that has no use at all (01, 6.1).
fn query(work: &mut Work, global: AssignableGlobal)
    ensures { MemoryResult work.new (with_query work.old global.0) }
{
    let at = USES + usize::from(global.0);
    if at < PAIRS && work[at] == 0 {
        work[at] = GlobalUse::QUERY.0;
    }
}

// A named expression: its assignable global gets QUERY where it has no use (01, 6.1).
pub fn query_unused(work: &mut Work, e: ExpressionIndex)
    requires { ValidLine work.old e.0 }
    ensures { MemoryResult work.new (with_query work.old (be16 work.old (9 * e.0 + 7))) }
{
    let global = assignable(work, e);
    query(work, global);
}

// The n use bytes of a callee, which stand in the report from `at` on, joined to this function's (01, 5.2).
// A place and a number, since the promise speaks of places of the report.
pub fn join_uses(work: &mut Work, report: &[u8], at: usize, n: usize)
    requires { (uses_at + n ≤ size) × (at + n ≤ length report.now) }
    ensures { MemoryResult work.new (with_uses report.now at n work.old) }
{
    // By place, since nothing is known of what a zip writes through an `iter_mut`.
    for (i, callee) in report[at..at + n].iter().enumerate() {
        let mine = GlobalUse(work[USES + i]);
        work[USES + i] = mine.join(GlobalUse(*callee)).0;
    }
}

// ---- where a function begins

// Nothing is known of the expressions, nothing counted, no global used; the caller knows that the lists are empty.
pub fn begin(work: &mut Work, expressions: usize, globals: usize)
    requires { (9 * expressions ≤ uses_at) × (uses_at + globals ≤ size) }
    ensures { MemoryResult work.new (begun expressions globals work.old) }
{
    work[..LINE * expressions].fill(0);
    work[USES..USES + globals].fill(0);
}

// ---- where each function's section begins in the report

pub fn section(work: &Work, f: usize) -> usize
    requires { sections_at + 4 * f + 4 ≤ size }
    ensures { result ≡ section_at (table work.now) f }
{
    numbers::get32(work, SECTIONS + 4 * f) as usize
}

#[tactic(auto, unfolding(crate::specs::Layout::sections_at, crate::specs::Layout::size, crate::specs::Changes::with_section))]
pub fn set_section(work: &mut Work, f: usize, at: usize)
    requires { (sections_at + 4 * f + 4 ≤ size) × (at < 4294967296) }
    ensures { MemoryResult work.new (with_section work.old f at) }
{
    numbers::set32(work, SECTIONS + 4 * f, at as u32);
}
