// Expressions, one after another (01, section 3): naga's `process_expression`; the initialisers and the named
// expressions of a function (6.1).
#![tactic(auto)]

ghost use Rattle.std.specs.Prelude.{◌≡◌, List, ◌+◌, ◌≤◌, ◌<◌};
ghost use Rattle.definitions.specs.Bytes.{range};
ghost use Rattle.definitions.specs.Checks.{through};
ghost use Rattle.definitions.specs.Limits.{version_1};
ghost use Rattle.definitions.specs.Module as file;
ghost use Rattle.definitions.specs.Expressions as rules;
ghost use Rattle.definitions.specs.Summary.{Section};
ghost use Rattle.vocabulary.specs.Said.{assignable_said};
ghost use Rattle.memory.specs.Facts.{MemoryResult};
ghost use Rattle.memory.specs.Changes.{table};
ghost use Rattle.rules_pairs.specs.Lists.{lists_in, ValidLists, ListsResult};
ghost use Rattle.rules_pairs.specs.States.{state_of, callees};
ghost use Rattle.rules_expressions.specs.Facts.{FormedSheet, FormedExpression, ValidSections, LineResult};
ghost use Rattle.rules_expressions.specs.Operands.{ValidOperands};
ghost use Rattle.rules_expressions.specs.Steps.{sampled_then_completed, ValidExpression, ExpressionResult, ValidState, StepResult, all_expressions, initialise_line, name_line, ValidInitialisers};

use memory::Work;
use module::{Expression, Sheet};
use report::layout;
use rules_pairs::lists::Lists;
use vocabulary::assignable::AssignableGlobal;
use vocabulary::flags::{GlobalUse, Mask, UniformityRequirements};
use vocabulary::ids::ExpressionIndex;
use vocabulary::kinds::ExpressionKind;
use vocabulary::refusal::Refusal;

pub mod access;
pub mod carried;
pub mod operands;
pub mod rules;

// A leaf has no operands (01, 4.1), so nothing is checked, sampled, counted or carried: its line is written at once.
// That of a CallResult says what the section of its function does. Nearly half of all expressions are leaves.
// That an expression is formed speaks of its file and sheet, so it stands in each contract that needs it: a value that
// carried it would carry both (see Sheet in module).
fn leaf(m: &[u8], s: Sheet, report: &[u8], work: &mut Work, x: Expression)
    requires { FormedExpression m.now s x.index.0 x × ValidSections report.now (table work.old) s.function × (x.kind ≤ 4) }
    ensures { LineResult m.now s.function (callees m.now s.function report.now work.old) work.old work.new x.index.0
        (rules.own_global m.now s.function x.index.0) }
{
    if x.kind == ExpressionKind::CALL_RESULT {
        let at = memory::section(work, usize::from(x.number));
        let o = layout::origin(report, at);
        let r = layout::requirements(report, at);
        memory::set_expression(work, x.index, o, r, AssignableGlobal::none());
    } else {
        let o = rules::leaf_origin(m, s, x);
        let r = UniformityRequirements::empty();
        memory::set_expression(work, x.index, o, r, carried::own_global(x));
    }
}

// The line of an expression that is no leaf: its operands count and mark, and its origin is the first among them.
fn finish(m: &[u8], s: Sheet, work: &mut Work, x: Expression, g: AssignableGlobal)
    requires { ValidOperands m.now s work.old x × (4 < x.kind) }
    ensures { (done : List Section) → LineResult m.now s.function done work.old work.new x.index.0 (assignable_said g) }
{
    let o = operands::refer_all(m, s, work, x);
    let r = rules::requirements(x.kind, x.sub);
    memory::set_expression(work, x.index, o, r, g);
}

// Only an ImageSample samples (01, 4.5).
fn sample(m: &[u8], s: Sheet, work: &mut Work, x: Expression, l: Lists) -> Result<Lists, Refusal>
    requires { FormedExpression m.now s x.index.0 x × ValidLists work.old l }
    ensures { ListsResult work.old (rules.sampled version_1 m.now s.function x.index.0 (lists_in l work.old)) work.new result }
{
    if x.kind == ExpressionKind::IMAGE_SAMPLE {
        rules_pairs::sampling::sample(m, s, work, x.index, x.first, l)
    } else {
        Ok(l)
    }
}

// Its sampling, then what it carries, and then its line: 7 and 12 come before its operands count (01, 3.8).
fn sample_then_complete(
    m: &[u8],
    s: Sheet,
    work: &mut Work,
    x: Expression,
    l: Lists,
) -> Result<Lists, Refusal>
    requires { ValidExpression m.now s work.old x l × (4 < x.kind) }
    ensures { (done : List Section) → ExpressionResult m.now s.function work.old work.new x.index.0 result
        (sampled_then_completed m.now done s.function x.index.0 (state_of m.now s.function x.index.0 l work.old)) }
{
    let after = sample(m, s, work, x, l)?;
    let g = carried::carried(m, s, work, x);
    finish(m, s, work, x, g);
    Ok(after)
}

// An expression that is no leaf: 8 and 9 come before all else (01, 3.8).
fn composite(m: &[u8], s: Sheet, work: &mut Work, x: Expression, l: Lists) -> Result<Lists, Refusal>
    requires { ValidExpression m.now s work.old x l × (4 < x.kind) }
    ensures { (done : List Section) → ExpressionResult m.now s.function work.old work.new x.index.0 result
        (rules.expression_step version_1 m.now done s.function x.index.0 (state_of m.now s.function x.index.0 l work.old)) }
{
    access::check(m, s, work, x)?;
    sample_then_complete(m, s, work, x, l)
}

// One expression.
pub fn process_expression(
    m: &[u8],
    s: Sheet,
    report: &[u8],
    work: &mut Work,
    e: ExpressionIndex,
    l: Lists,
) -> Result<Lists, Refusal>
    requires { ValidState m.now s report.now work.old e.0 l × (e.0 < s.expressions) }
    ensures { StepResult m.now s report.now work.old work.new (e.0 + 1) result
        (rules.expression_step version_1 m.now (callees m.now s.function report.now work.old) s.function e.0
        (state_of m.now s.function e.0 l work.old)) }
{
    let x = module::expression_at(m, s, e);
    if ExpressionKind::is_leaf(x.kind) {
        leaf(m, s, report, work, x);
        Ok(l)
    } else {
        composite(m, s, work, x, l)
    }
}

// All expressions of a function, from nothing on (01, 6.1).
pub fn process_expressions(
    m: &[u8],
    s: Sheet,
    report: &[u8],
    work: &mut Work,
) -> Result<Lists, Refusal>
    requires { FormedSheet m.now s × ValidSections report.now (table work.old) s.function }
    ensures { StepResult m.now s report.now work.old work.new (file.expressions m.now s.function) result
        (all_expressions m.now s.function (callees m.now s.function report.now work.old)) }
{
    memory::begin(
        work,
        usize::from(s.expressions),
        usize::from(module::globals(m)),
    );
    let mut l = Lists { pairs: 0, mixed: 0 };
    for e in 0..s.expressions {
        l = process_expression(m, s, report, work, ExpressionIndex(e), l)?;
    }
    Ok(l)
}

// The initialisers of a function, each an operand that reads (01, 6.1).
pub fn process_initialisers(m: &[u8], s: Sheet, work: &mut Work)
    requires { ValidInitialisers m.now s work.old }
    ensures { MemoryResult work.new (through (initialise_line m.now s.function) (range 0 (file.initialisers m.now s.function)) work.old) }
{
    for i in 0..s.initialisers {
        let e = module::initialiser(m, s, i);
        memory::add_ref(work, e, GlobalUse::READ);
    }
}

// The named expressions of a function: QUERY where the assignable global of one has no use at all (01, 6.1).
// A loop of two lines, as that before it: of one function over what is done with an entry, each call would repeat the
// clauses.
pub fn process_named(m: &[u8], s: Sheet, work: &mut Work)
    requires { FormedSheet m.now s }
    ensures { MemoryResult work.new (through (name_line m.now s.function) (range 0 (file.named m.now s.function)) work.old) }
{
    for i in 0..s.named {
        let e = module::named(m, s, i);
        memory::query_unused(work, e);
    }
}
