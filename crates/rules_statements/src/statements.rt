// What each statement does by itself (01, 5.2), without what it holds: a function for each, as naga's `process_block` has
// an arm for each.
ghost use Rattle.std.specs.Prelude.{◌≡◌, ◌&&◌, cond, ◌+◌, eqb};
ghost use Rattle.definitions.specs.Codes as codes;
ghost use Rattle.definitions.specs.Limits.{version_1};
ghost use Rattle.definitions.specs.Module as file;
ghost use Rattle.definitions.specs.Walk as walks;
ghost use Rattle.vocabulary.specs.Said.{origin_said, disruptor_said};
ghost use Rattle.module.specs.Sheets.{ValidSheet};
ghost use Rattle.memory.specs.Changes.{table, section_at};
ghost use Rattle.rules_pairs.specs.Lists.{ValidLists};
ghost use Rattle.rules_statements.specs.Said.{outcome_said, kill_outcome, return_outcome};
ghost use Rattle.rules_pairs.specs.States.{callees};
ghost use Rattle.rules_statements.specs.Results.{known_state, WalkContext, StatementAt, ValidSection, ValidWalk, told_said, emit_outcome, CallResult, WalkResult};

use crate::uniformity::FunctionUniformity;
use crate::{Passed, operands};
use memory::Work;
use module::{Sheet, Statement};
use rules_pairs::calls::Call;
use rules_pairs::lists::Lists;
use vocabulary::disruptor::UniformityDisruptor;
use vocabulary::flags::{ExitFlags, Mask, UniformityRequirements};
use vocabulary::ids::ExpressionIndex;
use vocabulary::kinds::StatementKind;
use vocabulary::origin::Origin;
use vocabulary::refusal::Refusal;

// A statement that is no Emit and holds no others.
pub fn process_statement(
    m: &[u8],
    s: Sheet,
    report: &[u8],
    work: &mut Work,
    x: Statement,
    d: Option<UniformityDisruptor>,
    l: Lists,
) -> Result<Passed, Refusal>
    requires { ValidWalk m.now s report.now work.old l x.index × StatementAt m.now s x.index x × (x.kind ≡ 0 → ⊥) }
    ensures { WalkResult m.now s report.now work.old work.new (x.index + 1) result
        (walks.own version_1 m.now (callees m.now s.function report.now work.old) s.function x.index
        (disruptor_said d) (known_state m.now s.function l work.old)) }
{
    operands::add_refs(m, s, work, x);
    let outcome = match x.kind {
        StatementKind::KILL => kill(d),
        StatementKind::BARRIER => requiring(UniformityRequirements::WORK_GROUP_BARRIER),
        StatementKind::RETURN => returns(d, operands::origin(m, s, work, x)),
        StatementKind::CALL => return call(m, s, report, work, x, l),
        // Break, Continue and Store.
        _ => FunctionUniformity::new(),
    };
    Ok(Passed { lists: l, outcome })
}

// Emit: the requirements of a range of expressions, joined.
pub fn emit(
    m: &[u8],
    s: Sheet,
    work: &Work,
    x: Statement,
    d: Option<UniformityDisruptor>,
) -> Result<FunctionUniformity, Refusal>
    requires { WalkContext m.now s × StatementAt m.now s x.index x × (x.kind ≡ 0) }
    ensures { (l : Lists) → told_said result
        ≡ emit_outcome m.now s.function x.index (disruptor_said d) (known_state m.now s.function l work.now) }
{
    let strict = strict(m, s, d);
    let mut all = UniformityRequirements::empty();
    for e in x.number..x.first {
        let one = memory::requirements(work, ExpressionIndex(e));
        if stops(strict, one) {
            return Err(Refusal::NonUniform(s.function, ExpressionIndex(e), d));
        }
        all = all.join(one);
    }
    Ok(requiring(all))
}

// Whether an expression that wants uniform control flow can't be emitted here (5.3).
fn strict(m: &[u8], s: Sheet, d: Option<UniformityDisruptor>) -> bool
    requires { ValidSheet m.now s }
    ensures { result ≡ (eqb (file.flag m.now s.function) 1 && walks.disrupted (disruptor_said d)) }
{
    module::flag(m, s) == 1 && d.is_some()
}

fn stops(strict: bool, r: UniformityRequirements) -> bool
    ensures { result ≡ (strict && codes.meets r.0 (codes.join codes.BARRIER codes.COOPERATIVE)) }
{
    strict
        && r.intersects(UniformityRequirements::WORK_GROUP_BARRIER.join(
            UniformityRequirements::COOP_OPS,
        ))
}

fn requiring(r: UniformityRequirements) -> FunctionUniformity
    ensures { outcome_said result ≡ walks.requiring r.0 }
{
    FunctionUniformity {
        requirements: r,
        ..FunctionUniformity::new()
    }
}

// Kill: may kill, if there is a disruptor.
fn kill(d: Option<UniformityDisruptor>) -> FunctionUniformity
    ensures { outcome_said result ≡ kill_outcome (disruptor_said d) }
{
    FunctionUniformity {
        exit: exit_if(d.is_some(), ExitFlags::MAY_KILL),
        ..FunctionUniformity::new()
    }
}

// Return: may return, if there is a disruptor.
fn returns(d: Option<UniformityDisruptor>, o: Origin) -> FunctionUniformity
    ensures { outcome_said result ≡ return_outcome (disruptor_said d) (origin_said o) }
{
    FunctionUniformity {
        origin: o,
        exit: exit_if(d.is_some(), ExitFlags::MAY_RETURN),
        ..FunctionUniformity::new()
    }
}

fn exit_if(b: bool, x: ExitFlags) -> ExitFlags
    ensures { result.0 ≡ cond b x.0 0 }
{
    if b { x } else { ExitFlags::empty() }
}

// A Call joins the callee's uses to this function's, takes its pairs (4.6), and gives what its summary says.
fn call(
    m: &[u8],
    s: Sheet,
    report: &[u8],
    work: &mut Work,
    x: Statement,
    l: Lists,
) -> Result<Passed, Refusal>
    requires { WalkContext m.now s × StatementAt m.now s x.index x × (x.kind ≡ 6) × ValidLists work.old l
        × ValidSection m.now report.now x.number (section_at (table work.old) x.number) }
    ensures { CallResult m.now s report.now work.old work.new x.index result l }
{
    let globals = usize::from(module::globals(m));
    let at = memory::section(work, usize::from(x.number));
    memory::join_uses(work, report, report::layout::uses_at(at), globals);
    let call = Call {
        statement: x.index,
        first: x.first,
    };
    let lists = rules_pairs::calls::process_call(m, s, report, at, globals, work, call, l)?;
    let outcome = FunctionUniformity::from(report::summary_at(report, at));
    Ok(Passed { lists, outcome })
}
