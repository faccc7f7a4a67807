// The analyzer (01, sections 6, 8.2 and 9): functions in order of number, their sections one after another in the
// report, and the one public function, `analyse`.
//
// A run refuses lent slices that are too short, then looks at the form of the whole module, and only then at the
// rules. It asks nothing of its caller: any bytes get the report or the one numbered refusal that the definitions
// say, and every lent byte is what they say. proofs/Promises has what a user can rely on: the report's pairs are exactly
// those of the chains, its counts add up, and nothing is left in the lent memory.
#![tactic(auto)]

ghost use Rattle.std.specs.Prelude.{◌≡◌, ◌+◌, length};
ghost use Rattle.definitions.specs.Limits.{version_1};
ghost use Rattle.definitions.specs.Module as file;
ghost use Rattle.definitions.specs.Analyse as rules;
ghost use Rattle.definitions.specs.Answer.{run_outcome, Ran};
ghost use Rattle.rules_pairs.specs.States.{callees};
ghost use Rattle.rules_statements.specs.Results.{known_state};
ghost use Rattle.analyzer.specs.Said.{answer_said};
ghost use Rattle.analyzer.specs.Run.{RunResult, ValidRun, WriteResult, ValidNext};
ghost use Rattle.analyzer.specs.Functions.{ValidStart, FunctionResult, AnalysisResult, ValidExpressions, after_expressions, FunctionRun};

use memory::Work;
use module::Sheet;
use report::{SectionCounts, Summary, layout};
use rules_pairs::lists::Lists;
use rules_statements::Passed;
use vocabulary::refusal::Refusal;

// The working memory that a caller lends (9.2).
pub const WORK: usize = memory::SIZE;

// The longest report (1.4), which a caller has room for.
pub const REPORT: usize = limits::REPORT;

// The longest module file (1.4).
pub const FILE: usize = limits::FILE;

// Analyses the module file m. The answer (9.3) is how many bytes the report takes, or a refusal. The report stands at the
// start of `report` and zeros behind it; after a refusal all of it is zero. All of `work` is zero after both.
pub fn analyse(m: &[u8], report: &mut [u8], work: &mut [u8]) -> Result<usize, Refusal>
    ensures { Ran version_1 m.now report.old work.old (answer_said result) report.new work.new }
{
    let answer = checked(m, report, work);
    numbers::clear(work, 0);
    numbers::clear(report, answer.unwrap_or(0));
    answer
}

// 8.2: 1 before all else, then the form, then the rules, over as much of the lent working memory as they ask for.
fn checked(m: &[u8], report: &mut [u8], work: &mut [u8]) -> Result<usize, Refusal>
    ensures { RunResult (run_outcome version_1 m.now (length report.old) (length work.old)) report.old report.new work.old work.new result }
{
    if report.len() < REPORT {
        return Err(Refusal::Lent);
    }
    let Some(work) = work.first_chunk_mut::<WORK>() else {
        return Err(Refusal::Lent);
    };
    form::form(m)?;
    process_module(m, report, work)
}

fn process_module(m: &[u8], report: &mut [u8], work: &mut Work) -> Result<usize, Refusal>
    requires { ValidRun m.now report.old work.old }
    ensures { RunResult (rules.analyse version_1 m.now) report.old report.new work.old work.new result }
{
    let length = process_functions(m, report, work)?;
    report::put_header(
        report,
        length as u32,
        module::globals(m),
        module::functions(m),
    );
    Ok(length)
}

// 6.3: functions in order of number. The sections of those that are done stand in the report, which is where their
// callers read them; a sheet begins where the one before it ends. The answer is where the last section ends.
fn process_functions(m: &[u8], report: &mut [u8], work: &mut Work) -> Result<usize, Refusal>
    requires { ValidRun m.now report.old work.old }
    ensures { WriteResult m.now (file.functions m.now) report.old report.new work.new result }
{
    let n = module::functions(m);
    let mut at = module::SPACES + usize::from(module::globals(m));
    let mut out = layout::HEADER;
    for f in 0..n {
        let s = module::sheet_at(m, f, at);
        out = process_next(m, s, report, work, out)?;
        at = s.end;
    }
    Ok(out)
}

// One function and its section.
fn process_next(
    m: &[u8],
    s: Sheet,
    report: &mut [u8],
    work: &mut Work,
    out: usize,
) -> Result<usize, Refusal>
    requires { ValidNext m.now s report.old work.old out }
    ensures { WriteResult m.now (s.function + 1) report.old report.new work.new result }
{
    let p = process_function(m, s, report, work)?;
    put(m, s, report, work, out, p)
}

// The section of a function whose run has come to p, written where the last one ended; 14 where the report would be too
// long (6.4).
fn put(
    m: &[u8],
    s: Sheet,
    report: &mut [u8],
    work: &mut Work,
    out: usize,
    p: Passed,
) -> Result<usize, Refusal>
    requires { ValidNext m.now s report.old work.old out × FunctionRun m.now s report.old work.old p }
    ensures { WriteResult m.now (s.function + 1) report.old report.new work.new result }
{
    let n = SectionCounts {
        globals: usize::from(module::globals(m)),
        expressions: usize::from(s.expressions),
        pairs: p.lists.pairs,
        mixed: p.lists.mixed,
    };
    let size = report::section_length(n);
    if REPORT < out + size {
        return Err(Refusal::Report(s.function));
    }
    report::put_section(report, out, work, Summary::from(p.outcome), n);
    memory::set_section(work, usize::from(s.function), out);
    Ok(out + size)
}

// 6.1: the steps of a function. Its expressions in order; then the after-expressions.
// m, s, report and work stay four parameters: one value of them would have to lend the memory anew at each call.
fn process_function(m: &[u8], s: Sheet, report: &[u8], work: &mut Work) -> Result<Passed, Refusal>
    requires { ValidStart m.now s report.now work.old }
    ensures { AnalysisResult m.now s report.now work.old work.new result }
{
    let l = rules_expressions::process_expressions(m, s, report, work)?;
    process_statements(m, s, report, work, l)
}

// Its initialisers; its statements, which start with no disruptor; then its named expressions.
fn process_statements(
    m: &[u8],
    s: Sheet,
    report: &[u8],
    work: &mut Work,
    l: Lists,
) -> Result<Passed, Refusal>
    requires { ValidExpressions m.now s report.now work.old l }
    ensures { FunctionResult m.now s work.old work.new result
        (after_expressions m.now (callees m.now s.function report.now work.old) s.function (known_state m.now s.function l work.old)) }
{
    rules_expressions::process_initialisers(m, s, work);
    let p = rules_statements::process_block(m, s, report, work, 0, s.statements, None, l)?;
    rules_expressions::process_named(m, s, work);
    Ok(p)
}
