// What stands in a section: whether every field holds what a report of 01, section 7 can hold.
ghost use Rattle.std.specs.Prelude.{◌≡◌, not, ◌<◌};
ghost use Rattle.definitions.specs.Bytes.{range};
ghost use Rattle.definitions.specs.Checks.{any};
ghost use Rattle.definitions.specs.Ends.{before};
ghost use Rattle.definitions.specs.Limits.{version_1};
ghost use Rattle.definitions.specs.Report.{r_globals, r_expressions, r_pair_count, r_mixed_count};
ghost use Rattle.vocabulary.specs.Said.{origin_said, assignable_said};
ghost use Rattle.rules_pairs.specs.Said.{end_said, pair_said};
ghost use Rattle.report.specs.Said.{entry_said};
ghost use Rattle.report_reader.specs.Reading.{mixed_place, origin_wrong, global_wrong, summary_wrong, use_wrong, end_wrong, ends_wrong, pair_wrong, tags_wrong, mixed_wrong, entry_wrong, expression_wrong, contents_form};

use crate::Fault;
use crate::section::Section;
use report::layout;
use report::layout::Entry;
use rules_pairs::ends;
use rules_pairs::ends::{GlobalOrArgument, Pair};
use vocabulary::assignable::AssignableGlobal;
use vocabulary::ids::{ExpressionIndex, GlobalIndex};
use vocabulary::origin::Origin;

// A mask of requirements or uses with all its four bits (3.6 and 7.3).
const MASK: u8 = limits::MASK;

// A flag that is set (7.2).
const FLAG: u8 = limits::FLAG;

// The first part in which something is wrong.
pub fn check_section(s: Section) -> Result<(), Fault>
    ensures { result ≡ contents_form version_1 s.entry.bytes.now s.entry.header.function s.entry.header.at }
{
    if summary_wrong(s) {
        return Err(Fault::Summary(s.header.function));
    }
    if some_use_wrong(s) {
        return Err(Fault::Uses(s.header.function));
    }
    if some_pair_wrong(s) {
        return Err(Fault::Pairs(s.header.function));
    }
    if some_mixed_wrong(s) {
        return Err(Fault::Mixed(s.header.function));
    }
    if some_expression_wrong(s) {
        return Err(Fault::Expressions(s.header.function));
    }
    Ok(())
}

// An origin that is no expression that a function can have.
fn origin_wrong(o: Origin) -> bool
    ensures { result ≡ origin_wrong version_1 (origin_said o) }
{
    o.expression().is_some_and(|e| limits::EXPRESSIONS <= e.0)
}

// An assignable global that is no global of so many.
fn assignable_wrong(a: AssignableGlobal, globals: u16) -> bool
    ensures { result ≡ global_wrong globals (assignable_said a) }
{
    a.global().is_some_and(|g| globals <= g.0)
}

fn summary_wrong(s: Section) -> bool
    ensures { result ≡ summary_wrong version_1 s.entry.bytes.now s.entry.header.at }
{
    let at = s.header.at;
    origin_wrong(layout::origin(s.bytes, at))
        || MASK < layout::requirements(s.bytes, at).0
        || FLAG < numbers::get8(s.bytes, at + layout::MAY_KILL)
}

fn some_use_wrong(s: Section) -> bool
    ensures { result ≡ any (use_wrong s.entry.bytes.now s.entry.header.at) (range 0 (r_globals s.entry.bytes.now)) }
{
    (0..s.header.globals).any(|g| MASK < s.global_use(GlobalIndex(g)).0)
}

// An end that is no global of so many, or no argument that a function can have.
fn end_wrong(e: GlobalOrArgument, globals: u16) -> bool
    ensures { result ≡ end_wrong version_1 globals (end_said e) }
{
    match e {
        GlobalOrArgument::Global(g) => globals <= g.0,
        GlobalOrArgument::Argument(a) => limits::ARGUMENTS <= a.0,
    }
}

fn ends_wrong(x: Pair, globals: u16) -> bool
    ensures { result ≡ ends_wrong version_1 globals (pair_said x) }
{
    end_wrong(x.image, globals) || end_wrong(x.sampler, globals)
}

// x does not stand before y in the order of 4.4.
fn not_before(x: Pair, y: Pair) -> bool
    ensures { result ≡ not (before (pair_said x) (pair_said y)) }
{
    y <= x
}

// Its ends and its order are one line here and in `mixed_wrong`: a function over either list would take a closure for it.
fn pair_wrong(s: Section, i: u16) -> bool
    requires { i < s.header.pairs }
    ensures { result ≡ pair_wrong version_1 s.entry.bytes.now s.entry.header.at i }
{
    let x = s.pair(i);
    ends_wrong(x, s.header.globals) || (i != 0 && not_before(s.pair(i - 1), x))
}

fn some_pair_wrong(s: Section) -> bool
    ensures { result ≡ any (pair_wrong version_1 s.entry.bytes.now s.entry.header.at)
        (range 0 (r_pair_count s.entry.bytes.now s.entry.header.at)) }
{
    (0..s.header.pairs).any(|i| pair_wrong(s, i))
}

// A tag of the mixed pair that is neither a global's nor an argument's.
fn tags_wrong(s: Section, i: u16) -> bool
    requires { i < s.header.mixed }
    ensures { result ≡ tags_wrong s.entry.bytes.now (mixed_place s.entry.bytes.now s.entry.header.at i) }
{
    let at = s.header.mixed_at + layout::MIXED_PAIR * usize::from(i);
    layout::ARGUMENT_TAG < numbers::get8(s.bytes, at)
        || layout::ARGUMENT_TAG < numbers::get8(s.bytes, at + layout::MIXED_SAMPLER_TAG)
}

fn mixed_wrong(s: Section, i: u16) -> bool
    requires { i < s.header.mixed }
    ensures { result ≡ mixed_wrong version_1 s.entry.bytes.now s.entry.header.at i }
{
    if tags_wrong(s, i) {
        return true;
    }
    let x = s.mixed(i);
    ends::of_globals(x)
        || ends_wrong(x, s.header.globals)
        || (i != 0 && not_before(s.mixed(i - 1), x))
}

fn some_mixed_wrong(s: Section) -> bool
    ensures { result ≡ any (mixed_wrong version_1 s.entry.bytes.now s.entry.header.at)
        (range 0 (r_mixed_count s.entry.bytes.now s.entry.header.at)) }
{
    (0..s.header.mixed).any(|i| mixed_wrong(s, i))
}

fn entry_wrong(x: Entry, globals: u16) -> bool
    ensures { result ≡ entry_wrong version_1 globals (entry_said x) }
{
    origin_wrong(x.origin) || MASK < x.requirements.0 || assignable_wrong(x.assignable, globals)
}

fn some_expression_wrong(s: Section) -> bool
    ensures { result ≡ any (expression_wrong version_1 s.entry.bytes.now s.entry.header.at)
        (range 0 (r_expressions s.entry.bytes.now s.entry.header.at)) }
{
    let globals = s.header.globals;
    (0..s.header.expressions).any(|e| entry_wrong(s.expression(ExpressionIndex(e)), globals))
}
