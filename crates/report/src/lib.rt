// The report's bytes (01, section 7): a function's section written from what its analysis left, and its summary read
// again for its callers. Where everything stands is said in layout.rt.
#![tactic(auto, unfolding(memory::specs::Layout::uses_at, memory::specs::Layout::pairs_at, memory::specs::Layout::mixed_at, memory::specs::Layout::sections_at, memory::specs::Layout::size, crate::specs::Written::full_shape))]

ghost use Rattle.std.specs.Prelude.{◌≡◌, ◌∷◌, ◌++◌, [], ◌+◌, ◌-◌, ◌*◌, ◌≤◌, ◌<◌, length};
ghost use Rattle.definitions.specs.Bytes.{byte, put16, put32};
ghost use Rattle.definitions.specs.Origin.{origin_number};
ghost use Rattle.definitions.specs.Report.{flag_byte, tag, end_from, concat_map, records, pair_bytes, mixed_bytes, entry_bytes, section_bytes, r_mixed, r_entry, dominates};
ghost use Rattle.vocabulary.specs.Said.{origin_said};
ghost use Rattle.memory.specs.Layout.{uses_at, pairs_at, mixed_at, sections_at, size};
ghost use Rattle.memory.specs.Facts.{ValidShape};
ghost use Rattle.report.specs.Laid.{BytesPut};
ghost use Rattle.report.specs.Sizes.{header_size, section_header_size, pair_size, mixed_size, entry_size, section_size};
ghost use Rattle.report.specs.Written.{full_shape, written, ValidSectionRoom, SummaryRead};

use memory::Work;
use vocabulary::flags::UniformityRequirements;
use vocabulary::origin::Origin;

pub mod layout;

const VERSION_1: u8 = 1;

// What a function's callers see of it (01, 6.2), without its uses and pairs.
#[derive(Clone, Copy, Debug, PartialEq, Eq)]
pub struct Summary {
    pub origin: Origin,
    pub requirements: UniformityRequirements,
    pub may_kill: bool,
}

// How many of each a section has (01, 7.2).
#[derive(Clone, Copy, Debug, PartialEq, Eq)]
pub struct SectionCounts {
    pub globals: usize,
    pub expressions: usize,
    pub pairs: usize,
    pub mixed: usize,
}

// ---- readers

// What the section at `at` says to a caller.
pub fn summary_at(report: &[u8], at: usize) -> Summary
    requires { at + section_header_size ≤ length report.now }
    ensures { SummaryRead report.now at result }
{
    Summary {
        origin: layout::origin(report, at),
        requirements: layout::requirements(report, at),
        may_kill: layout::may_kill(report, at),
    }
}

// Whether every use that `b` has of a global, `a` has too (01, 7.6). The shorter list decides how many globals are
// compared.
pub fn dominates_global_use(a: &[u8], b: &[u8]) -> bool
    ensures { result ≡ dominates a.now b.now }
{
    a.iter().zip(b).all(|(x, y)| *x & *y == *y)
}

// ---- the writer

// How long a section with these counts is (01, 7.2).
pub fn section_length(n: SectionCounts) -> usize
    requires { ValidShape (full_shape n.globals n.expressions n.pairs n.mixed) }
    ensures { result ≡ section_size n.globals n.expressions n.pairs n.mixed }
{
    layout::SECTION_HEADER
        + n.globals
        + layout::PAIR * n.pairs
        + layout::MIXED_PAIR * n.mixed
        + layout::EXPRESSION * n.expressions
}

// 7.4 A tag is 0 for a global and 1 for an argument, whatever stands for the latter in working memory. Both go by
// their names, which a number made of the test would hide.
#[tactic(auto, unfolding(definitions::specs::Report::tag, definitions::specs::Report::end_from))]
fn tag_byte(x: u8) -> u8
    ensures { result ≡ tag (end_from x 0) }
{
    if x == layout::GLOBAL_TAG {
        layout::GLOBAL_TAG
    } else {
        layout::ARGUMENT_TAG
    }
}

// 7.2 The first four bytes of a section.
fn put_summary(report: &mut [u8], at: usize, y: Summary)
    requires { at + 4 ≤ length report.old }
    ensures { BytesPut report.old report.new at (put16 (origin_number (origin_said y.origin)) ++ (y.requirements.0 ∷ flag_byte y.may_kill ∷ [])) }
{
    numbers::set16(report, at, y.origin.0);
    report[at + layout::REQUIREMENTS] = y.requirements.0;
    report[at + layout::MAY_KILL] = u8::from(y.may_kill);
}

// 7.2 The counts, the rest of its header.
fn put_counts(report: &mut [u8], at: usize, n: SectionCounts)
    requires counts { ValidShape (full_shape n.globals n.expressions n.pairs n.mixed) }
    requires room { at + section_header_size ≤ length report.old }
    ensures { BytesPut report.old report.new (at + 4) (put16 n.expressions ++ put16 n.pairs ++ put16 n.mixed) }
{
    numbers::set16(report, at + layout::EXPRESSIONS, n.expressions as u16);
    numbers::set16(report, at + layout::PAIRS, n.pairs as u16);
    numbers::set16(report, at + layout::MIXED, n.mixed as u16);
}

// 7.4 The pair at p in working memory, without its tags.
fn put_pair(work: &Work, p: usize, report: &mut [u8], at: usize)
    requires { (p + mixed_size ≤ size) × (at + pair_size ≤ length report.old) }
    ensures { BytesPut report.old report.new at (pair_bytes (r_mixed work.now p)) }
{
    let image = numbers::get16(work, p + layout::MIXED_IMAGE);
    let sampler = numbers::get16(work, p + layout::MIXED_SAMPLER);
    numbers::set16(report, at, image);
    numbers::set16(report, at + layout::PAIR_SAMPLER, sampler);
}

// 7.4 The same with its tags.
fn put_mixed_pair(work: &Work, p: usize, report: &mut [u8], at: usize)
    requires { (p + mixed_size ≤ size) × (at + mixed_size ≤ length report.old) }
    ensures { BytesPut report.old report.new at (mixed_bytes (r_mixed work.now p)) }
{
    report[at] = tag_byte(work[p]);
    report[at + layout::MIXED_SAMPLER_TAG] = tag_byte(work[p + layout::MIXED_SAMPLER_TAG]);
    put_pair(work, p, report, at + layout::MIXED_IMAGE);
}

// Working memory holds uses and expressions as the report does, so this and `put_expressions` are one copy each.
fn put_uses(work: &Work, globals: usize, report: &mut [u8], at: usize)
    requires { (uses_at + globals ≤ pairs_at) × (at + globals ≤ length report.old) }
    ensures { BytesPut report.old report.new at (records byte 1 work.now uses_at globals) }
{
    numbers::copy(work, memory::USES, globals, report, at);
}

// Pairs and mixed pairs each have a function: one for both would take the call, the list's place and the size besides.
fn put_pairs(work: &Work, pairs: usize, report: &mut [u8], at: usize)
    requires { (pairs_at + mixed_size * pairs ≤ mixed_at) × (at + pair_size * pairs ≤ length report.old) }
    ensures { BytesPut report.old report.new at (concat_map pair_bytes (records r_mixed mixed_size work.now pairs_at pairs)) }
{
    for i in 0..pairs {
        put_pair(
            work,
            memory::PAIRS + memory::ENTRY * i,
            report,
            at + layout::PAIR * i,
        );
    }
}

fn put_mixed(work: &Work, mixed: usize, report: &mut [u8], at: usize)
    requires { (mixed_at + mixed_size * mixed ≤ sections_at) × (at + mixed_size * mixed ≤ length report.old) }
    ensures { BytesPut report.old report.new at (concat_map mixed_bytes (records r_mixed mixed_size work.now mixed_at mixed)) }
{
    for i in 0..mixed {
        put_mixed_pair(
            work,
            memory::MIXED + memory::ENTRY * i,
            report,
            at + layout::MIXED_PAIR * i,
        );
    }
}

fn put_expressions(work: &Work, expressions: usize, report: &mut [u8], at: usize)
    requires { (entry_size * expressions ≤ uses_at) × (at + entry_size * expressions ≤ length report.old) }
    ensures { BytesPut report.old report.new at (concat_map entry_bytes (records r_entry entry_size work.now 0 expressions)) }
{
    numbers::copy(work, 0, layout::EXPRESSION * expressions, report, at);
}

// The section of a function whose analysis has come to `y` and to what stands in `work` (01, 6.2, 7.2).
pub fn put_section(report: &mut [u8], at: usize, work: &Work, y: Summary, n: SectionCounts)
    requires { ValidSectionRoom report.old at work.now n.globals n.expressions n.pairs n.mixed }
    ensures { BytesPut report.old report.new at (section_bytes (written y work.now n.globals n.expressions n.pairs n.mixed)) }
{
    put_summary(report, at, y);
    put_counts(report, at, n);
    put_uses(work, n.globals, report, layout::uses_at(at));
    let pairs_at = layout::pairs_at(at, n.globals);
    put_pairs(work, n.pairs, report, pairs_at);
    let mixed_at = pairs_at + layout::PAIR * n.pairs;
    put_mixed(work, n.mixed, report, mixed_at);
    let expressions_at = mixed_at + layout::MIXED_PAIR * n.mixed;
    put_expressions(work, n.expressions, report, expressions_at);
}

// 7.1 The header of a report that has this length in all.
pub fn put_header(report: &mut [u8], total_length: u32, globals: u16, functions: u16)
    requires { (header_size ≤ total_length) × (header_size ≤ length report.old) }
    ensures { BytesPut report.old report.new 0 (put32 (total_length - 4) ++ (1 ∷ []) ++ put16 globals ++ put16 functions) }
{
    numbers::set32(report, layout::LENGTH, total_length - layout::UNCOUNTED);
    report[layout::VERSION] = VERSION_1;
    numbers::set16(report, layout::GLOBALS, globals);
    numbers::set16(report, layout::FUNCTIONS, functions);
}
