// Reports read: whether any bytes are a report, or what is wrong with them. The caller has to ensure nothing. The
// definition is `reading` (specs/Reading): the layout of 01, section 7, with every number within its limits.
#![tactic(auto, unfolding(definitions::specs::Limits::version_1, definitions::specs::Module::absent, definitions::specs::Origin::origin_from, definitions::specs::Report::global_from, definitions::specs::Report::r_pairs_at, definitions::specs::Report::r_mixed_at, definitions::specs::Report::r_entries_at, definitions::specs::Report::r_section_end, rules_pairs::specs::Said::pair_said, report::specs::Said::entry_said))]

ghost use Rattle.std.specs.Prelude.{◌≡◌, ◌≤◌, length};
ghost use Rattle.definitions.specs.Limits.{version_1};
ghost use Rattle.definitions.specs.Report.{r_functions};
ghost use Rattle.report.specs.Sizes.{header_size};
ghost use Rattle.report_reader.specs.Reading.{counts_form, header_form, over_limits, section_header_form, sections_form, reading};
ghost use Rattle.report_reader.specs.Sections.{ValidHeader, ValidSectionHeader, ValidPlace};
ghost use Rattle.report_reader.specs.Found.{SectionResult};

use header::Header;
pub use limits;
use report::layout;
use section::Section;

mod contents;
pub mod header;
pub mod section;
mod words;

// Why bytes are not a report. The number is what the field says, or the function whose section is wrong.
#[derive(Clone, Copy, Debug, PartialEq, Eq)]
pub enum Fault {
    // Fewer bytes than a header has.
    Short,
    // More bytes than a report can have.
    Long,
    // The length field is not the length of what follows it.
    Length(u32),
    Version(u8),
    // Counts of the header over their limits.
    Globals(u16),
    Functions(u16),
    // The bytes end before this function's section does.
    Cut(u16),
    // A count of this section is over its limit.
    Counts(u16),
    // An origin, requirements or a may-kill that no report has.
    Summary(u16),
    // A use with an unknown bit.
    Uses(u16),
    // A pair that names no global, or does not ascend.
    Pairs(u16),
    // A mixed pair that names nothing, has no argument, or does not ascend.
    Mixed(u16),
    // An expression's origin, requirements or assignable global that no report has.
    Expressions(u16),
    // Bytes behind the last section.
    LeftOver,
}

pub fn read(b: &[u8]) -> Result<(), Fault>
    ensures { result ≡ reading version_1 b.now }
{
    check_header(b)?;
    check_sections(b)
}

// 7.1 and 7.5.
fn check_header(b: &[u8]) -> Result<(), Fault>
    ensures { result ≡ header_form version_1 b.now }
{
    if b.len() < layout::HEADER {
        return Err(Fault::Short);
    }
    if limits::REPORT < b.len() {
        return Err(Fault::Long);
    }
    let length = layout::length_field(b);
    if length as usize + layout::UNCOUNTED as usize != b.len() {
        return Err(Fault::Length(length));
    }
    let version = layout::version(b);
    if limits::unknown_version(version) {
        return Err(Fault::Version(version));
    }
    check_counts(b)
}

fn check_counts(b: &[u8]) -> Result<(), Fault>
    requires { header_size ≤ length b.now }
    ensures { result ≡ counts_form version_1 b.now }
{
    let globals = layout::globals(b);
    if limits::over_globals(globals) {
        return Err(Fault::Globals(globals));
    }
    let functions = layout::functions(b);
    if limits::over_functions(functions) {
        return Err(Fault::Functions(functions));
    }
    Ok(())
}

// Each section in turn, the next where the last one ended; then no bytes may be left over.
fn check_sections(b: &[u8]) -> Result<(), Fault>
    requires { ValidHeader b.now }
    ensures { result ≡ sections_form version_1 b.now 0 header_size (r_functions b.now) }
{
    let n = layout::functions(b);
    let mut at = layout::HEADER;
    for f in 0..n {
        if b.len() < at + layout::SECTION_HEADER {
            return Err(Fault::Cut(f));
        }
        let h = header::header_at(b, f, at);
        check_section_header(b, h)?;
        at = h.end;
    }
    if at < b.len() {
        return Err(Fault::LeftOver);
    }
    Ok(())
}

// A section whose header lies within the bytes: what the header says, and then the rest.
fn check_section_header(b: &[u8], h: Header) -> Result<(), Fault>
    requires { ValidSectionHeader b.now h }
    ensures { result ≡ section_header_form version_1 b.now h.function h.at }
{
    if over_limits(h) {
        return Err(Fault::Counts(h.function));
    }
    if b.len() < h.end {
        return Err(Fault::Cut(h.function));
    }
    contents::check_section(Section {
        bytes: b,
        header: h,
    })
}

// A count over its limit.
fn over_limits(h: Header) -> bool
    ensures { result ≡ over_limits version_1 h.expressions h.pairs h.mixed }
{
    limits::EXPRESSIONS < h.expressions || limits::PAIRS < h.pairs || limits::PAIRS < h.mixed
}

// The section of function f of a report, which begins at `at`: behind the header for the first function, where the
// section before it ends for each other.
pub fn section_of(b: &[u8], f: u16, at: usize) -> Section<'_>
    requires { ValidPlace b.now f at }
    ensures { SectionResult b.now f result }
{
    Section {
        bytes: b,
        header: header::header_at(b, f, at),
    }
}
