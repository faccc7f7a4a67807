// Where everything stands in a report (01, 7.1, 7.2 and 7.4), and its fields. The writer, a Call that takes from its
// callee's section, and readers of reports ask here. No other file knows an offset or a size, but for the records that
// working memory has too: a mixed pair's size, and an expression's size and fields, are those that `memory` gives.
//
// A reader takes the report and the place of a section, as those of `module` take the file and a sheet: a caller asks
// for one to four fields, and a value of both would be made for these calls alone.
//
//  header      u32 length of what follows, u8 version, u16 globals, u16 functions
//  section     u16 origin, u8 requirements, u8 may-kill, u16 expressions, u16 pairs, u16 mixed pairs; one use byte for
//              each global; the pairs; the mixed pairs; the expressions
//  pair        u16 image, u16 sampler
//  mixed pair  u8 image tag, u8 sampler tag, u16 image, u16 sampler
//  expression  u16 origin, u8 requirements, u32 reference count, u16 assignable global
ghost use Rattle.std.specs.Prelude.{◌≡◌, List, ℕ, ◌+◌, ◌≤◌, ◌<◌, length};
ghost use Rattle.definitions.specs.Bytes.{byte, be32};
ghost use Rattle.definitions.specs.Report.{r_globals, r_functions, r_origin, r_requirements, r_may_kill, r_expressions, r_pair_count, r_mixed_count, r_use, r_pairs_at, r_mixed_at, r_entries_at, r_section_end, r_entry};
ghost use Rattle.vocabulary.specs.Said.{origin_said};
ghost use Rattle.report.specs.Sizes.{header_size, section_header_size, entry_size, ValidPlace};
ghost use Rattle.report.specs.Said.{entry_said};

use vocabulary::assignable::AssignableGlobal;
use vocabulary::flags::{GlobalUse, UniformityRequirements};
use vocabulary::ids::GlobalIndex;
use vocabulary::origin::Origin;

// ---- the header (7.1)

pub const LENGTH: usize = 0;

pub const VERSION: usize = 4;

pub const GLOBALS: usize = 5;

pub const FUNCTIONS: usize = 7;

// Its size: the first section begins behind it.
pub const HEADER: usize = 9;

// How many bytes of the report stand before what its length counts.
pub const UNCOUNTED: u32 = 4;

// ---- a section's header (7.2). Here and in records the first field has no name: it stands where the whole does.

pub const REQUIREMENTS: usize = 2;

pub const MAY_KILL: usize = 3;

pub const EXPRESSIONS: usize = 4;

pub const PAIRS: usize = 6;

pub const MIXED: usize = 8;

// Its size: the use bytes begin behind it.
pub const SECTION_HEADER: usize = 10;

// ---- records (7.4)

// A pair: its size, and its fields behind the image.
pub const PAIR: usize = 4;

pub const PAIR_SAMPLER: usize = 2;

// A mixed pair: its size, and its fields behind the image's tag. Lists in working memory have such records too.
pub const MIXED_PAIR: usize = memory::ENTRY;

pub const MIXED_SAMPLER_TAG: usize = 1;

pub const MIXED_IMAGE: usize = 2;

pub const MIXED_SAMPLER: usize = 4;

pub const GLOBAL_TAG: u8 = 0;

pub const ARGUMENT_TAG: u8 = 1;

// An expression: its size, and its fields behind the origin. Working memory has such records too.
pub const EXPRESSION: usize = memory::LINE;

pub const EXPRESSION_REQUIREMENTS: usize = memory::LINE_REQUIREMENTS;

pub const EXPRESSION_COUNT: usize = memory::LINE_COUNT;

pub const EXPRESSION_ASSIGNABLE: usize = memory::LINE_ASSIGNABLE;

// ---- the header's fields

pub fn length_field(report: &[u8]) -> u32
    requires { header_size ≤ length report.now }
    ensures { result ≡ be32 report.now 0 }
{
    numbers::get32(report, LENGTH)
}

pub fn version(report: &[u8]) -> u8
    requires { header_size ≤ length report.now }
    ensures { result ≡ byte report.now 4 }
{
    numbers::get8(report, VERSION)
}

pub fn globals(report: &[u8]) -> u16
    requires { header_size ≤ length report.now }
    ensures { result ≡ r_globals report.now }
{
    numbers::get16(report, GLOBALS)
}

pub fn functions(report: &[u8]) -> u16
    requires { header_size ≤ length report.now }
    ensures { result ≡ r_functions report.now }
{
    numbers::get16(report, FUNCTIONS)
}

// ---- the fields of the section that begins at `at`

pub fn origin(report: &[u8], at: usize) -> Origin
    requires { at + section_header_size ≤ length report.now }
    ensures { origin_said result ≡ r_origin report.now at }
{
    Origin(numbers::get16(report, at))
}

pub fn requirements(report: &[u8], at: usize) -> UniformityRequirements
    requires { at + section_header_size ≤ length report.now }
    ensures { result.0 ≡ r_requirements report.now at }
{
    UniformityRequirements(numbers::get8(report, at + REQUIREMENTS))
}

pub fn may_kill(report: &[u8], at: usize) -> bool
    requires { at + section_header_size ≤ length report.now }
    ensures { result ≡ r_may_kill report.now at }
{
    numbers::get8(report, at + MAY_KILL) == 1
}

pub fn expression_count(report: &[u8], at: usize) -> u16
    requires { at + section_header_size ≤ length report.now }
    ensures { result ≡ r_expressions report.now at }
{
    numbers::get16(report, at + EXPRESSIONS)
}

pub fn pair_count(report: &[u8], at: usize) -> u16
    requires { at + section_header_size ≤ length report.now }
    ensures { result ≡ r_pair_count report.now at }
{
    numbers::get16(report, at + PAIRS)
}

pub fn mixed_count(report: &[u8], at: usize) -> u16
    requires { at + section_header_size ≤ length report.now }
    ensures { result ≡ r_mixed_count report.now at }
{
    numbers::get16(report, at + MIXED)
}

// ---- where its parts begin

pub fn uses_at(at: usize) -> usize
    requires { ValidPlace (at + section_header_size) }
    ensures { result ≡ at + section_header_size }
{
    at + SECTION_HEADER
}

pub fn pairs_at(at: usize, globals: usize) -> usize
    requires { ValidPlace (at + section_header_size + globals) }
    ensures { (b : List ℕ) → result ≡ r_pairs_at globals b at }
{
    at + SECTION_HEADER + globals
}

pub fn mixed_at(report: &[u8], at: usize, globals: usize) -> usize
    requires { (at + section_header_size ≤ length report.now) × ValidPlace (r_mixed_at globals report.now at) }
    ensures { result ≡ r_mixed_at globals report.now at }
{
    pairs_at(at, globals) + PAIR * usize::from(pair_count(report, at))
}

pub fn expressions_at(report: &[u8], at: usize, globals: usize) -> usize
    requires { (at + section_header_size ≤ length report.now) × ValidPlace (r_entries_at globals report.now at) }
    ensures { result ≡ r_entries_at globals report.now at }
{
    mixed_at(report, at, globals) + MIXED_PAIR * usize::from(mixed_count(report, at))
}

// Where the section ends, and the next begins.
pub fn section_end(report: &[u8], at: usize, globals: usize) -> usize
    requires { (at + section_header_size ≤ length report.now) × ValidPlace (r_section_end globals report.now at) }
    ensures { result ≡ r_section_end globals report.now at }
{
    expressions_at(report, at, globals) + EXPRESSION * usize::from(expression_count(report, at))
}

// ---- its records. Pairs and mixed pairs are read by `rules_pairs`, which has a type for them.

// How the function uses a global.
pub fn global_use(report: &[u8], at: usize, g: GlobalIndex) -> GlobalUse
    requires { at + section_header_size + g.0 < length report.now }
    ensures { result.0 ≡ r_use report.now at g.0 }
{
    GlobalUse(numbers::get8(report, at + SECTION_HEADER + usize::from(g.0)))
}

// What a report says of an expression.
#[derive(Clone, Copy, Debug, PartialEq, Eq)]
pub struct Entry {
    pub origin: Origin,
    pub requirements: UniformityRequirements,
    pub count: u32,
    pub assignable: AssignableGlobal,
}

// The expression whose record stands at `at`.
pub fn entry_at(report: &[u8], at: usize) -> Entry
    requires { at + entry_size ≤ length report.now }
    ensures { entry_said result ≡ r_entry report.now at }
{
    Entry {
        origin: Origin(numbers::get16(report, at)),
        requirements: UniformityRequirements(numbers::get8(report, at + EXPRESSION_REQUIREMENTS)),
        count: numbers::get32(report, at + EXPRESSION_COUNT),
        assignable: AssignableGlobal(numbers::get16(report, at + EXPRESSION_ASSIGNABLE)),
    }
}
