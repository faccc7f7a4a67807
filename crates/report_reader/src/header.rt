// The header of a function's section of a report (01, 7.2): how many there are of each part, and where each begins.
ghost use Rattle.report_reader.specs.Sections.{ValidSectionStart, HeaderResult};

use report::layout;

#[derive(Clone, Copy, Debug, PartialEq, Eq)]
pub struct Header {
    pub function: u16,
    // How many there are of each part; each global has a use byte.
    pub globals: u16,
    pub expressions: u16,
    pub pairs: u16,
    pub mixed: u16,
    // Where the section begins; where its pairs, its mixed pairs and its expressions do; and where it ends.
    pub at: usize,
    pub pairs_at: usize,
    pub mixed_at: usize,
    pub expressions_at: usize,
    pub end: usize,
}

// The header of the section that begins at `at`. Its counts may still be anything.
pub fn header_at(b: &[u8], function: u16, at: usize) -> Header
    requires { ValidSectionStart b.now function at }
    ensures { HeaderResult b.now function at result }
{
    let globals = layout::globals(b);
    let expressions = layout::expression_count(b, at);
    let pairs = layout::pair_count(b, at);
    let mixed = layout::mixed_count(b, at);
    let uses = usize::from(globals);
    let pairs_at = layout::pairs_at(at, uses);
    let mixed_at = layout::mixed_at(b, at, uses);
    let expressions_at = layout::expressions_at(b, at, uses);
    let end = layout::section_end(b, at, uses);
    Header {
        function,
        globals,
        expressions,
        pairs,
        mixed,
        at,
        pairs_at,
        mixed_at,
        expressions_at,
        end,
    }
}
