// The limits of a module (01, 1.3 and 1.4) and of its report (4.4 and 7.5), which nothing else in the code says. A
// function says whether a number is over its limit, as the definitions' record of limits has it; a public constant is
// the length of an array that has an entry for each of what is limited, or what a reader of reports compares a number
// with. Each limit has its function of a line: one over a const parameter would have its callers say the numbers.
#![tactic(auto, unfolding(definitions::specs::Limits::version_1))]

ghost use Rattle.std.specs.Prelude.{◌≡◌, ◌||◌, not, ltb, eqb};
ghost use Rattle.definitions.specs.Limits.{version_1};

pub const VERSION: u8 = 1;

pub const FILE: usize = 65536;

pub const GLOBALS: u16 = 256;

pub const FUNCTIONS: usize = 64;

pub const ARGUMENTS: u16 = 64;

pub const EXPRESSIONS: u16 = 2048;

const OPERANDS: u16 = 8192;

const STATEMENTS: u16 = 1024;

const INITIALISERS: u16 = 512;

const NAMED: u16 = 512;

const DEPTH: usize = 32;

// The entries in each list of pairs (4.4).
pub const PAIRS: u16 = 256;

// The bytes of a report in all (7.5).
pub const REPORT: usize = 65536;

// In a report: a mask of requirements or uses with all its four bits (3.6 and 7.3), and a flag that is set (7.2).
pub const MASK: u8 = 15;

pub const FLAG: u8 = 1;

// The extents that are open at a statement: the table's, those of the statements around it, and its own.
pub const OPEN_EXTENTS: usize = DEPTH + 2;

// Not the version of the format (1.2).
pub fn unknown_version(version: u8) -> bool
    ensures { result ≡ not (eqb version version_1.version) }
{
    version != VERSION
}

// More bytes than a file may have.
pub fn over_file(bytes: usize) -> bool
    ensures { result ≡ ltb version_1.file bytes }
{
    FILE < bytes
}

pub fn over_globals(n: u16) -> bool
    ensures { result ≡ ltb version_1.globals n }
{
    GLOBALS < n
}

pub fn over_functions(n: u16) -> bool
    ensures { result ≡ ltb version_1.functions n }
{
    FUNCTIONS < n as usize
}

// One of the six counts of a sheet is over its limit. Six numbers and no struct: they are fields of `module::Sheet`,
// which stands above this crate.
pub fn over_counts(
    arguments: u16,
    expressions: u16,
    operands: u16,
    statements: u16,
    initialisers: u16,
    named: u16,
) -> bool
    ensures { result ≡ (ltb version_1.arguments arguments || (ltb version_1.expressions expressions || (ltb version_1.operands operands || (ltb version_1.statements statements || (ltb version_1.initialisers initialisers || ltb version_1.named named))))) }
{
    ARGUMENTS < arguments
        || EXPRESSIONS < expressions
        || OPERANDS < operands
        || STATEMENTS < statements
        || INITIALISERS < initialisers
        || NAMED < named
}

// A statement inside so many others stands too deep (2.9).
pub fn over_depth(around: usize) -> bool
    ensures { result ≡ ltb version_1.depth around }
{
    DEPTH < around
}
