// The module file by its parts (01, section 1): where the parts of a function's sheet stand, and their records by
// value. The definitions are those of 01, 1.2 to 1.7; `ValidSheet` says that a Sheet is that of its function.
#![tactic(auto, unfolding(crate::specs::Sheets::ValidSheet, definitions::specs::Module::capabilities, definitions::specs::Module::globals, definitions::specs::Module::functions, definitions::specs::Module::space, definitions::specs::Module::arguments, definitions::specs::Module::expressions, definitions::specs::Module::operands, definitions::specs::Module::statements, definitions::specs::Module::initialisers, definitions::specs::Module::named, definitions::specs::Module::flag, definitions::specs::Module::argument_byte, definitions::specs::Module::kind, definitions::specs::Module::sub, definitions::specs::Module::number, definitions::specs::Module::first_operand, definitions::specs::Module::operand_count, definitions::specs::Module::pooled, definitions::specs::Module::s_kind, definitions::specs::Module::s_sub, definitions::specs::Module::s_number, definitions::specs::Module::s_end, definitions::specs::Module::s_first, definitions::specs::Module::s_count, definitions::specs::Module::initialiser, definitions::specs::Module::named_at, definitions::specs::Module::record_at, definitions::specs::Module::pool, definitions::specs::Module::s_record_at,))]

ghost use Rattle.std.specs.Prelude.{◌≡◌, ◌+◌, ◌<◌, ◌≤◌, length};
ghost use Rattle.definitions.specs.Bytes.{byte, be16};
ghost use Rattle.definitions.specs.Module as file;
ghost use Rattle.module.specs.Sheets.{SheetLayout, ValidSheet, IsExpression, IsStatement};

use vocabulary::codes::Capabilities;
use vocabulary::ids::{ArgumentIndex, ExpressionIndex, GlobalIndex};

// The header's fields, and where the space bytes begin behind it (1.2).
const CAPABILITIES: usize = 5;

const GLOBALS: usize = 6;

const FUNCTIONS: usize = 8;

pub const SPACES: usize = 10;

// A sheet's flag and its counts, and where the argument bytes begin behind them (1.3).
const FLAG: usize = 4;

const ARGUMENT_COUNT: usize = 5;

const EXPRESSION_COUNT: usize = 7;

const OPERAND_COUNT: usize = 9;

const STATEMENT_COUNT: usize = 11;

const INITIALISER_COUNT: usize = 13;

const NAMED_COUNT: usize = 15;

pub const ARGUMENTS: usize = 17;

// An expression's record: its size, and its fields behind the kind (1.5).
const EXPRESSION: usize = 8;

const SUB: usize = 1;

const NUMBER: usize = 2;

const FIRST: usize = 4;

const COUNT: usize = 6;

// A statement's record, the same (1.6).
const STATEMENT: usize = 10;

const S_SUB: usize = 1;

const S_NUMBER: usize = 2;

const S_END: usize = 4;

const S_FIRST: usize = 6;

const S_COUNT: usize = 8;

// An expression's number in the pool of operands or in a list (1.7).
const INDEX: usize = 2;

// A function's sheet (1.3). It and its file stay two parameters: one value of both, tried over the 84 functions that
// take them, made their clauses a fifth longer (`f.entry.file.now` for `m.now`) and their bodies no shorter.
#[derive(Clone, Copy, Debug, PartialEq, Eq)]
pub struct Sheet {
    pub function: u16,
    // How many there are of each part.
    pub arguments: u16,
    pub expressions: u16,
    pub operands: u16,
    pub statements: u16,
    pub initialisers: u16,
    pub named: u16,
    // Where the sheet begins; where its expressions, its pool of operands, its table of statements, its initialisers
    // and its named expressions do; and where it ends.
    pub at: usize,
    pub records: usize,
    pub pool: usize,
    pub table: usize,
    pub initials: usize,
    pub names: usize,
    pub end: usize,
}

// An expression's record (1.5), and which one it is.
#[derive(Clone, Copy, Debug, PartialEq, Eq)]
pub struct Expression {
    pub index: ExpressionIndex,
    pub kind: u8,
    pub sub: u8,
    pub number: u16,
    pub first: u16,
    pub count: u16,
}

// A statement's record (1.6), and which one it is.
#[derive(Clone, Copy, Debug, PartialEq, Eq)]
pub struct Statement {
    pub index: u16,
    pub kind: u8,
    pub sub: u8,
    pub number: u16,
    pub end: u16,
    pub first: u16,
    pub count: u16,
}

// The header's fields (1.2).
// Each asks for ten bytes: a value that says so would ask every caller to make one first.
pub fn capabilities(m: &[u8]) -> Capabilities
    requires { 10 ≤ length m.now }
    ensures { result.0 ≡ file.capabilities m.now }
{
    Capabilities(numbers::get8(m, CAPABILITIES))
}

pub fn globals(m: &[u8]) -> u16
    requires { 10 ≤ length m.now }
    ensures { result ≡ file.globals m.now }
{
    numbers::get16(m, GLOBALS)
}

pub fn functions(m: &[u8]) -> u16
    requires { 10 ≤ length m.now }
    ensures { result ≡ file.functions m.now }
{
    numbers::get16(m, FUNCTIONS)
}

pub fn space(m: &[u8], g: GlobalIndex) -> u8
    requires { 10 + g.0 < length m.now }
    ensures { result ≡ file.space m.now g.0 }
{
    numbers::get8(m, SPACES + usize::from(g.0))
}

// The sheet that begins at `at`, as its counts say. Nothing is known of them yet.
pub fn sheet_at(m: &[u8], function: u16, at: usize) -> Sheet
    requires { (at ≡ file.sheet m.now function) × (at + 17 ≤ length m.now) × (length m.now ≤ 65536) }
    ensures { (result.function ≡ function) × SheetLayout m.now result }
{
    let arguments = numbers::get16(m, at + ARGUMENT_COUNT);
    let expressions = numbers::get16(m, at + EXPRESSION_COUNT);
    let operands = numbers::get16(m, at + OPERAND_COUNT);
    let statements = numbers::get16(m, at + STATEMENT_COUNT);
    let initialisers = numbers::get16(m, at + INITIALISER_COUNT);
    let named = numbers::get16(m, at + NAMED_COUNT);
    let records = at + ARGUMENTS + usize::from(arguments);
    let pool = records + EXPRESSION * usize::from(expressions);
    let table = pool + INDEX * usize::from(operands);
    let initials = table + STATEMENT * usize::from(statements);
    let names = initials + INDEX * usize::from(initialisers);
    let end = names + INDEX * usize::from(named);
    Sheet {
        function,
        arguments,
        expressions,
        operands,
        statements,
        initialisers,
        named,
        at,
        records,
        pool,
        table,
        initials,
        names,
        end,
    }
}

pub fn flag(m: &[u8], s: Sheet) -> u8
    requires { ValidSheet m.now s }
    ensures { result ≡ file.flag m.now s.function }
{
    numbers::get8(m, s.at + FLAG)
}

pub fn argument(m: &[u8], s: Sheet, a: ArgumentIndex) -> u8
    requires { ValidSheet m.now s × (a.0 < s.arguments) }
    ensures { result ≡ file.argument_byte m.now s.function a.0 }
{
    numbers::get8(m, s.at + ARGUMENTS + usize::from(a.0))
}

pub fn expression_at(m: &[u8], s: Sheet, e: ExpressionIndex) -> Expression
    requires { ValidSheet m.now s × (e.0 < s.expressions) }
    ensures { IsExpression m.now s.function e.0 result }
{
    let at = s.records + EXPRESSION * usize::from(e.0);
    Expression {
        index: e,
        kind: numbers::get8(m, at),
        sub: numbers::get8(m, at + SUB),
        number: numbers::get16(m, at + NUMBER),
        first: numbers::get16(m, at + FIRST),
        count: numbers::get16(m, at + COUNT),
    }
}

// What stands at a place of the pool (1.7): an expression's number, or 65535 for absent.
pub fn pooled(m: &[u8], s: Sheet, p: u16) -> ExpressionIndex
    requires { ValidSheet m.now s × (p < s.operands) }
    ensures { result.0 ≡ file.pooled m.now s.function p }
{
    ExpressionIndex(numbers::get16(m, s.pool + INDEX * usize::from(p)))
}

pub fn statement_at(m: &[u8], s: Sheet, t: u16) -> Statement
    requires { ValidSheet m.now s × (t < s.statements) }
    ensures { IsStatement m.now s.function t result }
{
    let at = s.table + STATEMENT * usize::from(t);
    Statement {
        index: t,
        kind: numbers::get8(m, at),
        sub: numbers::get8(m, at + S_SUB),
        number: numbers::get16(m, at + S_NUMBER),
        end: numbers::get16(m, at + S_END),
        first: numbers::get16(m, at + S_FIRST),
        count: numbers::get16(m, at + S_COUNT),
    }
}

// A byte that stands AT bytes into a statement's record, and a number of two bytes that does.
fn s_byte<const AT: usize>(m: &[u8], s: Sheet, t: u16) -> u8
    requires { ValidSheet m.now s × (t < s.statements) × (AT < 10) }
    ensures { result ≡ byte m.now (file.s_record_at m.now s.function t + AT) }
{
    numbers::get8(m, s.table + STATEMENT * usize::from(t) + AT)
}

fn s_be16<const AT: usize>(m: &[u8], s: Sheet, t: u16) -> u16
    requires { ValidSheet m.now s × (t < s.statements) × (AT < 9) }
    ensures { result ≡ be16 m.now (file.s_record_at m.now s.function t + AT) }
{
    numbers::get16(m, s.table + STATEMENT * usize::from(t) + AT)
}

// The fields of a statement's record, one by one, for where few of them are wanted. The six names stay beside the two
// readers above: each is a definition of the paper, and other crates ask by these names.
pub fn s_kind(m: &[u8], s: Sheet, t: u16) -> u8
    requires { ValidSheet m.now s × (t < s.statements) }
    ensures { result ≡ file.s_kind m.now s.function t }
{
    s_byte::<0>(m, s, t)
}

pub fn s_sub(m: &[u8], s: Sheet, t: u16) -> u8
    requires { ValidSheet m.now s × (t < s.statements) }
    ensures { result ≡ file.s_sub m.now s.function t }
{
    s_byte::<S_SUB>(m, s, t)
}

pub fn s_number(m: &[u8], s: Sheet, t: u16) -> u16
    requires { ValidSheet m.now s × (t < s.statements) }
    ensures { result ≡ file.s_number m.now s.function t }
{
    s_be16::<S_NUMBER>(m, s, t)
}

pub fn s_first(m: &[u8], s: Sheet, t: u16) -> u16
    requires { ValidSheet m.now s × (t < s.statements) }
    ensures { result ≡ file.s_first m.now s.function t }
{
    s_be16::<S_FIRST>(m, s, t)
}

pub fn s_count(m: &[u8], s: Sheet, t: u16) -> u16
    requires { ValidSheet m.now s × (t < s.statements) }
    ensures { result ≡ file.s_count m.now s.function t }
{
    s_be16::<S_COUNT>(m, s, t)
}

// One past the last record inside a statement.
pub fn s_end(m: &[u8], s: Sheet, t: u16) -> u16
    requires { ValidSheet m.now s × (t < s.statements) }
    ensures { result ≡ file.s_end m.now s.function t }
{
    s_be16::<S_END>(m, s, t)
}

// The two lists of expressions. Each has a reader of a line, named as its definition is: one over where a list begins
// would ask its callers for that.
pub fn initialiser(m: &[u8], s: Sheet, i: u16) -> ExpressionIndex
    requires { ValidSheet m.now s × (i < s.initialisers) }
    ensures { result.0 ≡ file.initialiser m.now s.function i }
{
    ExpressionIndex(numbers::get16(m, s.initials + INDEX * usize::from(i)))
}

pub fn named(m: &[u8], s: Sheet, i: u16) -> ExpressionIndex
    requires { ValidSheet m.now s × (i < s.named) }
    ensures { result.0 ≡ file.named_at m.now s.function i }
{
    ExpressionIndex(numbers::get16(m, s.names + INDEX * usize::from(i)))
}
