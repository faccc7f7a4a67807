// A report for a person: one fact a line, each with its function, in columns that never move.
//
//  column 0   the function
//         13  what the fact is about
//         30  what it says
//         50  the other end of a pair, or how a global is used
//
// An expression is one line, with columns of its own. Where there is nothing to list, the line says none.
ghost use Rattle.std.specs.Prelude.{ℕ, ◌<◌};
ghost use Rattle.report_reader.specs.Sections.{IsReport};

use crate::print;
use report::layout::Entry;
use report::{Summary, layout};
use report_reader::section::Section;
use rules_pairs::ends::{GlobalOrArgument, Pair};
use std::io;
use text::Line;
use vocabulary::flags::{GlobalUse, Mask, UniformityRequirements};
use vocabulary::ids::{ExpressionIndex, GlobalIndex};

const ABOUT: usize = 13;

const SAYS: usize = 30;

const OTHER: usize = 50;

// The whole report, with every expression where `expressions` asks for it. Only `view` calls it, which has found out
// that these bytes are a report.
#[tactic(auto, using(report_reader::proofs::SectionLoop::report_header), unfolding(definitions::specs::Report::r_section_at))]
pub(crate) fn show(rt: &impl Print, b: &[u8], expressions: bool) -> io::Result<()>
    requires { IsReport b.now }
{
    let functions = layout::functions(b);
    print(rt, heading(b.len(), layout::globals(b), functions))?;
    let mut at = layout::HEADER;
    for f in 0..functions {
        let s = report_reader::section_of(b, f, at);
        function(rt, s, expressions)?;
        at = s.header.end;
    }
    Ok(())
}

fn heading(bytes: usize, globals: u16, functions: u16) -> Line {
    Line::empty()
        .words(b"report")
        .column(ABOUT)
        .number(u64::from(functions))
        .words(b" functions, ")
        .number(u64::from(globals))
        .words(b" globals, ")
        .number(bytes as u64)
        .words(b" bytes")
}

// One function, behind an empty line.
fn function(rt: &impl Print, s: Section, expressions: bool) -> io::Result<()> {
    let h = s.header;
    let f = h.function;
    print(rt, Line::empty())?;
    summary(rt, f, s.summary())?;
    uses(rt, s)?;
    pairs(rt, f, b"pair", h.pairs, |i| s.pair(i))?;
    pairs(rt, f, b"mixed", h.mixed, |i| s.mixed(i))?;
    print(rt, fact(f, b"expressions").number(u64::from(h.expressions)))?;
    if expressions {
        entries(rt, s)?;
    }
    Ok(())
}

// A fact of a function, up to what it says.
fn fact(f: u16, about: &[u8]) -> Line {
    of_function(f).words(about).column(SAYS)
}

fn of_function(f: u16) -> Line {
    Line::empty()
        .words(b"function ")
        .number(u64::from(f))
        .column(ABOUT)
}

fn summary(rt: &impl Print, f: u16, y: Summary) -> io::Result<()> {
    let origin = y.origin.expression().map(|e| e.0);
    print(rt, numbered(fact(f, b"origin"), b"expression ", origin))?;
    print(rt, requirements(fact(f, b"requires"), y.requirements))?;
    print(rt, yes_or_no(fact(f, b"may kill"), y.may_kill))
}

fn yes_or_no(l: Line, yes: bool) -> Line {
    if yes { l.words(b"yes") } else { l.words(b"no") }
}

// A number behind a word, or none: an origin's, or that of an assignable global.
fn numbered(l: Line, word: &[u8], n: Option<u16>) -> Line {
    match n {
        Some(n) => l.words(word).number(u64::from(n)),
        None => l.words(b"none"),
    }
}

fn requirements(l: Line, r: UniformityRequirements) -> Line {
    if r == UniformityRequirements::empty() {
        return l.words(b"nothing");
    }
    let names = [
        (UniformityRequirements::WORK_GROUP_BARRIER, "barrier"),
        (UniformityRequirements::DERIVATIVE, "derivative"),
        (UniformityRequirements::IMPLICIT_LEVEL, "implicit level"),
        (UniformityRequirements::COOP_OPS, "cooperative"),
    ];
    listed(l, r, &names)
}

// The names of what is in a mask, as a list.
fn listed<M: Mask>(l: Line, mask: M, names: &[(M, &str)]) -> Line {
    let start = l.length();
    let mut next = l;
    for (bit, name) in names {
        if mask.intersects(*bit) {
            if start < next.length() {
                next = next.words(b", ");
            }
            next = next.words(name.as_bytes());
        }
    }
    next
}

fn uses(rt: &impl Print, s: Section) -> io::Result<()> {
    let f = s.header.function;
    let mut none = true;
    for g in 0..s.header.globals {
        let u = s.global_use(GlobalIndex(g));
        if u != GlobalUse::empty() {
            none = false;
            print(rt, used(f, g, u))?;
        }
    }
    said_none(rt, none, f, b"use")
}

// A line that there is none, where no other line was about this.
fn said_none(rt: &impl Print, none: bool, f: u16, about: &[u8]) -> io::Result<()> {
    if none {
        print(rt, fact(f, about).words(b"none"))?;
    }
    Ok(())
}

fn used(f: u16, g: u16, u: GlobalUse) -> Line {
    let l = fact(f, b"use").words(b"global ").number(u64::from(g));
    let names = [
        (GlobalUse::READ, "read"),
        (GlobalUse::WRITE, "write"),
        (GlobalUse::QUERY, "query"),
        (GlobalUse::ATOMIC, "atomic"),
    ];
    listed(l.column(OTHER), u, &names)
}

// A list of so many pairs, each by its number.
fn pairs<F: Fn(u16) -> Pair>(rt: &impl Print, f: u16, about: &[u8], n: u16, at: F) -> io::Result<()>
    requires { (i : ℕ) → i < n → F.pre at i }
{
    for i in 0..n {
        print(rt, pair(fact(f, about), at(i)))?;
    }
    said_none(rt, n == 0, f, about)
}

fn pair(l: Line, p: Pair) -> Line {
    let l = end(l.words(b"image "), p.image).column(OTHER);
    end(l.words(b"sampler "), p.sampler)
}

// No Display, here and for the other words: the types are other crates', and a Line cuts a long text off.
fn end(l: Line, e: GlobalOrArgument) -> Line {
    match e {
        GlobalOrArgument::Global(g) => l.words(b"global ").number(u64::from(g.0)),
        GlobalOrArgument::Argument(a) => l.words(b"argument ").number(u64::from(a.0)),
    }
}

fn entries(rt: &impl Print, s: Section) -> io::Result<()> {
    for e in 0..s.header.expressions {
        let x = s.expression(ExpressionIndex(e));
        print(rt, entry(s.header.function, e, x))?;
    }
    Ok(())
}

// The columns of an expression's line.
const COUNT: usize = 30;

const ORIGIN: usize = 48;

const GLOBAL: usize = 61;

const REQUIRES: usize = 74;

fn entry(f: u16, e: u16, x: Entry) -> Line {
    let l = of_function(f)
        .words(b"expression ")
        .number(u64::from(e))
        .column(COUNT)
        .words(b"count ")
        .number(u64::from(x.count))
        .column(ORIGIN)
        .words(b"origin ");
    let l = numbered(l, b"", x.origin.expression().map(|e| e.0))
        .column(GLOBAL)
        .words(b"global ");
    let l = numbered(l, b"", x.assignable.global().map(|g| g.0))
        .column(REQUIRES)
        .words(b"requires ");
    requirements(l, x.requirements)
}
