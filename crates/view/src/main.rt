// The operator's view: one report from standard input, as text for a person on standard output; with the word
// `expressions`, every expression too. What is not a report gets one line that says so, and a refusal of the program
// fiuraccju, which comes through the same pipe, is passed on as one.
#![tactic(auto)]

mod facts;
mod faults;

use report_reader::limits;
use std::env::{Env, FillError};
use std::io;
use std::io::Read;
use text::Line;

// What the program's arguments ask for.
#[derive(Clone, Copy, Debug, PartialEq, Eq)]
enum Wanted {
    Summary,
    Expressions,
    Unknown,
}

// Argument 0 is the program's name.
fn asked(rt: &impl Env) -> Wanted {
    let mut word = [0u8; 16];
    match rt.arg(1, &mut word) {
        Err(FillError::NotPresent) => Wanted::Summary,
        Ok(k) if &word[..k] == b"expressions".as_slice() && !has_argument(rt, 2) =>
            Wanted::Expressions,
        _ => Wanted::Unknown,
    }
}

fn has_argument(rt: &impl Env, i: usize) -> bool {
    let mut start = [0u8; 1];
    !matches!(rt.arg(i, &mut start), Err(FillError::NotPresent))
}

// Writes a line and its end, with room for any line. No contract can say what is written.
fn print(rt: &impl Print, l: Line) -> io::Result<()> {
    let mut bytes = [0u8; text::ENDED_ROOM];
    let n = l.ended(&mut bytes).unwrap();
    rt.write_all(&bytes[..n])
}

// The text for these bytes; a refusal begins with its first word.
#[tactic(auto, unfolding(report_reader::specs::Sections::IsReport))]
fn view(rt: &impl Print, b: &[u8], expressions: bool) -> io::Result<()> {
    if b.starts_with(b"refused ") {
        return print(rt, Line::empty().words(b"no report: ").first_line(b));
    }
    match report_reader::read(b) {
        Ok(()) => facts::show(rt, b, expressions),
        Err(why) => faults::print_fault(rt, why, b.len()),
    }
}

// One byte more than the longest report, so that a longer input is not taken for a report.
const INPUT_ROOM: usize = limits::REPORT + 1;

fn view_input(
    rt: &(impl Print + Eprint),
    from: &mut impl Read,
    expressions: bool,
) -> io::Result<()> {
    let mut bytes = [0u8; INPUT_ROOM];
    let Ok(n) = input::read_all(from, &mut bytes) else {
        return rt.eprintln("view: standard input could not be read");
    };
    if view(rt, &bytes[..n], expressions).is_err() {
        return rt.eprintln("view: the text could not be written");
    }
    Ok(())
}

fn main(rt: HostRuntime) -> io::Result<()> {
    match asked(&rt) {
        Wanted::Summary => view_input(&rt, &mut rt.stdin(), false),
        Wanted::Expressions => view_input(&rt, &mut rt.stdin(), true),
        Wanted::Unknown => rt.eprintln("usage: view [expressions] < REPORT"),
    }
}
