// The program: one module file from standard input; its report to standard output, or one line of text that says why
// there is none. A report begins with a zero byte, so no line of text can be taken for one.
#![tactic(auto)]

use std::io;
use vocabulary::refusal::{Refusal, RefusalFields};

// One byte more than the longest module file is read, so that a longer input is refused and not cut off.
const FILE: usize = analyzer::FILE + 1;

// The answer on a module file, written out.
fn answer(rt: &(impl Print + Eprint), file: &[u8]) -> io::Result<()> {
    let mut report = [0u8; analyzer::REPORT];
    let mut work = [0u8; analyzer::WORK];
    match analyzer::analyse(file, &mut report, &mut work) {
        Ok(n) => write_report(rt, &report[..n]),
        Err(r) => say(rt, r),
    }
}

// One line: a refusal's number, its meaning, function, place and cause. In pieces, each written by itself, as it always
// was: so a pipe without room for all of the line has its beginning.
fn say(rt: &impl Print, r: Refusal) -> io::Result<()> {
    let t = RefusalFields::from(r);
    print!(rt; "refused {}: ", t.number)?;
    rt.print(r.meaning())?;
    print!(rt; "; function {}, place {}", t.function, t.place)?;
    if let Refusal::NonUniform(_, _, Some(d)) = r {
        print!(rt; ", cause: {d}")?;
    }
    rt.print("\n")
}

fn write_report(rt: &(impl Print + Eprint), report: &[u8]) -> io::Result<()> {
    if rt.write_all(report).is_err() {
        return rt.eprintln("fiuraccju: the report could not be written");
    }
    Ok(())
}

fn main(rt: HostRuntime) -> io::Result<()> {
    let mut file = [0u8; FILE];
    let Ok(n) = input::read_all(&mut rt.stdin(), &mut file) else {
        return rt.eprintln("fiuraccju: standard input could not be read");
    };
    answer(&rt, &file[..n])
}
