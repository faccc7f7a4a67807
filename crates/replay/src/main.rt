// Replays the fixed list of module files and answers (bench/fixed/list.txt; on standard input) through the analyzer,
// and says how many answers are as listed. The list is made and described in bench/fixed; this program needs no Rust.
#![tactic(auto)]

use std::io;
use std::io::Read;
use vocabulary::refusal::{Refusal, RefusalFields};

// What a list begins with.
const MAGIC: [u8; 8] = *b"FIURLIST";

// The longest module file of a list, and the longest report that stands in it as a whole.
const FILE: usize = 65600;

const WHOLE_REPORT: usize = 5120;

// The lent slices are full of noise and longer than needed, so that a byte that the analyzer forgets is seen.
const NOISE: u8 = 170;

const REPORT: usize = 65600;

const WORK: usize = 22100;

// ---- numbers and bytes from standard input

// The input ended, or is no list.
#[derive(Clone, Copy, Debug, PartialEq, Eq)]
struct Broken;

impl From<io::Error> for Broken {
    fn from(_e: io::Error) -> Broken {
        Broken
    }
}

fn bytes<const N: usize>(from: &mut impl Read) -> Result<[u8; N], Broken> {
    let mut b = [0u8; N];
    from.read_exact(&mut b)?;
    Ok(b)
}

fn number(from: &mut impl Read) -> Result<u32, Broken> {
    Ok(u32::from_be_bytes(bytes(from)?))
}

// Bytes behind their number, read to the start of a room that they fit into.
fn counted<'r>(from: &mut impl Read, room: &'r mut [u8]) -> Result<&'r [u8], Broken> {
    let n = number(from)? as usize;
    let s = room.get_mut(..n).ok_or(Broken)?;
    from.read_exact(s)?;
    Ok(s)
}

// ---- what the analyzer answered, and what it left in the lent report, against what the list says

#[derive(Clone, Copy)]
struct Outcome<'r> {
    // A report of so many bytes, or a refusal.
    answer: Result<usize, Refusal>,
    report: &'r [u8],
}

impl<'r> Outcome<'r> {
    // The report, and what stands behind it. None where there is no report.
    fn written(self) -> Option<(&'r [u8], &'r [u8])> {
        self.report.split_at_checked(self.answer.ok()?)
    }

    // The report as listed, and zeros behind it.
    fn is_report(self, listed: &[u8]) -> bool {
        self.written()
            .is_some_and(|(told, rest)| told == listed && all_zero(rest))
    }

    // A long report, by its length and sum, and zeros behind it.
    fn has_sum(self, length: usize, sum: u32) -> bool {
        self.written().is_some_and(|(told, rest)| {
            told.len() == length && sum_of(told) == sum && all_zero(rest)
        })
    }

    // The refusal as listed, and a report of zeros.
    fn is_refusal(self, listed: [u8; 8]) -> bool {
        let Err(r) = self.answer else {
            return false;
        };
        RefusalFields::from(r) == refusal_of(listed) && all_zero(self.report)
    }
}

fn all_zero(s: &[u8]) -> bool {
    s.iter().all(|b| *b == 0)
}

const MODULUS: u32 = 65521;

// Two sums modulo 65,521: the low one, from 1, of the bytes; the high one, from 0, of the low one after each byte.
fn sum_of(s: &[u8]) -> u32 {
    let mut low = 1u32;
    let mut high = 0u32;
    for b in s {
        low = (low + u32::from(*b)) % MODULUS;
        high = (high + low) % MODULUS;
    }
    high * 65536 + low
}

// A refusal as the list writes it: number, function, place, cause, value.
fn refusal_of(listed: [u8; 8]) -> RefusalFields {
    let [number, f1, f0, p1, p0, cause, v1, v0] = listed;
    RefusalFields {
        number,
        function: u16::from_be_bytes([f1, f0]),
        place: u16::from_be_bytes([p1, p0]),
        cause,
        value: u16::from_be_bytes([v1, v0]),
    }
}

// ---- entries: whether the outcome is as listed

// What an entry lists, by its tag.
const REPORT_TAG: u8 = 0;

const REFUSAL_TAG: u8 = 1;

const SUM_TAG: u8 = 2;

// A report that stands in the list as a whole.
fn whole_report(from: &mut impl Read, o: Outcome) -> Result<bool, Broken> {
    let mut room = [0u8; WHOLE_REPORT];
    Ok(o.is_report(counted(from, &mut room)?))
}

// One that stands in it by its length and sum.
fn long_report(from: &mut impl Read, o: Outcome) -> Result<bool, Broken> {
    let n = number(from)? as usize;
    let sum = number(from)?;
    Ok(o.has_sum(n, sum))
}

fn answered(from: &mut impl Read, o: Outcome) -> Result<bool, Broken> {
    let [tag]: [u8; 1] = bytes(from)?;
    match tag {
        REPORT_TAG => whole_report(from, o),
        REFUSAL_TAG => Ok(o.is_refusal(bytes(from)?)),
        SUM_TAG => long_report(from, o),
        _ => Err(Broken),
    }
}

fn analysed(from: &mut impl Read, file: &[u8]) -> Result<bool, Broken> {
    let mut report = [NOISE; REPORT];
    let mut work = [NOISE; WORK];
    let answer = analyzer::analyse(file, &mut report, &mut work);
    let o = Outcome {
        answer,
        report: &report,
    };
    Ok(answered(from, o)? && all_zero(&work))
}

fn entry(from: &mut impl Read) -> Result<bool, Broken> {
    let mut room = [0u8; FILE];
    let file = counted(from, &mut room)?;
    analysed(from, file)
}

fn entries(rt: &impl Print, from: &mut impl Read, n: u32) -> io::Result<()> {
    let mut same = 0u32;
    for i in 0..n {
        match entry(from) {
            Ok(true) => same += 1,
            Ok(false) => println!(rt; "different: entry {i}")?,
            Err(Broken) => return rt.println("the list is broken"),
        }
    }
    println!(rt; "{n} entries, {same} as listed")
}

// How many entries a list has, from what stands before them.
fn header(from: &mut impl Read) -> Result<u32, Broken> {
    let magic: [u8; 8] = bytes(from)?;
    if magic != MAGIC {
        return Err(Broken);
    }
    number(from)
}

fn main(rt: HostRuntime) -> io::Result<()> {
    let mut from = rt.stdin();
    let Ok(n) = header(&mut from) else {
        return rt.println("no list");
    };
    entries(&rt, &mut from, n)
}
