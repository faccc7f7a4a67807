// The ends of a sampling, and pairs of them (01, 4.4), by value and as lists have them, which is as a report has
// mixed pairs (01, 7.4).
ghost use Rattle.std.specs.Prelude.{◌≡◌, ◌+◌, ◌≤◌, ◌<◌, length};
ghost use Rattle.definitions.specs.Ends.{is_global, both_global};
ghost use Rattle.definitions.specs.Report as paper;
ghost use Rattle.definitions.specs.Report.{end_number, end_from, r_mixed, r_pair};
ghost use Rattle.report.specs.Sizes.{pair_size, mixed_size};
ghost use Rattle.rules_pairs.specs.Said.{end_said, pair_said};
ghost use Rattle.rules_pairs.specs.Bytes.{stored};
ghost use Rattle.rules_pairs.specs.Facts.{EndKeyResult, KeyResult, BytesResult};

use report::layout;
use vocabulary::ids::{ArgumentIndex, GlobalIndex};

// An end: a global or an argument of the function. Globals come before arguments, and each by number (01, 4.4).
#[derive(Clone, Copy, Debug, PartialEq, Eq, PartialOrd, Ord)]
pub enum GlobalOrArgument {
    Global(GlobalIndex),
    Argument(ArgumentIndex),
}

// Pairs go by image, then by sampler.
#[derive(Clone, Copy, Debug, PartialEq, Eq, PartialOrd, Ord)]
pub struct Pair {
    pub image: GlobalOrArgument,
    pub sampler: GlobalOrArgument,
}

// Arguments come behind globals (01, 4.4): their keys begin where those of globals end, and are below END_KEYS.
const ARGUMENT_KEYS: u64 = 65536;

const END_KEYS: u64 = 131072;

impl GlobalOrArgument {
    // An end by its tag and its number, as bytes have them (01, 7.4).
    fn of(tag: u8, number: u16) -> Self
        ensures { end_said result ≡ end_from tag number }
    {
        if tag == layout::GLOBAL_TAG {
            GlobalOrArgument::Global(GlobalIndex(number))
        } else {
            GlobalOrArgument::Argument(ArgumentIndex(number))
        }
    }

    fn tag(self) -> u8
        ensures { result ≡ paper.tag (end_said self) }
    {
        match self {
            GlobalOrArgument::Global(_) => layout::GLOBAL_TAG,
            GlobalOrArgument::Argument(_) => layout::ARGUMENT_TAG,
        }
    }

    fn number(self) -> u16
        ensures { result ≡ end_number (end_said self) }
    {
        match self {
            GlobalOrArgument::Global(g) => g.0,
            GlobalOrArgument::Argument(a) => a.0,
        }
    }

    fn is_global(self) -> bool
        ensures { result ≡ is_global (end_said self) }
    {
        matches!(self, GlobalOrArgument::Global(_))
    }

    fn key(self) -> u64
        ensures { EndKeyResult (end_said self) result }
    {
        match self {
            GlobalOrArgument::Global(g) => u64::from(g.0),
            GlobalOrArgument::Argument(a) => ARGUMENT_KEYS + u64::from(a.0),
        }
    }
}

// Whether a pair belongs to the pairs, and not to the mixed pairs.
pub fn of_globals(p: Pair) -> bool
    ensures { result ≡ both_global (pair_said p) }
{
    p.image.is_global() && p.sampler.is_global()
}

// One number for a pair: the order of pairs is the order of their keys.
// Searches compare keys: by the derived order, which branches, large modules take 2 in a hundred longer (measured).
pub fn key(p: Pair) -> u64
    ensures { KeyResult (pair_said p) result }
{
    END_KEYS * p.image.key() + p.sampler.key()
}

// The pair whose six bytes stand at `at`.
pub fn get(b: &[u8], at: usize) -> Pair
    requires { at + mixed_size ≤ length b.now }
    ensures { pair_said result ≡ r_mixed b.now at }
{
    Pair {
        image: GlobalOrArgument::of(b[at], numbers::get16(b, at + layout::MIXED_IMAGE)),
        sampler: GlobalOrArgument::of(
            b[at + layout::MIXED_SAMPLER_TAG],
            numbers::get16(b, at + layout::MIXED_SAMPLER),
        ),
    }
}

// The pair of globals whose four bytes stand at `at`, as the report has it.
pub fn get_globals(b: &[u8], at: usize) -> Pair
    requires { at + pair_size ≤ length b.now }
    ensures { pair_said result ≡ r_pair b.now at }
{
    Pair {
        image: GlobalOrArgument::Global(GlobalIndex(numbers::get16(b, at))),
        sampler: GlobalOrArgument::Global(GlobalIndex(numbers::get16(
            b,
            at + layout::PAIR_SAMPLER,
        ))),
    }
}

pub fn put(b: &mut [u8], at: usize, p: Pair)
    requires { at + mixed_size ≤ length b.old }
    ensures { BytesResult (stored b.old at (pair_said p)) (length b.old) b.new }
{
    b[at] = p.image.tag();
    b[at + layout::MIXED_SAMPLER_TAG] = p.sampler.tag();
    numbers::set16(b, at + layout::MIXED_IMAGE, p.image.number());
    numbers::set16(b, at + layout::MIXED_SAMPLER, p.sampler.number());
}
