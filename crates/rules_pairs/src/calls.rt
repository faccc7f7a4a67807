// What a Call takes from its callee (01, 4.6).
ghost use Rattle.std.specs.Prelude.{◌≡◌, true, ◌+◌, ◌<◌, ◌≤◌, length};
ghost use Rattle.definitions.specs.Limits.{version_1};
ghost use Rattle.definitions.specs.Checks.{each};
ghost use Rattle.definitions.specs.Report.{records, r_pair, r_mixed, r_lists};
ghost use Rattle.definitions.specs.Pairs as paper;
ghost use Rattle.definitions.specs.Pairs.{replace};
ghost use Rattle.memory.specs.Layout.{size};
ghost use Rattle.report.specs.Sizes.{pair_size, mixed_size};
ghost use Rattle.vocabulary.specs.Said.{refusal_said};
ghost use Rattle.rules_pairs.specs.Said.{end_said, pair_said, ended_said};
ghost use Rattle.rules_pairs.specs.Lists.{lists_in, ValidLists, ListsResult};
ghost use Rattle.rules_pairs.specs.Tracing.{ValidCall, PairBelow, ValidEnd};
ghost use Rattle.rules_pairs.specs.Tracing.{ValidCallee, ValidCalleePairs, ValidCalleeMixed};
ghost use Rattle.rules_pairs.specs.Known.{KnownResult};

use crate::ends::{GlobalOrArgument, Pair};
use crate::lists::Lists;
use crate::traced::Traced;
use crate::{ends, lists, traced};
use memory::Work;
use module::Sheet;
use report::layout;
use vocabulary::refusal::Refusal;

// A Call: the number of its statement, and where its operands begin in the pool.
#[derive(Clone, Copy, Debug, PartialEq, Eq)]
pub struct Call {
    pub statement: u16,
    pub first: u16,
}

// An end of the callee in the caller: an argument is what the Call's operand of that number traces to. The operands
// stand in the pool from `first` on.
// `let Global(..) else` stands here too, as 01, 13.1 names the form.
fn substitute_end(
    m: &[u8],
    s: Sheet,
    call: Call,
    e: GlobalOrArgument,
) -> Result<GlobalOrArgument, Refusal>
    requires { ValidEnd m.now s call.statement call.first (end_said e) }
    ensures { ended_said result ≡ replace m.now s.function call.statement (end_said e) }
{
    match e {
        GlobalOrArgument::Global(_) => Ok(e),
        GlobalOrArgument::Argument(a) => {
            let x = module::pooled(m, s, call.first + a.0);
            let to = traced::trace(m, s, x);
            let Traced::Global(g) = to else {
                let Traced::Argument(b) = to else {
                    return Err(Refusal::Untraced(s.function, x));
                };
                return Ok(GlobalOrArgument::Argument(b));
            };
            Ok(GlobalOrArgument::Global(g))
        }
    }
}

// A pair of the callee in the caller: the image, then the sampler. The result enters the caller's lists.
fn take_pair(
    m: &[u8],
    s: Sheet,
    work: &mut Work,
    call: Call,
    p: Pair,
    l: Lists,
) -> Result<Lists, Refusal>
    requires { ValidCall m.now s call.statement call.first × PairBelow m.now s call.statement (pair_said p) ×
        ValidLists work.old l }
    ensures { ListsResult work.old
        (paper.take_pair version_1 m.now s.function call.statement (pair_said p) (lists_in l work.old))
        work.new result }
{
    let image = substitute_end(m, s, call, p.image)?;
    let sampler = substitute_end(m, s, call, p.sampler)?;
    let full = Refusal::Full(s.function, call.statement);
    lists::insert_pair(work, l, Pair { image, sampler }, full)
}

// The tags of two globals, read at once.
const BOTH_GLOBAL: u16 = 0;

// Whether the pair of globals at p of the report is the entry at q of working memory.
// Four bytes at once, here and in `earlier`: by pairs' own equality and order, Calls that take many pairs run 52 in a
// hundred instructions more, and by their keys 124 (measured).
#[tactic(auto, unfolding(memory::specs::Layout::size))]
fn same(report: &[u8], p: usize, work: &Work, q: usize) -> bool
    requires { (p + pair_size ≤ length report.now) × (q + mixed_size ≤ size) }
    ensures { result ≡ true → r_pair report.now p ≡ r_mixed work.now q }
{
    let globals = numbers::get16(work, q) == BOTH_GLOBAL;
    globals && numbers::get32(report, p) == numbers::get32(work, q + layout::MIXED_IMAGE)
}

// Whether the numbers of the pair at p of the report are before those of the entry at q of working memory.
#[tactic(auto, unfolding(memory::specs::Layout::size))]
fn earlier(report: &[u8], p: usize, work: &Work, q: usize) -> bool
    requires { (p + pair_size ≤ length report.now) × (q + mixed_size ≤ size) }
{
    numbers::get32(report, p) < numbers::get32(work, q + layout::MIXED_IMAGE)
}

// A list of the callee: where its records begin in the report, and how many there are.
#[derive(Clone, Copy, Debug, PartialEq, Eq)]
struct Records {
    at: usize,
    n: usize,
}

// How far a search has come: the pairs of the callee below this number are known to the caller's list, whose entries
// below that one are behind it.
#[derive(Clone, Copy, Debug, PartialEq, Eq)]
struct Search {
    pair: usize,
    entry: usize,
}

// How far, from there on, the callee's pairs are known already to the list of `len` pairs in working memory. Both
// lists ascend, so one pass over that list tells, and ends where a pair has no place: a Call whose pairs are all
// known costs no insertion. To start too late or to end too early would cost time and nothing else.
fn known(report: &[u8], callee: Records, work: &Work, len: usize, from: Search) -> Search
    requires { ValidCalleePairs report.now callee.at callee.n × (from.pair ≤ callee.n) × (len ≤ version_1.pairs) }
    ensures { KnownResult report.now callee.at from.pair callee.n work.now len result.pair }
{
    // A `while`: each turn passes an entry, and only some of them a pair.
    let mut search = from;
    while search.pair < callee.n && search.entry < len {
        let p = callee.at + layout::PAIR * search.pair;
        let q = memory::PAIRS + memory::ENTRY * search.entry;
        if same(report, p, work, q) {
            search.pair += 1;
        } else if earlier(report, p, work, q) {
            return search;
        }
        search.entry += 1;
    }
    search
}

// The callee's pairs. Globals are what they are. After a pair has entered, the search goes on where it ended: what
// comes next belongs behind it.
fn take_pairs(
    report: &[u8],
    callee: Records,
    work: &mut Work,
    full: Refusal,
    l: Lists,
) -> Result<Lists, Refusal>
    requires { ValidCalleePairs report.now callee.at callee.n × ValidLists work.old l }
    ensures { ListsResult work.old
        (each (paper.enter version_1 (refusal_said full)) (records r_pair 4 report.now callee.at callee.n)
        (lists_in l work.old))
        work.new result }
{
    // A `while`: the search jumps over the pairs that are known.
    let mut lists = l;
    let mut search = known(
        report,
        callee,
        work,
        lists.pairs,
        Search { pair: 0, entry: 0 },
    );
    while search.pair < callee.n {
        let p = ends::get_globals(report, callee.at + layout::PAIR * search.pair);
        lists = lists::insert_pair(work, lists, p, full)?;
        let next = Search {
            pair: search.pair + 1,
            ..search
        };
        search = known(report, callee, work, lists.pairs, next);
    }
    Ok(lists)
}

// Its mixed pairs, of which none is known beforehand: so this is no case of the loop above, which jumps.
fn take_mixed(
    m: &[u8],
    s: Sheet,
    report: &[u8],
    callee: Records,
    work: &mut Work,
    call: Call,
    l: Lists,
) -> Result<Lists, Refusal>
    requires { ValidCall m.now s call.statement call.first ×
        ValidCalleeMixed m.now s call.statement report.now callee.at callee.n × ValidLists work.old l }
    ensures { ListsResult work.old
        (each (paper.take_pair version_1 m.now s.function call.statement)
        (records r_mixed 6 report.now callee.at callee.n) (lists_in l work.old))
        work.new result }
{
    let mut lists = l;
    for i in 0..callee.n {
        let p = ends::get(report, callee.at + layout::MIXED_PAIR * i);
        lists = take_pair(m, s, work, call, p, lists)?;
    }
    Ok(lists)
}

// A Call takes the callee's pairs, then its mixed pairs. The callee's section begins at `at` of the report.
pub fn process_call(
    m: &[u8],
    s: Sheet,
    report: &[u8],
    at: usize,
    globals: usize,
    work: &mut Work,
    call: Call,
    l: Lists,
) -> Result<Lists, Refusal>
    requires { ValidCall m.now s call.statement call.first ×
        ValidCallee m.now s call.statement globals report.now at × ValidLists work.old l }
    ensures { ListsResult work.old
        (paper.take_pairs version_1 m.now s.function call.statement (r_lists globals report.now at)
        (lists_in l work.old))
        work.new result }
{
    let pairs = Records {
        at: layout::pairs_at(at, globals),
        n: usize::from(layout::pair_count(report, at)),
    };
    let mixed = Records {
        at: layout::mixed_at(report, at, globals),
        n: usize::from(layout::mixed_count(report, at)),
    };
    let full = Refusal::Full(s.function, call.statement);
    let after = take_pairs(report, pairs, work, full, l)?;
    take_mixed(m, s, report, mixed, work, call, after)
}
