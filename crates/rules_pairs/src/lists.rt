// The two lists of a function in working memory (01, 4.4): its pairs and its mixed pairs.
ghost use Rattle.definitions.specs.Limits.{version_1};
ghost use Rattle.definitions.specs.Pairs as paper;
ghost use Rattle.vocabulary.specs.Said.{refusal_said};
ghost use Rattle.rules_pairs.specs.Said.{pair_said};
ghost use Rattle.rules_pairs.specs.Lists.{lists_in, ValidLists, ListsResult};

use crate::ends::Pair;
use crate::{ends, list};
use memory::Work;
use vocabulary::refusal::Refusal;

// How many entries the two lists have.
// Lengths alone: the memory that holds the lists is lent to whoever enters a pair, so a value of both would have to lend
// it anew at each call.
#[derive(Clone, Copy, Debug, PartialEq, Eq)]
pub struct Lists {
    pub pairs: usize,
    pub mixed: usize,
}

// A pair enters the list that its ends say; the refusal that the caller names, where that list is full.
pub fn insert_pair(work: &mut Work, l: Lists, p: Pair, full: Refusal) -> Result<Lists, Refusal>
    requires { ValidLists work.old l }
    ensures { ListsResult work.old
        (paper.enter version_1 (refusal_said full) (pair_said p) (lists_in l work.old))
        work.new result }
{
    // Two arms: the list and the count that it has differ, and a function of both would be no shorter.
    if ends::of_globals(p) {
        let pairs = list::insert(work, memory::PAIRS, l.pairs, p).ok_or(full)?;
        Ok(Lists { pairs, ..l })
    } else {
        let mixed = list::insert(work, memory::MIXED, l.mixed, p).ok_or(full)?;
        Ok(Lists { mixed, ..l })
    }
}
