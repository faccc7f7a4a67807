// A sorted list of pairs in bytes (01, 4.4). What a list is after an insertion is `insert` of the
// definitions; nothing but `find` says how the place is found.
ghost use Rattle.std.specs.Prelude.{◌+◌, ◌*◌, ◌<◌, ◌≤◌, length, true, ◌≡◌};
ghost use Rattle.definitions.specs.Limits.{version_1};
ghost use Rattle.definitions.specs.Report.{r_mixed};
ghost use Rattle.rules_pairs.specs.Said.{pair_said};
ghost use Rattle.rules_pairs.specs.Bytes.{listed, moved};
ghost use Rattle.rules_pairs.specs.Facts.{ValidSearch, AllBefore, KeyResult, FindResult};
ghost use Rattle.rules_pairs.specs.Facts.{ValidMove, BytesResult, ValidInsert, InsertResult};

use crate::ends;
use crate::ends::Pair;

// A list goes by its place and its number of entries: of a slice of its bytes that number would be a quotient.

// The key of the entry of number i.
fn key_at(b: &[u8], list: usize, i: usize) -> u64
    requires { list + 6 * i + 6 ≤ length b.now }
    ensures { KeyResult (r_mixed b.now (list + 6 * i)) result }
{
    ends::key(ends::get(b, list + memory::ENTRY * i))
}

// Whether a key is behind that of the last entry, and so behind all of them.
fn behind(b: &[u8], list: usize, n: usize, sought: u64) -> bool
    requires { ValidSearch b.now list n }
    ensures { result ≡ true → AllBefore b.now list n sought }
{
    n == 0 || key_at(b, list, n - 1) < sought
}

// Where a pair stands in a list: Ok where it is the entry of this number, Err where it enters before that entry. A
// scan from the front, which ends at the first entry that is not before the pair. Many pairs come in order, and enter
// at the end.
// By hand: the list lies in lent bytes, so there is no slice of pairs for `binary_search`, and no heap for one.
fn find(b: &[u8], list: usize, n: usize, p: Pair) -> Result<usize, usize>
    requires { ValidSearch b.now list n }
    ensures { FindResult (listed b.now list n) n (pair_said p) result }
{
    let sought = ends::key(p);
    if behind(b, list, n, sought) {
        return Err(n);
    }
    for i in 0..n {
        let k = key_at(b, list, i);
        if sought < k {
            return Err(i);
        }
        if sought == k {
            return Ok(i);
        }
    }
    Err(n)
}

// The bytes from a up to e move up by one entry.
fn move_up(b: &mut [u8], a: usize, e: usize)
    requires { ValidMove b.old a e }
    ensures { BytesResult (moved b.old a e) (length b.old) b.new }
{
    // A loop: by `copy_within` modules take 8 in a hundred longer (measured).
    for i in (a..e).rev() {
        b[i + memory::ENTRY] = b[i];
    }
}

// How many entries the list has then, or none where a pair that is not there finds it full. A pair that is there
// already changes nothing.
pub fn insert(b: &mut [u8], list: usize, n: usize, p: Pair) -> Option<usize>
    requires { ValidInsert version_1 b.old list n }
    ensures { InsertResult version_1 b.old list n (pair_said p) b.new result }
{
    let Err(i) = find(b, list, n, p) else {
        return Some(n);
    };
    if memory::ENTRIES <= n {
        return None;
    }
    let at = list + memory::ENTRY * i;
    move_up(b, at, list + memory::ENTRY * n);
    ends::put(b, at, p);
    Some(n + 1)
}
