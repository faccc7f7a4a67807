// The extents that are open at a statement (01, 2.8 and 2.9), for the exact checks and for the quick ones.
ghost use Rattle.std.specs.Prelude.{◌≡◌, ◌+◌, ◌<◌, List, [], ◌∷◌, get_or, length};
ghost use Rattle.limits.specs.Sizes.{open_extents_size};
ghost use Rattle.form_statements.specs.Extents.{OpenValue, at, open_value, ValidStack, opened, table_of, last_of, holding_last, closing};
ghost use Rattle.form_statements.specs.Extents as extents;

use std::marker::Model;
use vocabulary::kinds::StatementKind;

// What holds statements: a statement of a kind that ends at an end, and how many it directly holds so far.
#[derive(Clone, Copy, Debug, Default, PartialEq, Eq)]
pub struct Extent {
    pub statement: u16,
    pub kind: u8,
    pub end: u16,
    pub holds: u16,
}

// Place 0 is the table's, which holds what has no owner: it stands as a Block that ends with the table. From place 1
// up to the depth stand those of the statements around the present one.
// Arrays of numbers side by side: as structs the array is over 256 bytes, and laying it out calls `memset`, which the
// form checks as a C function would then need from outside.
// No `ArrayVec`: tried, it is slower, as its `pop` writes over what it takes, and no plainer where the depth is asked.
#[derive(Drop)]
pub struct OpenExtents {
    statements: [u16; limits::OPEN_EXTENTS],
    kinds: [u8; limits::OPEN_EXTENTS],
    ends: [u16; limits::OPEN_EXTENTS],
    holds: [u16; limits::OPEN_EXTENTS],
    depth: usize,
}

impl Model for OpenExtents {
    ghost Value = { OpenValue };

    ghost view = { λ o. open_value (at o.statements o.kinds o.ends o.holds) o.depth };

    ghost invariant = { λ o. ValidStack o.statements o.kinds o.ends o.holds o.depth };
}

impl OpenExtents {
    // None is open but the table's.
    pub fn new(statements: u16) -> OpenExtents
        ensures { result ≡ record { extents = []; table = table_of statements } }
    {
        let mut kinds = [0; limits::OPEN_EXTENTS];
        let mut ends = [0; limits::OPEN_EXTENTS];
        kinds[0] = StatementKind::BLOCK;
        ends[0] = statements;
        OpenExtents {
            statements: [0; limits::OPEN_EXTENTS],
            kinds,
            ends,
            holds: [0; limits::OPEN_EXTENTS],
            depth: 0,
        }
    }

    // How many statements are around the present one.
    pub fn depth(&self) -> usize
        ensures { result ≡ length self.now.extents }
    {
        self.depth
    }

    // What directly holds the present statement.
    pub fn owner(&self) -> Extent
        ensures { result ≡ last_of self.now }
    {
        Extent {
            statement: self.statements[self.depth],
            kind: self.kinds[self.depth],
            end: self.ends[self.depth],
            holds: self.holds[self.depth],
        }
    }

    // The owner holds one statement more.
    pub fn hold_one(&mut self)
        requires { (last_of self.old).holds < 65535 }
        ensures { self.new ≡ holding_last self.old }
    {
        self.holds[self.depth] += 1;
    }

    #[tactic(auto, using(crate::proofs::ExtentStacks::next_place))]
    pub fn open(&mut self, statement: u16, kind: u8, end: u16)
        requires { length self.old.extents + 1 < open_extents_size }
        ensures { self.new ≡ record self.old { extents = opened statement kind end ∷ self.old.extents } }
    {
        self.depth += 1;
        self.statements[self.depth] = statement;
        self.kinds[self.depth] = kind;
        self.ends[self.depth] = end;
        self.holds[self.depth] = 0;
    }

    // Closes, from the last on, the extents that end at t or before. Extents nest, so none is left to close around the
    // first that goes on past t. What is returned is the first statement with a wrong number of arms: `bad`, or one
    // that is closed now.
    pub fn close(&mut self, t: u16, bad: Option<u16>) -> Option<u16>
        ensures closed { closing t self.old.extents bad ≡ record { extents = self.new.extents; bad = result } }
        ensures table { self.new.table ≡ self.old.table }
    {
        let mut first = bad;
        // A `while`, since the walk pops the stack as it goes and stops at the first extent that goes on.
        while self.ends[self.depth] <= t && 0 < self.depth {
            first = judged(&self.owner(), first);
            self.depth -= 1;
        }
        first
    }
}

// The first statement with a wrong number of arms: `bad`, or that of x, which is closed now.
fn judged(x: &Extent, bad: Option<u16>) -> Option<u16>
    ensures { result ≡ extents.judged x.now bad }
{
    if !miscounted(x.kind, x.holds) {
        return bad;
    }
    match bad {
        Some(b) if b <= x.statement => bad,
        _ => Some(x.statement),
    }
}

// An If or a Loop that does not hold two arms.
fn miscounted(kind: u8, n: u16) -> bool
    ensures { result ≡ extents.miscounts kind n }
{
    n != 2 && (kind == StatementKind::IF || kind == StatementKind::LOOP)
}
