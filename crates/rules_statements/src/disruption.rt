// How the disruptor goes through statements (01, 5.4 to 5.6). Nothing else in this crate knows.
ghost use Rattle.std.specs.Prelude.{◌≡◌, ◌&&◌, ◌||◌, not, List, eqb, ℕ};
ghost use Rattle.definitions.specs.Walk as walks;
ghost use Rattle.vocabulary.specs.Said.{disruptor_said};
ghost use Rattle.module.specs.Sheets.{ValidSheet};
ghost use Rattle.rules_statements.specs.Said.{outcome_said};
ghost use Rattle.rules_statements.specs.Results.{known_state, WalkContext, StatementAt};

use crate::operands;
use crate::uniformity::FunctionUniformity;
use memory::Work;
use module::{Sheet, Statement};
use rules_pairs::lists::Lists;
use vocabulary::disruptor::UniformityDisruptor;
use vocabulary::kinds::StatementKind;

// What the inside of a statement starts from (5.4): the condition of an If or the selector of a Switch disrupts, where
// nothing did before.
pub fn inside(
    m: &[u8],
    s: Sheet,
    work: &Work,
    x: Statement,
    d: Option<UniformityDisruptor>,
) -> Option<UniformityDisruptor>
    requires { WalkContext m.now s × StatementAt m.now s x.index x }
    ensures { (l : Lists) → disruptor_said result
        ≡ walks.inside_start m.now s.function x.index (disruptor_said d) (known_state m.now s.function l work.now) }
{
    if branches(x.kind) {
        d.or(UniformityDisruptor::of_origin(operands::origin(m, s, work, x)))
    } else {
        d
    }
}

// Its operand says which arm runs.
fn branches(kind: u8) -> bool
    ensures { result ≡ (eqb kind 8 || eqb kind 9) }
{
    kind == StatementKind::IF || kind == StatementKind::SWITCH
}

// What follows statement x starts from, in an extent that started from `first`. After an Arm that hands nothing on it is
// `first` (5.5); after anything else the statement's exit disrupts, where nothing did before (5.5, 5.6).
pub fn next(
    m: &[u8],
    s: Sheet,
    x: Statement,
    first: Option<UniformityDisruptor>,
    d: Option<UniformityDisruptor>,
    u: FunctionUniformity,
) -> Option<UniformityDisruptor>
    requires { ValidSheet m.now s × StatementAt m.now s x.index x }
    ensures { disruptor_said result
        ≡ walks.next m.now s.function x.index (disruptor_said first) (disruptor_said d) (outcome_said u) }
{
    if ends_apart(m, s, x) {
        first
    } else {
        d.or(u.exit_disruptor())
    }
}

// An Arm that hands nothing on to the next.
fn ends_apart(m: &[u8], s: Sheet, x: Statement) -> bool
    requires { ValidSheet m.now s × StatementAt m.now s x.index x }
    ensures { result ≡ (eqb x.kind 11 && not (walks.hands_on m.now s.function x.index)) }
{
    x.kind == StatementKind::ARM && !hands_on(m, s, x)
}

// An Arm hands on where it falls through, and where it is the body of a Loop: the Arm right after the Loop.
fn hands_on(m: &[u8], s: Sheet, x: Statement) -> bool
    requires { ValidSheet m.now s × StatementAt m.now s x.index x × (x.kind ≡ 11) }
    ensures { result ≡ walks.hands_on m.now s.function x.index }
{
    x.sub == StatementKind::FALLS_THROUGH
        || x.index > 0 && module::s_kind(m, s, x.index - 1) == StatementKind::LOOP
}
