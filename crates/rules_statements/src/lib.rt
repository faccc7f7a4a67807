// The statement walk (01, section 5): naga's `process_block`, over an extent of the statement table.
#![tactic(auto)]

ghost use Rattle.std.specs.Prelude.{◌≡◌, ◌≤◌};
ghost use Rattle.definitions.specs.Limits.{version_1};
ghost use Rattle.definitions.specs.Walk as walks;
ghost use Rattle.definitions.proofs.Extents.{Extent};
ghost use Rattle.vocabulary.specs.Said.{disruptor_said};
ghost use Rattle.rules_pairs.specs.States.{callees};
ghost use Rattle.rules_statements.specs.Results.{known_state, ValidWalk, WalkResult};

use crate::uniformity::FunctionUniformity;
use memory::Work;
use module::Sheet;
use rules_pairs::lists::Lists;
use vocabulary::disruptor::UniformityDisruptor;
use vocabulary::kinds::StatementKind;
use vocabulary::refusal::Refusal;

pub mod disruption;
pub mod operands;
pub mod statements;
pub mod uniformity;

// What a walk that refused nothing leaves: how long the pair lists are, and what the statements come to.
#[derive(Clone, Copy, Debug, PartialEq, Eq)]
pub struct Passed {
    pub lists: Lists,
    pub outcome: FunctionUniformity,
}

// The statements from lo up to, without, hi, with the disruptor that they start from. Each does what it does by itself;
// then what it holds, an arm or a block, is walked as a smaller extent of the same table; then the walk goes on at its
// end (01, 5.4 to 5.8).
pub fn process_block(
    m: &[u8],
    s: Sheet,
    report: &[u8],
    work: &mut Work,
    lo: u16,
    hi: u16,
    start: Option<UniformityDisruptor>,
    l: Lists,
) -> Result<Passed, Refusal>
    requires { ValidWalk m.now s report.now work.old l lo × Extent m.now s.function lo hi × (lo ≤ hi) }
    ensures { WalkResult m.now s report.now work.old work.new hi result
        (walks.walk version_1 m.now (callees m.now s.function report.now work.old) s.function lo hi
        (disruptor_said start) (known_state m.now s.function l work.old)) }
{
    let mut at = lo;
    let mut disruptor = start;
    let mut lists = l;
    let mut combined = FunctionUniformity::new();
    // No `for`: `at` jumps from each statement of this extent over what it holds.
    while at < hi {
        let x = module::statement_at(m, s, at);
        if x.kind == StatementKind::EMIT {
            let emitted = statements::emit(m, s, work, x, disruptor)?;
            combined = combined.join(emitted);
        } else {
            let own = statements::process_statement(m, s, report, work, x, disruptor, lists)?;
            let whole = if x.end <= at + 1 {
                own
            } else {
                let inside = disruption::inside(m, s, work, x, disruptor);
                let held = process_block(m, s, report, work, at + 1, x.end, inside, own.lists)?;
                Passed {
                    lists: held.lists,
                    outcome: own.outcome.join(held.outcome),
                }
            };
            disruptor = disruption::next(m, s, x, start, disruptor, whole.outcome);
            combined = combined.join(whole.outcome);
            lists = whole.lists;
        }
        at = x.end;
    }
    Ok(Passed {
        lists,
        outcome: combined,
    })
}
