// What a sampling enters (01, 4.5).
ghost use Rattle.std.specs.Prelude.{◌≡◌};
ghost use Rattle.definitions.specs.Limits.{version_1};
ghost use Rattle.definitions.specs.Pairs as paper;
ghost use Rattle.definitions.specs.Ends.{end_or_7, trace};
ghost use Rattle.definitions.specs.Module.{pooled};
ghost use Rattle.rules_pairs.specs.Said.{ended_said};
ghost use Rattle.rules_pairs.specs.Lists.{lists_in, ValidLists, ListsResult};
ghost use Rattle.rules_pairs.specs.Tracing.{ValidOperand, ValidSampling};

use crate::ends::{GlobalOrArgument, Pair};
use crate::lists::Lists;
use crate::traced::Traced;
use crate::{lists, traced};
use memory::Work;
use module::Sheet;
use vocabulary::ids::ExpressionIndex;
use vocabulary::refusal::Refusal;

// The end that the operand at a place of the pool traces to; where there is none, the refusal is of the sampling e.
// `let Global(..) else` stands here and in a Call, as 01, 13.1 names the form.
fn end_at(m: &[u8], s: Sheet, e: ExpressionIndex, p: u16) -> Result<GlobalOrArgument, Refusal>
    requires { ValidOperand m.now s p }
    ensures { ended_said result ≡ end_or_7 s.function e.0 (trace m.now s.function (pooled m.now s.function p)) }
{
    let to = traced::trace(m, s, module::pooled(m, s, p));
    let Traced::Global(g) = to else {
        let Traced::Argument(b) = to else {
            return Err(Refusal::Untraced(s.function, e));
        };
        return Ok(GlobalOrArgument::Argument(b));
    };
    Ok(GlobalOrArgument::Global(g))
}

// ImageSample traces its image, then its sampler, and enters its pair. Its operands stand in the pool from `first` on.
pub fn sample(
    m: &[u8],
    s: Sheet,
    work: &mut Work,
    e: ExpressionIndex,
    first: u16,
    l: Lists,
) -> Result<Lists, Refusal>
    requires { ValidSampling m.now s e.0 first × ValidLists work.old l }
    ensures { ListsResult work.old
        (paper.sample version_1 m.now s.function e.0 (lists_in l work.old))
        work.new result }
{
    let image = end_at(m, s, e, first)?;
    let sampler = end_at(m, s, e, first + 1)?;
    let full = Refusal::Full(s.function, e.0);
    lists::insert_pair(work, l, Pair { image, sampler }, full)
}
