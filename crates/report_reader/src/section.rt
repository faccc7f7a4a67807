// A function's section of a report (01, 7.2), and its records by value.
ghost use Rattle.std.specs.Prelude.{◌≡◌, ◌<◌};
ghost use Rattle.definitions.specs.Report.{r_use};
ghost use Rattle.rules_pairs.specs.Said.{pair_said};
ghost use Rattle.report.specs.Said.{entry_said};
ghost use Rattle.report.specs.Written.{SummaryRead};
ghost use Rattle.std.proofs.Props.{props};
ghost use Rattle.report_reader.specs.Reading.{pair_in, mixed_in, entry_in};
ghost use Rattle.report_reader.specs.Sections.{ValidSection};

use crate::header::Header;
use report::layout::Entry;
use report::{Summary, layout};
use rules_pairs::ends;
use rules_pairs::ends::Pair;
use vocabulary::flags::GlobalUse;
use vocabulary::ids::{ExpressionIndex, GlobalIndex};

// The bytes of a report, and the header of a section that lies within them.
#[derive(Clone, Copy)]
pub struct Section<'b> {
    pub bytes: &'b [u8],
    pub header: Header,
    ghost valid: { ValidSection bytes.now header } by { Prim.hlevel props },
}

impl<'b> Section<'b> {
    // Origin, requirements and may-kill.
    pub fn summary(self) -> Summary
        ensures { SummaryRead self.entry.bytes.now self.entry.header.at result }
    {
        report::summary_at(self.bytes, self.header.at)
    }

    // How the function uses a global.
    pub fn global_use(self, g: GlobalIndex) -> GlobalUse
        requires { g.0 < self.header.globals }
        ensures { result.0 ≡ r_use self.entry.bytes.now self.entry.header.at g.0 }
    {
        layout::global_use(self.bytes, self.header.at, g)
    }

    pub fn pair(self, i: u16) -> Pair
        requires { i < self.header.pairs }
        ensures { pair_said result ≡ pair_in self.entry.bytes.now self.entry.header.at i }
    {
        ends::get_globals(
            self.bytes,
            self.header.pairs_at + layout::PAIR * usize::from(i),
        )
    }

    pub fn mixed(self, i: u16) -> Pair
        requires { i < self.header.mixed }
        ensures { pair_said result ≡ mixed_in self.entry.bytes.now self.entry.header.at i }
    {
        ends::get(
            self.bytes,
            self.header.mixed_at + layout::MIXED_PAIR * usize::from(i),
        )
    }

    pub fn expression(self, e: ExpressionIndex) -> Entry
        requires { e.0 < self.header.expressions }
        ensures { entry_said result ≡ entry_in self.entry.bytes.now self.entry.header.at e.0 }
    {
        layout::entry_at(
            self.bytes,
            self.header.expressions_at + layout::EXPRESSION * usize::from(e.0),
        )
    }
}
