// A fault as a text: what is wrong with bytes that are not a report, as far as the fault itself says it.
ghost use Rattle.std.specs.Prelude.{Some};
ghost use Rattle.report_reader.specs.Words.{fault_text};

use crate::Fault;
use std::error::Error;
use std::fmt;

impl fmt::Display for Fault {
    ghost output = { λ f. Some (fault_text f) };

    fn fmt<W: fmt::Write>(&self, f: &mut fmt::Formatter<W>) -> fmt::Result {
        match self {
            Fault::Short => f.write_str("fewer bytes than the 9 of a header"),
            Fault::Long => f.write_str("more than 65536 bytes"),
            Fault::Length(n) => write!(f, "its length field says {n} bytes after it"),
            Fault::Version(v) => write!(f, "version {v}, and only 1 is known"),
            Fault::Globals(n) => write!(f, "{n} globals, and at most 256 can be"),
            Fault::Functions(n) => write!(f, "{n} functions, and at most 64 can be"),
            Fault::Cut(i) => write!(f, "function {i}: the bytes end inside it"),
            Fault::Counts(i) => write!(f, "function {i}: a count is over its limit"),
            Fault::Summary(i) => write!(
                f,
                "function {i}: its origin, requirements or may-kill can't be"
            ),
            Fault::Uses(i) => write!(f, "function {i}: a use has an unknown bit"),
            Fault::Pairs(i) => write!(
                f,
                "function {i}: a pair names no global, or is out of order"
            ),
            Fault::Mixed(i) => write!(f, "function {i}: a mixed pair can't be, or is out of order"),
            Fault::Expressions(i) => write!(f, "function {i}: an expression's line can't be"),
            Fault::LeftOver => f.write_str("bytes are left over behind its last function"),
        }
    }
}

impl Error for Fault {}
