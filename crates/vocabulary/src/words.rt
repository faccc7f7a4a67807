// A refusal as a line of text: its number and what that means, its function and place, and its cause where it has one.
ghost use Rattle.std.specs.Prelude.{◌≡◌, Some};
ghost use Rattle.vocabulary.specs.Words.{meaning_text, disruptor_text, refusal_text};

use crate::disruptor::UniformityDisruptor;
use crate::refusal::{Refusal, RefusalFields};
use std::error::Error;
use std::fmt;

impl Refusal {
    // What it means, in a few words (01, 8.1).
    pub fn meaning(self) -> &'static str
        ensures { result.now ≡ meaning_text self }
    {
        match self {
            Refusal::Lent => "a lent slice is too short",
            Refusal::Length(_) => "a length or the version is wrong",
            Refusal::Count(_) => "a count is over its limit",
            Refusal::Code(_, _) => "an unknown code",
            Refusal::Shape(_, _) => "a record is not shaped as its kind wants",
            Refusal::Range(_, _) => "a number that names nothing there",
            Refusal::Untraced(_, _) => "an image or sampler can't be traced",
            Refusal::Base(_, _) => "the base of an access is no buffer",
            Refusal::Capability(_, _) => "a non-uniform index without its capability",
            Refusal::Arguments(_, _) => "a call with a wrong number of arguments",
            Refusal::NonUniform(_, _, _) => "control flow must be uniform and is not",
            Refusal::Full(_, _) => "too many pairs",
            Refusal::Report(_) => "the report would be too long",
            Refusal::Deep(_, _) => "a statement stands too deep",
        }
    }
}

impl fmt::Display for Refusal {
    ghost output = { λ r. Some (refusal_text r) };

    fn fmt<W: fmt::Write>(&self, f: &mut fmt::Formatter<W>) -> fmt::Result {
        let RefusalFields {
            number,
            function,
            place,
            ..
        } = RefusalFields::from(*self);
        let meaning = self.meaning();
        write!(
            f,
            "refused {number}: {meaning}; function {function}, place {place}"
        )?;
        if let Refusal::NonUniform(_, _, Some(d)) = self {
            write!(f, ", cause: {d}")?;
        }
        Ok(())
    }
}

impl Error for Refusal {}

impl fmt::Display for UniformityDisruptor {
    ghost output = { λ d. Some (disruptor_text d) };

    fn fmt<W: fmt::Write>(&self, f: &mut fmt::Formatter<W>) -> fmt::Result {
        match self {
            UniformityDisruptor::Expression(e) => write!(f, "expression {}", e.0),
            UniformityDisruptor::Return => f.write_str("a return before it"),
            UniformityDisruptor::Discard => f.write_str("a discard before it"),
        }
    }
}
