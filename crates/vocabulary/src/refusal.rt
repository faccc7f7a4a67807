// Why a module is refused: a case for each numbered refusal (01, 8.1), with the values that the paper names. The
// definition `refusal_said` gives each its number and five values.
#![tactic(auto, unfolding(definitions::specs::Checks::refusal, definitions::specs::Walk::non_uniform))]

ghost use Rattle.std.specs.Prelude.{◌≡◌};
ghost use Rattle.definitions.specs.Checks.{refusal};
ghost use Rattle.definitions.specs.Walk.{non_uniform};
ghost use Rattle.vocabulary.specs.Said.{disruptor_said, refusal_said, told_said};

use crate::disruptor::UniformityDisruptor;
use crate::ids::ExpressionIndex;

#[derive(Clone, Copy, Debug, PartialEq, Eq)]
pub enum Refusal {
    // 1: a lent slice is too short.
    Lent,
    // 2: a length or the version is wrong, in the sheet of this function or in the header.
    Length(u16),
    // 3: a count is over its limit.
    Count(u16),
    // 4: an unknown code, at a function and a place.
    Code(u16, u16),
    // 5: a record that is not shaped as its kind wants.
    Shape(u16, u16),
    // 6: a number that names nothing.
    Range(u16, u16),
    // 7: an end that can't be traced.
    Untraced(u16, ExpressionIndex),
    // 8: the base of an Access is no buffer.
    Base(u16, ExpressionIndex),
    // 9: a non-uniform index without its capability.
    Capability(u16, ExpressionIndex),
    // 10: a Call with another number of arguments than its callee has.
    Arguments(u16, u16),
    // 11: uniform control flow is required, and there is a disruptor.
    NonUniform(u16, ExpressionIndex, Option<UniformityDisruptor>),
    // 12: a pair list is full.
    Full(u16, u16),
    // 14: the report would be too long.
    Report(u16),
    // 15: a statement stands too deep.
    Deep(u16, u16),
}

// A refusal by its five values (01, 8.1); `value` is its cause's number. Numbers, since C and bench/ have them so.
#[derive(Clone, Copy, Debug, PartialEq, Eq)]
pub struct RefusalFields {
    pub number: u8,
    pub function: u16,
    pub place: u16,
    pub cause: u8,
    pub value: u16,
}

// A refusal without a cause.
fn plain(number: u8, function: u16, place: u16) -> RefusalFields
    ensures { told_said result ≡ refusal number function place }
{
    RefusalFields {
        number,
        function,
        place,
        cause: 0,
        value: 0,
    }
}

fn caused(function: u16, place: u16, cause: u8, value: u16) -> RefusalFields
    ensures { told_said result ≡ record { number = 11; function = function; place = place; cause = cause; cause_number = value } }
{
    RefusalFields {
        number: 11,
        function,
        place,
        cause,
        value,
    }
}

// Refusal 11, with what disrupts control flow as its cause.
fn non_uniform(function: u16, place: u16, d: Option<UniformityDisruptor>) -> RefusalFields
    ensures { told_said result ≡ non_uniform function place (disruptor_said d) }
{
    match d {
        None => plain(11, function, place),
        Some(UniformityDisruptor::Expression(e)) => caused(function, place, 1, e.0),
        Some(UniformityDisruptor::Return) => caused(function, place, 2, 0),
        Some(UniformityDisruptor::Discard) => caused(function, place, 3, 0),
    }
}

impl From<Refusal> for RefusalFields {
    ghost from_gives = { λ r t. told_said t ≡ refusal_said r };

    fn from(r: Refusal) -> RefusalFields {
        match r {
            Refusal::Lent => plain(1, 0, 0),
            Refusal::Length(f) => plain(2, f, 0),
            Refusal::Count(f) => plain(3, f, 0),
            Refusal::Code(f, p) => plain(4, f, p),
            Refusal::Shape(f, p) => plain(5, f, p),
            Refusal::Range(f, p) => plain(6, f, p),
            Refusal::Untraced(f, e) => plain(7, f, e.0),
            Refusal::Base(f, e) => plain(8, f, e.0),
            Refusal::Capability(f, e) => plain(9, f, e.0),
            Refusal::Arguments(f, p) => plain(10, f, p),
            Refusal::NonUniform(f, e, d) => non_uniform(f, e.0, d),
            Refusal::Full(f, p) => plain(12, f, p),
            Refusal::Report(f) => plain(14, f, 0),
            Refusal::Deep(f, p) => plain(15, f, p),
        }
    }
}
