// The words that every part of the analyzer speaks: numbers that must not be mixed up, flags, where
// non-uniformity comes from, what disrupts control flow, and refusals. The definitions in specs/ say what each of
// them is in document 01.
#![tactic(auto)]

pub mod assignable;
pub mod codes;
pub mod disruptor;
pub mod flags;
pub mod ids;
pub mod kinds;
pub mod origin;
pub mod refusal;
mod words;
