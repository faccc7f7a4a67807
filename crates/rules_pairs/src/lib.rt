// Sampling pairs (01, 4.3 to 4.6): tracing an end, the two sorted lists of a function, what a sampling enters and what
// a Call takes from its callee.
#![tactic(auto)]

pub mod calls;
pub mod ends;
pub mod list;
pub mod lists;
pub mod sampling;
pub mod traced;
