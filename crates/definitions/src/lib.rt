// This crate is its definitions, in specs/, and the theorems over them, in proofs/. A crate has a function.
#![tactic(auto)]

pub fn nothing() {}
