// `sym_eigen` of math.rs for the six-by-six by value, and `span_basis`.

#![tactic(auto)]

pub mod eigen6;
pub mod span;
