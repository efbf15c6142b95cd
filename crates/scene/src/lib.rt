// Unknowns, poses, rows and weights of solve.rs over lent scratch, and what a call of `solve` chooses.

#![tactic(auto)]

pub mod parameters;
pub mod scene;
