// `solve` of lm.rs over lent scratch: trials, rounds, one run.

#![tactic(auto)]

pub mod parts;
pub mod rounds;
pub mod trial;
