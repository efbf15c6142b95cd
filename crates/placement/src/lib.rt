// `solve` of solve.rs over lent scratch: the retry, poses, frames and errors.

#![tactic(auto)]

pub mod solve;
