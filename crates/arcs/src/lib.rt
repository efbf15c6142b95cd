// The root, sine, cosine and arctangent.

#![tactic(auto)]

pub mod arc;
pub mod horner;
pub mod root;
mod turns;
