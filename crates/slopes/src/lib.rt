// `jacobian` of lm.rs: the slopes of a scene's rows over lent scratch.

#![tactic(auto)]

pub mod anew_slopes;
pub mod moved;
pub mod slopes;
