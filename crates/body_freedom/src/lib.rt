// `body_dof` of solve.rs: each body's own freedom with the others held still.

#![tactic(auto)]

pub mod body;
pub mod body_slopes;
pub mod square;
