// `dof` of solve.rs: each body's freedom and the whole assembly's.

#![tactic(auto)]

pub mod dof;
mod total;
mod values;
