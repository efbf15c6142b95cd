// The calls on a sheet and the C interface.

#![tactic(auto)]

pub mod calls;
pub mod freedoms;
pub mod going;
pub mod saving;
pub mod solving;
