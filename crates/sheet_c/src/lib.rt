// The calls for C, as include/sheet.h declares them. Each is the function of the crate `sheet`, under its name and with its clause.

#![tactic(auto)]

pub mod calls;
pub mod freedoms;
pub mod going;
pub mod saving;
pub mod solving;
