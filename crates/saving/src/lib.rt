// A scene in memory, its bodies and relations as the solver's structs, saved as a sheet.

#![tactic(auto)]

pub mod parts;
pub mod save;
