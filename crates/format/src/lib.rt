// The sheet's format: tests 1 to 7 and 14 of the table of refusals, for any bytes.

#![tactic(auto)]

pub mod refusals;
mod words;
