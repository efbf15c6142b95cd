// Lists of answers made outside, and how a program replays one. A list is a row of words of 64 bits, little endian, a double by its bits; oracle/FORMATS.md says what stands in each.

#![tactic(auto)]

pub mod answers;
pub mod lent;
pub mod list;
pub mod vector;
