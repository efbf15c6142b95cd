// Sheets written from scenes that the caller lends: bytes put to memory piece by piece, and the tests before them.

#![tactic(auto)]

pub mod bytes;
pub mod write;
