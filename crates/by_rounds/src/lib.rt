// Solving by rounds over lent scratch: a running state is judged, goes on for a portion of rounds, and is left in the caller's memory with the answer for its unknowns.

#![tactic(auto)]

pub mod calls;
pub mod ends;
pub mod held;
pub mod portion;
