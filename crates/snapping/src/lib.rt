// The motion that makes one relation hold by itself: `Motion` and `snap` of solve.rs.

#![tactic(auto)]

pub mod snap;
