// `sym_eigen` of math.rs for any n, on lent memory, and its stable sort.

#![tactic(auto)]

pub mod eigen;
