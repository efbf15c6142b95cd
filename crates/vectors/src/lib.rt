// Vectors, frames and rotations: vec.rs, space.rs, tol.rs and lib.rs of tenon's geom, math.rs of its assembly.

#![tactic(auto)]

pub mod math;
pub mod root;
pub mod space;
pub mod tol;
pub mod vec;
