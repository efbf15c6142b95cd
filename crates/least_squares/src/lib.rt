// The parts of lm.rs over lent memory: largest magnitude, sums, the matrix J W⁻¹ Jᵀ, kept as its lower triangle, damping, elimination and the step.

#![tactic(auto)]

pub mod dense;
pub mod lm;
pub mod triangle;
pub mod zeros;
