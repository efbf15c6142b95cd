// What a relation is and the rows that it gives: geometry.rs, `Law`, `End`, `Rel`, `Pose` and `residual` of solve.rs, `JointKind` of model.rs.

#![tactic(auto)]

pub mod geometry;
pub mod model;
pub mod rows;
