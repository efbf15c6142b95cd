// Which pairs suit a law, where a joint stands, how many rows a relation has: `check`, `check_tangent`, `joint_reading` of solve.rs.

#![tactic(auto)]

pub mod count;
pub mod judge;
