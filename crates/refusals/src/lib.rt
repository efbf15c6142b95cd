// Which number `solve`, solving by rounds and `dof` give for what is lent to them, and how much scratch they need.

#![tactic(auto)]

pub mod figures;
pub mod lent;
pub mod portions;
