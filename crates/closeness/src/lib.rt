// Demand 3: what an accepted `solve` tells of its errors, and the bound on a row's rounding. This crate has definitions and laws, and no code.

#![tactic(auto)]
