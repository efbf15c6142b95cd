// Solving by rounds: what a portion of rounds makes of a running state, and the laws of it. This crate has definitions and laws, and no code.

#![tactic(auto)]
