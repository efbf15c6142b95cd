// Bodies and relations read in place from a sheet's bytes.

#![tactic(auto)]

pub mod record;
