// Why a call refuses: the tests of document 01's table of refusals, document 02's added.

#![tactic(auto)]

pub mod fault;
