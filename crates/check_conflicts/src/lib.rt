//! Conflicts between the threads of parallel constructs (9.10.1): the strict rule and the disjoint rule.
#![tactic(auto)]

pub mod accept;
pub mod faults;
