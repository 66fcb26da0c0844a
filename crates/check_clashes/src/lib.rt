//! The effects of a program as plain data (9.10.1), the least breaches of the strict rule and of the disjoint rule that
//! they show, and what threads may write by them.
#![tactic(auto)]

pub mod breaches;
pub mod called;
pub mod effects;
pub mod granted;
