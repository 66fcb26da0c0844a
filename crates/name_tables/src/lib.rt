//! The tables of a typed program, of what was found of a program without a fault.
#![tactic(auto)]

pub mod heads;
pub mod subtypes;
pub mod tables;
