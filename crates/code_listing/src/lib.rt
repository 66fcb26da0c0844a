//! The text of code: a line for each instruction, unwind entry, site and subprogram.
#![tactic(auto)]

pub mod lines;
pub mod names;
pub mod operands;

pub use lines::listing;
