//! The test that code fits together: what an instruction takes, gives and leads to, and where it may stand; what the tables
//! hold, and what unwind entries guard.
#![tactic(auto)]

pub mod belonging;
pub mod bodies;
pub mod fitting;
pub mod operands;
pub mod ranges;
pub mod slack;
pub mod tables;
pub mod validity;

pub use validity::validate;
