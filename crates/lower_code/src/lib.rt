//! Lowering: the code that stands for a typed program, computed.
#![tactic(auto)]

pub mod blocks;
pub mod bodies;
pub mod body_tables;
pub mod defaults;
pub mod exits;
pub mod forks;
pub mod gathering;
pub mod idle;
pub mod loops;
pub mod lowering;
pub mod output;
pub mod parallel;
pub mod simple;
pub mod stmts;
pub mod tables;
