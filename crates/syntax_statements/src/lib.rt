//! The parser of declarations, statements and programs (10.1).
//!
//! It is made as that of expressions: each function reads one rule, and what it read is the latest part of
//! [`syntax_expressions::Parser::out`]. [`program`] reads a whole text's tokens.
#![tactic(auto)]

mod bodies;
mod chains;
mod compounds;
mod declarations;
mod loops;
mod names;
mod parallels;
mod statements;
mod subprograms;
mod types;
mod units;

pub use units::program;
