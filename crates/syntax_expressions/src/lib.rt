//! The parser of names and expressions (4.1, 4.4), and of what stands in brackets.
//!
//! Each function reads one rule of the grammar: it takes tokens from [`Parser::tokens`], and what it read is then the
//! latest part of [`Parser::out`]. A function that reads on from a part takes the latest one. Its contract says that it
//! gives what the reader of its name in `syntax_grammar` gives, and stops where that stops. So many `levels` may still
//! open; the functions that open one take one less.
#![tactic(auto)]

mod aggregates;
mod brackets;
mod chains;
mod expressions;
mod iterations;
mod levels;
mod operators;
mod parser;
mod ranges;
mod squares;

pub use aggregates::{choice, next_choice};
pub use expressions::{expr, name, simple};
pub use iterations::{filter, iter, parallel};
pub use levels::{below, chunk, opens};
pub use parser::Parser;
pub use ranges::{constraint, range};
