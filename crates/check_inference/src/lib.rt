//! The effects of texts (9.10.1): what each parallel construct and each subprogram of a typed program touches, and what it
//! calls.
//!
//! `infer` walks once over each body, and once more over the text of each parallel construct for every construct around it.
//! Calls stay calls: what a subprogram touches is listed once, at its number, however often it is called.
#![tactic(auto)]

pub mod environment;
pub mod exprs;
pub mod gathering;
pub mod infer;
pub mod laws;
pub mod paths;
pub mod source;
pub mod stmts;
pub mod texts;
