//! The laws of readers: what a reader of tokens that is made of a few combinators gives, and which
//! conditions, each decided by computation, make it exact for a grammar.
//!
//! The laws are in `proofs/`, over the definitions in `specs/`. The code here is what a parser needs so that
//! its functions give what such a reader gives: a cursor over tokens, and the answer in the end.
//! `example` is a whole parser.
#![tactic(auto)]

pub mod cursor;
pub mod example;
pub mod failure;

pub use cursor::Cursor;
pub use failure::{Failure, Refusal, verdict};
