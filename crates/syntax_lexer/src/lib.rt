//! The tokens of a text, or its first lexical fault.
#![tactic(auto)]

mod characters;
pub mod fault;
mod found;
mod gap;
mod mark;
mod name;
mod next;
mod number;
mod quoted;
mod stop;
pub mod text;
mod token;
mod tokens;

pub use fault::LexFault;
pub use text::{lex, one_answer};
