//! The tree of a text's tokens, or their first fault; and the canonical text of a program.
#![tactic(auto)]

mod parser;
mod printer;

pub use parser::{ParseFault, parse};
pub use printer::print;
