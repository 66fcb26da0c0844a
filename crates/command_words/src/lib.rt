//! The words of the program: which mode, file and setting they ask for.
#![tactic(auto)]

pub mod examples;
pub mod request;
mod values;
pub mod words;

pub use request::{Mode, Request, WordsFault};
pub use words::read;
