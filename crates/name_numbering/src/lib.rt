//! What is known of a text's tokens before the rules of names are judged, found: the numbers of identifiers, the values of
//! numbers, and the bytes of string literals.
#![tactic(auto)]

pub mod known;
pub mod naming;
pub mod symbols;
pub mod texts;
mod words;
