//! Tests of runs of whole programs. They stand apart, since a crate with tests is proved twice, and the interpreter takes
//! long to prove.
#![tactic(auto)]

#[cfg(test)]
mod tests;
