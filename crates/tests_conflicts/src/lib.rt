//! Tests of the rules on conflicts (9.10.1) and of what threads are granted, on programs that are joined from parts. They
//! stand apart, since a crate with tests is proved twice, and who judges conflicts joins no parts.
#![tactic(auto)]

#[cfg(test)]
mod tests;
