//! Tests of the rule on nonblocking text (9.5), on programs that are joined from parts. They stand apart, since a crate
//! with tests is proved twice, and who checks the rule joins no parts.
#![tactic(auto)]

#[cfg(test)]
mod tests;
