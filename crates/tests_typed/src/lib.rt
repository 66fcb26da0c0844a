//! Tests of typed programs that are joined of their parts and read again. They stand apart, since a crate with tests is
//! proved twice, and the joining takes long to prove.
#![tactic(auto)]

#[cfg(test)]
mod moduli;
#[cfg(test)]
mod readings;
#[cfg(test)]
mod tests;
