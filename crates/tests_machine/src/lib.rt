//! Tests of the stack code, the machine and reductions. They stand apart, since a crate with tests is proved twice.
//!
//! The tables in `proofs/` say of each instruction what it comes to: `ada_machine` runs exactly what its definition says.
#![tactic(auto)]

#[cfg(test)]
mod listings;
#[cfg(test)]
mod reductions;
#[cfg(test)]
mod validity;
