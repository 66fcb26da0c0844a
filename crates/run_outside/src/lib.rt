//! The outside of a run.
#![tactic(auto)]

pub mod outside;

pub use outside::{Port, Ports};
