//! The state of a run, and what can be done to it.
#![tactic(auto)]

pub mod env;
pub mod objects;
pub mod operators;
pub mod store;

pub use env::{Env, ObjectPart};
pub use objects::{Mark, Object, Region};
pub use store::Store;
