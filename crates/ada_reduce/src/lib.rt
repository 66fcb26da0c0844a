//! Reductions by operators (4.5.10): folds of values, and of the accumulators of chunks.
#![tactic(auto)]

mod folds;

pub use folds::{combine, fold, reassociation_law};
