//! Values of runs, what is computed from them alone, and cells of subtypes.
#![tactic(auto)]

pub mod ends;
pub mod subtypes;
pub mod values;

pub use ends::{End, Leave};
pub use subtypes::{cells_of, components, defaults_of};
pub use values::{
    Range, base_of, between, bit, compares, count, digits_in, divides, is_in, is_member, is_true,
    last_of, magnitude, modular_unary, negated, operated, overflows, result_of, unary_result,
};
