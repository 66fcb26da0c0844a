//! Lowering of expressions: the code that stands for the expressions, values and calls of a typed program, computed.
#![tactic(auto)]

pub mod aggregates;
pub mod calls;
pub mod cells;
pub mod emitter;
pub mod env;
pub mod exprs;
pub mod instrs;
pub mod iterations;
pub mod kinds;
pub mod reductions;
pub mod repeats;
pub mod rounds;
pub mod runs;
pub mod texts;
pub mod types;
