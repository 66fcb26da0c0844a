//! How typed programs are built: their parts are joined in a table of nodes, from the latest on, and each function says
//! of plain abstract syntax what it makes of them.
#![tactic(auto)]

mod parts;

pub use parts::{Finished, Parts};
