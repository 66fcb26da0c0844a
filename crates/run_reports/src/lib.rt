//! What is said of a run: how it ended, the status, the line on err, and the lines of the main procedure's variables.
#![tactic(auto)]

mod ends;
mod report;
mod status;
mod vars;

pub use ends::{CellKind, Final, Finals, RunEnd};
pub use report::{
    say, say_out_of_memory, say_raised, say_read_fault, say_spent, say_unreadable, say_usage,
    say_write_fault,
};
pub use status::Status;
pub use vars::{Unput, put_vars, rows};
