//! The loop that runs the machine on a program's code: it goes, puts output out, reads numbers, and gives the threads of
//! outermost constructs to workers (5.5, 5.6.1, A.10).
#![tactic(auto)]

mod asking;
mod ends;
mod looping;
mod running;

pub use ends::How;
pub use running::run_machine;
