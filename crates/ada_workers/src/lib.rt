//! The threads of a parallel construct on workers (5.5, 5.6.1): each on a view of its own, lent for the time of the
//! construct, or in order on one view. What a thread does is a path, of which only this much is asked: it keeps to its
//! view, and what it comes to is a function of the cells and of the looks that it has.
#![tactic(auto)]

mod construct;
mod dealing;
mod notes;
mod path;
mod tasks;
mod threads;

pub use construct::{Finished, Job, NoMemory, Over, run_construct};
pub use notes::ThreadNote;
pub use path::{Halt, Path, Stop};
pub use tasks::State;
pub use threads::{Frame, Thread, enter, leave, run_in_order, run_threads};
