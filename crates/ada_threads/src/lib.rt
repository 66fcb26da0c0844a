//! What the threads of a parallel construct are made of on the machine (4.5.10, 5.5, 5.6.1): how iterations are dealt to them,
//! what their frames begin with, how each runs, what their accumulators come to, and what a machine that stopped left behind.
#![tactic(auto)]

mod combining;
mod combs;
mod cutting;
mod inside;
mod iterations;
mod path;
mod pursuing;
mod regions;
mod settling;
mod shares;
mod site;
mod tally;
mod thread;
mod views;
mod way;

pub use combining::answer_of;
pub use cutting::sizes_of;
pub use iterations::{Iterations, frame_of};
pub use settling::settle;
pub use shares::threads_of;
pub use site::{Crew, Told, run_site};
pub use thread::{MachineThread, Team};
pub use views::laws;
pub use way::Way;
