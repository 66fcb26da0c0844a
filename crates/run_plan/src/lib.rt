//! How the iterations of a parallel construct are divided into chunks (ISO/IEC 8652:2023, 5.5 and 5.6.1):
//! evenly, or as the plan of a run says.
#![tactic(auto)]

pub mod even_division;
pub mod plan;
pub mod plan_cuts;

pub use even_division::{Range, even};
pub use plan::{Cuts, Plan, Setting};
pub use plan_cuts::{cuts, evenly};
