//! The top call: what the words ask for is done.
#![tactic(auto)]

mod run;
mod soak;
mod top;

pub use top::{Finished, run_words};
