//! From a text to its run.
#![tactic(auto)]

mod compiler;
mod kept;
mod naming;
mod note;
mod refusal;
mod runner;
mod shapes;
mod unit;
mod units;

pub use compiler::{built_stands, compile, one_answer};
pub use note::Note;
pub use refusal::Refusal;
pub use run_reports::{Final, Finals, RunEnd};
pub use runner::{Ran, execute};
pub use unit::Unit;
