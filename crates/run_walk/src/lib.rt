//! Runs of typed programs: a walk over the nodes of a program, its threads in order.
#![tactic(auto, unfolding(ada_meaning::specs::Stored::bind, ada_meaning::specs::Stored::ret, ada_meaning::specs::Stored::leaves, ada_meaning::specs::Stored::spent, ada_meaning::specs::Stored::handles))]

mod actuals;
mod bodies;
mod calls;
mod chains;
mod constructs;
mod courses;
mod exprs;
mod folds;
mod loops;
mod names;
mod paths;
mod quick;
mod runs;
mod scalars;
mod stmts;
mod texts;
mod values;

pub use run_parts::{Paths, SoundPlan, Work};
pub use runs::run;
