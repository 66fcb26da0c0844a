//! What a run is of.

ghost use Rattle.run_parts.specs.Paths.{AreOf};
ghost use Rattle.run_parts.specs.PathProps.{AreOf-prop};

use crate::paths::Paths;
use crate::plans::SoundPlan;
use std::alloc::Global;
use typed_tree::Typed;

/// A program with its paths, the plan of its parallel constructs, and the limit of its turns.
#[derive(Clone, Copy)]
pub struct Work<'a> {
    pub typed: &'a Typed,
    pub paths: &'a Paths,
    pub plan: &'a SoundPlan,
    pub limit: u64,
    pub alloc: Global,
    pub ghost are_of: { AreOf typed.now.nodes paths.now } by { AreOf-prop typed.now.nodes paths.now },
}
