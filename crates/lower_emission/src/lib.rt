//! The definition of the code that stands for a typed program, as plain data, and its law; and small programs with their
//! code, which was worked out by hand.
#![tactic(auto)]

ghost use Rattle.lower_emission.specs.BodyRows.{BodyRows};
ghost use Rattle.lower_emission.specs.ConstructRows.{ConstructRows};
ghost use Rattle.lower_emission.specs.Laws.{WrittenLaw};
ghost use Rattle.lower_emission.specs.LoopRows.{LoopRows};
ghost use Rattle.lower_emission.specs.StatementRows.{StatementRows};
ghost use Rattle.lower_emission.specs.ThreadRows.{ThreadRows};
ghost use Rattle.lower_emission.specs.ValueRows.{ValueRows};

pub mod types;

/// What is written behind other code is what stands there.
#[tactic(auto, using(crate::proofs::Written::written_law))]
pub fn laws()
    ensures written { WrittenLaw }
{}

/// Programs have the code that is written beside them in `specs`, with its tables: each construct once, its jumps, checks
/// and heights.
pub fn rows()
    ensures statements { StatementRows }
    ensures values { ValueRows }
    ensures loops { LoopRows }
    ensures bodies { BodyRows }
    ensures constructs { ConstructRows }
    ensures threads { ThreadRows }
{}
