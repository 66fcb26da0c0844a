//! What is proved of the effects that are inferred.

ghost use Rattle.check_inference.specs.Exact.{EffectsLaw};

/// A law of all programs.
/// - exact: the effects that are found of a program are exactly those of its texts (9.10.1): of each subprogram its names
///   of the main procedure's variables and its calls, and each parallel construct with what stands in it.
pub fn laws()
    ensures exact { EffectsLaw }
{}
