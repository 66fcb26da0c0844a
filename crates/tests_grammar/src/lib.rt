//! Examples of the grammar, and of programs that are too deep.
#![tactic(auto)]

ghost use Rattle.std.specs.Prelude.{All};
ghost use Rattle.tests_grammar.specs.Depths as depth;
ghost use Rattle.tests_grammar.specs.Depths.{IsTooDeepAt, IsReadWithin};
ghost use Rattle.tests_grammar.specs.Examples.{IsDerived, IsMissed, examples};

/// Examples of each rule of the grammar, and of most of its alternatives: the tree, which was written by hand,
/// derives the kinds. And after a change of one of them, which is then another, left out or added, they are no
/// program, and their first fault is at the place that was found by hand.
pub fn known_trees()
    ensures derived { All IsDerived examples }
    ensures missed { All IsMissed examples }
{}

/// Programs with statements, subprograms and each kind of bracket: where the first token is that stands deeper
/// than a limit, as it was found by hand, and a limit within which there is a tree.
pub fn known_depths()
    ensures deep { All IsTooDeepAt depth.rows }
    ensures read { All IsReadWithin depth.rows }
{}
