//! The readers of the grammar are exact at each limit of depth, and a list of kinds of tokens has one tree at most.
#![tactic(auto)]

ghost use Rattle.std.specs.Prelude.{◌≡◌, ℕ, List};
ghost use Rattle.ada_base.specs.Symbols.{numbered};
ghost use Rattle.ada_base.specs.declared.token.Token.{Token};
ghost use Rattle.syntax_tree.specs.Grammar.{Derives, IsTreeOf, ProgramWords};
ghost use Rattle.syntax_tree.specs.Syntax.{Program};
ghost use Rattle.syntax_grammar.specs.Units.{program};
ghost use Rattle.syntax_readers.specs.Verdicts.{RightAnswer};

/// A list of kinds of tokens has at most one tree, however deep it is, and so has a text's list of tokens.
pub fn one_tree()
    ensures kinds { (kinds : List ℕ) (a b : Program) → Derives kinds a → Derives kinds b → a ≡ b }
    ensures tokens { (tokens : List Token) (a b : Program) → IsTreeOf tokens a → IsTreeOf tokens b → a ≡ b }
{}

/// What the reader of programs answers to a list of kinds is right at each limit of depth: the tree that
/// derives it within the limit exactly where there is one, and else the first fault or the first token that
/// is too deep, whichever stands first.
pub fn exact_readers()
    ensures { (limit : ℕ) (kinds : List ℕ) → RightAnswer limit ProgramWords kinds (program limit (numbered 0 kinds)) }
{}
