//! Programs, context clauses and aspects (10.1, 13.1.1).

ghost use Rattle.syntax_expressions.specs.Reading.{Reads};
ghost use Rattle.syntax_grammar.specs.Units as units;
ghost use Rattle.syntax_readers.specs.Computes.{Computes};
ghost use Rattle.syntax_nodes.specs.Parts.{the_pack, the_policy, the_clause, the_aspect, the_unit, the_main, the_program, maybe_policy, maybe_aspect, IsPart, IsPack, IsPolicy, IsAspect};
ghost use Rattle.syntax_nodes.specs.Rooted.{top, pop};
ghost use Rattle.syntax_nodes.specs.Stack.{parts};

use crate::chains::{Chain, list};
use crate::declarations::decl;
use crate::names::{join_identifier, pack};
use crate::subprograms::{begins_sub, ended, sub};
use ada_base::kinds::{
    ARROW, CLOSE_ROUND, COMMA, IDENTIFIER, IS, OPEN_ROUND, PRAGMA, PROCEDURE, SEMICOLON, USE, WITH,
};
use syntax_expressions::{Parser, below, opens};
use syntax_nodes::{Four, Leaf, Three, Two, four, leaf, nothing, three, two};
use syntax_readers::{Cursor, Failure};
use syntax_tree::ClauseWord;

/// The name of a policy in its brackets.
#[tactic(auto, unfolding(syntax_grammar::specs::Units::open_policy_name))]
pub fn policy_opened(tokens: &mut Cursor<'_>) -> Result<u32, Failure>
    ensures { Computes (units.open_policy_name tokens.old) result tokens.new }
{
    tokens.take(OPEN_ROUND)?;
    let policy = tokens.take(IDENTIFIER)?;
    tokens.take(CLOSE_ROUND)?;
    Ok(policy)
}

/// The name of a policy in its brackets, where so many levels may still open.
#[tactic(auto, unfolding(syntax_grammar::specs::Units::policy_name))]
pub fn policy_name(tokens: &mut Cursor<'_>, levels: u32) -> Result<u32, Failure>
    ensures { Computes (units.policy_name levels tokens.old) result tokens.new }
{
    below(levels, opens(tokens, OPEN_ROUND))?;
    policy_opened(tokens)
}

/// A policy pragma (2.8).
#[tactic(auto, unfolding(syntax_grammar::specs::Units::policy))]
pub fn policy(parser: &mut Parser<'_>, levels: u32) -> Result<(), Failure>
    ensures { Reads the_policy IsPolicy (parts parser.old.out) (units.policy levels parser.old.tokens) result parser.new.tokens (parts parser.new.out) }
{
    let at = parser.tokens.take(PRAGMA)?;
    let mark = parser.tokens.take(IDENTIFIER)?;
    let policy = policy_name(&mut parser.tokens, levels)?;
    parser.tokens.take(SEMICOLON)?;
    leaf(&mut parser.out, Leaf::Policy(at, mark, policy))
}

/// A policy pragma, if there is one.
#[tactic(auto, unfolding(syntax_grammar::specs::Units::maybe_policy))]
pub fn optional_policy(parser: &mut Parser<'_>, levels: u32) -> Result<(), Failure>
    ensures { Reads maybe_policy IsPart (parts parser.old.out) (units.maybe_policy levels parser.old.tokens) result parser.new.tokens (parts parser.new.out) }
{
    if parser.tokens.peek() == PRAGMA {
        policy(parser, levels)
    } else {
        nothing(&mut parser.out)
    }
}

/// The word of a context clause, and its token (8.4, 10.1.2).
#[tactic(auto, unfolding(syntax_grammar::specs::Units::clause_word))]
pub fn clause_word(tokens: &mut Cursor<'_>) -> Result<(ClauseWord, u32), Failure>
    ensures { Computes (units.clause_word tokens.old) result tokens.new }
{
    if tokens.peek() == WITH {
        let at = tokens.take(WITH)?;
        Ok((ClauseWord::With, at))
    } else {
        let at = tokens.take(USE)?;
        Ok((ClauseWord::Use, at))
    }
}

/// A comma and the name of a package.
#[cycle(list)]
#[tactic(auto, unfolding(syntax_grammar::specs::Units::next_pack))]
pub fn next_pack(parser: &mut Parser<'_>, levels: u32) -> Result<(), Failure>
    ensures { Reads the_pack IsPack (parts parser.old.out) (units.next_pack parser.old.tokens) result parser.new.tokens (parts parser.new.out) }
{
    parser.tokens.take(COMMA)?;
    pack(parser, levels)
}

/// A context clause (10.1.2).
#[cycle(list)]
#[tactic(auto, unfolding(syntax_grammar::specs::Units::clause))]
pub fn clause(parser: &mut Parser<'_>, levels: u32) -> Result<(), Failure>
    ensures { Reads the_clause IsPart (parts parser.old.out) (units.clause parser.old.tokens) result parser.new.tokens (parts parser.new.out) }
{
    let (word, at) = clause_word(&mut parser.tokens)?;
    pack(parser, levels)?;
    list(parser, levels, Chain::Packs)?;
    parser.tokens.take(SEMICOLON)?;
    two(&mut parser.out, Two::Clause(word, at))
}

/// The value of an aspect, if there is one.
#[tactic(auto, unfolding(syntax_grammar::specs::Units::aspect_value))]
pub fn aspect_value(tokens: &mut Cursor<'_>) -> Result<Option<u32>, Failure>
    ensures { Computes (units.aspect_value tokens.old) result tokens.new }
{
    if tokens.peek() == ARROW {
        tokens.take(ARROW)?;
        let value = tokens.take(IDENTIFIER)?;
        Ok(Some(value))
    } else {
        Ok(None)
    }
}

/// An aspect specification (13.1.1).
#[tactic(auto, unfolding(syntax_grammar::specs::Units::aspect))]
pub fn aspect(parser: &mut Parser<'_>) -> Result<(), Failure>
    ensures { Reads the_aspect IsAspect (parts parser.old.out) (units.aspect parser.old.tokens) result parser.new.tokens (parts parser.new.out) }
{
    let at = parser.tokens.take(WITH)?;
    let mark = parser.tokens.take(IDENTIFIER)?;
    let value = aspect_value(&mut parser.tokens)?;
    leaf(&mut parser.out, Leaf::Aspect(at, mark, value))
}

/// An aspect specification, if there is one.
#[tactic(auto, unfolding(syntax_grammar::specs::Units::maybe_aspect))]
pub fn optional_aspect(parser: &mut Parser<'_>) -> Result<(), Failure>
    ensures { Reads maybe_aspect IsPart (parts parser.old.out) (units.maybe_aspect parser.old.tokens) result parser.new.tokens (parts parser.new.out) }
{
    if parser.tokens.peek() == WITH {
        aspect(parser)
    } else {
        nothing(&mut parser.out)
    }
}

/// A declaration or a subprogram.
#[cycle(list)]
#[tactic(auto, unfolding(syntax_grammar::specs::Units::unit))]
pub fn unit(parser: &mut Parser<'_>, levels: u32) -> Result<(), Failure>
    ensures { Reads the_unit IsPart (parts parser.old.out) (units.unit levels parser.old.tokens) result parser.new.tokens (parts parser.new.out) }
{
    if begins_sub(parser.tokens.peek()) {
        sub(parser, levels)
    } else {
        decl(parser, levels)
    }
}

/// The main procedure, after its aspect (10.2).
#[tactic(auto, unfolding(syntax_grammar::specs::Units::main_is))]
pub fn main_is(parser: &mut Parser<'_>, levels: u32, at: u32, defined: u32) -> Result<(), Failure>
    ensures { Reads the_main IsPart (pop (parts parser.old.out)) (units.main_is levels at defined (maybe_aspect (top (parts parser.old.out))) parser.old.tokens) result parser.new.tokens (parts parser.new.out) }
{
    parser.tokens.take(IS)?;
    list(parser, levels, Chain::Units)?;
    let last_name = ended(parser, levels)?;
    join_identifier(&mut parser.out, last_name)?;
    four(&mut parser.out, Four::Main(at, defined))
}

/// The main procedure (10.2).
#[tactic(auto, unfolding(syntax_grammar::specs::Units::main))]
pub fn main_procedure(parser: &mut Parser<'_>, levels: u32) -> Result<(), Failure>
    ensures { Reads the_main IsPart (parts parser.old.out) (units.main levels parser.old.tokens) result parser.new.tokens (parts parser.new.out) }
{
    let at = parser.tokens.take(PROCEDURE)?;
    let defined = parser.tokens.take(IDENTIFIER)?;
    optional_aspect(parser)?;
    main_is(parser, levels, at, defined)
}

/// A program (10.1).
#[tactic(auto, unfolding(syntax_grammar::specs::Units::program))]
pub fn program(parser: &mut Parser<'_>, levels: u32) -> Result<(), Failure>
    ensures { Reads the_program IsPart (parts parser.old.out) (units.program levels parser.old.tokens) result parser.new.tokens (parts parser.new.out) }
{
    optional_policy(parser, levels)?;
    list(parser, levels, Chain::Clauses)?;
    main_procedure(parser, levels)?;
    three(&mut parser.out, Three::Program)
}
