//! Identifiers and names of packages (3.1, 4.1.3).

ghost use Rattle.syntax_expressions.specs.Reading.{Reads};
ghost use Rattle.syntax_grammar.specs.Declarations as declarations;
ghost use Rattle.syntax_grammar.specs.Statements as statements;
ghost use Rattle.syntax_readers.specs.Computes.{Computes};
ghost use Rattle.syntax_statements.specs.Reading.{JoinsToken};
ghost use Rattle.syntax_nodes.specs.Parts.{the_token, the_ids, the_pack, IsPart, IsPack};
ghost use Rattle.syntax_nodes.specs.Stack.{parts};

use crate::chains::{Chain, list};
use ada_base::kinds::{COMMA, IDENTIFIER, POINT};
use syntax_expressions::Parser;
use syntax_nodes::{Leaf, One, Parts, leaf, nothing, one};
use syntax_readers::{Cursor, Failure};

/// A comma and an identifier.
#[tactic(auto, unfolding(syntax_grammar::specs::Declarations::next_identifier))]
pub fn next_identifier(parser: &mut Parser<'_>) -> Result<(), Failure>
    ensures { Reads the_token IsPart (parts parser.old.out) (declarations.next_identifier parser.old.tokens) result parser.new.tokens (parts parser.new.out) }
{
    parser.tokens.take(COMMA)?;
    let at = parser.tokens.take(IDENTIFIER)?;
    leaf(&mut parser.out, Leaf::Token(at))
}

/// Defining identifiers (3.3.1).
#[cycle(list)]
#[tactic(auto, unfolding(syntax_grammar::specs::Declarations::ids))]
pub fn ids(parser: &mut Parser<'_>, levels: u32) -> Result<(), Failure>
    ensures { Reads the_ids IsPart (parts parser.old.out) (declarations.ids parser.old.tokens) result parser.new.tokens (parts parser.new.out) }
{
    let first = parser.tokens.take(IDENTIFIER)?;
    list(parser, levels, Chain::Identifiers)?;
    one(&mut parser.out, One::Ids(first))
}

/// A point and an identifier.
#[tactic(auto, unfolding(syntax_grammar::specs::Statements::next_name))]
pub fn next_name(parser: &mut Parser<'_>) -> Result<(), Failure>
    ensures { Reads the_token IsPart (parts parser.old.out) (statements.next_name parser.old.tokens) result parser.new.tokens (parts parser.new.out) }
{
    parser.tokens.take(POINT)?;
    let at = parser.tokens.take(IDENTIFIER)?;
    leaf(&mut parser.out, Leaf::Token(at))
}

/// The name of a package or an exception (4.1.3).
#[cycle(list)]
#[tactic(auto, unfolding(syntax_grammar::specs::Statements::pack))]
pub fn pack(parser: &mut Parser<'_>, levels: u32) -> Result<(), Failure>
    ensures { Reads the_pack IsPack (parts parser.old.out) (statements.pack parser.old.tokens) result parser.new.tokens (parts parser.new.out) }
{
    let first = parser.tokens.take(IDENTIFIER)?;
    list(parser, levels, Chain::Names)?;
    one(&mut parser.out, One::Pack(first))
}

/// An identifier, if there is one.
#[tactic(auto, unfolding(syntax_grammar::specs::Statements::maybe_identifier))]
pub fn maybe_identifier(tokens: &mut Cursor<'_>) -> Result<Option<u32>, Failure>
    ensures { Computes (statements.maybe_identifier tokens.old) result tokens.new }
{
    if tokens.peek() == IDENTIFIER {
        Ok(Some(tokens.take(IDENTIFIER)?))
    } else {
        Ok(None)
    }
}

/// A token or nothing.
pub fn join_identifier(out: &mut Parts, name: Option<u32>) -> Result<(), Failure>
    ensures { JoinsToken name result (parts out.new) (parts out.old) }
{
    match name {
        Some(at) => leaf(out, Leaf::Token(at)),
        None => nothing(out),
    }
}
