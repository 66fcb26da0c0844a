//! Statements without statements in them (5.1).

ghost use Rattle.syntax_expressions.specs.Reading.{Reads};
ghost use Rattle.syntax_grammar.specs.Statements as statements;
ghost use Rattle.syntax_readers.specs.Computes.{Computes};
ghost use Rattle.syntax_nodes.specs.Parts.{the_stmt, the_name, IsPart};
ghost use Rattle.syntax_nodes.specs.Rooted.{top, pop};
ghost use Rattle.syntax_nodes.specs.Stack.{parts};

use crate::names::{maybe_identifier, pack};
use ada_base::kinds::{ASSIGN, END, EXIT, NULL, RAISE, RETURN, SEMICOLON};
use syntax_expressions::{Parser, expr, filter};
use syntax_nodes::{Leaf, One, Two, leaf, nothing, one, two};
use syntax_readers::{Cursor, Failure};

/// The end of a compound statement that repeats its first word.
#[tactic(auto, unfolding(syntax_grammar::specs::Statements::closing))]
pub fn closing(tokens: &mut Cursor<'_>, word: u16) -> Result<u32, Failure>
    ensures { Computes (statements.closing word tokens.old) result tokens.new }
{
    tokens.take(END)?;
    tokens.take(word)?;
    tokens.take(SEMICOLON)
}

/// A null statement (5.1).
#[tactic(auto, unfolding(syntax_grammar::specs::Statements::null))]
pub fn null(parser: &mut Parser<'_>) -> Result<(), Failure>
    ensures { Reads the_stmt IsPart (parts parser.old.out) (statements.null parser.old.tokens) result parser.new.tokens (parts parser.new.out) }
{
    let at = parser.tokens.take(NULL)?;
    parser.tokens.take(SEMICOLON)?;
    leaf(&mut parser.out, Leaf::Null(at))
}

/// A raise statement, after `raise` (11.3).
#[cycle(list)]
#[tactic(auto, unfolding(syntax_grammar::specs::Statements::raise_from))]
pub fn raise_from(parser: &mut Parser<'_>, levels: u32, at: u32) -> Result<(), Failure>
    ensures { Reads the_stmt IsPart (parts parser.old.out) (statements.raise_from at parser.old.tokens) result parser.new.tokens (parts parser.new.out) }
{
    if parser.tokens.peek() == SEMICOLON {
        parser.tokens.take(SEMICOLON)?;
        nothing(&mut parser.out)?;
        return one(&mut parser.out, One::Raise(at));
    }
    pack(parser, levels)?;
    parser.tokens.take(SEMICOLON)?;
    one(&mut parser.out, One::Raise(at))
}

/// A raise statement (11.3).
#[cycle(list)]
#[tactic(auto, unfolding(syntax_grammar::specs::Statements::raise))]
pub fn raise(parser: &mut Parser<'_>, levels: u32) -> Result<(), Failure>
    ensures { Reads the_stmt IsPart (parts parser.old.out) (statements.raise parser.old.tokens) result parser.new.tokens (parts parser.new.out) }
{
    let at = parser.tokens.take(RAISE)?;
    raise_from(parser, levels, at)
}

/// An exit statement (5.7).
#[tactic(auto, unfolding(syntax_grammar::specs::Statements::exit))]
pub fn exit(parser: &mut Parser<'_>, levels: u32) -> Result<(), Failure>
    ensures { Reads the_stmt IsPart (parts parser.old.out) (statements.exit levels parser.old.tokens) result parser.new.tokens (parts parser.new.out) }
{
    let at = parser.tokens.take(EXIT)?;
    let from = maybe_identifier(&mut parser.tokens)?;
    filter(parser, levels)?;
    parser.tokens.take(SEMICOLON)?;
    one(&mut parser.out, One::Exit(at, from))
}

/// A return statement, after `return` (6.5).
#[tactic(auto, unfolding(syntax_grammar::specs::Statements::return_from))]
pub fn return_from(parser: &mut Parser<'_>, levels: u32, at: u32) -> Result<(), Failure>
    ensures { Reads the_stmt IsPart (parts parser.old.out) (statements.return_from levels at parser.old.tokens) result parser.new.tokens (parts parser.new.out) }
{
    if parser.tokens.peek() == SEMICOLON {
        parser.tokens.take(SEMICOLON)?;
        nothing(&mut parser.out)?;
        return one(&mut parser.out, One::Return(at));
    }
    expr(parser, levels)?;
    parser.tokens.take(SEMICOLON)?;
    one(&mut parser.out, One::Return(at))
}

/// A return statement (6.5).
#[tactic(auto, using(crate::proofs::Returns::return_is))]
pub fn returning(parser: &mut Parser<'_>, levels: u32) -> Result<(), Failure>
    ensures { Reads the_stmt IsPart (parts parser.old.out) (statements.return levels parser.old.tokens) result parser.new.tokens (parts parser.new.out) }
{
    let at = parser.tokens.take(RETURN)?;
    return_from(parser, levels, at)
}

/// An assignment, after its target (5.2).
#[tactic(auto, unfolding(syntax_grammar::specs::Statements::assigned))]
pub fn assigned(parser: &mut Parser<'_>, levels: u32) -> Result<(), Failure>
    ensures { Reads the_stmt IsPart (pop (parts parser.old.out)) (statements.assigned levels (the_name (top (parts parser.old.out))) parser.old.tokens) result parser.new.tokens (parts parser.new.out) }
{
    parser.tokens.take(ASSIGN)?;
    expr(parser, levels)?;
    parser.tokens.take(SEMICOLON)?;
    two(&mut parser.out, Two::Assign)
}
