//! Sequences of statements, and bodies with handlers (5.1, 11.2).

ghost use Rattle.syntax_expressions.specs.Reading.{Reads};
ghost use Rattle.syntax_grammar.specs.Statements as statements;
ghost use Rattle.std.specs.Prelude.{◌∷◌};
ghost use Rattle.syntax_nodes.specs.Parts.{the_pack, the_stmts, the_handled, the_handler, the_handlers, the_body, IsPart, IsPack, IsStmts};
ghost use Rattle.syntax_nodes.specs.Rooted.{top, pop, second};
ghost use Rattle.syntax_nodes.specs.Stack.{Joins, parts};
ghost use Rattle.syntax_nodes.specs.Tables.{cell_value};

use crate::chains::{Chain, list};
use crate::compounds::stmt;
use crate::names::pack;
use ada_base::kinds::{AND, ARROW, BAR, EXCEPTION, OTHERS, THEN, WHEN};
use syntax_expressions::Parser;
use syntax_nodes::rooting::{put, taken};
use syntax_nodes::{Leaf, Node, Parts, Two, leaf, nothing, two};
use syntax_readers::Failure;

/// A sequence of statements (5.1).
#[cycle(list)]
#[tactic(auto, unfolding(syntax_grammar::specs::Statements::stmts))]
pub fn stmts(parser: &mut Parser<'_>, levels: u32) -> Result<(), Failure>
    ensures { Reads the_stmts IsStmts (parts parser.old.out) (statements.stmts levels (statements.stmt levels) parser.old.tokens) result parser.new.tokens (parts parser.new.out) }
{
    stmt(parser, levels)?;
    list(parser, levels, Chain::Stmts)?;
    two(&mut parser.out, Two::Stmts)
}

/// `then`, and the statements after it.
#[cycle(list)]
#[tactic(auto, unfolding(syntax_grammar::specs::Statements::then_stmts))]
pub fn then_stmts(parser: &mut Parser<'_>, levels: u32) -> Result<(), Failure>
    ensures { Reads the_stmts IsStmts (parts parser.old.out) (statements.then_stmts levels (statements.stmt levels) parser.old.tokens) result parser.new.tokens (parts parser.new.out) }
{
    parser.tokens.take(THEN)?;
    stmts(parser, levels)
}

/// `=>`, and the statements after it.
#[cycle(list)]
#[tactic(auto, unfolding(syntax_grammar::specs::Statements::arrow_stmts))]
pub fn arrow_stmts(parser: &mut Parser<'_>, levels: u32) -> Result<(), Failure>
    ensures { Reads the_stmts IsStmts (parts parser.old.out) (statements.arrow_stmts levels (statements.stmt levels) parser.old.tokens) result parser.new.tokens (parts parser.new.out) }
{
    parser.tokens.take(ARROW)?;
    stmts(parser, levels)
}

/// `and`, and the statements after it.
#[cycle(list)]
#[tactic(auto, unfolding(syntax_grammar::specs::Statements::and_stmts))]
pub fn and_stmts(parser: &mut Parser<'_>, levels: u32) -> Result<(), Failure>
    ensures { Reads the_stmts IsStmts (parts parser.old.out) (statements.and_stmts levels (statements.stmt levels) parser.old.tokens) result parser.new.tokens (parts parser.new.out) }
{
    parser.tokens.take(AND)?;
    stmts(parser, levels)
}

/// A bar and the name of an exception.
#[cycle(list)]
#[tactic(auto, unfolding(syntax_grammar::specs::Statements::next_exception))]
pub fn next_exception(parser: &mut Parser<'_>, levels: u32) -> Result<(), Failure>
    ensures { Reads the_pack IsPack (parts parser.old.out) (statements.next_exception parser.old.tokens) result parser.new.tokens (parts parser.new.out) }
{
    parser.tokens.take(BAR)?;
    pack(parser, levels)
}

/// What a handler handles (11.2).
#[cycle(list)]
#[tactic(auto, unfolding(syntax_grammar::specs::Statements::handled))]
pub fn handled(parser: &mut Parser<'_>, levels: u32) -> Result<(), Failure>
    ensures { Reads the_handled IsPart (parts parser.old.out) (statements.handled parser.old.tokens) result parser.new.tokens (parts parser.new.out) }
{
    if parser.tokens.peek() == OTHERS {
        let at = parser.tokens.take(OTHERS)?;
        return leaf(&mut parser.out, Leaf::AnyOther(at));
    }
    pack(parser, levels)?;
    list(parser, levels, Chain::Exceptions)?;
    two(&mut parser.out, Two::These)
}

/// A handler (11.2).
#[cycle(list)]
#[tactic(auto, unfolding(syntax_grammar::specs::Statements::handler))]
pub fn handler(parser: &mut Parser<'_>, levels: u32) -> Result<(), Failure>
    ensures { Reads the_handler IsPart (parts parser.old.out) (statements.handler levels (statements.stmt levels) parser.old.tokens) result parser.new.tokens (parts parser.new.out) }
{
    let at = parser.tokens.take(WHEN)?;
    handled(parser, levels)?;
    arrow_stmts(parser, levels)?;
    two(&mut parser.out, Two::Handler(at))
}

/// The latest part is a whole list, and the part below it goes before its items.
#[tactic(auto, unfolding(syntax_nodes::specs::Stack::parts))]
pub fn before(out: &mut Parts) -> Result<(), Failure>
    ensures { Joins result (parts out.new) (cell_value (second (parts out.old)) (top (parts out.old)) ∷ pop (pop (parts out.old))) }
{
    let list = taken(&out.nodes, &mut out.roots);
    let item = taken(&out.nodes, &mut out.roots);
    put(&mut out.nodes, &mut out.roots, Node::Cell(item, list))?;
    Ok(())
}

/// The handlers of a body (11.2).
#[cycle(list)]
#[tactic(auto, unfolding(syntax_grammar::specs::Statements::handlers))]
pub fn handlers(parser: &mut Parser<'_>, levels: u32) -> Result<(), Failure>
    ensures { Reads the_handlers IsPart (parts parser.old.out) (statements.handlers levels (statements.stmt levels) parser.old.tokens) result parser.new.tokens (parts parser.new.out) }
{
    parser.tokens.take(EXCEPTION)?;
    handler(parser, levels)?;
    list(parser, levels, Chain::Handlers)?;
    before(&mut parser.out)
}

/// A body: a handled sequence of statements (11.2).
#[cycle(list)]
#[tactic(auto, unfolding(syntax_grammar::specs::Statements::body))]
pub fn body(parser: &mut Parser<'_>, levels: u32) -> Result<(), Failure>
    ensures { Reads the_body IsPart (parts parser.old.out) (statements.body levels (statements.stmt levels) parser.old.tokens) result parser.new.tokens (parts parser.new.out) }
{
    stmts(parser, levels)?;
    if parser.tokens.peek() == EXCEPTION {
        handlers(parser, levels)?;
        return two(&mut parser.out, Two::Body);
    }
    nothing(&mut parser.out)?;
    two(&mut parser.out, Two::Body)
}
