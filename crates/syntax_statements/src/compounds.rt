//! If and case statements, and statements in general (5.1, 5.3, 5.4).

ghost use Rattle.ada_base.specs.Symbols.{is_member};
ghost use Rattle.syntax_expressions.specs.Reading.{Reads};
ghost use Rattle.syntax_grammar.specs.Statements as statements;
ghost use Rattle.std.specs.Prelude.{◌≡◌};
ghost use Rattle.syntax_nodes.specs.Parts.{the_stmt, the_name, the_arm, the_alt, optional_stmts, IsPart, IsName};
ghost use Rattle.syntax_nodes.specs.Rooted.{top, pop};
ghost use Rattle.syntax_nodes.specs.Stack.{parts};

use crate::bodies::{arrow_stmts, stmts, then_stmts};
use crate::chains::{Chain, list};
use crate::loops::{for_from, labelled, loop_from, while_from};
use crate::parallels::{block_from, declaring, parallel_stmt};
use crate::statements::{assigned, closing, exit, null, raise, returning};
use ada_base::kinds::{
    ASSIGN, BEGIN, CASE, DECLARE, ELSE, ELSIF, EXIT, FOR, IDENTIFIER, IF, IS, LOOP, NULL, PARALLEL,
    RAISE, RETURN, SEMICOLON, WHEN, WHILE,
};
use syntax_expressions::{Parser, below, choice, expr, name};
use syntax_nodes::{Four, One, Three, Two, bare, four, leave_out, nothing, one, three, two};
use syntax_readers::Failure;

/// An `elsif` part (5.3).
#[cycle(list)]
#[tactic(auto, unfolding(syntax_grammar::specs::Statements::arm))]
pub fn arm(parser: &mut Parser<'_>, levels: u32) -> Result<(), Failure>
    ensures { Reads the_arm IsPart (parts parser.old.out) (statements.arm levels (statements.stmt levels) parser.old.tokens) result parser.new.tokens (parts parser.new.out) }
{
    let at = parser.tokens.take(ELSIF)?;
    expr(parser, levels)?;
    then_stmts(parser, levels)?;
    two(&mut parser.out, Two::Arm(at))
}

/// The statements after `else`, if they are there (5.3).
#[cycle(list)]
#[tactic(auto, unfolding(syntax_grammar::specs::Statements::otherwise))]
pub fn otherwise(parser: &mut Parser<'_>, levels: u32) -> Result<(), Failure>
    ensures { Reads optional_stmts IsPart (parts parser.old.out) (statements.otherwise levels (statements.stmt levels) parser.old.tokens) result parser.new.tokens (parts parser.new.out) }
{
    if parser.tokens.peek() == ELSE {
        parser.tokens.take(ELSE)?;
        stmts(parser, levels)
    } else {
        nothing(&mut parser.out)
    }
}

/// An if statement (5.3).
#[cycle(list)]
#[tactic(auto, unfolding(syntax_grammar::specs::Statements::conditional))]
pub fn conditional(parser: &mut Parser<'_>, levels: u32) -> Result<(), Failure>
    ensures { Reads the_stmt IsPart (parts parser.old.out) (statements.conditional levels (statements.stmt levels) parser.old.tokens) result parser.new.tokens (parts parser.new.out) }
{
    let at = parser.tokens.take(IF)?;
    expr(parser, levels)?;
    then_stmts(parser, levels)?;
    list(parser, levels, Chain::Arms)?;
    otherwise(parser, levels)?;
    closing(&mut parser.tokens, IF)?;
    four(&mut parser.out, Four::IfStmt(at))
}

/// An alternative of a case statement (5.4).
#[cycle(list)]
#[tactic(auto, unfolding(syntax_grammar::specs::Statements::alt))]
pub fn alt(parser: &mut Parser<'_>, levels: u32) -> Result<(), Failure>
    ensures { Reads the_alt IsPart (parts parser.old.out) (statements.alt levels (statements.stmt levels) parser.old.tokens) result parser.new.tokens (parts parser.new.out) }
{
    let at = parser.tokens.take(WHEN)?;
    choice(parser, levels)?;
    list(parser, levels, Chain::Choices)?;
    arrow_stmts(parser, levels)?;
    three(&mut parser.out, Three::Alt(at))
}

/// A case statement (5.4).
#[cycle(list)]
#[tactic(auto, unfolding(syntax_grammar::specs::Statements::selection))]
pub fn selection(parser: &mut Parser<'_>, levels: u32) -> Result<(), Failure>
    ensures { Reads the_stmt IsPart (parts parser.old.out) (statements.selection levels (statements.stmt levels) parser.old.tokens) result parser.new.tokens (parts parser.new.out) }
{
    let at = parser.tokens.take(CASE)?;
    expr(parser, levels)?;
    parser.tokens.take(IS)?;
    alt(parser, levels)?;
    list(parser, levels, Chain::Alts)?;
    closing(&mut parser.tokens, CASE)?;
    three(&mut parser.out, Three::Case(at))
}

/// A statement, after the name with which it begins.
#[cycle(list)]
#[tactic(auto, unfolding(syntax_grammar::specs::Statements::named_from, syntax_tree::specs::Joining::bare_identifier, syntax_tree::specs::Joining::bare_name))]
pub fn named_from(parser: &mut Parser<'_>, levels: u32) -> Result<(), Failure>
    requires { IsName (top (parts parser.old.out)) }
    ensures { Reads the_stmt IsPart (pop (parts parser.old.out)) (statements.named_from levels (statements.stmt levels) (the_name (top (parts parser.old.out))) parser.old.tokens) result parser.new.tokens (parts parser.new.out) }
{
    match parser.tokens.peek() {
        ASSIGN => assigned(parser, levels),
        SEMICOLON => {
            parser.tokens.take(SEMICOLON)?;
            one(&mut parser.out, One::CallStmt)
        }
        _ => match bare(&parser.out) {
            Some(label) => {
                leave_out(&mut parser.out);
                labelled(parser, levels, label)
            }
            None => Err(Failure::Unexpected),
        },
    }
}

/// A statement that begins with a name.
#[cycle(list)]
#[tactic(auto, unfolding(syntax_grammar::specs::Statements::named))]
pub fn named(parser: &mut Parser<'_>, levels: u32) -> Result<(), Failure>
    ensures { Reads the_stmt IsPart (parts parser.old.out) (statements.named levels (statements.stmt levels) parser.old.tokens) result parser.new.tokens (parts parser.new.out) }
{
    name(parser, levels)?;
    named_from(parser, levels)
}

/// A statement with others in it (5.1).
#[cycle(list)]
#[tactic(auto, unfolding(syntax_grammar::specs::Statements::compound))]
pub fn compound(parser: &mut Parser<'_>, levels: u32) -> Result<(), Failure>
    ensures { Reads the_stmt IsPart (parts parser.old.out) (statements.compound levels (statements.stmt levels) parser.old.tokens) result parser.new.tokens (parts parser.new.out) }
{
    match parser.tokens.peek() {
        IF => conditional(parser, levels),
        CASE => selection(parser, levels),
        WHILE => {
            nothing(&mut parser.out)?;
            while_from(parser, levels)
        }
        FOR => {
            nothing(&mut parser.out)?;
            nothing(&mut parser.out)?;
            for_from(parser, levels)
        }
        PARALLEL => parallel_stmt(parser, levels),
        LOOP => {
            nothing(&mut parser.out)?;
            nothing(&mut parser.out)?;
            loop_from(parser, levels)
        }
        DECLARE => declaring(parser, levels),
        _ => {
            nothing(&mut parser.out)?;
            block_from(parser, levels)
        }
    }
}

/// A statement (5.1).
#[cycle(list)]
#[tactic(auto, unfolding(syntax_grammar::specs::Statements::open_stmt))]
pub fn stmt_opened(parser: &mut Parser<'_>, levels: u32) -> Result<(), Failure>
    ensures { Reads the_stmt IsPart (parts parser.old.out) (statements.open_stmt levels (statements.stmt levels) parser.old.tokens) result parser.new.tokens (parts parser.new.out) }
{
    match parser.tokens.peek() {
        NULL => null(parser),
        IDENTIFIER => named(parser, levels),
        EXIT => exit(parser, levels),
        RETURN => returning(parser, levels),
        RAISE => raise(parser, levels),
        _ => compound(parser, levels),
    }
}

/// Whether a statement begins with a token of this kind.
pub fn begins_stmt(kind: u16) -> bool
    ensures { result ≡ is_member statements.stmt_kinds kind }
{
    matches!(
        kind,
        NULL | IDENTIFIER
            | EXIT
            | RETURN
            | RAISE
            | IF
            | CASE
            | WHILE
            | FOR
            | PARALLEL
            | LOOP
            | DECLARE
            | BEGIN
    )
}

/// A statement, where so many levels may still open.
#[cycle(list)]
#[tactic(auto, unfolding(syntax_grammar::specs::Statements::stmt))]
pub fn stmt(parser: &mut Parser<'_>, levels: u32) -> Result<(), Failure>
    ensures { Reads the_stmt IsPart (parts parser.old.out) (statements.stmt levels parser.old.tokens) result parser.new.tokens (parts parser.new.out) }
{
    let inner = below(levels, begins_stmt(parser.tokens.peek()))?;
    stmt_opened(parser, inner)
}
