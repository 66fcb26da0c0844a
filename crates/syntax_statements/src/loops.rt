//! Loops (5.5).

ghost use Rattle.syntax_expressions.specs.Reading.{Reads, ReadsForm};
ghost use Rattle.syntax_grammar.specs.Statements as statements;
ghost use Rattle.syntax_statements.specs.Reading.{loop_ended, AnyToken};
ghost use Rattle.syntax_nodes.specs.Parts.{the_stmt, maybe_token, maybe_parallel, maybe_scheme, IsPart};
ghost use Rattle.syntax_nodes.specs.Rooted.{top, pop, second};
ghost use Rattle.syntax_nodes.specs.Stack.{parts};

use crate::bodies::stmts;
use crate::names::{join_identifier, maybe_identifier};
use ada_base::kinds::{COLON, END, FOR, LOOP, PARALLEL, SEMICOLON, WHILE};
use syntax_expressions::{Parser, expr, iter, parallel};
use syntax_nodes::{Four, Leaf, One, Two, four, leaf, nothing, one, two};
use syntax_readers::Failure;

/// The end of a loop: the token of `end`, and the identifier after it or nothing (5.5).
#[tactic(auto, unfolding(syntax_grammar::specs::Statements::loop_end))]
pub fn loop_end(parser: &mut Parser<'_>) -> Result<u32, Failure>
    ensures { ReadsForm loop_ended AnyToken (parts parser.old.out) (statements.loop_end parser.old.tokens) result parser.new.tokens (parts parser.new.out) }
{
    let last = parser.tokens.take(END)?;
    parser.tokens.take(LOOP)?;
    let name = maybe_identifier(&mut parser.tokens)?;
    parser.tokens.take(SEMICOLON)?;
    join_identifier(&mut parser.out, name)?;
    Ok(last)
}

/// A loop, after its label and its iteration scheme (5.5).
#[cycle(list)]
#[tactic(auto, unfolding(syntax_grammar::specs::Statements::loop_from))]
pub fn loop_from(parser: &mut Parser<'_>, levels: u32) -> Result<(), Failure>
    ensures { Reads the_stmt IsPart (pop (pop (parts parser.old.out))) (statements.loop_from levels (statements.stmt levels) (maybe_token (second (parts parser.old.out))) (maybe_scheme (top (parts parser.old.out))) parser.old.tokens) result parser.new.tokens (parts parser.new.out) }
{
    let at = parser.tokens.take(LOOP)?;
    stmts(parser, levels)?;
    let last = loop_end(parser)?;
    four(&mut parser.out, Four::Loop(at, last))
}

/// A loop with `while`, after its label (5.5).
#[cycle(list)]
#[tactic(auto, unfolding(syntax_grammar::specs::Statements::while_from))]
pub fn while_from(parser: &mut Parser<'_>, levels: u32) -> Result<(), Failure>
    ensures { Reads the_stmt IsPart (pop (parts parser.old.out)) (statements.while_from levels (statements.stmt levels) (maybe_token (top (parts parser.old.out))) parser.old.tokens) result parser.new.tokens (parts parser.new.out) }
{
    let at = parser.tokens.take(WHILE)?;
    expr(parser, levels)?;
    one(&mut parser.out, One::While(at))?;
    loop_from(parser, levels)
}

/// A loop with `for`, after its label and `parallel` (5.5).
#[cycle(list)]
#[tactic(auto, unfolding(syntax_grammar::specs::Statements::for_from))]
pub fn for_from(parser: &mut Parser<'_>, levels: u32) -> Result<(), Failure>
    ensures { Reads the_stmt IsPart (pop (pop (parts parser.old.out))) (statements.for_from levels (statements.stmt levels) (maybe_token (second (parts parser.old.out))) (maybe_parallel (top (parts parser.old.out))) parser.old.tokens) result parser.new.tokens (parts parser.new.out) }
{
    let at = parser.tokens.take(FOR)?;
    iter(parser, levels)?;
    two(&mut parser.out, Two::For(at))?;
    loop_from(parser, levels)
}

/// A loop, after its label (5.5).
#[cycle(list)]
#[tactic(auto, unfolding(syntax_grammar::specs::Statements::labelled))]
pub fn labelled(parser: &mut Parser<'_>, levels: u32, label: u32) -> Result<(), Failure>
    ensures { Reads the_stmt IsPart (parts parser.old.out) (statements.labelled levels (statements.stmt levels) label parser.old.tokens) result parser.new.tokens (parts parser.new.out) }
{
    leaf(&mut parser.out, Leaf::Token(label))?;
    parser.tokens.take(COLON)?;
    match parser.tokens.peek() {
        WHILE => while_from(parser, levels),
        FOR => {
            nothing(&mut parser.out)?;
            for_from(parser, levels)
        }
        PARALLEL => {
            parallel(parser, levels)?;
            for_from(parser, levels)
        }
        _ => {
            nothing(&mut parser.out)?;
            loop_from(parser, levels)
        }
    }
}
