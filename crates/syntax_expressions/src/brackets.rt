//! Conditional expressions, and what round brackets open (4.4, 4.5.7).

ghost use Rattle.syntax_expressions.specs.Reading.{Reads};
ghost use Rattle.syntax_grammar.specs.Brackets as brackets;
ghost use Rattle.syntax_grammar.specs.Levels as level;
ghost use Rattle.std.specs.Prelude.{◌≡◌};
ghost use Rattle.syntax_nodes.specs.Parts.{the_primary, the_expr, the_elsif, IsPart, IsExpr, IsPrimary};
ghost use Rattle.syntax_nodes.specs.Stack.{parts};

use crate::aggregates::{each_and_more, inside};
use crate::chains::{Chain, list};
use crate::expressions::expr;
use crate::parser::Parser;
use ada_base::kinds::{CLOSE_ROUND, ELSE, ELSIF, FOR, IF, OPEN_ROUND, THEN};
use syntax_nodes::{Four, One, Two, four, one, two};
use syntax_readers::Failure;

/// `then`, and the expression after it.
#[cycle(levels)]
#[tactic(auto, unfolding(syntax_grammar::specs::Brackets::then_value))]
pub fn then_value(parser: &mut Parser<'_>, levels: u32) -> Result<(), Failure>
    ensures { Reads the_expr IsExpr (parts parser.old.out) (brackets.then_value (level.levels levels) parser.old.tokens) result parser.new.tokens (parts parser.new.out) }
{
    parser.tokens.take(THEN)?;
    expr(parser, levels)
}

/// `else`, and the expression after it.
#[cycle(levels)]
#[tactic(auto, unfolding(syntax_grammar::specs::Brackets::else_value))]
pub fn else_value(parser: &mut Parser<'_>, levels: u32) -> Result<(), Failure>
    ensures { Reads the_expr IsExpr (parts parser.old.out) (brackets.else_value (level.levels levels) parser.old.tokens) result parser.new.tokens (parts parser.new.out) }
{
    parser.tokens.take(ELSE)?;
    expr(parser, levels)
}

/// An `elsif` part of a conditional expression (4.5.7).
#[cycle(levels)]
#[tactic(auto, unfolding(syntax_grammar::specs::Brackets::next_elsif))]
pub fn next_elsif(parser: &mut Parser<'_>, levels: u32) -> Result<(), Failure>
    ensures { Reads the_elsif IsPart (parts parser.old.out) (brackets.next_elsif (level.levels levels) parser.old.tokens) result parser.new.tokens (parts parser.new.out) }
{
    let at = parser.tokens.take(ELSIF)?;
    expr(parser, levels)?;
    then_value(parser, levels)?;
    two(&mut parser.out, Two::Elsif(at))
}

/// A conditional expression after its bracket (4.5.7).
#[cycle(levels)]
#[tactic(auto, unfolding(syntax_grammar::specs::Brackets::if_expr))]
pub fn if_expr(parser: &mut Parser<'_>, levels: u32, bracket: u32) -> Result<(), Failure>
    ensures { Reads the_primary IsPrimary (parts parser.old.out) (brackets.if_expr (level.levels levels) bracket parser.old.tokens) result parser.new.tokens (parts parser.new.out) }
{
    let at = parser.tokens.take(IF)?;
    expr(parser, levels)?;
    then_value(parser, levels)?;
    list(parser, levels, Chain::Elsifs)?;
    else_value(parser, levels)?;
    four(&mut parser.out, Four::If(bracket, at))
}

/// What stands in round brackets.
#[cycle(levels)]
#[tactic(auto, unfolding(syntax_grammar::specs::Brackets::round_inside))]
pub fn round_inside(parser: &mut Parser<'_>, levels: u32, bracket: u32) -> Result<(), Failure>
    ensures { Reads the_primary IsPrimary (parts parser.old.out) (brackets.round_inside (level.levels levels) bracket parser.old.tokens) result parser.new.tokens (parts parser.new.out) }
{
    match parser.tokens.peek() {
        IF => if_expr(parser, levels, bracket),
        FOR => {
            each_and_more(parser, levels)?;
            one(&mut parser.out, One::Round(bracket))
        }
        _ => {
            if inside(parser, levels)? {
                one(&mut parser.out, One::Group(bracket))
            } else {
                one(&mut parser.out, One::Round(bracket))
            }
        }
    }
}

/// A primary in round brackets (4.4).
#[cycle(levels)]
#[tactic(auto, unfolding(syntax_grammar::specs::Brackets::round))]
pub fn round_opened(parser: &mut Parser<'_>, levels: u32) -> Result<(), Failure>
    ensures { Reads the_primary IsPrimary (parts parser.old.out) (brackets.round (level.levels levels) parser.old.tokens) result parser.new.tokens (parts parser.new.out) }
{
    let bracket = parser.tokens.take(OPEN_ROUND)?;
    round_inside(parser, levels, bracket)?;
    parser.tokens.take(CLOSE_ROUND)?;
    Ok(())
}
