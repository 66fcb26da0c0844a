//! Ranges, arguments of calls, and calls (3.6.1, 6.4).

ghost use Rattle.syntax_expressions.specs.Reading.{Reads, ReadsTwo, bounds_of};
ghost use Rattle.syntax_tree.specs.Syntax as syntax;
ghost use Rattle.syntax_grammar.specs.Brackets as brackets;
ghost use Rattle.syntax_grammar.specs.Levels as level;
ghost use Rattle.std.specs.Prelude.{◌≡◌};
ghost use Rattle.syntax_nodes.specs.Parts.{the_name, the_part, the_simple, the_expr, the_arg, the_range, IsPart, IsExpr};
ghost use Rattle.syntax_nodes.specs.Rooted.{top, pop};
ghost use Rattle.syntax_nodes.specs.Stack.{parts};

use crate::chains::{Chain, list};
use crate::expressions::{expr, simple, upper_bound};
use crate::parser::Parser;
use ada_base::kinds::{ARROW, CLOSE_ROUND, COMMA, DOTS, OPEN_ROUND, RANGE};
use syntax_nodes::{One, Three, Two, bare, leave_out, one, take_name, three, two};
use syntax_readers::Failure;

/// `range` and the bounds after it, which are two parts (3.5).
#[cycle(levels)]
#[tactic(auto, unfolding(syntax_grammar::specs::Brackets::constraint))]
pub fn constraint(parser: &mut Parser<'_>, levels: u32) -> Result<(), Failure>
    ensures { ReadsTwo bounds_of (parts parser.old.out) (brackets.constraint (level.levels levels) parser.old.tokens) result parser.new.tokens (parts parser.new.out) }
{
    parser.tokens.take(RANGE)?;
    simple(parser, levels)?;
    upper_bound(parser, levels)
}

/// A range that begins with a name, after that name (3.6.1).
#[cycle(levels)]
#[tactic(auto, unfolding(syntax_grammar::specs::Brackets::named_range))]
pub fn named_range(parser: &mut Parser<'_>, levels: u32) -> Result<(), Failure>
    requires { the_range (top (parts parser.old.out)) ≡ syntax.Whole (the_name (top (parts parser.old.out))) }
    ensures { Reads the_range IsPart (pop (parts parser.old.out)) (brackets.named_range (level.levels levels) (the_name (top (parts parser.old.out))) parser.old.tokens) result parser.new.tokens (parts parser.new.out) }
{
    if parser.tokens.peek() == RANGE {
        constraint(parser, levels)?;
        three(&mut parser.out, Three::Constrained)
    } else {
        Ok(())
    }
}

/// A range, after its first sum.
#[cycle(levels)]
#[tactic(auto, unfolding(syntax_grammar::specs::Brackets::range_from))]
pub fn range_from(parser: &mut Parser<'_>, levels: u32) -> Result<(), Failure>
    ensures { Reads the_range IsPart (pop (parts parser.old.out)) (brackets.range_from (level.levels levels) (the_simple (top (parts parser.old.out))) parser.old.tokens) result parser.new.tokens (parts parser.new.out) }
{
    if parser.tokens.peek() == DOTS {
        upper_bound(parser, levels)?;
        two(&mut parser.out, Two::Bounded)
    } else if take_name(&mut parser.out)? {
        named_range(parser, levels)
    } else {
        Err(Failure::Unexpected)
    }
}

/// A range (3.5, 3.6.1).
#[cycle(levels)]
#[tactic(auto, unfolding(syntax_grammar::specs::Brackets::range))]
pub fn range(parser: &mut Parser<'_>, levels: u32) -> Result<(), Failure>
    ensures { Reads the_range IsPart (parts parser.old.out) (brackets.range (level.levels levels) parser.old.tokens) result parser.new.tokens (parts parser.new.out) }
{
    simple(parser, levels)?;
    range_from(parser, levels)
}

/// An arrow, and the expression after it.
#[cycle(levels)]
#[tactic(auto, unfolding(syntax_grammar::specs::Brackets::arrow_value))]
pub fn arrow_value(parser: &mut Parser<'_>, levels: u32) -> Result<(), Failure>
    ensures { Reads the_expr IsExpr (parts parser.old.out) (brackets.arrow_value (level.levels levels) parser.old.tokens) result parser.new.tokens (parts parser.new.out) }
{
    parser.tokens.take(ARROW)?;
    expr(parser, levels)
}

/// The value of a formal parameter, after its name.
#[cycle(levels)]
#[tactic(auto, unfolding(syntax_grammar::specs::Brackets::named_arg))]
pub fn named_arg(parser: &mut Parser<'_>, levels: u32, formal: u32) -> Result<(), Failure>
    ensures { Reads the_arg IsPart (parts parser.old.out) (brackets.named_arg (level.levels levels) formal parser.old.tokens) result parser.new.tokens (parts parser.new.out) }
{
    arrow_value(parser, levels)?;
    one(&mut parser.out, One::NamedArg(formal))
}

/// An argument of a call (6.4).
#[cycle(levels)]
#[tactic(auto, unfolding(syntax_grammar::specs::Brackets::arg))]
pub fn arg(parser: &mut Parser<'_>, levels: u32) -> Result<(), Failure>
    ensures { Reads the_arg IsPart (parts parser.old.out) (brackets.arg (level.levels levels) parser.old.tokens) result parser.new.tokens (parts parser.new.out) }
{
    expr(parser, levels)?;
    if parser.tokens.peek() != ARROW {
        return Ok(());
    }
    match bare(&parser.out) {
        Some(formal) => {
            leave_out(&mut parser.out);
            named_arg(parser, levels, formal)
        }
        None => Err(Failure::Unexpected),
    }
}

/// A comma and an argument.
#[cycle(levels)]
#[tactic(auto, unfolding(syntax_grammar::specs::Brackets::next_arg))]
pub fn next_arg(parser: &mut Parser<'_>, levels: u32) -> Result<(), Failure>
    ensures { Reads the_arg IsPart (parts parser.old.out) (brackets.next_arg (level.levels levels) parser.old.tokens) result parser.new.tokens (parts parser.new.out) }
{
    parser.tokens.take(COMMA)?;
    arg(parser, levels)
}

/// The round brackets of a call, an index or a conversion (4.1).
#[cycle(levels)]
#[tactic(auto, unfolding(syntax_grammar::specs::Brackets::call))]
pub fn call_opened(parser: &mut Parser<'_>, levels: u32) -> Result<(), Failure>
    ensures { Reads the_part IsPart (parts parser.old.out) (brackets.call (level.levels levels) parser.old.tokens) result parser.new.tokens (parts parser.new.out) }
{
    let bracket = parser.tokens.take(OPEN_ROUND)?;
    arg(parser, levels)?;
    list(parser, levels, Chain::Args)?;
    parser.tokens.take(CLOSE_ROUND)?;
    two(&mut parser.out, Two::Call(bracket))
}
