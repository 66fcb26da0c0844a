//! What square brackets open: aggregates and reductions (4.3.3, 4.5.10).

ghost use Rattle.syntax_expressions.specs.Reading.{Reads, iter_form, HasParallel, JoinsRange};
ghost use Rattle.syntax_tree.specs.Syntax as syntax;
ghost use Rattle.syntax_tree.specs.Syntax.{AbsentParallel};
ghost use Rattle.syntax_grammar.specs.Brackets as brackets;
ghost use Rattle.syntax_grammar.specs.Levels as level;
ghost use Rattle.syntax_grammar.specs.Read.{is_each};
ghost use Rattle.std.specs.Prelude.{◌≡◌, ◌∷◌, Some, false};
ghost use Rattle.syntax_nodes.specs.Parts.{the_primary, the_expr, the_range, the_iter, optional_parallel, OfAssoc, IsPrimary};
ghost use Rattle.syntax_nodes.specs.Rooted.{top, pop, second, third};
ghost use Rattle.syntax_nodes.specs.Stack.{Joins, parts};

use crate::aggregates::{assocs_from, inside};
use crate::expressions::expr;
use crate::iterations::{iter_begun, iter_joined, parallel};
use crate::parser::Parser;
use crate::ranges::arrow_value;
use ada_base::kinds::{
    CLOSE_ROUND, CLOSE_SQUARE, COMMA, FOR, IDENTIFIER, OPEN_ROUND, OPEN_SQUARE, PARALLEL, TICK,
};
use syntax_nodes::{One, Parts, Three, Two, leave_out, nothing, one, swap, three, two};
use syntax_readers::Failure;

/// A reduction, after the closing bracket of its values (4.5.10).
#[cycle(levels)]
#[tactic(auto, unfolding(syntax_grammar::specs::Brackets::reduction))]
pub fn reduction(parser: &mut Parser<'_>, levels: u32, bracket: u32, at: u32) -> Result<(), Failure>
    ensures { Reads the_primary IsPrimary (pop (pop (pop (parts parser.old.out)))) (brackets.reduction (level.levels levels) bracket (optional_parallel (third (parts parser.old.out))) at (the_iter (second (parts parser.old.out))) (the_expr (top (parts parser.old.out))) parser.old.tokens) result parser.new.tokens (parts parser.new.out) }
{
    three(&mut parser.out, Three::Values(at))?;
    parser.tokens.take(TICK)?;
    let attribute = parser.tokens.take(IDENTIFIER)?;
    parser.tokens.take(OPEN_ROUND)?;
    expr(parser, levels)?;
    parser.tokens.take(COMMA)?;
    expr(parser, levels)?;
    parser.tokens.take(CLOSE_ROUND)?;
    three(&mut parser.out, Three::Reduction(bracket, attribute))
}

/// Joins values that are an association: nothing, the range and the value.
pub fn each_joined(out: &mut Parts, at: u32, index: u32) -> Result<(), Failure>
    ensures { Joins result (parts out.new) (OfAssoc (syntax.Each at index (the_range (second (parts out.old))) (the_expr (top (parts out.old)))) ∷ pop (pop (pop (parts out.old)))) }
{
    two(out, Two::Each(at, index))?;
    swap(out)?;
    leave_out(out);
    Ok(())
}

/// Joins the iteration of values that could have been an association: nothing, the range and the value.
pub fn range_joined(out: &mut Parts, index: u32) -> Result<(), Failure>
    ensures { JoinsRange index result (parts out.new) (parts out.old) }
{
    swap(out)?;
    nothing(out)?;
    two(out, Two::InRange(index, None))?;
    swap(out)
}

/// Values that can be an association: nothing, the range and the value are the parts.
#[cycle(levels)]
#[tactic(auto, unfolding(syntax_grammar::specs::Brackets::each_end))]
pub fn each_end(
    parser: &mut Parser<'_>,
    levels: u32,
    bracket: u32,
    at: u32,
    index: u32,
) -> Result<(), Failure>
    requires { optional_parallel (third (parts parser.old.out)) ≡ AbsentParallel }
    ensures { Reads the_primary IsPrimary (pop (pop (pop (parts parser.old.out)))) (brackets.each_end (level.levels levels) bracket at (iter_form (Some index) (second (parts parser.old.out))) (the_expr (top (parts parser.old.out))) parser.old.tokens) result parser.new.tokens (parts parser.new.out) }
{
    if parser.tokens.peek() == COMMA {
        each_joined(&mut parser.out, at, index)?;
        assocs_from(parser, levels)?;
        parser.tokens.take(CLOSE_SQUARE)?;
        return one(&mut parser.out, One::Square(bracket));
    }
    parser.tokens.take(CLOSE_SQUARE)?;
    if parser.tokens.peek() == TICK {
        range_joined(&mut parser.out, index)?;
        reduction(parser, levels, bracket, at)
    } else {
        each_joined(&mut parser.out, at, index)?;
        nothing(&mut parser.out)?;
        two(&mut parser.out, Two::Associations)?;
        one(&mut parser.out, One::Square(bracket))
    }
}

/// Values that are those of a reduction.
#[cycle(levels)]
#[tactic(auto, unfolding(syntax_grammar::specs::Brackets::values_end))]
pub fn values_end(
    parser: &mut Parser<'_>,
    levels: u32,
    bracket: u32,
    at: u32,
) -> Result<(), Failure>
    requires { is_each (optional_parallel (third (parts parser.old.out))) (the_iter (second (parts parser.old.out))) ≡ false }
    ensures { Reads the_primary IsPrimary (pop (pop (pop (parts parser.old.out)))) (brackets.values_end (level.levels levels) bracket (optional_parallel (third (parts parser.old.out))) at (the_iter (second (parts parser.old.out))) (the_expr (top (parts parser.old.out))) parser.old.tokens) result parser.new.tokens (parts parser.new.out) }
{
    parser.tokens.take(CLOSE_SQUARE)?;
    reduction(parser, levels, bracket, at)
}

/// What stands in square brackets and begins with `for`, after `parallel` or nothing.
#[cycle(levels)]
#[tactic(auto, unfolding(syntax_grammar::specs::Brackets::values_from, syntax_grammar::specs::Brackets::values_end))]
pub fn values_from(
    parser: &mut Parser<'_>,
    levels: u32,
    bracket: u32,
    parallel: bool,
) -> Result<(), Failure>
    requires { HasParallel parallel (top (parts parser.old.out)) }
    ensures { Reads the_primary IsPrimary (pop (parts parser.old.out)) (brackets.values_from (level.levels levels) bracket (optional_parallel (top (parts parser.old.out))) parser.old.tokens) result parser.new.tokens (parts parser.new.out) }
{
    let at = parser.tokens.take(FOR)?;
    let begun = iter_begun(parser, levels)?;
    if !parallel {
        if let Some(index) = begun {
            arrow_value(parser, levels)?;
            return each_end(parser, levels, bracket, at, index);
        }
    }
    iter_joined(&mut parser.out, begun)?;
    arrow_value(parser, levels)?;
    values_end(parser, levels, bracket, at)
}

/// What stands in square brackets and begins with `parallel` or `for`.
#[cycle(levels)]
#[tactic(auto, unfolding(syntax_grammar::specs::Brackets::values))]
pub fn values(parser: &mut Parser<'_>, levels: u32, bracket: u32) -> Result<(), Failure>
    ensures { Reads the_primary IsPrimary (parts parser.old.out) (brackets.values (level.levels levels) bracket parser.old.tokens) result parser.new.tokens (parts parser.new.out) }
{
    if parser.tokens.peek() == PARALLEL {
        parallel(parser, levels)?;
        values_from(parser, levels, bracket, true)
    } else {
        nothing(&mut parser.out)?;
        values_from(parser, levels, bracket, false)
    }
}

/// What else stands in square brackets.
#[cycle(levels)]
#[tactic(auto, unfolding(syntax_grammar::specs::Brackets::square_inside))]
pub fn square_inside(parser: &mut Parser<'_>, levels: u32, bracket: u32) -> Result<(), Failure>
    ensures { Reads the_primary IsPrimary (parts parser.old.out) (brackets.square_inside (level.levels levels) bracket parser.old.tokens) result parser.new.tokens (parts parser.new.out) }
{
    let alone = inside(parser, levels)?;
    parser.tokens.take(CLOSE_SQUARE)?;
    if alone {
        one(&mut parser.out, One::OneValue(bracket))
    } else {
        one(&mut parser.out, One::Square(bracket))
    }
}

/// A primary in square brackets (4.3.3, 4.5.10).
#[cycle(levels)]
#[tactic(auto, unfolding(syntax_grammar::specs::Brackets::square))]
pub fn square_opened(parser: &mut Parser<'_>, levels: u32) -> Result<(), Failure>
    ensures { Reads the_primary IsPrimary (parts parser.old.out) (brackets.square (level.levels levels) parser.old.tokens) result parser.new.tokens (parts parser.new.out) }
{
    let bracket = parser.tokens.take(OPEN_SQUARE)?;
    match parser.tokens.peek() {
        PARALLEL | FOR => values(parser, levels, bracket),
        _ => square_inside(parser, levels, bracket),
    }
}
