//! Choices, associations, and what stands in the brackets of an aggregate (4.3.3).

ghost use Rattle.syntax_expressions.specs.Reading.{Reads, ReadsForm, many_inside, inside_form, AnyForm};
ghost use Rattle.syntax_tree.specs.Syntax as syntax;
ghost use Rattle.syntax_grammar.specs.Brackets as brackets;
ghost use Rattle.syntax_grammar.specs.Levels as level;
ghost use Rattle.syntax_readers.specs.Readers.{Found};
ghost use Rattle.std.specs.Prelude.{◌≡◌, length};
ghost use Rattle.syntax_nodes.specs.Parts.{the_simple, the_expr, the_exprs, the_choice, the_assoc, the_many, open_exprs, IsPart, IsSimple};
ghost use Rattle.syntax_nodes.specs.Rooted.{top, pop, second, third};
ghost use Rattle.syntax_nodes.specs.Stack.{parts};

use crate::chains::{Chain, list};
use crate::expressions::{expr, expr_from, rel_from, simple, upper_bound};
use crate::parser::Parser;
use crate::ranges::{arrow_value, range};
use ada_base::kinds::{ARROW, BAR, COMMA, DOTS, FOR, IDENTIFIER, IN, OTHERS};
use syntax_nodes::{
    Four, Leaf, ListKind, Three, Two, also, close, four, leaf, nothing, three, two,
};
use syntax_readers::Failure;

/// `others` as a choice (3.8.1).
#[tactic(auto, unfolding(syntax_grammar::specs::Brackets::others_choice))]
pub fn others_choice(parser: &mut Parser<'_>) -> Result<(), Failure>
    ensures { Reads the_choice IsPart (parts parser.old.out) (brackets.others_choice parser.old.tokens) result parser.new.tokens (parts parser.new.out) }
{
    let at = parser.tokens.take(OTHERS)?;
    leaf(&mut parser.out, Leaf::Others(at))
}

/// A choice, after its first sum.
#[cycle(levels)]
#[tactic(auto, unfolding(syntax_grammar::specs::Brackets::choice_from))]
pub fn choice_from(parser: &mut Parser<'_>, levels: u32) -> Result<(), Failure>
    requires { IsSimple (top (parts parser.old.out)) }
    ensures { Reads the_choice IsPart (pop (parts parser.old.out)) (brackets.choice_from (level.levels levels) (the_simple (top (parts parser.old.out))) parser.old.tokens) result parser.new.tokens (parts parser.new.out) }
{
    if parser.tokens.peek() == DOTS {
        upper_bound(parser, levels)?;
        two(&mut parser.out, Two::Span)
    } else {
        Ok(())
    }
}

/// A choice (3.8.1).
#[cycle(levels)]
#[tactic(auto, unfolding(syntax_grammar::specs::Brackets::choice))]
pub fn choice(parser: &mut Parser<'_>, levels: u32) -> Result<(), Failure>
    ensures { Reads the_choice IsPart (parts parser.old.out) (brackets.choice (level.levels levels) parser.old.tokens) result parser.new.tokens (parts parser.new.out) }
{
    if parser.tokens.peek() == OTHERS {
        others_choice(parser)
    } else {
        simple(parser, levels)?;
        choice_from(parser, levels)
    }
}

/// A bar and a choice.
#[cycle(levels)]
#[tactic(auto, unfolding(syntax_grammar::specs::Brackets::next_choice))]
pub fn next_choice(parser: &mut Parser<'_>, levels: u32) -> Result<(), Failure>
    ensures { Reads the_choice IsPart (parts parser.old.out) (brackets.next_choice (level.levels levels) parser.old.tokens) result parser.new.tokens (parts parser.new.out) }
{
    parser.tokens.take(BAR)?;
    choice(parser, levels)
}

/// An association, after its first choice (4.3.3).
#[cycle(levels)]
#[tactic(auto, unfolding(syntax_grammar::specs::Brackets::chosen))]
pub fn chosen(parser: &mut Parser<'_>, levels: u32) -> Result<(), Failure>
    ensures { Reads the_assoc IsPart (pop (parts parser.old.out)) (brackets.chosen (level.levels levels) (the_choice (top (parts parser.old.out))) parser.old.tokens) result parser.new.tokens (parts parser.new.out) }
{
    list(parser, levels, Chain::Choices)?;
    arrow_value(parser, levels)?;
    three(&mut parser.out, Three::Chosen)
}

/// An iterated association (4.3.3).
#[cycle(levels)]
#[tactic(auto, unfolding(syntax_grammar::specs::Brackets::each))]
pub fn each(parser: &mut Parser<'_>, levels: u32) -> Result<(), Failure>
    ensures { Reads the_assoc IsPart (parts parser.old.out) (brackets.each (level.levels levels) parser.old.tokens) result parser.new.tokens (parts parser.new.out) }
{
    let at = parser.tokens.take(FOR)?;
    let index = parser.tokens.take(IDENTIFIER)?;
    parser.tokens.take(IN)?;
    range(parser, levels)?;
    arrow_value(parser, levels)?;
    two(&mut parser.out, Two::Each(at, index))
}

/// An association (4.3.3).
#[cycle(levels)]
#[tactic(auto, unfolding(syntax_grammar::specs::Brackets::assoc))]
pub fn assoc(parser: &mut Parser<'_>, levels: u32) -> Result<(), Failure>
    ensures { Reads the_assoc IsPart (parts parser.old.out) (brackets.assoc (level.levels levels) parser.old.tokens) result parser.new.tokens (parts parser.new.out) }
{
    if parser.tokens.peek() == FOR {
        each(parser, levels)
    } else {
        choice(parser, levels)?;
        chosen(parser, levels)
    }
}

/// A comma and an association.
#[cycle(levels)]
#[tactic(auto, unfolding(syntax_grammar::specs::Brackets::next_assoc))]
pub fn next_assoc(parser: &mut Parser<'_>, levels: u32) -> Result<(), Failure>
    ensures { Reads the_assoc IsPart (parts parser.old.out) (brackets.next_assoc (level.levels levels) parser.old.tokens) result parser.new.tokens (parts parser.new.out) }
{
    parser.tokens.take(COMMA)?;
    assoc(parser, levels)
}

/// Associations, after the first.
#[cycle(levels)]
#[tactic(auto, unfolding(syntax_grammar::specs::Brackets::assocs_from))]
pub fn assocs_from(parser: &mut Parser<'_>, levels: u32) -> Result<(), Failure>
    ensures { Reads the_many IsPart (pop (parts parser.old.out)) (brackets.assocs_from (level.levels levels) (the_assoc (top (parts parser.old.out))) parser.old.tokens) result parser.new.tokens (parts parser.new.out) }
{
    list(parser, levels, Chain::Assocs)?;
    two(&mut parser.out, Two::Associations)
}

/// The value of the others, after one expression (4.3.3).
#[cycle(levels)]
#[tactic(auto, unfolding(syntax_grammar::specs::Brackets::first_others))]
pub fn first_others(parser: &mut Parser<'_>, levels: u32) -> Result<(), Failure>
    ensures { Reads the_many IsPart (pop (parts parser.old.out)) (brackets.first_others (level.levels levels) (the_expr (top (parts parser.old.out))) parser.old.tokens) result parser.new.tokens (parts parser.new.out) }
{
    let at = parser.tokens.take(OTHERS)?;
    arrow_value(parser, levels)?;
    two(&mut parser.out, Two::FirstOthers(at))
}

/// The value of the others, after two expressions and a list of more.
#[cycle(levels)]
#[tactic(auto, unfolding(syntax_grammar::specs::Brackets::position_others))]
pub fn position_others(parser: &mut Parser<'_>, levels: u32) -> Result<(), Failure>
    ensures { Reads the_many IsPart (pop (pop (pop (parts parser.old.out)))) (brackets.position_others (level.levels levels) (the_expr (third (parts parser.old.out))) (the_expr (second (parts parser.old.out))) (the_exprs (top (parts parser.old.out))) parser.old.tokens) result parser.new.tokens (parts parser.new.out) }
{
    let at = parser.tokens.take(OTHERS)?;
    arrow_value(parser, levels)?;
    four(&mut parser.out, Four::PositionsOthers(at))
}

/// The expressions of an aggregate, after the first two and a list that grows.
#[cycle(levels)]
pub fn positions(parser: &mut Parser<'_>, levels: u32) -> Result<(), Failure>
    ensures { Reads the_many IsPart (pop (pop (pop (parts parser.old.out)))) (brackets.positions_for (level.levels levels) (length parser.old.tokens) (the_expr (third (parts parser.old.out))) (the_expr (second (parts parser.old.out))) (open_exprs (top (parts parser.old.out))) parser.old.tokens) result parser.new.tokens (parts parser.new.out) }
{
    for _turn in 0..parser.tokens.left() {
        if parser.tokens.peek() != COMMA {
            return positions_end(parser);
        }
        parser.tokens.take(COMMA)?;
        if parser.tokens.peek() == OTHERS {
            close(&mut parser.out, ListKind::Exprs)?;
            return position_others(parser, levels);
        }
        expr(parser, levels)?;
        also(&mut parser.out, ListKind::Exprs)?;
    }
    positions_end(parser)
}

/// The parts of an aggregate, after its first expression.
#[cycle(levels)]
#[tactic(auto, unfolding(syntax_grammar::specs::Brackets::positions_from, syntax_grammar::specs::Brackets::positions))]
pub fn positions_from(parser: &mut Parser<'_>, levels: u32) -> Result<(), Failure>
    ensures { Reads the_many IsPart (pop (parts parser.old.out)) (brackets.positions_from (level.levels levels) (the_expr (top (parts parser.old.out))) parser.old.tokens) result parser.new.tokens (parts parser.new.out) }
{
    parser.tokens.take(COMMA)?;
    if parser.tokens.peek() == OTHERS {
        return first_others(parser, levels);
    }
    expr(parser, levels)?;
    nothing(&mut parser.out)?;
    positions(parser, levels)
}

/// What stands in brackets, after its first choice.
#[cycle(levels)]
#[tactic(auto, unfolding(syntax_grammar::specs::Brackets::inside_choice))]
pub fn inside_choice(parser: &mut Parser<'_>, levels: u32) -> Result<(), Failure>
    ensures { Reads many_inside IsPart (pop (parts parser.old.out)) (brackets.inside_choice (level.levels levels) (the_choice (top (parts parser.old.out))) parser.old.tokens) result parser.new.tokens (parts parser.new.out) }
{
    chosen(parser, levels)?;
    assocs_from(parser, levels)
}

/// What stands in brackets, after its first expression: whether that is all.
#[cycle(levels)]
#[tactic(auto, unfolding(syntax_grammar::specs::Brackets::inside_expr))]
pub fn inside_expr(parser: &mut Parser<'_>, levels: u32) -> Result<bool, Failure>
    ensures { ReadsForm inside_form AnyForm (pop (parts parser.old.out)) (brackets.inside_expr (level.levels levels) (the_expr (top (parts parser.old.out))) parser.old.tokens) result parser.new.tokens (parts parser.new.out) }
{
    if parser.tokens.peek() != COMMA {
        return Ok(true);
    }
    positions_from(parser, levels)?;
    Ok(false)
}

/// What stands in brackets, after its first sum: whether it is an expression alone.
#[cycle(levels)]
#[tactic(auto, unfolding(syntax_grammar::specs::Brackets::inside_simple))]
pub fn inside_simple(parser: &mut Parser<'_>, levels: u32) -> Result<bool, Failure>
    requires { IsSimple (top (parts parser.old.out)) }
    ensures { ReadsForm inside_form AnyForm (pop (parts parser.old.out)) (brackets.inside_simple (level.levels levels) (the_simple (top (parts parser.old.out))) parser.old.tokens) result parser.new.tokens (parts parser.new.out) }
{
    match parser.tokens.peek() {
        DOTS | BAR | ARROW => {
            choice_from(parser, levels)?;
            inside_choice(parser, levels)?;
            Ok(false)
        }
        _ => {
            rel_from(parser, levels)?;
            expr_from(parser, levels)?;
            inside_expr(parser, levels)
        }
    }
}

/// What stands in brackets and begins with neither `if` nor `for`: whether it is an expression alone.
#[cycle(levels)]
#[tactic(auto, unfolding(syntax_grammar::specs::Brackets::inside))]
pub fn inside(parser: &mut Parser<'_>, levels: u32) -> Result<bool, Failure>
    ensures { ReadsForm inside_form AnyForm (parts parser.old.out) (brackets.inside (level.levels levels) parser.old.tokens) result parser.new.tokens (parts parser.new.out) }
{
    if parser.tokens.peek() == OTHERS {
        others_choice(parser)?;
        inside_choice(parser, levels)?;
        return Ok(false);
    }
    simple(parser, levels)?;
    inside_simple(parser, levels)
}

/// Associations, of which the first is iterated.
#[cycle(levels)]
#[tactic(auto, unfolding(syntax_grammar::specs::Brackets::each_and_more))]
pub fn each_and_more(parser: &mut Parser<'_>, levels: u32) -> Result<(), Failure>
    ensures { Reads many_inside IsPart (parts parser.old.out) (brackets.each_and_more (level.levels levels) parser.old.tokens) result parser.new.tokens (parts parser.new.out) }
{
    each(parser, levels)?;
    assocs_from(parser, levels)
}

/// Joins expressions after the first two, where no more follow.
pub fn positions_end(parser: &mut Parser<'_>) -> Result<(), Failure>
    ensures { Reads the_many IsPart (pop (pop (pop (parts parser.old.out)))) (Found (syntax.Positions (the_expr (third (parts parser.old.out))) (the_expr (second (parts parser.old.out))) (open_exprs (top (parts parser.old.out)))), parser.old.tokens) result parser.new.tokens (parts parser.new.out) }
{
    close(&mut parser.out, ListKind::Exprs)?;
    three(&mut parser.out, Three::Positions)
}
