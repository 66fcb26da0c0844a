//! Names and expressions (4.1, 4.4).

ghost use Rattle.syntax_expressions.specs.Chains as chains;
ghost use Rattle.syntax_expressions.specs.Reading.{Reads};
ghost use Rattle.syntax_grammar.specs.Expressions as reader;
ghost use Rattle.syntax_grammar.specs.Levels as level;
ghost use Rattle.std.specs.Prelude.{◌≡◌};
ghost use Rattle.syntax_nodes.specs.Parts.{the_name, the_part, the_primary, the_factor, the_multiplying, the_term, the_adding, the_simple, the_rel, the_conjunct, the_expr, IsPart, IsExpr, IsRel, IsSimple, IsTerm, IsFactor, IsPrimary, IsName};
ghost use Rattle.syntax_nodes.specs.Rooted.{top, pop, second};
ghost use Rattle.syntax_nodes.specs.Stack.{parts};

use crate::chains::{Chain, list};
use crate::levels::{call, round, square};
use crate::operators::{adding_operator, comparison, multiplying_operator, sign};
use crate::parser::Parser;
use ada_base::kinds::{
    ABS, AMPERSAND, AND, AT_LEAST, AT_MOST, DOTS, DOUBLE_STAR, ELSE, EQUAL, GREATER, IDENTIFIER,
    IN, LESS, MINUS, MOD, NOT, NUMERAL, OPEN_ROUND, OR, PLUS, POINT, RANGE, REM, SLASH, STAR,
    STRING, TARGET, THEN, TICK, UNEQUAL, XOR,
};
use syntax_nodes::{Leaf, One, Three, Two, bare, leaf, leave_out, one, three, two};
use syntax_readers::Failure;
use syntax_tree::Logical;

/// What follows in a name (4.1).
#[cycle(levels)]
#[tactic(auto, unfolding(syntax_grammar::specs::Expressions::part))]
pub fn part(parser: &mut Parser<'_>, levels: u32) -> Result<(), Failure>
    ensures { Reads the_part IsPart (parts parser.old.out) (reader.part (level.levels levels) parser.old.tokens) result parser.new.tokens (parts parser.new.out) }
{
    match parser.tokens.peek() {
        POINT => {
            parser.tokens.take(POINT)?;
            let at = parser.tokens.take(IDENTIFIER)?;
            leaf(&mut parser.out, Leaf::Field(at))
        }
        TICK => {
            parser.tokens.take(TICK)?;
            if parser.tokens.peek() == IDENTIFIER {
                let at = parser.tokens.take(IDENTIFIER)?;
                leaf(&mut parser.out, Leaf::Attribute(at))
            } else {
                let at = parser.tokens.take(RANGE)?;
                leaf(&mut parser.out, Leaf::RangeAttribute(at))
            }
        }
        _ => call(parser, levels),
    }
}

/// A name (4.1).
#[cycle(levels)]
#[tactic(auto, unfolding(syntax_grammar::specs::Expressions::name))]
pub fn name(parser: &mut Parser<'_>, levels: u32) -> Result<(), Failure>
    ensures { Reads the_name IsName (parts parser.old.out) (reader.name (level.levels levels) parser.old.tokens) result parser.new.tokens (parts parser.new.out) }
{
    let at = parser.tokens.take(IDENTIFIER)?;
    match parser.tokens.peek() {
        POINT | TICK | OPEN_ROUND => {
            list(parser, levels, Chain::NameParts)?;
            one(&mut parser.out, One::Name(at))
        }
        _ => leaf(&mut parser.out, Leaf::Identifier(at)),
    }
}

/// A primary (4.4).
#[cycle(levels)]
#[tactic(auto, unfolding(syntax_grammar::specs::Expressions::primary))]
pub fn primary(parser: &mut Parser<'_>, levels: u32) -> Result<(), Failure>
    ensures { Reads the_primary IsPrimary (parts parser.old.out) (reader.primary (level.levels levels) parser.old.tokens) result parser.new.tokens (parts parser.new.out) }
{
    match parser.tokens.peek() {
        NUMERAL => {
            let at = parser.tokens.take(NUMERAL)?;
            leaf(&mut parser.out, Leaf::Number(at))
        }
        STRING => {
            let at = parser.tokens.take(STRING)?;
            leaf(&mut parser.out, Leaf::Text(at))
        }
        TARGET => {
            let at = parser.tokens.take(TARGET)?;
            leaf(&mut parser.out, Leaf::Target(at))
        }
        IDENTIFIER => name(parser, levels),
        OPEN_ROUND => round(parser, levels),
        _ => square(parser, levels),
    }
}

/// A factor (4.4).
#[cycle(levels)]
#[tactic(auto, unfolding(syntax_grammar::specs::Expressions::factor))]
pub fn factor(parser: &mut Parser<'_>, levels: u32) -> Result<(), Failure>
    ensures { Reads the_factor IsFactor (parts parser.old.out) (reader.factor (level.levels levels) parser.old.tokens) result parser.new.tokens (parts parser.new.out) }
{
    match parser.tokens.peek() {
        ABS => {
            let at = parser.tokens.take(ABS)?;
            primary(parser, levels)?;
            one(&mut parser.out, One::Abs(at))
        }
        NOT => {
            let at = parser.tokens.take(NOT)?;
            primary(parser, levels)?;
            one(&mut parser.out, One::Not(at))
        }
        _ => {
            primary(parser, levels)?;
            if parser.tokens.peek() == DOUBLE_STAR {
                let at = parser.tokens.take(DOUBLE_STAR)?;
                primary(parser, levels)?;
                two(&mut parser.out, Two::Power(at))
            } else {
                Ok(())
            }
        }
    }
}

/// A multiplying operator and its factor (4.5.5).
#[cycle(levels)]
#[tactic(auto, unfolding(syntax_grammar::specs::Expressions::multiplied))]
pub fn multiplied(parser: &mut Parser<'_>, levels: u32) -> Result<(), Failure>
    ensures { Reads the_multiplying IsPart (parts parser.old.out) (reader.multiplied (level.levels levels) parser.old.tokens) result parser.new.tokens (parts parser.new.out) }
{
    let (by, at) = multiplying_operator(&mut parser.tokens)?;
    factor(parser, levels)?;
    one(&mut parser.out, One::Multiplying(by, at))
}

/// A term (4.4).
#[cycle(levels)]
#[tactic(auto, unfolding(syntax_grammar::specs::Expressions::term))]
pub fn term(parser: &mut Parser<'_>, levels: u32) -> Result<(), Failure>
    ensures { Reads the_term IsTerm (parts parser.old.out) (reader.term (level.levels levels) parser.old.tokens) result parser.new.tokens (parts parser.new.out) }
{
    factor(parser, levels)?;
    match parser.tokens.peek() {
        STAR | SLASH | MOD | REM => {
            list(parser, levels, Chain::Multiplyings)?;
            two(&mut parser.out, Two::Product)
        }
        _ => Ok(()),
    }
}

/// An adding operator and its term (4.5.3).
#[cycle(levels)]
#[tactic(auto, unfolding(syntax_grammar::specs::Expressions::added))]
pub fn added(parser: &mut Parser<'_>, levels: u32) -> Result<(), Failure>
    ensures { Reads the_adding IsPart (parts parser.old.out) (reader.added (level.levels levels) parser.old.tokens) result parser.new.tokens (parts parser.new.out) }
{
    let (by, at) = adding_operator(&mut parser.tokens)?;
    term(parser, levels)?;
    one(&mut parser.out, One::Adding(by, at))
}

/// A sum with a sign before it (4.5.4).
#[cycle(levels)]
#[tactic(auto, unfolding(syntax_grammar::specs::Expressions::signed))]
pub fn signed(parser: &mut Parser<'_>, levels: u32) -> Result<(), Failure>
    ensures { Reads the_simple IsSimple (parts parser.old.out) (reader.signed (level.levels levels) parser.old.tokens) result parser.new.tokens (parts parser.new.out) }
{
    let sign = sign(&mut parser.tokens)?;
    term(parser, levels)?;
    list(parser, levels, Chain::Addings)?;
    two(&mut parser.out, Two::Sum(Some(sign)))
}

/// A sum, the simple expression of 4.4.
#[cycle(levels)]
#[tactic(auto, unfolding(syntax_grammar::specs::Expressions::simple))]
pub fn simple(parser: &mut Parser<'_>, levels: u32) -> Result<(), Failure>
    ensures { Reads the_simple IsSimple (parts parser.old.out) (reader.simple (level.levels levels) parser.old.tokens) result parser.new.tokens (parts parser.new.out) }
{
    match parser.tokens.peek() {
        PLUS | MINUS => signed(parser, levels),
        _ => {
            term(parser, levels)?;
            match parser.tokens.peek() {
                PLUS | MINUS | AMPERSAND => {
                    list(parser, levels, Chain::Addings)?;
                    two(&mut parser.out, Two::Sum(None))
                }
                _ => Ok(()),
            }
        }
    }
}

/// The dots between two bounds, and the bound after them.
#[cycle(levels)]
#[tactic(auto, unfolding(syntax_grammar::specs::Expressions::upper_bound))]
pub fn upper_bound(parser: &mut Parser<'_>, levels: u32) -> Result<(), Failure>
    ensures { Reads the_simple IsSimple (parts parser.old.out) (reader.upper_bound (level.levels levels) parser.old.tokens) result parser.new.tokens (parts parser.new.out) }
{
    parser.tokens.take(DOTS)?;
    simple(parser, levels)
}

/// A membership, after its first sum and the token `at` of `in` (4.5.2).
#[cycle(levels)]
#[tactic(auto, unfolding(syntax_grammar::specs::Expressions::within))]
pub fn within(
    parser: &mut Parser<'_>,
    levels: u32,
    negation: Option<u32>,
    at: u32,
) -> Result<(), Failure>
    ensures { Reads the_rel IsRel (pop (parts parser.old.out)) (reader.within (level.levels levels) (the_simple (top (parts parser.old.out))) negation at parser.old.tokens) result parser.new.tokens (parts parser.new.out) }
{
    simple(parser, levels)?;
    if parser.tokens.peek() == DOTS {
        upper_bound(parser, levels)?;
        return three(&mut parser.out, Three::Within(negation, at));
    }
    match bare(&parser.out) {
        Some(mark) => {
            leave_out(&mut parser.out);
            one(&mut parser.out, One::OfMark(negation, at, mark))
        }
        None => Err(Failure::Unexpected),
    }
}

/// A relation, after its first sum (4.4).
#[cycle(levels)]
#[tactic(auto, unfolding(syntax_grammar::specs::Expressions::rel_from))]
pub fn rel_from(parser: &mut Parser<'_>, levels: u32) -> Result<(), Failure>
    requires { IsSimple (top (parts parser.old.out)) }
    ensures { Reads the_rel IsRel (pop (parts parser.old.out)) (reader.rel_from (level.levels levels) (the_simple (top (parts parser.old.out))) parser.old.tokens) result parser.new.tokens (parts parser.new.out) }
{
    match parser.tokens.peek() {
        EQUAL | UNEQUAL | LESS | AT_MOST | GREATER | AT_LEAST => {
            let (by, at) = comparison(&mut parser.tokens)?;
            simple(parser, levels)?;
            two(&mut parser.out, Two::Compared(by, at))
        }
        IN => {
            let at = parser.tokens.take(IN)?;
            within(parser, levels, None, at)
        }
        NOT => {
            let negation = parser.tokens.take(NOT)?;
            let at = parser.tokens.take(IN)?;
            within(parser, levels, Some(negation), at)
        }
        _ => Ok(()),
    }
}

/// A relation (4.4).
#[cycle(levels)]
#[tactic(auto, unfolding(syntax_grammar::specs::Expressions::rel))]
pub fn rel(parser: &mut Parser<'_>, levels: u32) -> Result<(), Failure>
    ensures { Reads the_rel IsRel (parts parser.old.out) (reader.rel (level.levels levels) parser.old.tokens) result parser.new.tokens (parts parser.new.out) }
{
    simple(parser, levels)?;
    rel_from(parser, levels)
}

/// The relation after a logical operator that is at this token.
#[cycle(levels)]
#[tactic(auto, unfolding(syntax_grammar::specs::Expressions::conjoined))]
pub fn conjoined(parser: &mut Parser<'_>, levels: u32, at: u32) -> Result<(), Failure>
    ensures { Reads the_conjunct IsPart (parts parser.old.out) (reader.conjoined (level.levels levels) at parser.old.tokens) result parser.new.tokens (parts parser.new.out) }
{
    rel(parser, levels)?;
    one(&mut parser.out, One::Conjunct(at))
}

/// A logical operator of one word and its relation.
#[cycle(levels)]
#[tactic(auto, unfolding(syntax_grammar::specs::Expressions::conjunct))]
pub fn conjunct(parser: &mut Parser<'_>, levels: u32, word: u16) -> Result<(), Failure>
    ensures { Reads the_conjunct IsPart (parts parser.old.out) (reader.conjunct (level.levels levels) word parser.old.tokens) result parser.new.tokens (parts parser.new.out) }
{
    let at = parser.tokens.take(word)?;
    conjoined(parser, levels, at)
}

/// A logical operator of two words and its relation (4.5.1).
#[cycle(levels)]
#[tactic(auto, unfolding(syntax_grammar::specs::Expressions::short_conjunct))]
pub fn short_conjunct(
    parser: &mut Parser<'_>,
    levels: u32,
    word: u16,
    second: u16,
) -> Result<(), Failure>
    ensures { Reads the_conjunct IsPart (parts parser.old.out) (reader.short_conjunct (level.levels levels) word second parser.old.tokens) result parser.new.tokens (parts parser.new.out) }
{
    let at = parser.tokens.take(word)?;
    parser.tokens.take(second)?;
    conjoined(parser, levels, at)
}

/// Relations with one operator between them, after the first relation and the first operator.
#[cycle(levels)]
#[tactic(auto, unfolding(syntax_grammar::specs::Expressions::joined))]
pub fn joined(
    parser: &mut Parser<'_>,
    levels: u32,
    operator: Logical,
    at: u32,
) -> Result<(), Failure>
    ensures { Reads the_expr IsExpr (pop (parts parser.old.out)) (reader.joined (level.levels levels) operator (the_rel (top (parts parser.old.out))) at (chains.operator_kinds operator) (chains.conjunct (level.levels levels) operator) parser.old.tokens) result parser.new.tokens (parts parser.new.out) }
{
    rel(parser, levels)?;
    list(parser, levels, Chain::Conjuncts(operator))?;
    three(&mut parser.out, Three::Joined(operator, at))
}

/// Relations, after the first and the first `and`.
#[cycle(levels)]
#[tactic(auto, unfolding(syntax_grammar::specs::Expressions::after_and))]
pub fn after_and(parser: &mut Parser<'_>, levels: u32, at: u32) -> Result<(), Failure>
    ensures { Reads the_expr IsExpr (pop (parts parser.old.out)) (reader.after_and (level.levels levels) (the_rel (top (parts parser.old.out))) at parser.old.tokens) result parser.new.tokens (parts parser.new.out) }
{
    if parser.tokens.peek() == THEN {
        parser.tokens.take(THEN)?;
        joined(parser, levels, Logical::AndThen, at)
    } else {
        joined(parser, levels, Logical::And, at)
    }
}

/// Relations, after the first and the first `or`.
#[cycle(levels)]
#[tactic(auto, unfolding(syntax_grammar::specs::Expressions::after_or))]
pub fn after_or(parser: &mut Parser<'_>, levels: u32, at: u32) -> Result<(), Failure>
    ensures { Reads the_expr IsExpr (pop (parts parser.old.out)) (reader.after_or (level.levels levels) (the_rel (top (parts parser.old.out))) at parser.old.tokens) result parser.new.tokens (parts parser.new.out) }
{
    if parser.tokens.peek() == ELSE {
        parser.tokens.take(ELSE)?;
        joined(parser, levels, Logical::OrElse, at)
    } else {
        joined(parser, levels, Logical::Or, at)
    }
}

/// An expression, after its first relation (4.4).
#[cycle(levels)]
#[tactic(auto, unfolding(syntax_grammar::specs::Expressions::expr_from))]
pub fn expr_from(parser: &mut Parser<'_>, levels: u32) -> Result<(), Failure>
    requires { IsRel (top (parts parser.old.out)) }
    ensures { Reads the_expr IsExpr (pop (parts parser.old.out)) (reader.expr_from (level.levels levels) (the_rel (top (parts parser.old.out))) parser.old.tokens) result parser.new.tokens (parts parser.new.out) }
{
    match parser.tokens.peek() {
        AND => {
            let at = parser.tokens.take(AND)?;
            after_and(parser, levels, at)
        }
        OR => {
            let at = parser.tokens.take(OR)?;
            after_or(parser, levels, at)
        }
        XOR => {
            let at = parser.tokens.take(XOR)?;
            joined(parser, levels, Logical::Xor, at)
        }
        _ => Ok(()),
    }
}

/// An expression (4.4).
#[cycle(levels)]
#[tactic(auto, unfolding(syntax_grammar::specs::Expressions::expr))]
pub fn expr(parser: &mut Parser<'_>, levels: u32) -> Result<(), Failure>
    ensures { Reads the_expr IsExpr (parts parser.old.out) (reader.expr (level.levels levels) parser.old.tokens) result parser.new.tokens (parts parser.new.out) }
{
    rel(parser, levels)?;
    expr_from(parser, levels)
}
