//! Subprograms (6.3, 6.8).

ghost use Rattle.ada_base.specs.Symbols.{is_member};
ghost use Rattle.syntax_expressions.specs.Reading.{Reads, ReadsForm};
ghost use Rattle.syntax_grammar.specs.Units as units;
ghost use Rattle.syntax_statements.specs.Reading.{valued_of, ended_of, AnyName};
ghost use Rattle.std.specs.Prelude.{◌≡◌};
ghost use Rattle.syntax_nodes.specs.Parts.{the_sub, maybe_formals, maybe_aspect, IsPart, IsSub};
ghost use Rattle.syntax_nodes.specs.Rooted.{top, pop, second};
ghost use Rattle.syntax_nodes.specs.Stack.{parts};

use crate::bodies::body;
use crate::chains::{Chain, list};
use crate::declarations::optional_formals;
use crate::names::maybe_identifier;
use crate::units::{aspect, optional_aspect};
use ada_base::kinds::{
    BEGIN, CLOSE_ROUND, END, FUNCTION, IDENTIFIER, IS, OPEN_ROUND, PROCEDURE, RETURN, SEMICOLON,
    WITH,
};
use syntax_expressions::{Parser, below, expr, opens};
use syntax_nodes::{One, Three, Two, nothing, one, three, two};
use syntax_readers::Failure;

/// The expression of an expression function in its brackets (6.8).
#[tactic(auto, unfolding(syntax_grammar::specs::Units::open_value))]
pub fn value_opened(parser: &mut Parser<'_>, levels: u32) -> Result<(), Failure>
    ensures { Reads valued_of IsPart (parts parser.old.out) (units.open_value levels parser.old.tokens) result parser.new.tokens (parts parser.new.out) }
{
    let bracket = parser.tokens.take(OPEN_ROUND)?;
    expr(parser, levels)?;
    parser.tokens.take(CLOSE_ROUND)?;
    one(&mut parser.out, One::Bracketed(bracket))
}

/// The expression of an expression function in its brackets, where so many levels may still open.
#[tactic(auto, unfolding(syntax_grammar::specs::Units::function_value))]
pub fn function_value(parser: &mut Parser<'_>, levels: u32) -> Result<(), Failure>
    ensures { Reads valued_of IsPart (parts parser.old.out) (units.function_value levels parser.old.tokens) result parser.new.tokens (parts parser.new.out) }
{
    let inner = below(levels, opens(&parser.tokens, OPEN_ROUND))?;
    value_opened(parser, inner)
}

/// A subprogram from `begin` on: its body, and the identifier after `end` (6.3).
#[cycle(list)]
#[tactic(auto, unfolding(syntax_grammar::specs::Units::ended))]
pub fn ended(parser: &mut Parser<'_>, levels: u32) -> Result<Option<u32>, Failure>
    ensures { ReadsForm ended_of AnyName (parts parser.old.out) (units.ended levels parser.old.tokens) result parser.new.tokens (parts parser.new.out) }
{
    parser.tokens.take(BEGIN)?;
    body(parser, levels)?;
    parser.tokens.take(END)?;
    let last_name = maybe_identifier(&mut parser.tokens)?;
    parser.tokens.take(SEMICOLON)?;
    Ok(last_name)
}

/// A procedure, after its aspect (6.3).
#[cycle(list)]
#[tactic(auto, unfolding(syntax_grammar::specs::Units::procedure_is))]
pub fn procedure_is(
    parser: &mut Parser<'_>,
    levels: u32,
    at: u32,
    defined: u32,
) -> Result<(), Failure>
    ensures { Reads the_sub IsSub (pop (pop (parts parser.old.out))) (units.procedure_is levels at defined (maybe_formals (second (parts parser.old.out))) (maybe_aspect (top (parts parser.old.out))) parser.old.tokens) result parser.new.tokens (parts parser.new.out) }
{
    parser.tokens.take(IS)?;
    list(parser, levels, Chain::Decls)?;
    let last_name = ended(parser, levels)?;
    two(&mut parser.out, Two::Implementation(last_name))?;
    three(&mut parser.out, Three::Procedure(at, defined))
}

/// A procedure (6.3).
#[cycle(list)]
#[tactic(auto, unfolding(syntax_grammar::specs::Units::procedure))]
pub fn procedure(parser: &mut Parser<'_>, levels: u32) -> Result<(), Failure>
    ensures { Reads the_sub IsSub (parts parser.old.out) (units.procedure levels parser.old.tokens) result parser.new.tokens (parts parser.new.out) }
{
    let at = parser.tokens.take(PROCEDURE)?;
    let defined = parser.tokens.take(IDENTIFIER)?;
    optional_formals(parser, levels)?;
    optional_aspect(parser)?;
    procedure_is(parser, levels, at, defined)
}

/// A function, after `is` (6.3).
#[cycle(list)]
#[tactic(auto, unfolding(syntax_grammar::specs::Units::function_body))]
pub fn function_body(
    parser: &mut Parser<'_>,
    levels: u32,
    at: u32,
    defined: u32,
    result_mark: u32,
) -> Result<(), Failure>
    ensures { Reads the_sub IsSub (pop (pop (parts parser.old.out))) (units.function_body levels at defined (maybe_formals (second (parts parser.old.out))) result_mark (maybe_aspect (top (parts parser.old.out))) parser.old.tokens) result parser.new.tokens (parts parser.new.out) }
{
    list(parser, levels, Chain::Decls)?;
    let last_name = ended(parser, levels)?;
    two(&mut parser.out, Two::Implementation(last_name))?;
    three(&mut parser.out, Three::Function(at, defined, result_mark))
}

/// An expression function, after `is` (6.8).
#[tactic(auto, unfolding(syntax_grammar::specs::Units::expression_function))]
pub fn expression_function(
    parser: &mut Parser<'_>,
    levels: u32,
    at: u32,
    defined: u32,
    result_mark: u32,
) -> Result<(), Failure>
    ensures { Reads the_sub IsSub (pop (parts parser.old.out)) (units.expression_function levels at defined (maybe_formals (top (parts parser.old.out))) result_mark parser.old.tokens) result parser.new.tokens (parts parser.new.out) }
{
    function_value(parser, levels)?;
    optional_aspect(parser)?;
    parser.tokens.take(SEMICOLON)?;
    three(
        &mut parser.out,
        Three::ExprFunction(at, defined, result_mark),
    )
}

/// A function, after the mark of its result (6.3).
#[cycle(list)]
#[tactic(auto, unfolding(syntax_grammar::specs::Units::function_from))]
pub fn function_from(
    parser: &mut Parser<'_>,
    levels: u32,
    at: u32,
    defined: u32,
    result_mark: u32,
) -> Result<(), Failure>
    ensures { Reads the_sub IsSub (pop (parts parser.old.out)) (units.function_from levels at defined (maybe_formals (top (parts parser.old.out))) result_mark parser.old.tokens) result parser.new.tokens (parts parser.new.out) }
{
    if parser.tokens.peek() == WITH {
        aspect(parser)?;
        parser.tokens.take(IS)?;
        return function_body(parser, levels, at, defined, result_mark);
    }
    parser.tokens.take(IS)?;
    if parser.tokens.peek() == OPEN_ROUND {
        expression_function(parser, levels, at, defined, result_mark)
    } else {
        nothing(&mut parser.out)?;
        function_body(parser, levels, at, defined, result_mark)
    }
}

/// A function (6.3, 6.8).
#[cycle(list)]
#[tactic(auto, unfolding(syntax_grammar::specs::Units::function))]
pub fn function(parser: &mut Parser<'_>, levels: u32) -> Result<(), Failure>
    ensures { Reads the_sub IsSub (parts parser.old.out) (units.function levels parser.old.tokens) result parser.new.tokens (parts parser.new.out) }
{
    let at = parser.tokens.take(FUNCTION)?;
    let defined = parser.tokens.take(IDENTIFIER)?;
    optional_formals(parser, levels)?;
    parser.tokens.take(RETURN)?;
    let result_mark = parser.tokens.take(IDENTIFIER)?;
    function_from(parser, levels, at, defined, result_mark)
}

/// A subprogram (6.3).
#[cycle(list)]
#[tactic(auto, unfolding(syntax_grammar::specs::Units::open_sub))]
pub fn sub_opened(parser: &mut Parser<'_>, levels: u32) -> Result<(), Failure>
    ensures { Reads the_sub IsSub (parts parser.old.out) (units.open_sub levels parser.old.tokens) result parser.new.tokens (parts parser.new.out) }
{
    if parser.tokens.peek() == PROCEDURE {
        procedure(parser, levels)
    } else {
        function(parser, levels)
    }
}

/// Whether a subprogram begins with a token of this kind.
pub fn begins_sub(kind: u16) -> bool
    ensures { result ≡ is_member units.sub_kinds kind }
{
    matches!(kind, PROCEDURE | FUNCTION)
}

/// A subprogram, where so many levels may still open.
#[cycle(list)]
#[tactic(auto, unfolding(syntax_grammar::specs::Units::sub))]
pub fn sub(parser: &mut Parser<'_>, levels: u32) -> Result<(), Failure>
    ensures { Reads the_sub IsSub (parts parser.old.out) (units.sub levels parser.old.tokens) result parser.new.tokens (parts parser.new.out) }
{
    let inner = below(levels, begins_sub(parser.tokens.peek()))?;
    sub_opened(parser, inner)
}
