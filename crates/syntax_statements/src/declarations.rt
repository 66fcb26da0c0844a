//! Formal parameters and declarations of objects, numbers and exceptions (3.3, 6.1, 11.1).

ghost use Rattle.syntax_expressions.specs.Reading.{Reads};
ghost use Rattle.syntax_grammar.specs.Declarations as declarations;
ghost use Rattle.syntax_readers.specs.Computes.{Computes};
ghost use Rattle.syntax_nodes.specs.Parts.{the_ids, the_formal, the_formals, the_decl, the_object_type, maybe_formals, maybe_expr, IsPart, IsFormals, IsDecl};
ghost use Rattle.syntax_nodes.specs.Rooted.{top, pop};
ghost use Rattle.syntax_nodes.specs.Stack.{parts};

use crate::chains::{Chain, list};
use crate::names::ids;
use crate::types::{array, indic, subtype_decl, type_decl};
use ada_base::kinds::{
    ARRAY, ASSIGN, CLOSE_ROUND, COLON, CONSTANT, EXCEPTION, IDENTIFIER, IN, OPEN_ROUND, OUT,
    SEMICOLON, SUBTYPE, TYPE,
};
use syntax_expressions::{Parser, below, expr, opens};
use syntax_nodes::{One, Three, Two, nothing, one, three, two};
use syntax_readers::{Cursor, Failure};
use syntax_tree::Mode;

/// A mode that begins with `in` (6.1).
#[tactic(auto, unfolding(syntax_grammar::specs::Declarations::in_mode))]
pub fn in_mode(tokens: &mut Cursor<'_>) -> Result<Option<Mode>, Failure>
    ensures { Computes (declarations.in_mode tokens.old) result tokens.new }
{
    let at = tokens.take(IN)?;
    if tokens.peek() == OUT {
        tokens.take(OUT)?;
        Ok(Some(Mode::InOut(at)))
    } else {
        Ok(Some(Mode::In(at)))
    }
}

/// The mode `out` (6.1).
#[tactic(auto, unfolding(syntax_grammar::specs::Declarations::out_mode))]
pub fn out_mode(tokens: &mut Cursor<'_>) -> Result<Option<Mode>, Failure>
    ensures { Computes (declarations.out_mode tokens.old) result tokens.new }
{
    let at = tokens.take(OUT)?;
    Ok(Some(Mode::Out(at)))
}

/// A mode, if there is one (6.1).
#[tactic(auto, unfolding(syntax_grammar::specs::Declarations::mode))]
pub fn mode(tokens: &mut Cursor<'_>) -> Result<Option<Mode>, Failure>
    ensures { Computes (declarations.mode tokens.old) result tokens.new }
{
    match tokens.peek() {
        IN => in_mode(tokens),
        OUT => out_mode(tokens),
        _ => Ok(None),
    }
}

/// A parameter specification (6.1).
#[cycle(list)]
#[tactic(auto, unfolding(syntax_grammar::specs::Declarations::formal))]
pub fn formal(parser: &mut Parser<'_>, levels: u32) -> Result<(), Failure>
    ensures { Reads the_formal IsPart (parts parser.old.out) (declarations.formal parser.old.tokens) result parser.new.tokens (parts parser.new.out) }
{
    ids(parser, levels)?;
    parser.tokens.take(COLON)?;
    let mode = mode(&mut parser.tokens)?;
    let mark = parser.tokens.take(IDENTIFIER)?;
    one(&mut parser.out, One::Formal(mode, mark))
}

/// A semicolon and a parameter specification.
#[cycle(list)]
#[tactic(auto, unfolding(syntax_grammar::specs::Declarations::next_formal))]
pub fn next_formal(parser: &mut Parser<'_>, levels: u32) -> Result<(), Failure>
    ensures { Reads the_formal IsPart (parts parser.old.out) (declarations.next_formal parser.old.tokens) result parser.new.tokens (parts parser.new.out) }
{
    parser.tokens.take(SEMICOLON)?;
    formal(parser, levels)
}

/// A formal part (6.1).
#[cycle(list)]
#[tactic(auto, unfolding(syntax_grammar::specs::Declarations::open_formals))]
pub fn formals_opened(parser: &mut Parser<'_>, levels: u32) -> Result<(), Failure>
    ensures { Reads the_formals IsFormals (parts parser.old.out) (declarations.open_formals parser.old.tokens) result parser.new.tokens (parts parser.new.out) }
{
    let bracket = parser.tokens.take(OPEN_ROUND)?;
    formal(parser, levels)?;
    list(parser, levels, Chain::Formals)?;
    parser.tokens.take(CLOSE_ROUND)?;
    two(&mut parser.out, Two::Formals(bracket))
}

/// A formal part, where so many levels may still open.
#[cycle(list)]
#[tactic(auto, unfolding(syntax_grammar::specs::Declarations::formals))]
pub fn formals(parser: &mut Parser<'_>, levels: u32) -> Result<(), Failure>
    ensures { Reads the_formals IsFormals (parts parser.old.out) (declarations.formals levels parser.old.tokens) result parser.new.tokens (parts parser.new.out) }
{
    let inner = below(levels, opens(&parser.tokens, OPEN_ROUND))?;
    formals_opened(parser, inner)
}

/// A formal part, if there is one.
#[cycle(list)]
#[tactic(auto, unfolding(syntax_grammar::specs::Declarations::maybe_formals))]
pub fn optional_formals(parser: &mut Parser<'_>, levels: u32) -> Result<(), Failure>
    ensures { Reads maybe_formals IsPart (parts parser.old.out) (declarations.maybe_formals levels parser.old.tokens) result parser.new.tokens (parts parser.new.out) }
{
    if parser.tokens.peek() == OPEN_ROUND {
        formals(parser, levels)
    } else {
        nothing(&mut parser.out)
    }
}

/// The type of an object (3.3.1).
#[cycle(list)]
#[tactic(auto, unfolding(syntax_grammar::specs::Declarations::object_type))]
pub fn object_type(parser: &mut Parser<'_>, levels: u32) -> Result<(), Failure>
    ensures { Reads the_object_type IsPart (parts parser.old.out) (declarations.object_type levels parser.old.tokens) result parser.new.tokens (parts parser.new.out) }
{
    if parser.tokens.peek() == ARRAY {
        array(parser, levels)
    } else {
        indic(parser, levels)
    }
}

/// The value of an object, if there is one (3.3.1).
#[tactic(auto, unfolding(syntax_grammar::specs::Declarations::initial))]
pub fn initial(parser: &mut Parser<'_>, levels: u32) -> Result<(), Failure>
    ensures { Reads maybe_expr IsPart (parts parser.old.out) (declarations.initial levels parser.old.tokens) result parser.new.tokens (parts parser.new.out) }
{
    if parser.tokens.peek() == ASSIGN {
        parser.tokens.take(ASSIGN)?;
        expr(parser, levels)
    } else {
        nothing(&mut parser.out)
    }
}

/// An object declaration, after its names, the colon and `constant` (3.3.1).
#[cycle(list)]
#[tactic(auto, unfolding(syntax_grammar::specs::Declarations::object))]
pub fn object(parser: &mut Parser<'_>, levels: u32, constant: Option<u32>) -> Result<(), Failure>
    ensures { Reads the_decl IsDecl (pop (parts parser.old.out)) (declarations.object levels (the_ids (top (parts parser.old.out))) constant parser.old.tokens) result parser.new.tokens (parts parser.new.out) }
{
    object_type(parser, levels)?;
    initial(parser, levels)?;
    parser.tokens.take(SEMICOLON)?;
    three(&mut parser.out, Three::ObjectDecl(constant))
}

/// A number declaration, after its names, the colon and the token `at` of `constant` (3.3.2).
#[tactic(auto, unfolding(syntax_grammar::specs::Declarations::number))]
pub fn number(parser: &mut Parser<'_>, levels: u32, at: u32) -> Result<(), Failure>
    ensures { Reads the_decl IsDecl (pop (parts parser.old.out)) (declarations.number levels (the_ids (top (parts parser.old.out))) at parser.old.tokens) result parser.new.tokens (parts parser.new.out) }
{
    parser.tokens.take(ASSIGN)?;
    expr(parser, levels)?;
    parser.tokens.take(SEMICOLON)?;
    two(&mut parser.out, Two::NumberDecl(at))
}

/// A declaration with `constant`, after its names and the colon.
#[cycle(list)]
#[tactic(auto, unfolding(syntax_grammar::specs::Declarations::constant))]
pub fn constant(parser: &mut Parser<'_>, levels: u32) -> Result<(), Failure>
    ensures { Reads the_decl IsDecl (pop (parts parser.old.out)) (declarations.constant levels (the_ids (top (parts parser.old.out))) parser.old.tokens) result parser.new.tokens (parts parser.new.out) }
{
    let at = parser.tokens.take(CONSTANT)?;
    if parser.tokens.peek() == ASSIGN {
        number(parser, levels, at)
    } else {
        object(parser, levels, Some(at))
    }
}

/// An exception declaration, after its names and the colon (11.1).
#[tactic(auto, unfolding(syntax_grammar::specs::Declarations::exception))]
pub fn exception(parser: &mut Parser<'_>, levels: u32) -> Result<(), Failure>
    ensures { Reads the_decl IsDecl (pop (parts parser.old.out)) (declarations.exception levels (the_ids (top (parts parser.old.out))) parser.old.tokens) result parser.new.tokens (parts parser.new.out) }
{
    parser.tokens.take(EXCEPTION)?;
    parser.tokens.take(SEMICOLON)?;
    one(&mut parser.out, One::ExceptionDecl)
}

/// A declaration, after its names and the colon.
#[cycle(list)]
#[tactic(auto, unfolding(syntax_grammar::specs::Declarations::named_decl))]
pub fn named_decl(parser: &mut Parser<'_>, levels: u32) -> Result<(), Failure>
    ensures { Reads the_decl IsDecl (pop (parts parser.old.out)) (declarations.named_decl levels (the_ids (top (parts parser.old.out))) parser.old.tokens) result parser.new.tokens (parts parser.new.out) }
{
    match parser.tokens.peek() {
        EXCEPTION => exception(parser, levels),
        CONSTANT => constant(parser, levels),
        _ => object(parser, levels, None),
    }
}

/// A declaration that begins with names.
#[cycle(list)]
#[tactic(auto, unfolding(syntax_grammar::specs::Declarations::names_decl))]
pub fn names_decl(parser: &mut Parser<'_>, levels: u32) -> Result<(), Failure>
    ensures { Reads the_decl IsDecl (parts parser.old.out) (declarations.names_decl levels parser.old.tokens) result parser.new.tokens (parts parser.new.out) }
{
    ids(parser, levels)?;
    parser.tokens.take(COLON)?;
    named_decl(parser, levels)
}

/// A declaration (3.1).
#[cycle(list)]
#[tactic(auto, unfolding(syntax_grammar::specs::Declarations::decl))]
pub fn decl(parser: &mut Parser<'_>, levels: u32) -> Result<(), Failure>
    ensures { Reads the_decl IsDecl (parts parser.old.out) (declarations.decl levels parser.old.tokens) result parser.new.tokens (parts parser.new.out) }
{
    match parser.tokens.peek() {
        TYPE => type_decl(parser, levels),
        SUBTYPE => subtype_decl(parser, levels),
        _ => names_decl(parser, levels),
    }
}
