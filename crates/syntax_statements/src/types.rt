//! Types (3.2, 3.6, 3.8).

ghost use Rattle.syntax_expressions.specs.Reading.{Reads, ReadsTwo};
ghost use Rattle.syntax_grammar.specs.Declarations as declarations;
ghost use Rattle.syntax_statements.specs.Reading.{indexes_of};
ghost use Rattle.syntax_nodes.specs.Parts.{the_range, the_indic, the_array, the_comp, the_definition, the_decl, IsPart, IsIndic, IsArray, IsDecl};
ghost use Rattle.syntax_nodes.specs.Stack.{parts};

use crate::chains::{Chain, list};
use crate::names::ids;
use ada_base::kinds::{
    ARRAY, CLOSE_ROUND, COLON, COMMA, END, IDENTIFIER, IS, MOD, OF, OPEN_ROUND, RANGE, RECORD,
    SEMICOLON, SUBTYPE, TYPE,
};
use syntax_expressions::{Parser, below, constraint, opens, range, simple};
use syntax_nodes::{Leaf, One, Three, Two, leaf, one, three, two};
use syntax_readers::Failure;

/// A comma and a range.
#[tactic(auto, unfolding(syntax_grammar::specs::Declarations::next_index))]
pub fn next_index(parser: &mut Parser<'_>, levels: u32) -> Result<(), Failure>
    ensures { Reads the_range IsPart (parts parser.old.out) (declarations.next_index levels parser.old.tokens) result parser.new.tokens (parts parser.new.out) }
{
    parser.tokens.take(COMMA)?;
    range(parser, levels)
}

/// The index ranges of an array (3.6): the first, and the list of the others.
#[cycle(list)]
#[tactic(auto, unfolding(syntax_grammar::specs::Declarations::open_indexes))]
pub fn indexes_opened(parser: &mut Parser<'_>, levels: u32) -> Result<(), Failure>
    ensures { ReadsTwo indexes_of (parts parser.old.out) (declarations.open_indexes levels parser.old.tokens) result parser.new.tokens (parts parser.new.out) }
{
    parser.tokens.take(OPEN_ROUND)?;
    range(parser, levels)?;
    list(parser, levels, Chain::Indexes)?;
    parser.tokens.take(CLOSE_ROUND)?;
    Ok(())
}

/// The index ranges of an array, where so many levels may still open.
#[cycle(list)]
#[tactic(auto, unfolding(syntax_grammar::specs::Declarations::indexes))]
pub fn indexes(parser: &mut Parser<'_>, levels: u32) -> Result<(), Failure>
    ensures { ReadsTwo indexes_of (parts parser.old.out) (declarations.indexes levels parser.old.tokens) result parser.new.tokens (parts parser.new.out) }
{
    let inner = below(levels, opens(&parser.tokens, OPEN_ROUND))?;
    indexes_opened(parser, inner)
}

/// A subtype indication, after its mark (3.2.2).
#[tactic(auto, unfolding(syntax_grammar::specs::Declarations::indic_from))]
pub fn indic_from(parser: &mut Parser<'_>, levels: u32, mark: u32) -> Result<(), Failure>
    ensures { Reads the_indic IsIndic (parts parser.old.out) (declarations.indic_from levels mark parser.old.tokens) result parser.new.tokens (parts parser.new.out) }
{
    if parser.tokens.peek() == RANGE {
        constraint(parser, levels)?;
        two(&mut parser.out, Two::RangeMark(mark))
    } else {
        leaf(&mut parser.out, Leaf::Mark(mark))
    }
}

/// A subtype indication (3.2.2).
#[tactic(auto, unfolding(syntax_grammar::specs::Declarations::indic))]
pub fn indic(parser: &mut Parser<'_>, levels: u32) -> Result<(), Failure>
    ensures { Reads the_indic IsIndic (parts parser.old.out) (declarations.indic levels parser.old.tokens) result parser.new.tokens (parts parser.new.out) }
{
    let mark = parser.tokens.take(IDENTIFIER)?;
    indic_from(parser, levels, mark)
}

/// An array type definition (3.6).
#[cycle(list)]
#[tactic(auto, unfolding(syntax_grammar::specs::Declarations::array))]
pub fn array(parser: &mut Parser<'_>, levels: u32) -> Result<(), Failure>
    ensures { Reads the_array IsArray (parts parser.old.out) (declarations.array levels parser.old.tokens) result parser.new.tokens (parts parser.new.out) }
{
    let at = parser.tokens.take(ARRAY)?;
    indexes(parser, levels)?;
    parser.tokens.take(OF)?;
    indic(parser, levels)?;
    three(&mut parser.out, Three::Array(at))
}

/// A component declaration (3.8).
#[cycle(list)]
#[tactic(auto, unfolding(syntax_grammar::specs::Declarations::comp))]
pub fn comp(parser: &mut Parser<'_>, levels: u32) -> Result<(), Failure>
    ensures { Reads the_comp IsPart (parts parser.old.out) (declarations.comp levels parser.old.tokens) result parser.new.tokens (parts parser.new.out) }
{
    ids(parser, levels)?;
    parser.tokens.take(COLON)?;
    indic(parser, levels)?;
    parser.tokens.take(SEMICOLON)?;
    two(&mut parser.out, Two::Comp)
}

/// A record type definition (3.8).
#[cycle(list)]
#[tactic(auto, unfolding(syntax_grammar::specs::Declarations::record_type))]
pub fn record_type(parser: &mut Parser<'_>, levels: u32) -> Result<(), Failure>
    ensures { Reads the_definition IsPart (parts parser.old.out) (declarations.record_type levels parser.old.tokens) result parser.new.tokens (parts parser.new.out) }
{
    parser.tokens.take(RECORD)?;
    comp(parser, levels)?;
    list(parser, levels, Chain::Comps)?;
    parser.tokens.take(END)?;
    parser.tokens.take(RECORD)?;
    two(&mut parser.out, Two::RecordType)
}

/// A modular type definition (3.5.4).
#[tactic(auto, unfolding(syntax_grammar::specs::Declarations::modular_type))]
fn modular_type(parser: &mut Parser<'_>, levels: u32) -> Result<(), Failure>
    ensures { Reads the_definition IsPart (parts parser.old.out) (declarations.modular_type levels parser.old.tokens) result parser.new.tokens (parts parser.new.out) }
{
    parser.tokens.take(MOD)?;
    simple(parser, levels)?;
    one(&mut parser.out, One::ModularType)
}

/// A type definition (3.2.1).
#[cycle(list)]
#[tactic(auto, unfolding(syntax_grammar::specs::Declarations::definition))]
pub fn definition(parser: &mut Parser<'_>, levels: u32) -> Result<(), Failure>
    ensures { Reads the_definition IsPart (parts parser.old.out) (declarations.definition levels parser.old.tokens) result parser.new.tokens (parts parser.new.out) }
{
    match parser.tokens.peek() {
        RANGE => {
            constraint(parser, levels)?;
            two(&mut parser.out, Two::RangeType)
        }
        MOD => modular_type(parser, levels),
        ARRAY => array(parser, levels),
        _ => record_type(parser, levels),
    }
}

/// A type declaration (3.2.1).
#[cycle(list)]
#[tactic(auto, unfolding(syntax_grammar::specs::Declarations::type_decl))]
pub fn type_decl(parser: &mut Parser<'_>, levels: u32) -> Result<(), Failure>
    ensures { Reads the_decl IsDecl (parts parser.old.out) (declarations.type_decl levels parser.old.tokens) result parser.new.tokens (parts parser.new.out) }
{
    let at = parser.tokens.take(TYPE)?;
    let defined = parser.tokens.take(IDENTIFIER)?;
    parser.tokens.take(IS)?;
    definition(parser, levels)?;
    parser.tokens.take(SEMICOLON)?;
    one(&mut parser.out, One::TypeDecl(at, defined))
}

/// A subtype declaration (3.2.2).
#[tactic(auto, unfolding(syntax_grammar::specs::Declarations::subtype_decl))]
pub fn subtype_decl(parser: &mut Parser<'_>, levels: u32) -> Result<(), Failure>
    ensures { Reads the_decl IsDecl (parts parser.old.out) (declarations.subtype_decl levels parser.old.tokens) result parser.new.tokens (parts parser.new.out) }
{
    let at = parser.tokens.take(SUBTYPE)?;
    let defined = parser.tokens.take(IDENTIFIER)?;
    parser.tokens.take(IS)?;
    indic(parser, levels)?;
    parser.tokens.take(SEMICOLON)?;
    one(&mut parser.out, One::SubtypeDecl(at, defined))
}
