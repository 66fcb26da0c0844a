//! The lists that a repetition of the grammar reads, in one loop.

ghost use Rattle.ada_base.specs.Symbols.{is_member};
ghost use Rattle.syntax_expressions.specs.Reading.{Reads};
ghost use Rattle.syntax_readers.specs.Loops.{chain as loop};
ghost use Rattle.syntax_statements.specs.Chains as chains;
ghost use Rattle.std.specs.Prelude.{◌≡◌};
ghost use Rattle.syntax_nodes.specs.Parts.{IsPart};
ghost use Rattle.syntax_nodes.specs.Rooted.{top, pop};
ghost use Rattle.syntax_nodes.specs.Stack.{parts};

use crate::bodies::{and_stmts, handler, next_exception};
use crate::compounds::{alt, arm, begins_stmt, stmt};
use crate::declarations::{decl, next_formal};
use crate::names::{next_identifier, next_name};
use crate::types::{comp, next_index};
use crate::units::{clause, next_pack, unit};
use ada_base::kinds::{
    AND, BAR, COMMA, ELSIF, FUNCTION, IDENTIFIER, POINT, PROCEDURE, SEMICOLON, SUBTYPE, TYPE, USE,
    WHEN, WITH,
};
use syntax_expressions::{Parser, next_choice};
use syntax_nodes::{ListKind, also, close, nothing};
use syntax_readers::Failure;

/// What a list is of.
#[derive(Clone, Copy)]
pub enum Chain {
    /// The identifiers after the first, with commas.
    Identifiers,
    /// The identifiers after the first, with points.
    Names,
    /// Parameter specifications after the first.
    Formals,
    /// Index ranges after the first.
    Indexes,
    /// Component declarations after the first.
    Comps,
    /// Declarations.
    Decls,
    /// Choices after the first.
    Choices,
    /// Names of exceptions after the first.
    Exceptions,
    /// Statements after the first.
    Stmts,
    /// Handlers.
    Handlers,
    /// The `elsif` parts of an if statement.
    Arms,
    /// Alternatives after the first.
    Alts,
    /// Sequences of a parallel block after the second.
    Branches,
    /// Names of packages after the first.
    Packs,
    /// Declarations and subprograms.
    Units,
    /// Context clauses.
    Clauses,
}

/// Which list a chain grows.
fn list_kind(chain: Chain) -> ListKind
    ensures { result ≡ chains.kind_of chain }
{
    match chain {
        Chain::Identifiers | Chain::Names => ListKind::Tokens,
        Chain::Formals => ListKind::FormalList,
        Chain::Indexes => ListKind::Ranges,
        Chain::Comps => ListKind::Comps,
        Chain::Decls => ListKind::Decls,
        Chain::Choices => ListKind::ChoiceList,
        Chain::Exceptions | Chain::Packs => ListKind::Packs,
        Chain::Stmts => ListKind::Stmts,
        Chain::Handlers => ListKind::Handlers,
        Chain::Arms => ListKind::Arms,
        Chain::Alts => ListKind::Alts,
        Chain::Branches => ListKind::Branches,
        Chain::Units => ListKind::Units,
        Chain::Clauses => ListKind::Clauses,
    }
}

/// Whether a chain goes on at a token of this kind.
fn goes(chain: Chain, kind: u16) -> bool
    ensures { result ≡ is_member (chains.goes chain) kind }
{
    match chain {
        Chain::Identifiers | Chain::Indexes | Chain::Packs => kind == COMMA,
        Chain::Names => kind == POINT,
        Chain::Formals => kind == SEMICOLON,
        Chain::Comps => kind == IDENTIFIER,
        Chain::Decls => matches!(kind, TYPE | SUBTYPE | IDENTIFIER),
        Chain::Choices | Chain::Exceptions => kind == BAR,
        Chain::Stmts => begins_stmt(kind),
        Chain::Handlers | Chain::Alts => kind == WHEN,
        Chain::Arms => kind == ELSIF,
        Chain::Branches => kind == AND,
        Chain::Units => matches!(kind, PROCEDURE | FUNCTION | TYPE | SUBTYPE | IDENTIFIER),
        Chain::Clauses => matches!(kind, WITH | USE),
    }
}

/// The next item of a chain.
#[cycle(list)]
fn item(parser: &mut Parser<'_>, levels: u32, chain: Chain) -> Result<(), Failure>
    ensures { Reads (chains.the_item chain) IsPart (parts parser.old.out) (chains.item levels chain parser.old.tokens) result parser.new.tokens (parts parser.new.out) }
{
    match chain {
        Chain::Identifiers => next_identifier(parser),
        Chain::Names => next_name(parser),
        Chain::Formals => next_formal(parser, levels),
        Chain::Indexes => next_index(parser, levels),
        Chain::Comps => comp(parser, levels),
        Chain::Decls => decl(parser, levels),
        Chain::Choices => next_choice(parser, levels),
        Chain::Exceptions => next_exception(parser, levels),
        Chain::Stmts => stmt(parser, levels),
        Chain::Handlers => handler(parser, levels),
        Chain::Arms => arm(parser, levels),
        Chain::Alts => alt(parser, levels),
        Chain::Branches => and_stmts(parser, levels),
        Chain::Packs => next_pack(parser, levels),
        Chain::Units => unit(parser, levels),
        Chain::Clauses => clause(parser, levels),
    }
}

/// The next item of a chain, behind those before it.
#[cycle(list)]
fn link(parser: &mut Parser<'_>, levels: u32, chain: Chain) -> Result<(), Failure>
    ensures { Reads (chains.so_far chain) IsPart (pop (parts parser.old.out)) (chains.link levels chain (chains.so_far chain (top (parts parser.old.out))) parser.old.tokens) result parser.new.tokens (parts parser.new.out) }
{
    item(parser, levels, chain)?;
    also(&mut parser.out, list_kind(chain))
}

/// All further items of a chain.
#[cycle(list)]
fn follow(parser: &mut Parser<'_>, levels: u32, chain: Chain) -> Result<(), Failure>
    ensures { Reads (chains.so_far chain) IsPart (pop (parts parser.old.out)) (loop (chains.goes chain) (chains.link levels chain) (chains.so_far chain (top (parts parser.old.out))) parser.old.tokens) result parser.new.tokens (parts parser.new.out) }
{
    for _turn in 0..parser.tokens.left() {
        if !goes(chain, parser.tokens.peek()) {
            return Ok(());
        }
        link(parser, levels, chain)?;
    }
    Ok(())
}

/// The list of the items of a chain.
#[cycle(list)]
pub fn list(parser: &mut Parser<'_>, levels: u32, chain: Chain) -> Result<(), Failure>
    ensures { Reads (chains.the chain) IsPart (parts parser.old.out) (chains.items levels chain parser.old.tokens) result parser.new.tokens (parts parser.new.out) }
{
    nothing(&mut parser.out)?;
    follow(parser, levels, chain)?;
    close(&mut parser.out, list_kind(chain))
}
