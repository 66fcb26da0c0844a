//! The lists that a repetition of the grammar reads, in one loop.

ghost use Rattle.ada_base.specs.Symbols.{is_member};
ghost use Rattle.syntax_expressions.specs.Chains as chains;
ghost use Rattle.syntax_expressions.specs.Reading.{Reads};
ghost use Rattle.syntax_grammar.specs.Levels as level;
ghost use Rattle.syntax_readers.specs.Loops.{chain as loop};
ghost use Rattle.std.specs.Prelude.{◌≡◌};
ghost use Rattle.syntax_nodes.specs.Parts.{the_conjunct, IsPart};
ghost use Rattle.syntax_nodes.specs.Rooted.{top, pop};
ghost use Rattle.syntax_nodes.specs.Stack.{parts};

use crate::aggregates::{next_assoc, next_choice};
use crate::brackets::next_elsif;
use crate::expressions::{added, conjunct, multiplied, part, short_conjunct};
use crate::parser::Parser;
use crate::ranges::next_arg;
use ada_base::kinds::{
    AMPERSAND, AND, BAR, COMMA, ELSE, ELSIF, MINUS, MOD, OPEN_ROUND, OR, PLUS, POINT, REM, SLASH,
    STAR, THEN, TICK, XOR,
};
use syntax_nodes::{ListKind, also, close, nothing};
use syntax_readers::Failure;
use syntax_tree::Logical;

/// What a list is of.
#[derive(Clone, Copy)]
pub enum Chain {
    /// What follows in a name.
    NameParts,
    /// Multiplying operators with their factors.
    Multiplyings,
    /// Adding operators with their terms.
    Addings,
    /// A logical operator with its relations.
    Conjuncts(Logical),
    /// Arguments.
    Args,
    /// Choices.
    Choices,
    /// Associations.
    Assocs,
    /// The `elsif` parts of a conditional expression.
    Elsifs,
}

/// Which list a chain grows.
fn list_kind(chain: Chain) -> ListKind
    ensures { result ≡ chains.kind_of chain }
{
    match chain {
        Chain::NameParts => ListKind::NameParts,
        Chain::Multiplyings => ListKind::Multiplyings,
        Chain::Addings => ListKind::Addings,
        Chain::Conjuncts(_) => ListKind::Conjuncts,
        Chain::Args => ListKind::Args,
        Chain::Choices => ListKind::Choices,
        Chain::Assocs => ListKind::Assocs,
        Chain::Elsifs => ListKind::Elsifs,
    }
}

/// Whether a chain goes on at a token of this kind.
fn goes(chain: Chain, kind: u16) -> bool
    ensures { result ≡ is_member (chains.goes chain) kind }
{
    match chain {
        Chain::NameParts => matches!(kind, POINT | TICK | OPEN_ROUND),
        Chain::Multiplyings => matches!(kind, STAR | SLASH | MOD | REM),
        Chain::Addings => matches!(kind, PLUS | MINUS | AMPERSAND),
        Chain::Conjuncts(Logical::And | Logical::AndThen) => kind == AND,
        Chain::Conjuncts(Logical::Or | Logical::OrElse) => kind == OR,
        Chain::Conjuncts(Logical::Xor) => kind == XOR,
        Chain::Args | Chain::Assocs => kind == COMMA,
        Chain::Choices => kind == BAR,
        Chain::Elsifs => kind == ELSIF,
    }
}

/// The next relation of a chain, with its operator.
#[cycle(levels)]
fn joined_item(parser: &mut Parser<'_>, levels: u32, operator: Logical) -> Result<(), Failure>
    ensures { Reads the_conjunct IsPart (parts parser.old.out) (chains.conjunct (level.levels levels) operator parser.old.tokens) result parser.new.tokens (parts parser.new.out) }
{
    match operator {
        Logical::And => conjunct(parser, levels, AND),
        Logical::AndThen => short_conjunct(parser, levels, AND, THEN),
        Logical::Or => conjunct(parser, levels, OR),
        Logical::OrElse => short_conjunct(parser, levels, OR, ELSE),
        Logical::Xor => conjunct(parser, levels, XOR),
    }
}

/// The next item of a chain.
#[cycle(levels)]
fn item(parser: &mut Parser<'_>, levels: u32, chain: Chain) -> Result<(), Failure>
    ensures { Reads (chains.the_item chain) IsPart (parts parser.old.out) (chains.item (level.levels levels) chain parser.old.tokens) result parser.new.tokens (parts parser.new.out) }
{
    match chain {
        Chain::NameParts => part(parser, levels),
        Chain::Multiplyings => multiplied(parser, levels),
        Chain::Addings => added(parser, levels),
        Chain::Conjuncts(operator) => joined_item(parser, levels, operator),
        Chain::Args => next_arg(parser, levels),
        Chain::Choices => next_choice(parser, levels),
        Chain::Assocs => next_assoc(parser, levels),
        Chain::Elsifs => next_elsif(parser, levels),
    }
}

/// The next item of a chain, behind those before it.
#[cycle(levels)]
fn link(parser: &mut Parser<'_>, levels: u32, chain: Chain) -> Result<(), Failure>
    ensures { Reads (chains.so_far chain) IsPart (pop (parts parser.old.out)) (chains.link (level.levels levels) chain (chains.so_far chain (top (parts parser.old.out))) parser.old.tokens) result parser.new.tokens (parts parser.new.out) }
{
    item(parser, levels, chain)?;
    also(&mut parser.out, list_kind(chain))
}

/// All further items of a chain.
#[cycle(levels)]
fn follow(parser: &mut Parser<'_>, levels: u32, chain: Chain) -> Result<(), Failure>
    ensures { Reads (chains.so_far chain) IsPart (pop (parts parser.old.out)) (loop (chains.goes chain) (chains.link (level.levels levels) chain) (chains.so_far chain (top (parts parser.old.out))) parser.old.tokens) result parser.new.tokens (parts parser.new.out) }
{
    for _turn in 0..parser.tokens.left() {
        if !goes(chain, parser.tokens.peek()) {
            return Ok(());
        }
        link(parser, levels, chain)?;
    }
    Ok(())
}

/// The list of the items of a chain.
#[cycle(levels)]
pub fn list(parser: &mut Parser<'_>, levels: u32, chain: Chain) -> Result<(), Failure>
    ensures { Reads (chains.the chain) IsPart (parts parser.old.out) (chains.items (level.levels levels) chain parser.old.tokens) result parser.new.tokens (parts parser.new.out) }
{
    nothing(&mut parser.out)?;
    follow(parser, levels, chain)?;
    close(&mut parser.out, list_kind(chain))
}
