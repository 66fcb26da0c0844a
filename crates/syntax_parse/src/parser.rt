//! The tree of a text's tokens, or their first fault.

ghost use Rattle.std.specs.Prelude.{◌≡◌, ◌≤◌, ◌<◌, ◌^◌, ℕ, [], length, Err, IfOk};
ghost use Rattle.ada_base.specs.Tokens.{kind_at};
ghost use Rattle.syntax_tree.specs.Grammar.{ProgramWords};
ghost use Rattle.syntax_tree.specs.Parsed.{depth_limit, IsParsed, IsSyntaxFault, IsTooDeep};
ghost use Rattle.syntax_tree.specs.Syntax.{Program};
ghost use Rattle.ada_base.specs.TokenKinds as token_kind;
ghost use Rattle.syntax_readers.specs.Ahead.{kinds};
ghost use Rattle.syntax_nodes.specs.Stack.{parts};
ghost use Rattle.syntax_parse.specs.Parsed.{Parsed, JudgedTree, GivesTree, GivesFault, GivesTooDeep};

use ada_base::{Items, Kind, Token, Tokens};
use std::alloc::{AllocError, Global};
use syntax_expressions::Parser;
use syntax_nodes::{Parts, Tree, finish};
use syntax_readers::{Cursor, Refusal, verdict};
use syntax_statements::program;
use syntax_tree::{DEPTH_LIMIT, is_left_out};
use thiserror::Error;

/// Why a list of tokens has no tree. A token is given by its number from 0; the End is one too.
#[derive(Debug, Drop, Error)]
pub enum ParseFault {
    /// The first fault is at a token that the language leaves out.
    #[error("token {token} is none of the language")]
    LeftOut { token: u32 },
    /// The first fault is at this token.
    #[error("token {token} is unexpected")]
    Unexpected { token: u32 },
    /// This is the first token that stands deeper than 64 levels.
    #[error("token {token} stands too deep")]
    TooDeep { token: u32 },
    /// There is no memory.
    #[error("out of memory")]
    OutOfMemory,
}

/// A text's tokens without the End.
#[tactic(auto, using(crate::proofs::KindLists::taken_kinds))]
fn without_end(tokens: &[Token]) -> &[Token]
    ensures is { kinds result.now ≡ token_kind.kinds_of tokens.now }
    ensures short { length result.now ≤ length tokens.now }
{
    if tokens.is_empty() {
        return tokens;
    }
    &tokens[..tokens.len() - 1]
}

/// The kind of the token with this number, or the End where there is none.
fn kind_at(tokens: &[Token], token: u32) -> Kind
    ensures { result ≡ kind_at tokens.now token }
{
    match tokens.get(token as usize) {
        Some(found) => found.kind,
        None => Kind::End,
    }
}

/// A table without parts that has room for a node for each token: one that grows from nothing leaves the blocks that it
/// has grown out of behind it.
#[tactic(auto, using(syntax_nodes::proofs::Stacks::fit_none), unfolding(syntax_nodes::specs::Stack::parts, syntax_nodes::specs::Rooted::stack))]
fn table_for(alloc: Global, tokens: &[Token]) -> Result<Parts, AllocError>
    ensures { IfOk result (λ out. parts out ≡ []) }
{
    Ok(Parts {
        nodes: Items::from_vec(Vec::with_capacity(alloc, tokens.len())?),
        roots: Items::new(alloc),
    })
}

/// The tree of a text's tokens without the End, or why they have none.
fn judge(alloc: Global, all: &[Token]) -> Result<Tree, Refusal>
    requires { length all.now < 2 ^ 32 }
    ensures { JudgedTree (kinds all.now) result }
{
    let Ok(out) = table_for(alloc, all) else {
        return Err(Refusal::OutOfMemory);
    };
    let mut parser = Parser {
        tokens: Cursor::new(all),
        out,
    };
    let read = program(&mut parser, DEPTH_LIMIT);
    let Parser { tokens, out } = parser;
    match verdict(all, &tokens, read) {
        Ok(()) => Ok(finish(out)),
        Err(refusal) => Err(refusal),
    }
}

/// Why a list of tokens has no tree, from why its kinds have none.
fn told(tokens: &[Token], refusal: Refusal) -> ParseFault
    requires { JudgedTree (token_kind.kinds_of tokens.now) (Err refusal) }
    ensures { Parsed tokens.now (Err result) }
{
    match refusal {
        Refusal::Unexpected(token) => {
            if is_left_out(kind_at(tokens, token)) {
                ParseFault::LeftOut { token }
            } else {
                ParseFault::Unexpected { token }
            }
        }
        Refusal::TooDeep(token) => ParseFault::TooDeep { token },
        Refusal::OutOfMemory => ParseFault::OutOfMemory,
    }
}

/// The tree of a list of tokens, or why it has none.
fn parse_items(alloc: Global, items: &[Token]) -> Result<Tree, ParseFault>
    requires { length items.now < 2 ^ 32 }
    ensures { Parsed items.now result }
{
    match judge(alloc, without_end(items)) {
        Ok(tree) => Ok(tree),
        Err(refusal) => Err(told(items, refusal)),
    }
}

/// The tree of a text's tokens within 64 levels, or the first fault, or the first token that stands too deep,
/// whichever comes first (Annex P). A list that has a tree within the limit gets it, and one that has a first
/// fault or a first token that stands too deep gets that, unless memory runs out.
pub fn parse(alloc: Global, tokens: &Tokens) -> Result<Tree, ParseFault>
    ensures parsed { Parsed tokens.now.items result }
    ensures all_trees { (program : Program) → IsParsed tokens.now.items program → GivesTree result program }
    ensures all_faults { (token : ℕ) → IsSyntaxFault tokens.now.items token → GivesFault result token }
    ensures all_depths { (token : ℕ) → IsTooDeep tokens.now.items token → GivesTooDeep result token }
{
    parse_items(alloc, tokens.items())
}
