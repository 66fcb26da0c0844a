//! Blocks and parallel constructs (5.6, 5.6.1).

ghost use Rattle.syntax_expressions.specs.Reading.{Reads, chunk_form, ChunkForm};
ghost use Rattle.syntax_grammar.specs.Statements as statements;
ghost use Rattle.syntax_statements.specs.Reading.{JoinsParallel};
ghost use Rattle.syntax_nodes.specs.Parts.{the_stmt, maybe_simple, maybe_declare, IsPart};
ghost use Rattle.syntax_nodes.specs.Rooted.{top, pop};
ghost use Rattle.syntax_nodes.specs.Stack.{parts};

use crate::bodies::{and_stmts, body, stmts};
use crate::chains::{Chain, list};
use crate::loops::for_from;
use crate::statements::closing;
use ada_base::kinds::{BEGIN, DECLARE, DO, END, FOR, PARALLEL, SEMICOLON};
use syntax_expressions::{Parser, chunk};
use syntax_nodes::{Four, Leaf, One, Parts, Two, four, leaf, nothing, one, swap, two};
use syntax_readers::Failure;

/// A block, after its declarations or nothing (5.6).
#[cycle(list)]
#[tactic(auto, unfolding(syntax_grammar::specs::Statements::block_from))]
pub fn block_from(parser: &mut Parser<'_>, levels: u32) -> Result<(), Failure>
    ensures { Reads the_stmt IsPart (pop (parts parser.old.out)) (statements.block_from levels (statements.stmt levels) (maybe_declare (top (parts parser.old.out))) parser.old.tokens) result parser.new.tokens (parts parser.new.out) }
{
    let at = parser.tokens.take(BEGIN)?;
    body(parser, levels)?;
    parser.tokens.take(END)?;
    parser.tokens.take(SEMICOLON)?;
    two(&mut parser.out, Two::Block(at))
}

/// A block with declarations (5.6).
#[cycle(list)]
#[tactic(auto, unfolding(syntax_grammar::specs::Statements::declaring))]
pub fn declaring(parser: &mut Parser<'_>, levels: u32) -> Result<(), Failure>
    ensures { Reads the_stmt IsPart (parts parser.old.out) (statements.declaring levels (statements.stmt levels) parser.old.tokens) result parser.new.tokens (parts parser.new.out) }
{
    let at = parser.tokens.take(DECLARE)?;
    list(parser, levels, Chain::Decls)?;
    one(&mut parser.out, One::Declare(at))?;
    block_from(parser, levels)
}

/// A parallel block, after its number of chunks or nothing (5.6.1).
#[cycle(list)]
#[tactic(auto, unfolding(syntax_grammar::specs::Statements::do_from))]
pub fn do_from(parser: &mut Parser<'_>, levels: u32, at: u32) -> Result<(), Failure>
    ensures { Reads the_stmt IsPart (pop (parts parser.old.out)) (statements.do_from levels (statements.stmt levels) at (maybe_simple (top (parts parser.old.out))) parser.old.tokens) result parser.new.tokens (parts parser.new.out) }
{
    parser.tokens.take(DO)?;
    stmts(parser, levels)?;
    and_stmts(parser, levels)?;
    list(parser, levels, Chain::Branches)?;
    closing(&mut parser.tokens, DO)?;
    four(&mut parser.out, Four::ParallelBlock(at))
}

/// A loop without label, and its chunk specification, which was a sum alone where it is `counted`.
pub fn join_parallel(out: &mut Parts, at: u32, counted: bool) -> Result<(), Failure>
    requires { ChunkForm counted (top (parts out.old)) }
    ensures { JoinsParallel at counted result (parts out.new) (parts out.old) }
{
    if counted {
        one(out, One::Counted(at))?;
        nothing(out)?;
        return swap(out);
    }
    nothing(out)?;
    swap(out)
}

/// A parallel construct, after its chunk specification, which is `counted` where it is a sum alone (5.5, 5.6.1).
#[cycle(list)]
#[tactic(auto, unfolding(syntax_grammar::specs::Statements::chunked_from))]
pub fn chunked_from(
    parser: &mut Parser<'_>,
    levels: u32,
    at: u32,
    counted: bool,
) -> Result<(), Failure>
    requires { ChunkForm counted (top (parts parser.old.out)) }
    ensures { Reads the_stmt IsPart (pop (parts parser.old.out)) (statements.chunked_from levels (statements.stmt levels) at (chunk_form at counted (top (parts parser.old.out))) parser.old.tokens) result parser.new.tokens (parts parser.new.out) }
{
    if parser.tokens.peek() == FOR {
        join_parallel(&mut parser.out, at, counted)?;
        return for_from(parser, levels);
    }
    if counted {
        do_from(parser, levels, at)
    } else {
        Err(Failure::Unexpected)
    }
}

/// A parallel construct, after `parallel` (5.5, 5.6.1).
#[cycle(list)]
#[tactic(auto, unfolding(syntax_grammar::specs::Statements::parallel_from))]
pub fn parallel_from(parser: &mut Parser<'_>, levels: u32, at: u32) -> Result<(), Failure>
    ensures { Reads the_stmt IsPart (parts parser.old.out) (statements.parallel_from levels (statements.stmt levels) at parser.old.tokens) result parser.new.tokens (parts parser.new.out) }
{
    match parser.tokens.peek() {
        DO => {
            nothing(&mut parser.out)?;
            do_from(parser, levels, at)
        }
        FOR => {
            nothing(&mut parser.out)?;
            leaf(&mut parser.out, Leaf::Unchunked(at))?;
            for_from(parser, levels)
        }
        _ => {
            let counted = chunk(parser, levels, at)?;
            chunked_from(parser, levels, at, counted)
        }
    }
}

/// A parallel construct (5.5, 5.6.1).
#[cycle(list)]
#[tactic(auto, unfolding(syntax_grammar::specs::Statements::parallel_stmt))]
pub fn parallel_stmt(parser: &mut Parser<'_>, levels: u32) -> Result<(), Failure>
    ensures { Reads the_stmt IsPart (parts parser.old.out) (statements.parallel_stmt levels (statements.stmt levels) parser.old.tokens) result parser.new.tokens (parts parser.new.out) }
{
    let at = parser.tokens.take(PARALLEL)?;
    parallel_from(parser, levels, at)
}
