//! Iterations and chunk specifications (5.5).

ghost use Rattle.syntax_expressions.specs.Reading.{Reads, IsNoRange, ReadsForm, told_expr, HasFilter, iter_form, EachForm, chunk_form, ChunkForm, IsRangeChunk, JoinsIter};
ghost use Rattle.syntax_grammar.specs.Brackets as brackets;
ghost use Rattle.syntax_grammar.specs.Levels as level;
ghost use Rattle.std.specs.Prelude.{◌≡◌};
ghost use Rattle.syntax_nodes.specs.Parts.{the_simple, the_iter, the_parallel, IsPart, IsSimple, IsParallel};
ghost use Rattle.syntax_nodes.specs.Rooted.{top, pop};
ghost use Rattle.syntax_nodes.specs.Stack.{parts};

use crate::expressions::{expr, name, simple};
use crate::levels::chunk;
use crate::operators::reversed;
use crate::parser::Parser;
use crate::ranges::range;
use ada_base::kinds::{CLOSE_ROUND, IDENTIFIER, IN, OF, OPEN_ROUND, PARALLEL, WHEN};
use syntax_nodes::{Leaf, One, Parts, Two, bare, leaf, leave_out, nothing, one, two};
use syntax_readers::Failure;

/// `when` and a condition, if they are there (5.5): whether they are.
#[cycle(levels)]
#[tactic(auto, unfolding(syntax_grammar::specs::Brackets::filter))]
pub fn filter(parser: &mut Parser<'_>, levels: u32) -> Result<bool, Failure>
    ensures { ReadsForm told_expr HasFilter (parts parser.old.out) (brackets.filter (level.levels levels) parser.old.tokens) result parser.new.tokens (parts parser.new.out) }
{
    if parser.tokens.peek() == WHEN {
        parser.tokens.take(WHEN)?;
        expr(parser, levels)?;
        Ok(true)
    } else {
        nothing(&mut parser.out)?;
        Ok(false)
    }
}

/// An iteration over an array, after its parameter (5.5.2).
#[cycle(levels)]
#[tactic(auto, unfolding(syntax_grammar::specs::Brackets::iter_of))]
pub fn iter_of(parser: &mut Parser<'_>, levels: u32, item: u32) -> Result<(), Failure>
    ensures { Reads the_iter IsNoRange (parts parser.old.out) (brackets.iter_of (level.levels levels) item parser.old.tokens) result parser.new.tokens (parts parser.new.out) }
{
    parser.tokens.take(OF)?;
    name(parser, levels)?;
    filter(parser, levels)?;
    two(&mut parser.out, Two::OfName(item))
}

/// An iteration over a range, after its parameter (5.5). Without `reverse` and filter the range is the part, and the answer the parameter.
#[cycle(levels)]
#[tactic(auto, unfolding(syntax_grammar::specs::Brackets::iter_in))]
pub fn iter_in(parser: &mut Parser<'_>, levels: u32, index: u32) -> Result<Option<u32>, Failure>
    ensures { ReadsForm iter_form EachForm (parts parser.old.out) (brackets.iter_in (level.levels levels) index parser.old.tokens) result parser.new.tokens (parts parser.new.out) }
{
    parser.tokens.take(IN)?;
    let reverse = reversed(&mut parser.tokens)?;
    range(parser, levels)?;
    let filtered = filter(parser, levels)?;
    if reverse.is_none() && !filtered {
        leave_out(&mut parser.out);
        return Ok(Some(index));
    }
    two(&mut parser.out, Two::InRange(index, reverse))?;
    Ok(None)
}

/// An iteration (5.5, 5.5.2). Over a range without `reverse` and filter the range is the part, and the answer the parameter.
#[cycle(levels)]
#[tactic(auto, unfolding(syntax_grammar::specs::Brackets::iter))]
pub fn iter_begun(parser: &mut Parser<'_>, levels: u32) -> Result<Option<u32>, Failure>
    ensures { ReadsForm iter_form EachForm (parts parser.old.out) (brackets.iter (level.levels levels) parser.old.tokens) result parser.new.tokens (parts parser.new.out) }
{
    let index = parser.tokens.take(IDENTIFIER)?;
    if parser.tokens.peek() == OF {
        iter_of(parser, levels, index)?;
        Ok(None)
    } else {
        iter_in(parser, levels, index)
    }
}

/// Joins an iteration that was begun.
pub fn iter_joined(out: &mut Parts, begun: Option<u32>) -> Result<(), Failure>
    ensures { JoinsIter begun result (parts out.new) (parts out.old) }
{
    match begun {
        Some(index) => {
            nothing(out)?;
            two(out, Two::InRange(index, None))
        }
        None => Ok(()),
    }
}

/// An iteration (5.5, 5.5.2).
pub fn iter(parser: &mut Parser<'_>, levels: u32) -> Result<(), Failure>
    ensures { Reads the_iter IsPart (parts parser.old.out) (brackets.iter (level.levels levels) parser.old.tokens) result parser.new.tokens (parts parser.new.out) }
{
    let begun = iter_begun(parser, levels)?;
    iter_joined(&mut parser.out, begun)
}

/// A chunk specification over a range, after its parameter (5.5).
#[cycle(levels)]
#[tactic(auto, unfolding(syntax_grammar::specs::Brackets::chunk_in))]
pub fn chunk_in(parser: &mut Parser<'_>, levels: u32, at: u32, index: u32) -> Result<(), Failure>
    ensures { Reads the_parallel IsRangeChunk (parts parser.old.out) (brackets.chunk_in (level.levels levels) at index parser.old.tokens) result parser.new.tokens (parts parser.new.out) }
{
    parser.tokens.take(IN)?;
    range(parser, levels)?;
    one(&mut parser.out, One::Chunked(at, index))
}

/// A chunk specification, after its first sum: whether the sum is all, and then the part.
#[cycle(levels)]
#[tactic(auto, unfolding(syntax_grammar::specs::Brackets::chunk_from))]
pub fn chunk_from(parser: &mut Parser<'_>, levels: u32, at: u32) -> Result<bool, Failure>
    requires { IsSimple (top (parts parser.old.out)) }
    ensures { ReadsForm (chunk_form at) ChunkForm (pop (parts parser.old.out)) (brackets.chunk_from (level.levels levels) at (the_simple (top (parts parser.old.out))) parser.old.tokens) result parser.new.tokens (parts parser.new.out) }
{
    if parser.tokens.peek() != IN {
        return Ok(true);
    }
    match bare(&parser.out) {
        Some(index) => {
            leave_out(&mut parser.out);
            chunk_in(parser, levels, at, index)?;
            Ok(false)
        }
        None => Err(Failure::Unexpected),
    }
}

/// A chunk specification in its brackets (5.5): whether it is a sum alone, and then the sum is the part.
#[cycle(levels)]
#[tactic(auto, unfolding(syntax_grammar::specs::Brackets::chunk))]
pub fn chunk_opened(parser: &mut Parser<'_>, levels: u32, at: u32) -> Result<bool, Failure>
    ensures { ReadsForm (chunk_form at) ChunkForm (parts parser.old.out) (brackets.chunk (level.levels levels) at parser.old.tokens) result parser.new.tokens (parts parser.new.out) }
{
    parser.tokens.take(OPEN_ROUND)?;
    simple(parser, levels)?;
    let counted = chunk_from(parser, levels, at)?;
    parser.tokens.take(CLOSE_ROUND)?;
    Ok(counted)
}

/// `parallel` with a chunk specification or without one (5.5).
#[cycle(levels)]
#[tactic(auto, unfolding(syntax_grammar::specs::Brackets::parallel))]
pub fn parallel(parser: &mut Parser<'_>, levels: u32) -> Result<(), Failure>
    ensures { Reads the_parallel IsParallel (parts parser.old.out) (brackets.parallel (level.levels levels) parser.old.tokens) result parser.new.tokens (parts parser.new.out) }
{
    let at = parser.tokens.take(PARALLEL)?;
    if parser.tokens.peek() != OPEN_ROUND {
        return leaf(&mut parser.out, Leaf::Unchunked(at));
    }
    if chunk(parser, levels, at)? {
        one(&mut parser.out, One::Counted(at))
    } else {
        Ok(())
    }
}
