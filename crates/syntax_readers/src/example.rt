//! A parser that is made of readers, for lists of ranges as `(1) .. 5, ((7))`: each function gives what a
//! reader of `specs/ExampleReaders.antt` gives, and the laws make the whole exact.

ghost use Rattle.std.specs.Prelude.{◌≡◌, ◌+◌, ◌-◌, ◌≤◌, ◌<◌, ◌^◌, length, IfOk};
ghost use Rattle.syntax_readers.specs.Ahead.{kinds};
ghost use Rattle.syntax_readers.specs.Example as spec;
ghost use Rattle.syntax_readers.specs.ExampleReaders as reader;
ghost use Rattle.syntax_readers.specs.Computes.{Computes};
ghost use Rattle.syntax_readers.specs.Verdicts.{RightVerdict};

use crate::cursor::Cursor;
use crate::failure::{Failure, Refusal, verdict};
use ada_base::kinds::{CLOSE_ROUND, COMMA, DOTS, NUMERAL, OPEN_ROUND};
use ada_base::{Items, Token};
use std::alloc::Global;

/// A number in brackets: how many, and the number of its token.
#[derive(Clone, Copy, Debug, PartialEq, Eq)]
pub struct Value {
    pub brackets: u32,
    pub number: u32,
}

/// A value alone, or the values from one to another.
#[derive(Clone, Copy, Debug, PartialEq, Eq)]
pub enum Range {
    One(Value),
    Between(Value, Value),
}

/// A value, where so many brackets may still open.
#[cycle(brackets)]
#[tactic(auto, unfolding(crate::specs::ExampleReaders::value_of))]
fn read_value(tokens: &mut Cursor<'_>, levels: u32) -> Result<Value, Failure>
    ensures reads { Computes (reader.value levels tokens.old) result tokens.new }
    ensures brackets { IfOk result (λ v. v.brackets ≤ levels) }
{
    if tokens.peek() == OPEN_ROUND {
        read_bracket(tokens, levels)
    } else {
        let number = tokens.take(NUMERAL)?;
        Ok(Value {
            brackets: 0,
            number,
        })
    }
}

/// A value in a bracket, where so many may still open.
#[cycle(brackets)]
#[tactic(auto, unfolding(crate::specs::ExampleReaders::bracket))]
fn read_bracket(tokens: &mut Cursor<'_>, levels: u32) -> Result<Value, Failure>
    ensures reads { Computes (reader.bracket levels tokens.old) result tokens.new }
    ensures brackets { IfOk result (λ v. v.brackets ≤ levels) }
{
    if levels == 0 {
        if tokens.peek() == OPEN_ROUND {
            return Err(Failure::TooDeep);
        }
        return Err(Failure::Unexpected);
    }
    read_inside(tokens, levels - 1)
}

/// A value in a bracket, where so many may still open in that.
#[cycle(brackets)]
#[tactic(auto, unfolding(crate::specs::ExampleReaders::bracket_of))]
fn read_inside(tokens: &mut Cursor<'_>, levels: u32) -> Result<Value, Failure>
    requires { levels < 2 ^ 32 - 1 }
    ensures reads { Computes (reader.bracket_of (reader.value levels) tokens.old) result tokens.new }
    ensures brackets { IfOk result (λ v. v.brackets ≤ levels + 1) }
{
    tokens.take(OPEN_ROUND)?;
    let inner = read_value(tokens, levels)?;
    tokens.take(CLOSE_ROUND)?;
    Ok(Value {
        brackets: inner.brackets + 1,
        number: inner.number,
    })
}

#[tactic(auto, unfolding(crate::specs::ExampleReaders::range))]
fn read_range(tokens: &mut Cursor<'_>, levels: u32) -> Result<Range, Failure>
    ensures { Computes (reader.range levels tokens.old) result tokens.new }
{
    let low = read_value(tokens, levels)?;
    if tokens.peek() == DOTS {
        tokens.take(DOTS)?;
        Ok(Range::Between(low, read_value(tokens, levels)?))
    } else {
        Ok(Range::One(low))
    }
}

#[tactic(auto, unfolding(crate::specs::ExampleReaders::more_range))]
fn read_next_range(tokens: &mut Cursor<'_>, levels: u32) -> Result<Range, Failure>
    ensures { Computes (reader.more_range levels tokens.old) result tokens.new }
{
    tokens.take(COMMA)?;
    read_range(tokens, levels)
}

#[tactic(auto, unfolding(crate::specs::ExampleReaders::ranges))]
fn read_ranges(alloc: Global, tokens: &mut Cursor<'_>, levels: u32) -> Result<Items<Range>, Failure>
    ensures { Computes (reader.ranges levels tokens.old) result tokens.new }
{
    let mut found = Items::new(alloc);
    found.push(read_range(tokens, levels)?)?;
    for _turn in 0..tokens.left() {
        if tokens.peek() != COMMA {
            return Ok(found);
        }
        found.push(read_next_range(tokens, levels)?)?;
    }
    Ok(found)
}

/// The ranges of a list of tokens in which no more than `limit` brackets are open anywhere, or the first failure.
pub fn parse(alloc: Global, all: &[Token], limit: u32) -> Result<Items<Range>, Refusal>
    requires { length all.now < 2 ^ 32 }
    ensures { RightVerdict limit spec.ranges (kinds all.now) result }
{
    let mut tokens = Cursor::new(all);
    let found = read_ranges(alloc, &mut tokens, limit);
    verdict(all, &tokens, found)
}
