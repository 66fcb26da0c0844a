//! What opens a level of nesting, where so many levels may still open.

ghost use Rattle.ada_base.specs.Symbols.{is_member, next_kind};
ghost use Rattle.syntax_expressions.specs.Reading.{Reads, ReadsForm, chunk_form, ChunkForm, LeavesLevels};
ghost use Rattle.syntax_grammar.specs.Levels as level;
ghost use Rattle.std.specs.Prelude.{◌≡◌, ◌∷◌, [], ◌<◌};
ghost use Rattle.syntax_nodes.specs.Parts.{the_part, the_primary, IsPart, IsPrimary};
ghost use Rattle.syntax_nodes.specs.Stack.{parts};

use crate::brackets::round_opened;
use crate::iterations::chunk_opened;
use crate::parser::Parser;
use crate::ranges::call_opened;
use crate::squares::square_opened;
use ada_base::kinds::{OPEN_ROUND, OPEN_SQUARE};
use syntax_readers::{Cursor, Failure};

/// Whether the next token is of this kind.
pub fn opens(tokens: &Cursor<'_>, kind: u16) -> bool
    ensures { result ≡ is_member (kind ∷ []) (next_kind tokens.now) }
{
    tokens.peek() == kind
}

/// The levels that are left below a token which opens one. Where none is left the fault says whether it does.
pub fn below(levels: u32, opens: bool) -> Result<u32, Failure>
    ensures { LeavesLevels opens levels result }
{
    if levels > 0 {
        return Ok(levels - 1);
    }
    if opens {
        Err(Failure::TooDeep)
    } else {
        Err(Failure::Unexpected)
    }
}

/// A primary that begins with a round bracket.
#[cycle(levels)]
#[tactic(auto, unfolding(syntax_grammar::specs::Levels::levels))]
pub fn round(parser: &mut Parser<'_>, levels: u32) -> Result<(), Failure>
    ensures { Reads the_primary IsPrimary (parts parser.old.out) (((level.levels levels).round) parser.old.tokens) result parser.new.tokens (parts parser.new.out) }
{
    let inner = below(levels, opens(&parser.tokens, OPEN_ROUND))?;
    round_opened(parser, inner)
}

/// A primary that begins with a square bracket.
#[cycle(levels)]
#[tactic(auto, unfolding(syntax_grammar::specs::Levels::levels))]
pub fn square(parser: &mut Parser<'_>, levels: u32) -> Result<(), Failure>
    ensures { Reads the_primary IsPrimary (parts parser.old.out) (((level.levels levels).square) parser.old.tokens) result parser.new.tokens (parts parser.new.out) }
{
    let inner = below(levels, opens(&parser.tokens, OPEN_SQUARE))?;
    square_opened(parser, inner)
}

/// The round brackets of a call, an index or a conversion.
#[cycle(levels)]
#[tactic(auto, unfolding(syntax_grammar::specs::Levels::levels))]
pub fn call(parser: &mut Parser<'_>, levels: u32) -> Result<(), Failure>
    ensures { Reads the_part IsPart (parts parser.old.out) (((level.levels levels).call) parser.old.tokens) result parser.new.tokens (parts parser.new.out) }
{
    let inner = below(levels, opens(&parser.tokens, OPEN_ROUND))?;
    call_opened(parser, inner)
}

/// A chunk specification in its brackets, after the token of `parallel`: whether it is a sum alone, and then the sum is the part.
#[cycle(levels)]
#[tactic(auto, unfolding(syntax_grammar::specs::Levels::levels))]
pub fn chunk(parser: &mut Parser<'_>, levels: u32, at: u32) -> Result<bool, Failure>
    ensures { ReadsForm (chunk_form at) ChunkForm (parts parser.old.out) (((level.levels levels).chunk) at parser.old.tokens) result parser.new.tokens (parts parser.new.out) }
{
    let inner = below(levels, opens(&parser.tokens, OPEN_ROUND))?;
    chunk_opened(parser, inner, at)
}
