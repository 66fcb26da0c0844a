//! Why nothing was read.

ghost use Rattle.std.specs.Prelude.{◌≡◌, ◌<◌, ◌^◌, length};
ghost use Rattle.syntax_readers.specs.Ahead.{kinds};
ghost use Rattle.syntax_readers.specs.Verdicts.{verdict_of};

use crate::cursor::Cursor;
use ada_base::Token;
use std::alloc::AllocError;

/// Why a reader stopped. The cursor then stands at the token where it did.
#[derive(Debug, Drop)]
pub enum Failure {
    /// No text goes on with that token.
    Unexpected,
    /// The token stands too deep.
    TooDeep,
    /// There is no memory. The cursor may stand anywhere.
    OutOfMemory,
}

impl From<AllocError> for Failure {
    ghost use Rattle.syntax_readers.specs.declared.failure.Failure.TheVariants.{OutOfMemory};

    ghost from_gives = { λ _ failure. failure ≡ OutOfMemory };

    fn from(_error: AllocError) -> Failure {
        Failure::OutOfMemory
    }
}

/// Why a list of tokens has no tree. A token is given by its number from 0, and the end by the number of
/// tokens.
#[derive(Debug, Drop)]
pub enum Refusal {
    /// No list that has a tree goes on with that token, or ends there.
    Unexpected(u32),
    /// The first token that stands too deep.
    TooDeep(u32),
    /// There is no memory.
    OutOfMemory,
}

/// The answer for a whole list of tokens, from that of the reader that began it and where it left the cursor.
/// Tokens that are left are unexpected.
pub fn verdict<T: Drop>(
    all: &[Token],
    tokens: &Cursor<'_>,
    answer: Result<T, Failure>,
) -> Result<T, Refusal>
    requires { length all.now < 2 ^ 32 }
    ensures { result ≡ verdict_of (kinds all.now) answer tokens.now }
{
    let place = tokens.place_in(all);
    match answer {
        Ok(tree) => {
            if tokens.left() == 0 {
                Ok(tree)
            } else {
                Err(Refusal::Unexpected(place))
            }
        }
        Err(Failure::Unexpected) => Err(Refusal::Unexpected(place)),
        Err(Failure::TooDeep) => Err(Refusal::TooDeep(place)),
        Err(Failure::OutOfMemory) => Err(Refusal::OutOfMemory),
    }
}
