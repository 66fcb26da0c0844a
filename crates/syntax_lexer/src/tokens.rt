//! All tokens of characters.
ghost use Rattle.std.specs.Prelude.{◌≡◌, ◌↔◌, ◌≤◌, [], ◌∷◌, ◌++◌, length, encode_utf8_all, IsTrue, OnOk, IfErr, MatchResult};
ghost use Rattle.syntax_tree.specs.Faults.{byte_limit, KeepLimits};
ghost use Rattle.syntax_tree.specs.Tokens.{AreTokens};
ghost use Rattle.syntax_lexer.specs.Stop.{StopsAt};

use crate::next::next;
use crate::stop::Stop;
use ada_base::{Kind, Token};
use std::alloc::Global;

/// The most tokens of a text, its end apart.
pub const MOST_TOKENS: usize = 200_000;

fn is_end(kind: Kind) -> bool
    ensures { IsTrue result ↔ (kind ≡ Kind.End) }
{
    matches!(kind, Kind::End)
}

fn keep(tokens: &mut Vec<Token>, token: Token) -> Result<(), Stop>
    ensures ok { OnOk result (tokens.new.items ≡ tokens.old.items ++ token ∷ []) }
    ensures err { IfErr result (λ stop. stop ≡ Stop.OutOfMemory) }
{
    if tokens.push(token).is_err() {
        return Err(Stop::OutOfMemory);
    }
    Ok(())
}

/// The tokens of the characters, or the first fault and its byte.
pub fn tokens_in(alloc: Global, characters: &[char]) -> Result<Vec<Token>, Stop>
    requires { length (encode_utf8_all characters.now) ≤ byte_limit }
    ensures { MatchResult result
        (λ tokens. AreTokens characters.now tokens.items × KeepLimits tokens.items)
        (StopsAt characters.now) }
{
    let mut tokens = Vec::new(alloc);
    let mut rest = characters;
    let mut at = 0;
    let mut before = None;
    loop {
        let (token, after) = match next(rest, at, before) {
            Ok(found) => found,
            Err(stop) => return Err(stop),
        };
        if is_end(token.kind) {
            keep(&mut tokens, token)?;
            return Ok(tokens);
        }
        if tokens.len() == MOST_TOKENS {
            return Err(Stop::TooLong {
                at: token.span.start as usize,
            });
        }
        keep(&mut tokens, token)?;
        rest = after;
        at = token.span.end as usize;
        before = Some(token.kind);
    }
}
