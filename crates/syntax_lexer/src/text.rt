//! The tokens of a text.
ghost use Rattle.std.specs.Prelude.{◌≡◌, ◌≤◌, ℕ, List, length, IfOk, IfErr, MatchResult};
ghost use Rattle.std.specs.Str.{chars};
ghost use Rattle.syntax_tree.specs.Faults.{byte_limit, LexicalFault, IsFirstFault, IsReadable, KeepLimits};
ghost use Rattle.syntax_lexer.specs.Lexed.{AreLexed, Tells, GivesTokens, GivesFault, HasAnswer};
ghost use Rattle.syntax_tree.specs.Tokens.{AreTokensOf};
ghost use Rattle.ada_base.specs.declared.token.Token.{Token};
ghost use Rattle.syntax_lexer.specs.Stop.{StopsAt};

use crate::fault::LexFault;
use crate::stop::Stop;
use crate::tokens::{MOST_TOKENS, tokens_in};
use ada_base::{Tokens, place_of};
use std::alloc::{AllocError, Global};

/// The most bytes of a text.
pub const MOST_BYTES: usize = 1_048_576;

fn fault_at(text: &str, stop: Stop) -> LexFault
    requires short { length text.now ≤ byte_limit }
    requires stops { StopsAt (chars text.now) stop }
    ensures { Tells text.now result }
{
    match stop {
        Stop::BadToken { at } => LexFault::BadToken {
            at: place_of(text, at),
        },
        Stop::WideLiteral { at } => LexFault::WideLiteral {
            at: place_of(text, at),
        },
        Stop::TooLong { at } => LexFault::TooLong {
            count: MOST_TOKENS as u32 + 1,
            at: place_of(text, at),
        },
        Stop::OutOfMemory => LexFault::OutOfMemory,
    }
}

fn characters_of(alloc: Global, text: &str) -> Result<Vec<char>, AllocError>
    ensures { IfOk result (λ characters. characters.items ≡ chars text.now) }
{
    text.chars().collect(alloc)
}

fn text_tokens(alloc: Global, text: &str) -> Result<Tokens, LexFault>
    requires { length text.now ≤ byte_limit }
    ensures { MatchResult result (AreLexed text.now) (Tells text.now) }
{
    let Ok(characters) = characters_of(alloc, text) else {
        return Err(LexFault::OutOfMemory);
    };
    let items = match tokens_in(alloc, &characters) {
        Ok(items) => items,
        Err(stop) => return Err(fault_at(text, stop)),
    };
    match String::from_str(alloc, text) {
        Ok(text) => Ok(Tokens::new(text, items)),
        Err(_) => Err(LexFault::OutOfMemory),
    }
}

fn judge(alloc: Global, text: &[u8]) -> Result<Tokens, LexFault>
    ensures { MatchResult result (AreLexed text.now) (Tells text.now) }
{
    if text.len() > MOST_BYTES {
        return Err(LexFault::TooBig {
            bytes: text.len() as u64,
        });
    }
    match str::from_utf8(text) {
        Ok(text) => text_tokens(alloc, text),
        Err(fault) => Err(LexFault::NotUtf8 {
            at: fault.valid_up_to() as u32,
        }),
    }
}

/// The tokens of a text, which is given by its bytes, or its first lexical fault (2.2). A text that has tokens
/// within the limits gets them, and one that has a first fault gets that, unless memory runs out.
pub fn lex(alloc: Global, text: &[u8]) -> Result<Tokens, LexFault>
    ensures tokens { IfOk result (AreLexed text.now) }
    ensures fault { IfErr result (Tells text.now) }
    ensures all_tokens { (items : List Token) → IsReadable text.now → AreTokensOf text.now items
        → KeepLimits items → GivesTokens result items }
    ensures all_faults { (first : LexicalFault) → IsFirstFault text.now first → GivesFault result first }
{
    judge(alloc, text)
}

/// A text has either tokens within the limits or a first fault, and not both. It has at most one token list, and at most
/// one first fault.
pub fn one_answer()
    ensures some { (text : List ℕ) → HasAnswer text }
    ensures tokens { (text : List ℕ) (items others : List Token) →
        AreTokensOf text items → AreTokensOf text others → items ≡ others }
    ensures fault { (text : List ℕ) (first other : LexicalFault) →
        IsFirstFault text first → IsFirstFault text other → first ≡ other }
    ensures not_both { (text : List ℕ) (items : List Token) (first : LexicalFault) →
        IsReadable text → AreTokensOf text items → KeepLimits items → IsFirstFault text first → ⊥ }
{}
