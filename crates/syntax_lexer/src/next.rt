//! The next token after a place.
ghost use Rattle.std.specs.Prelude.{◌≡◌, ◌+◌, ◌++◌, ◌≤◌, ℕ, List, length, encode_utf8_all};
ghost use Rattle.syntax_tree.specs.Faults.{byte_limit};
ghost use Rattle.syntax_lexer.specs.Reading.{kept};
ghost use Rattle.syntax_lexer.specs.Stop.{spot_at, SkipsGap, Takes, Stands};

use crate::found::Found;
use crate::gap::beyond_gap;
use crate::number::WIDE;
use crate::stop::Stop;
use crate::token::{admits_letter, token_at};
use ada_base::{Kind, Span, Token};

/// How many bytes the characters take as UTF-8.
fn byte_length(characters: &[char]) -> usize
    requires { length (encode_utf8_all characters.now) ≤ byte_limit }
    ensures { result ≡ length (encode_utf8_all characters.now) }
{
    let mut total = 0;
    for &c in characters {
        total += c.len_utf8();
    }
    total
}

/// How many bytes stand before the last characters, which are the rest.
fn bytes_before(characters: &[char], rest: &[char]) -> usize
    requires shorter { length rest.now ≤ length characters.now }
    requires small { length (encode_utf8_all characters.now) ≤ byte_limit }
    ensures { (front : List ℕ) → characters.now ≡ front ++ rest.now
        → result ≡ length (encode_utf8_all front) }
{
    byte_length(&characters[..characters.len() - rest.len()])
}

/// The kind of a token, if its value isn't too wide.
fn kept(found: Found) -> Option<Kind>
    ensures { result ≡ kept found }
{
    match found {
        Found::Number(value) if value < WIDE => Some(Kind::Number(value as i128)),
        Found::Number(_) => None,
        Found::Other(kind) => Some(kind),
    }
}

/// The characters after white space and comments, and how many bytes those take.
fn skip(characters: &[char]) -> (&[char], usize)
    requires { length (encode_utf8_all characters.now) ≤ byte_limit }
    ensures { SkipsGap characters.now result.0.now result.1 }
{
    let here = beyond_gap(characters);
    let bytes = bytes_before(characters, here);
    (here, bytes)
}

/// The token that begins here, if one does: its kind, unless its value is too wide, how many bytes it takes,
/// and the characters after it.
fn take(characters: &[char], before: Option<Kind>) -> Option<(Option<Kind>, usize, &[char])>
    requires { length (encode_utf8_all characters.now) ≤ byte_limit }
    ensures { Takes before characters.now result }
{
    let Some((found, rest)) = token_at(characters, admits_letter(before)) else {
        return None;
    };
    let bytes = bytes_before(characters, rest);
    Some((kept(found), bytes, rest))
}

/// The token that stands next, `at` being the number of bytes before the characters and `before` the kind of
/// the token before, and the characters after it.
pub fn next(characters: &[char], at: usize, before: Option<Kind>) -> Result<(Token, &[char]), Stop>
    requires { at + length (encode_utf8_all characters.now) ≤ byte_limit }
    ensures { Stands (spot_at before at characters.now) result }
{
    let (here, skipped) = skip(characters);
    let start = at + skipped;
    match take(here, before) {
        None => Err(Stop::BadToken { at: start }),
        Some((None, _, _)) => Err(Stop::WideLiteral { at: start }),
        Some((Some(kind), bytes, rest)) => {
            let end = start + bytes;
            let span = Span {
                start: start as u32,
                end: end as u32,
            };
            Ok((Token { kind, span }, rest))
        }
    }
}
