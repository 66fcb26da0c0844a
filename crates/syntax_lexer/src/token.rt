//! The token at the front of characters.
ghost use Rattle.std.specs.Prelude.{◌≡◌, false};
ghost use Rattle.syntax_tree.specs.Spelling.{ends_prefix, admits_letter, runs_on, can_follow};
ghost use Rattle.syntax_lexer.specs.Reading.{beyond_quoted, text_or_none, letter_at, candidate_at, kind_found, token_at};
ghost use Rattle.syntax_lexer.specs.Reads.{Reads};

use crate::characters::{is_control, is_of_word};
use crate::found::Found;
use crate::mark::mark;
use crate::name::name;
use crate::number::number;
use crate::quoted::beyond_quoted;
use ada_base::kinds::{CLOSE_ROUND, CLOSE_SQUARE, FIRST_MARK, IDENTIFIER, RANGE, STRING, TICK};
use ada_base::{Kind, kind_number};
use unicode_ident::{is_xid_continue, is_xid_start};

/// Whether an apostrophe after a token of this kind belongs to what the token ends, and begins no character
/// literal (2.2).
fn ends_prefix(kind: Kind) -> bool
    ensures { result ≡ ends_prefix kind }
{
    matches!(
        kind_number(kind),
        IDENTIFIER | RANGE | STRING | CLOSE_ROUND | CLOSE_SQUARE
    )
}

/// Whether a character literal may stand after a token of this kind.
pub fn admits_letter(before: Option<Kind>) -> bool
    ensures { result ≡ admits_letter before }
{
    match before {
        None => true,
        Some(kind) => !ends_prefix(kind),
    }
}

/// A character literal from the character after its first apostrophe on (2.5), or the apostrophe alone.
fn letter(characters: &[char], admitted: bool) -> Option<(Found, &[char])>
    ensures { Reads result (letter_at admitted characters.now) }
{
    match characters {
        [c, '\'', rest @ ..] if admitted && !is_control(*c) => {
            Some((Found::Other(Kind::Letter), rest))
        }
        _ => Some((
            Found::Other(Kind::Mark((TICK - FIRST_MARK) as u8)),
            characters,
        )),
    }
}

/// A string literal from the character after its first quotation mark on.
fn text(characters: &[char]) -> Option<(Found, &[char])>
    ensures { Reads result (text_or_none (beyond_quoted false characters.now)) }
{
    let rest = beyond_quoted(characters)?;
    Some((Found::Other(Kind::Text), rest))
}

#[tactic(auto, unfolding(crate::specs::Reading::candidate_at))]
fn candidate(characters: &[char], admitted: bool) -> Option<(Found, &[char])>
    ensures { Reads result (candidate_at admitted characters.now) }
{
    let [c, rest @ ..] = characters else {
        return Some((Found::Other(Kind::End), characters));
    };
    if is_xid_start(*c) {
        name(characters)
    } else if c.is_digit(10) {
        number(characters)
    } else if *c == '"' {
        text(rest)
    } else if *c == '\'' {
        letter(rest, admitted)
    } else {
        mark(characters)
    }
}

fn runs_on(kind: Kind, c: char) -> bool
    ensures { result ≡ runs_on kind c }
{
    match kind {
        Kind::Ident | Kind::Word(_) => is_xid_continue(c),
        Kind::Number(_) | Kind::Real => is_of_word(c) || c == '#',
        Kind::Text => c == '"',
        Kind::Letter | Kind::Mark(_) => false,
        Kind::End => true,
    }
}

fn can_follow(kind: Kind, characters: &[char]) -> bool
    ensures { result ≡ can_follow kind characters.now }
{
    match characters {
        [] => true,
        [c, ..] => !runs_on(kind, *c),
    }
}

fn kind_found(found: Found) -> Kind
    ensures { result ≡ kind_found found }
{
    match found {
        Found::Number(_) => Kind::Number(0),
        Found::Other(kind) => kind,
    }
}

/// The token that begins at the front, and what follows it; `admitted` is whether it may be a character
/// literal. None where no token begins there.
#[tactic(auto, unfolding(crate::specs::Reading::token_at))]
pub fn token_at(characters: &[char], admitted: bool) -> Option<(Found, &[char])>
    ensures { Reads result (token_at admitted characters.now) }
{
    let (found, rest) = candidate(characters, admitted)?;
    if can_follow(kind_found(found), rest) {
        Some((found, rest))
    } else {
        None
    }
}
