//! Identifiers and reserved words (2.3, 2.9).
ghost use Rattle.std.specs.Prelude.{◌≡◌};
ghost use Rattle.syntax_lexer.specs.Case.{change_of};
ghost use Rattle.syntax_lexer.specs.Reading.{same_by, word_number, kind_of_name, name_at};
ghost use Rattle.syntax_lexer.specs.Reads.{Reads};

use crate::characters::{has_underscores_between, split_name};
use crate::found::Found;
use ada_base::Kind;
use syntax_tree::word_text;
use unicode::case::simple_fold;

/// Which letters are taken for the same: those of ASCII that differ in case, or all that simple case folding
/// makes the same.
#[derive(Clone, Copy, Debug, PartialEq, Eq)]
pub enum Case {
    Ascii,
    Folded,
}

impl Case {
    fn of(self, c: char) -> char
        ensures { result ≡ change_of self c }
    {
        match self {
            Case::Ascii => c.to_ascii_lowercase(),
            Case::Folded => simple_fold(c),
        }
    }
}

fn is_word(name: &[char], word: &str, case: Case) -> bool
    ensures { result ≡ same_by (change_of case) name.now word.now }
{
    let mut left = name;
    let mut wanted = word.as_bytes();
    while let [c, cs @ ..] = left {
        match wanted {
            [d, ds @ ..] if case.of(*c) as u32 == *d as u32 => wanted = ds,
            _ => return false,
        }
        left = cs;
    }
    wanted.is_empty()
}

#[tactic(auto, unfolding(crate::specs::Reading::word_number))]
fn word_number(name: &[char], case: Case) -> Option<u8>
    ensures { result ≡ word_number (change_of case) name.now }
{
    for number in 0..74 {
        if is_word(name, word_text(number), case) {
            return Some(number);
        }
    }
    None
}

/// None where only simple case folding makes the name a reserved word.
#[tactic(auto, unfolding(crate::specs::Reading::kind_of_name))]
fn kind_of_name(name: &[char]) -> Option<Kind>
    ensures { result ≡ kind_of_name name.now }
{
    if let Some(number) = word_number(name, Case::Ascii) {
        return Some(Kind::Word(number));
    }
    match word_number(name, Case::Folded) {
        Some(_) => None,
        None => Some(Kind::Ident),
    }
}

/// An identifier or a reserved word at the front, and what follows it. None where it breaks the rules on
/// underscores, or is a reserved word in letters that aren't ASCII.
#[tactic(auto, unfolding(crate::specs::Reading::name_at))]
pub fn name(characters: &[char]) -> Option<(Found, &[char])>
    ensures { Reads result (name_at characters.now) }
{
    let (name, rest) = split_name(characters);
    if !has_underscores_between(name) {
        return None;
    }
    let kind = kind_of_name(name)?;
    Some((Found::Other(kind), rest))
}
