//! The kinds of characters, and runs of them.
ghost use Rattle.std.specs.Prelude.{◌≡◌, ◌≤◌, ◌<◌, length};
ghost use Rattle.unicode_ident.specs.Ident.{is_xid_continue};
ghost use Rattle.syntax_tree.specs.Characters.{is_white, is_control, is_of_word};
ghost use Rattle.syntax_tree.specs.Numbers.{is_digit_or_underscore, underscores_between};
ghost use Rattle.syntax_lexer.specs.Reading.{run, beyond};

use unicode::properties::{GeneralCategory, GeneralCategoryGroup};

/// Whether the character is white space: a format effector, or a space (2.2).
pub fn is_white(c: char) -> bool
    ensures { result ≡ is_white c }
{
    ('\t'..='\r').contains(&c) || c == ' '
}

/// Whether the character is a control character (2.1).
pub fn is_control(c: char) -> bool
    ensures { result ≡ is_control c }
{
    GeneralCategory::for_char(c).number() == GeneralCategory::Control.number()
}

/// Whether the character is a letter of any script, or may begin an identifier or stand in one (2.3).
pub fn is_of_word(c: char) -> bool
    ensures { result ≡ is_of_word c }
{
    unicode_ident::is_xid_continue(c)
        || GeneralCategoryGroup::Letter.contains(GeneralCategory::for_char(c))
}

/// Cuts the characters after the first ones that may continue an identifier.
pub fn split_name(characters: &[char]) -> (&[char], &[char])
    ensures front { result.0.now ≡ run is_xid_continue characters.now }
    ensures rest { result.1.now ≡ beyond is_xid_continue characters.now }
{
    let mut length = 0;
    for &c in characters {
        if !unicode_ident::is_xid_continue(c) {
            break;
        }
        length += 1;
    }
    characters.split_at(length)
}

/// Cuts the characters after the first ones that are digits of a base, or underscores.
pub fn split_digits(characters: &[char], base: u32) -> (&[char], &[char])
    requires low { 2 ≤ base }
    requires high { base ≤ 16 }
    ensures front { result.0.now ≡ run (is_digit_or_underscore base) characters.now }
    ensures rest { result.1.now ≡ beyond (is_digit_or_underscore base) characters.now }
{
    let mut length = 0;
    for &c in characters {
        if !c.is_digit(base) && c != '_' {
            break;
        }
        length += 1;
    }
    characters.split_at(length)
}

/// Whether no two underscores stand in a row, and the last character isn't one (2.3).
pub fn has_underscores_between(characters: &[char]) -> bool
    ensures { result ≡ underscores_between characters.now }
{
    let mut left = characters;
    loop {
        match left {
            [] => return true,
            [last] => return *last != '_',
            [first, rest @ ..] => {
                if *first == '_' && rest[0] == '_' {
                    return false;
                }
                left = rest;
            }
        }
    }
}
