//! Marks (2.2).
ghost use Rattle.syntax_lexer.specs.Reading.{beyond_text, mark_at};
ghost use Rattle.syntax_lexer.specs.Reads.{Reads, Leaves};

use crate::found::Found;
use ada_base::Kind;
use syntax_tree::mark_text;

fn beyond_text<'a>(characters: &'a [char], text: &str) -> Option<&'a [char]>
    ensures { Leaves result (beyond_text text.now characters.now) }
{
    let mut left = characters;
    let mut wanted = text.as_bytes();
    while let [d, ds @ ..] = wanted {
        match left {
            [c, cs @ ..] if *c as u32 == *d as u32 => left = cs,
            _ => return None,
        }
        wanted = ds;
    }
    Some(left)
}

/// The longest mark at the front, and what follows it.
#[tactic(auto, unfolding(crate::specs::Reading::mark_at))]
pub fn mark(characters: &[char]) -> Option<(Found, &[char])>
    ensures { Reads result (mark_at characters.now) }
{
    for number in 0..29 {
        if let Some(rest) = beyond_text(characters, mark_text(number)) {
            return Some((Found::Other(Kind::Mark(number)), rest));
        }
    }
    None
}
