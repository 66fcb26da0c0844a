//! String literals (2.6).
ghost use Rattle.std.specs.Prelude.{false};
ghost use Rattle.syntax_lexer.specs.Reading.{beyond_quoted};
ghost use Rattle.syntax_lexer.specs.Reads.{Leaves};

use crate::characters::is_control;

/// What follows a string literal, from the character after its first quotation mark on. None where it isn't
/// closed on its line.
pub fn beyond_quoted(characters: &[char]) -> Option<&[char]>
    ensures { Leaves result (beyond_quoted false characters.now) }
{
    let mut left = characters;
    // Whether a quotation mark stands before, which ends the literal unless another one follows.
    let mut ended = false;
    while let [c, rest @ ..] = left {
        if *c == '"' {
            ended = !ended;
        } else if ended {
            return Some(left);
        } else if is_control(*c) {
            return None;
        }
        left = rest;
    }
    if ended { Some(left) } else { None }
}
