//! White space and comments.
ghost use Rattle.std.specs.Prelude.{◌≡◌, false};
ghost use Rattle.syntax_tree.specs.Gaps.{begins_comment};
ghost use Rattle.syntax_lexer.specs.Reading.{beyond_gap};

use crate::characters::is_white;

fn begins_comment(characters: &[char]) -> bool
    ensures { result ≡ begins_comment characters.now }
{
    matches!(characters, ['-', '-', ..])
}

/// What follows the white space and the comments at the front (2.2, 2.7).
pub fn beyond_gap(characters: &[char]) -> &[char]
    ensures { result.now ≡ beyond_gap false characters.now }
{
    let mut left = characters;
    let mut inside = false;
    while let [c, rest @ ..] = left {
        if inside {
            inside = *c != '\n';
        } else if begins_comment(left) {
            inside = true;
        } else if !is_white(*c) {
            return left;
        }
        left = rest;
    }
    left
}
