//! Operators, and their tokens.

ghost use Rattle.syntax_readers.specs.Computes.{Computes};
ghost use Rattle.syntax_grammar.specs.Brackets as brackets;
ghost use Rattle.syntax_grammar.specs.Expressions as reader;

use ada_base::Comparison;
use ada_base::kinds::{
    AMPERSAND, AT_LEAST, AT_MOST, EQUAL, GREATER, LESS, MINUS, MOD, PLUS, REM, REVERSE, SLASH,
    STAR, UNEQUAL,
};
use syntax_readers::{Cursor, Failure};
use syntax_tree::{Additive, Multiplicative, Sign};

/// A multiplying operator, and its token (4.5.5).
#[tactic(auto, unfolding(syntax_grammar::specs::Expressions::multiplying_operator))]
pub fn multiplying_operator(tokens: &mut Cursor<'_>) -> Result<(Multiplicative, u32), Failure>
    ensures { Computes (reader.multiplying_operator tokens.old) result tokens.new }
{
    match tokens.peek() {
        STAR => Ok((Multiplicative::Times, tokens.take(STAR)?)),
        SLASH => Ok((Multiplicative::Over, tokens.take(SLASH)?)),
        MOD => Ok((Multiplicative::Mod, tokens.take(MOD)?)),
        _ => Ok((Multiplicative::Rem, tokens.take(REM)?)),
    }
}

/// A binary adding operator, and its token (4.5.3).
#[tactic(auto, unfolding(syntax_grammar::specs::Expressions::adding_operator))]
pub fn adding_operator(tokens: &mut Cursor<'_>) -> Result<(Additive, u32), Failure>
    ensures { Computes (reader.adding_operator tokens.old) result tokens.new }
{
    match tokens.peek() {
        PLUS => Ok((Additive::Plus, tokens.take(PLUS)?)),
        MINUS => Ok((Additive::Minus, tokens.take(MINUS)?)),
        _ => Ok((Additive::Joined, tokens.take(AMPERSAND)?)),
    }
}

/// The sign before a sum, with its token (4.5.4).
#[tactic(auto, unfolding(syntax_grammar::specs::Expressions::sign))]
pub fn sign(tokens: &mut Cursor<'_>) -> Result<Sign, Failure>
    ensures { Computes (reader.sign tokens.old) result tokens.new }
{
    if tokens.peek() == PLUS {
        Ok(Sign::Plus(tokens.take(PLUS)?))
    } else {
        Ok(Sign::Minus(tokens.take(MINUS)?))
    }
}

/// A relational operator, and its token (4.5.2).
#[tactic(auto, unfolding(syntax_grammar::specs::Expressions::comparison))]
pub fn comparison(tokens: &mut Cursor<'_>) -> Result<(Comparison, u32), Failure>
    ensures { Computes (reader.comparison tokens.old) result tokens.new }
{
    match tokens.peek() {
        EQUAL => Ok((Comparison::Equal, tokens.take(EQUAL)?)),
        UNEQUAL => Ok((Comparison::Unequal, tokens.take(UNEQUAL)?)),
        LESS => Ok((Comparison::Less, tokens.take(LESS)?)),
        AT_MOST => Ok((Comparison::AtMost, tokens.take(AT_MOST)?)),
        GREATER => Ok((Comparison::Greater, tokens.take(GREATER)?)),
        _ => Ok((Comparison::AtLeast, tokens.take(AT_LEAST)?)),
    }
}

/// The token of `reverse`, if it is there (5.5).
#[tactic(auto, unfolding(syntax_grammar::specs::Brackets::reversed))]
pub fn reversed(tokens: &mut Cursor<'_>) -> Result<Option<u32>, Failure>
    ensures { Computes (brackets.reversed tokens.old) result tokens.new }
{
    if tokens.peek() == REVERSE {
        Ok(Some(tokens.take(REVERSE)?))
    } else {
        Ok(None)
    }
}
