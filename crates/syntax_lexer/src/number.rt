//! Numeric literals (2.4). A number is counted up to 2^127, which stands for all from there on.
ghost use Rattle.std.specs.Prelude.{◌≡◌, ◌≤◌, ◌+◌, ◌*◌};
ghost use Rattle.syntax_tree.specs.Numbers.{begins_with_digit, is_exponent_letter};
ghost use Rattle.syntax_lexer.specs.Reading.{limited, number_after, numeral_at, beyond_sign, exponent_at, scaled, scaled_at, based_at, real_at, after_numeral, number_at};
ghost use Rattle.syntax_lexer.specs.Reads.{Reads};

use crate::characters::{has_underscores_between, split_digits};
use crate::found::Found;
use ada_base::Kind;

/// The least number that is too wide for a literal.
pub const WIDE: u128 = 1 << 127;

fn next(value: u128, base: u32, digit: u32) -> u128
    requires { base ≤ 16 }
    ensures { result ≡ limited (value * base + digit) }
{
    value
        .saturating_mul(base as u128)
        .saturating_add(digit as u128)
        .min(WIDE)
}

fn value_of(digits: &[char], base: u32) -> u128
    requires { base ≤ 16 }
    ensures { result ≡ number_after base 0 digits.now }
{
    let mut value = 0;
    for &c in digits {
        if c != '_' {
            value = next(value, base, c.to_digit(36).unwrap_or(36));
        }
    }
    value
}

fn begins_with_digit(characters: &[char], base: u32) -> bool
    requires low { 2 ≤ base }
    requires high { base ≤ 16 }
    ensures { result ≡ begins_with_digit base characters.now }
{
    match characters {
        [] => false,
        [c, ..] => c.is_digit(base),
    }
}

/// A numeral in a base of 2 to 16, and what follows it.
#[tactic(auto, unfolding(crate::specs::Reading::numeral_at))]
fn numeral(characters: &[char], base: u32) -> Option<(u128, &[char])>
    requires low { 2 ≤ base }
    requires high { base ≤ 16 }
    ensures { Reads result (numeral_at base characters.now) }
{
    let (digits, rest) = split_digits(characters, base);
    if begins_with_digit(digits, base) && has_underscores_between(digits) {
        Some((value_of(digits, base), rest))
    } else {
        None
    }
}

fn beyond_sign(characters: &[char], minus: bool) -> &[char]
    ensures { result.now ≡ beyond_sign minus characters.now }
{
    match characters {
        ['+', rest @ ..] => rest,
        ['-', rest @ ..] if minus => rest,
        _ => characters,
    }
}

/// The size of an exponent, which is 0 where there is none, and what follows it. Its sign may be a minus
/// only in a real literal.
#[tactic(auto, unfolding(crate::specs::Reading::exponent_at))]
fn exponent(characters: &[char], minus: bool) -> Option<(u128, &[char])>
    ensures { Reads result (exponent_at minus characters.now) }
{
    match characters {
        ['E' | 'e', rest @ ..] => numeral(beyond_sign(rest, minus), 10),
        _ => Some((0, characters)),
    }
}

/// The number times the base to the power of the exponent: from 128 on it is 0 or wide whatever the exponent.
#[tactic(auto, unfolding(crate::specs::Reading::scaled))]
fn scaled(value: u128, base: u32, exponent: u128) -> u128
    requires { base ≤ 16 }
    ensures { result ≡ scaled base value exponent }
{
    let mut scaled = value;
    for _turn in 0..exponent.min(128) as u32 {
        scaled = next(scaled, base, 0);
    }
    scaled
}

#[tactic(auto, unfolding(crate::specs::Reading::scaled_at))]
fn scaled_number(value: u128, base: u32, characters: &[char]) -> Option<(Found, &[char])>
    requires { base ≤ 16 }
    ensures { Reads result (scaled_at base value characters.now) }
{
    let (size, rest) = exponent(characters, false)?;
    Some((Found::Number(scaled(value, base, size)), rest))
}

/// A based literal from the character after its first `#` on (2.4.2).
#[tactic(auto, unfolding(crate::specs::Reading::based_at))]
fn based(base: u128, characters: &[char]) -> Option<(Found, &[char])>
    ensures { Reads result (based_at base characters.now) }
{
    if base < 2 || 16 < base {
        return None;
    }
    let base = base as u32;
    let (value, rest) = numeral(characters, base)?;
    match rest {
        ['#', rest @ ..] => scaled_number(value, base, rest),
        _ => None,
    }
}

/// A real literal from the character after its point on (2.4.1).
#[tactic(auto, unfolding(crate::specs::Reading::real_at))]
fn real(characters: &[char]) -> Option<(Found, &[char])>
    ensures { Reads result (real_at characters.now) }
{
    let (_, rest) = numeral(characters, 10)?;
    let (_, rest) = exponent(rest, true)?;
    Some((Found::Other(Kind::Real), rest))
}

#[tactic(auto, unfolding(crate::specs::Reading::after_numeral))]
fn after_numeral(value: u128, characters: &[char]) -> Option<(Found, &[char])>
    ensures { Reads result (after_numeral value characters.now) }
{
    match characters {
        ['#', rest @ ..] => based(value, rest),
        ['.', rest @ ..] if begins_with_digit(rest, 10) => real(rest),
        _ => scaled_number(value, 10, characters),
    }
}

/// A numeric literal at the front, and what follows it (2.4). None where the characters that begin here
/// spell none, or go on after it as if they belonged to it.
#[tactic(auto, unfolding(crate::specs::Reading::number_at))]
pub fn number(characters: &[char]) -> Option<(Found, &[char])>
    ensures { Reads result (number_at characters.now) }
{
    let (value, rest) = numeral(characters, 10)?;
    after_numeral(value, rest)
}
