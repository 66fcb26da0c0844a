// What a Get does with the byte or end that it looks at, by what it has read so far.
ghost use Rattle.std.specs.Prelude.{◌≡◌, ◌+◌, ◌*◌, ◌-◌, ◌^◌, min, false};
ghost use Rattle.ada_base.specs.Input.{is_based, is_blank, is_byte, is_digit, signed};
ghost use Rattle.ada_io.specs.Phases.{HasDigit, Takes};

use ada_base::{Base, Reason, is_in_base};

// What was read so far: no more than blanks; what a digit has to follow, a sign or an underscore; or a digit. The magnitude
// is that of the digits, or the greatest u32 where that is less.
#[derive(Clone, Copy)]
pub(crate) enum Phase {
    Blanks,
    NeedsDigit { negative: bool, magnitude: u32 },
    Digits { negative: bool, magnitude: u32 },
}

// What comes next: another byte is asked for, or the Get ends and what was looked at is held.
#[derive(Clone, Copy)]
pub(crate) enum Next {
    Asks(Phase),
    Gives(i64),
    Raises(Reason),
}

pub(crate) fn step(phase: Phase, symbol: Option<u8>) -> Next
    ensures { Takes phase symbol result }
{
    match phase {
        Phase::Blanks => begin(symbol),
        Phase::NeedsDigit {
            negative,
            magnitude,
        } => need_digit(negative, magnitude, symbol),
        Phase::Digits {
            negative,
            magnitude,
        } => after_digit(negative, magnitude, symbol),
    }
}

fn begin(symbol: Option<u8>) -> Next
    ensures { Takes Phase.Blanks symbol result }
{
    if symbol.is_none() {
        Next::Raises(Reason::EndError)
    } else if is_blank(symbol) {
        Next::Asks(Phase::Blanks)
    } else if is_byte(symbol, b'-') {
        Next::Asks(Phase::NeedsDigit {
            negative: true,
            magnitude: 0,
        })
    } else if is_byte(symbol, b'+') {
        Next::Asks(Phase::NeedsDigit {
            negative: false,
            magnitude: 0,
        })
    } else {
        need_digit(false, 0, symbol)
    }
}

fn need_digit(negative: bool, magnitude: u32, symbol: Option<u8>) -> Next
    ensures { Takes (Phase.NeedsDigit negative magnitude) symbol result }
{
    match digit(symbol) {
        Some(digit) => Next::Asks(Phase::Digits {
            negative,
            magnitude: with_digit(magnitude, digit),
        }),
        None => Next::Raises(Reason::DataError),
    }
}

fn after_digit(negative: bool, magnitude: u32, symbol: Option<u8>) -> Next
    ensures { Takes (Phase.Digits negative magnitude) symbol result }
{
    match digit(symbol) {
        Some(digit) => Next::Asks(Phase::Digits {
            negative,
            magnitude: with_digit(magnitude, digit),
        }),
        None => after_last_digit(negative, magnitude, symbol),
    }
}

fn after_last_digit(negative: bool, magnitude: u32, symbol: Option<u8>) -> Next
    requires { is_digit symbol ≡ false }
    ensures { Takes (Phase.Digits negative magnitude) symbol result }
{
    let value = signed(negative, magnitude);
    if is_byte(symbol, b'_') {
        Next::Asks(Phase::NeedsDigit {
            negative,
            magnitude,
        })
    } else if is_based(symbol) || !is_in_base(Base::Narrow, value) {
        Next::Raises(Reason::DataError)
    } else {
        Next::Gives(value)
    }
}

// A number of any length keeps within its type: from the greatest u32 on it stays there, which is outside Integer.
fn with_digit(magnitude: u32, digit: u32) -> u32
    ensures { result ≡ min (magnitude * 10 + digit) (2 ^ 32 - 1) }
{
    magnitude.saturating_mul(10).saturating_add(digit)
}

fn signed(negative: bool, magnitude: u32) -> i64
    ensures { result ≡ signed negative magnitude }
{
    let value = i64::from(magnitude);
    if negative { -value } else { value }
}

fn is_blank(symbol: Option<u8>) -> bool
    ensures { result ≡ is_blank symbol }
{
    matches!(symbol, Some(byte) if byte.is_ascii_whitespace())
}

fn is_byte(symbol: Option<u8>, byte: u8) -> bool
    ensures { result ≡ is_byte byte symbol }
{
    symbol == Some(byte)
}

fn is_based(symbol: Option<u8>) -> bool
    ensures { result ≡ is_based symbol }
{
    matches!(symbol, Some(b'#' | b'E' | b'e'))
}

fn digit(symbol: Option<u8>) -> Option<u32>
    ensures { HasDigit symbol result }
{
    match symbol {
        Some(byte) if byte.is_ascii_digit() => Some(u32::from(byte - b'0')),
        _ => None,
    }
}
