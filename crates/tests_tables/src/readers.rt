use ada_base::{Items, Kind, Span, Token};
use std::alloc::AllocError;
use syntax_readers::example::{Range, parse};
use syntax_readers::failure::Refusal;

fn token(sign: u8) -> Token {
    let kind = match sign {
        b'(' => Kind::Mark(12),
        b')' => Kind::Mark(13),
        b':' => Kind::Mark(1),
        b',' => Kind::Mark(16),
        _ => Kind::Number(0),
    };
    Token {
        kind,
        span: Span { start: 0, end: 0 },
    }
}

// The number of ranges after 0, the place of a fault after 1, and of what is too deep after 2.
fn summary(answer: &Result<Items<Range>, Refusal>) -> (u8, usize) {
    match answer {
        Ok(found) => (0, found.len()),
        Err(Refusal::Unexpected(place)) => (1, *place as usize),
        Err(Refusal::TooDeep(place)) => (2, *place as usize),
        Err(Refusal::OutOfMemory) => (3, 0),
    }
}

// A token is a character, the two dots are `:`. The limit of depth, and the summary.
const TEXTS: &[(&str, u32, u8, usize)] = &[
    ("1", 0, 0, 1),
    ("1:1", 0, 0, 1),
    ("1,1:1", 0, 0, 2),
    ("((1))", 2, 0, 1),
    ("((1))", 1, 2, 1),
    ("((,", 2, 1, 2),
    ("", 2, 1, 0),
    ("1:", 2, 1, 2),
    ("11", 2, 1, 1),
    ("(1:1)", 2, 1, 2),
    ("1,", 2, 1, 2),
    ("(", 0, 2, 0),
];

#[test]
fn lists_have_their_ranges_or_their_first_fault(rt: HostRuntime) -> Result<(), AllocError> {
    for &(text, limit, want, count) in TEXTS {
        let mut tokens = Vec::new(rt.alloc());
        for sign in text.as_bytes() {
            tokens.push(token(*sign))?;
        }
        assert!(rt; tokens.len() < 100);
        let (found, number) = summary(&parse(rt.alloc(), &tokens, limit));
        assert!(rt; found == want && number == count, "{text}");
    }
    Ok(())
}
