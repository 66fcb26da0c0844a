use ada_base::{Kind, Place, Span};
use syntax_lexer::lex;

const TEXT: &str = "Zähl\t:= zÄHL;\n  \"é\" β";

// The edges of each token, its place and its spelling.
const TOKENS: &[((u32, u32), (u32, u32), &str)] = &[
    ((0, 5), (1, 1), "Zähl"),
    ((6, 8), (1, 6), ":="),
    ((9, 14), (1, 9), "zÄHL"),
    ((14, 15), (1, 13), ";"),
    ((18, 22), (2, 3), "\"é\""),
    ((23, 25), (2, 7), "β"),
    ((25, 25), (2, 8), ""),
];

// Whether two tokens are one identifier.
const SAME: &[(u32, u32, bool)] = &[
    (0, 2, true),
    (2, 0, true),
    (0, 5, false),
    (5, 5, true),
    (6, 0, false),
    (6, 7, true),
];

#[test]
fn tokens_know_their_places_and_spellings(rt: HostRuntime) {
    let Ok(tokens) = lex(rt.alloc(), TEXT.as_bytes()) else {
        panic!(rt; "a fault");
    };
    let mut number: u32 = 0;
    for &((start, end), (line, column), slice) in TOKENS {
        assert!(rt; (number as usize) < tokens.items().len());
        assert!(rt;
            tokens.items()[number as usize].span == Span { start, end },
            "{slice}"
        );
        assert!(rt; tokens.place(number) == Place { line, column }, "{slice}");
        assert!(rt; tokens.slice(number) == slice, "{slice}");
        number = number.wrapping_add(1);
    }
    for &(a, b, want) in SAME {
        assert!(rt; tokens.same(a, b) == want, "{a} {b}");
    }
    assert!(rt; tokens.kind(3) == Kind::Mark(21));
    assert!(rt; tokens.kind(7) == Kind::End);
    assert!(rt; tokens.place(7) == Place { line: 1, column: 1 });
    assert!(rt; tokens.slice(7).is_empty());
    assert!(rt; tokens.text() == TEXT);
    let (text, items) = tokens.into_parts();
    assert!(rt; text.as_str() == TEXT);
    assert!(rt; items.len() == 7);
}
