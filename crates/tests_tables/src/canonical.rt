use std::alloc::AllocError;
use syntax_lexer::lex;
use syntax_print::canonical_text;

const TEXTS: &[(&str, &str)] = &[
    ("WITH  Ada --x\n ;", "with Ada ;\n"),
    (
        "X:=2#1#E126+\"É\"\"\"",
        "X := 85070591730234615865843651857942052864 + \"É\"\"\"\n",
    ),
    (" -- nothing", "\n"),
    (
        "TYPE H IS MOD 2**64;type B is\n mod 256;",
        "type H is mod 2 ** 64 ; type B is mod 256 ;\n",
    ),
];

#[test]
fn texts_are_written_canonically(rt: HostRuntime) -> Result<(), AllocError> {
    let alloc = rt.alloc();
    for &(text, want) in TEXTS {
        let Ok(tokens) = lex(alloc, text.as_bytes()) else {
            panic!(rt; "a fault");
        };
        let written = canonical_text(alloc, &tokens)?;
        assert!(rt; written.as_str() == want, "{want}");
    }
    Ok(())
}
