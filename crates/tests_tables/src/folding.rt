use ada_base::folds_alike;

// The foldings are those of Unicode's CaseFolding.txt with the status C or S.
const NAMES: &[(&str, &str, bool)] = &[
    ("", "", true),
    ("Row_1", "rOW_1", true),
    ("Row_1", "Row_2", false),
    ("Row", "Rows", false),
    ("Rows", "Row", false),
    ("É", "é", true),
    ("é", "e", false),
    ("é", "e\u{301}", false),
    ("E\u{301}", "e\u{301}", true),
    ("ΣΑΣ", "σας", true),
    ("ß", "ẞ", true),
    ("ß", "ss", false),
    ("\u{212A}", "k", true),
    ("I", "ı", false),
    ("İ", "i", false),
];

#[test]
fn identifiers_ignore_case(rt: HostRuntime) {
    for &(a, b, want) in NAMES {
        assert!(rt; folds_alike(a, b) == want, "{a} {b}");
    }
}
