use ada_base::{Kind, Place, Token};
use std::alloc::{AllocError, Global};
use std::process::Abort;
use syntax_lexer::{LexFault, lex};

// The reserved words in three spellings.
const WORDS: &str = "\
    abort abs abstract accept access aliased all and array at begin body case constant declare delay \
    delta digits do else elsif end entry exception exit for function generic goto if in interface is \
    limited loop mod new not null of or others out overriding package parallel pragma private procedure \
    protected raise range record rem renames requeue return reverse select separate some subtype \
    synchronized tagged task terminate then type until use when while with xor⇒w0 w1 w2 w3 w4 w5 w6 w7 \
    w8 w9 w10 w11 w12 w13 w14 w15 w16 w17 w18 w19 w20 w21 w22 w23 w24 w25 w26 w27 w28 w29 w30 w31 w32 \
    w33 w34 w35 w36 w37 w38 w39 w40 w41 w42 w43 w44 w45 w46 w47 w48 w49 w50 w51 w52 w53 w54 w55 w56 w57 \
    w58 w59 w60 w61 w62 w63 w64 w65 w66 w67 w68 w69 w70 w71 w72 w73 end¶\
    ABORT ABS ABSTRACT ACCEPT ACCESS ALIASED ALL AND ARRAY AT BEGIN BODY CASE CONSTANT DECLARE DELAY \
    DELTA DIGITS DO ELSE ELSIF END ENTRY EXCEPTION EXIT FOR FUNCTION GENERIC GOTO IF IN INTERFACE IS \
    LIMITED LOOP MOD NEW NOT NULL OF OR OTHERS OUT OVERRIDING PACKAGE PARALLEL PRAGMA PRIVATE PROCEDURE \
    PROTECTED RAISE RANGE RECORD REM RENAMES REQUEUE RETURN REVERSE SELECT SEPARATE SOME SUBTYPE \
    SYNCHRONIZED TAGGED TASK TERMINATE THEN TYPE UNTIL USE WHEN WHILE WITH XOR⇒w0 w1 w2 w3 w4 w5 w6 w7 \
    w8 w9 w10 w11 w12 w13 w14 w15 w16 w17 w18 w19 w20 w21 w22 w23 w24 w25 w26 w27 w28 w29 w30 w31 w32 \
    w33 w34 w35 w36 w37 w38 w39 w40 w41 w42 w43 w44 w45 w46 w47 w48 w49 w50 w51 w52 w53 w54 w55 w56 w57 \
    w58 w59 w60 w61 w62 w63 w64 w65 w66 w67 w68 w69 w70 w71 w72 w73 end¶\
    aBoRt aBs aBsTrAcT aCcEpT aCcEsS aLiAsEd aLl aNd aRrAy aT bEgIn bOdY cAsE cOnStAnT dEcLaRe dElAy \
    dElTa dIgItS dO eLsE eLsIf eNd eNtRy eXcEpTiOn eXiT fOr fUnCtIoN gEnErIc gOtO iF iN iNtErFaCe iS \
    lImItEd lOoP mOd nEw nOt nUlL oF oR oThErS oUt oVeRrIdInG pAcKaGe pArAlLeL pRaGmA pRiVaTe pRoCeDuRe \
    pRoTeCtEd rAiSe rAnGe rEcOrD rEm rEnAmEs rEqUeUe rEtUrN rEvErSe sElEcT sEpArAtE sOmE sUbTyPe \
    sYnChRoNiZeD tAgGeD tAsK tErMiNaTe tHeN tYpE uNtIl uSe wHeN wHiLe wItH xOr⇒w0 w1 w2 w3 w4 w5 w6 w7 \
    w8 w9 w10 w11 w12 w13 w14 w15 w16 w17 w18 w19 w20 w21 w22 w23 w24 w25 w26 w27 w28 w29 w30 w31 w32 \
    w33 w34 w35 w36 w37 w38 w39 w40 w41 w42 w43 w44 w45 w46 w47 w48 w49 w50 w51 w52 w53 w54 w55 w56 w57 \
    w58 w59 w60 w61 w62 w63 w64 w65 w66 w67 w68 w69 w70 w71 w72 w73 end¶\
    ";

// Each mark, and what more marks in a row are.
const MARKS: &str = "\
    => .. ** := /= >= <= << >> <> & ' ( ) * + , - . / : ; < = > | [ ] @⇒m0 m1 m2 m3 m4 m5 m6 m7 m8 m9 \
    m10 m11 m12 m13 m14 m15 m16 m17 m18 m19 m20 m21 m22 m23 m24 m25 m26 m27 m28 end¶\
    ****⇒m2 m2 end¶\
    ***⇒m2 m14 end¶\
    =>=⇒m0 m23 end¶\
    :=>⇒m3 m24 end¶\
    ...⇒m1 m18 end¶\
    <<>⇒m7 m24 end¶\
    <>>⇒m9 m24 end¶\
    >>=⇒m8 m23 end¶\
    /==⇒m4 m23 end¶\
    -=-⇒m17 m23 m17 end¶\
    |&|⇒m25 m10 m25 end¶\
    ";

// Numbers, and what is too great for one.
const NUMBERS: &str = "\
    0⇒0 end¶\
    007⇒7 end¶\
    1_000_000⇒1000000 end¶\
    1E3⇒1000 end¶\
    1e+3⇒1000 end¶\
    12E0_1⇒120 end¶\
    5E0⇒5 end¶\
    0E999999999⇒0 end¶\
    2#1010#⇒10 end¶\
    3#12#⇒5 end¶\
    16#FF#⇒255 end¶\
    16#fF#e+1⇒4080 end¶\
    16#F_F#⇒255 end¶\
    16#E#E1⇒224 end¶\
    1_6#a#⇒10 end¶\
    016#F#⇒15 end¶\
    10#99#⇒99 end¶\
    2#1#E10⇒1024 end¶\
    2#1#E126⇒85070591730234615865843651857942052864 end¶\
    17E37⇒170000000000000000000000000000000000000 end¶\
    170141183460469231731687303715884105727⇒170141183460469231731687303715884105727 end¶\
    16#7FFF_FFFF_FFFF_FFFF_FFFF_FFFF_FFFF_FFFF#⇒170141183460469231731687303715884105727 end¶\
    170141183460469231731687303715884105728⇒wide 1:1¶\
    16#8000_0000_0000_0000_0000_0000_0000_0000#⇒wide 1:1¶\
    340282366920938463463374607431768211456⇒wide 1:1¶\
    2#1#E127⇒wide 1:1¶\
    2#1#E128⇒wide 1:1¶\
    1E39⇒wide 1:1¶\
    171E36⇒wide 1:1¶\
    1E999999999⇒wide 1:1¶\
    1E340282366920938463463374607431768211456⇒wide 1:1¶\
    1..2⇒1 m1 2 end¶\
    1...2⇒1 m1 m18 2 end¶\
    1.⇒1 m18 end¶\
    1.E3⇒1 m18 id end¶\
    1-1⇒1 m17 1 end¶\
    2**8⇒2 m2 8 end¶\
    1.5⇒real end¶\
    1_0.0_1⇒real end¶\
    1.5E-3⇒real end¶\
    1.5e+3⇒real end¶\
    1.5E3⇒real end¶\
    1.5..2⇒real m1 2 end¶\
    1.5.3⇒real m18 3 end¶\
    ";

// What is no number is bad at its start.
const NO_NUMBERS: &str = "\
    1E-3⇒bad 1:1¶\
    1__2⇒bad 1:1¶\
    1_⇒bad 1:1¶\
    12a⇒bad 1:1¶\
    1_a⇒bad 1:1¶\
    1\u{e9}⇒bad 1:1¶\
    1\u{663}⇒bad 1:1¶\
    1#⇒bad 1:1¶\
    16#1.8#⇒bad 1:1¶\
    16#G#⇒bad 1:1¶\
    2#2#⇒bad 1:1¶\
    16##⇒bad 1:1¶\
    16#1⇒bad 1:1¶\
    16#_1#⇒bad 1:1¶\
    16#1_#⇒bad 1:1¶\
    16#1#E⇒bad 1:1¶\
    16#1#E-1⇒bad 1:1¶\
    16#1#1⇒bad 1:1¶\
    16#1##⇒bad 1:1¶\
    0#0#⇒bad 1:1¶\
    1#0#⇒bad 1:1¶\
    17#0#⇒bad 1:1¶\
    1E⇒bad 1:1¶\
    1E+⇒bad 1:1¶\
    1EE1⇒bad 1:1¶\
    1E1_⇒bad 1:1¶\
    1.5E⇒bad 1:1¶\
    1.5E+⇒bad 1:1¶\
    1.5x⇒bad 1:1¶\
    1.5_⇒bad 1:1¶\
    1.5#⇒bad 1:1¶\
    1.5E1E1⇒bad 1:1¶\
    1E999999999x⇒bad 1:1¶\
    ";

// Identifiers in any script.
const IDENTIFIERS: &str = "\
    a⇒id end¶\
    X1_y⇒id end¶\
    Gr\u{f6}\u{df}e⇒id end¶\
    \u{3a9}\u{3bc}\u{3ad}\u{3b3}\u{3b1}⇒id end¶\
    e\u{301}⇒id end¶\
    \u{65e5}\u{672c}⇒id end¶\
    a\u{b7}b⇒id end¶\
    \u{212a}⇒id end¶\
    ranges⇒id end¶\
    x'range⇒id m11 w51 end¶\
    x'access⇒id m11 w4 end¶\
    a__b⇒bad 1:1¶\
    ab_⇒bad 1:1¶\
    a_;⇒bad 1:1¶\
    _a⇒bad 1:1¶\
    ; \u{301}e⇒bad 1:3¶\
    ab\u{17f}⇒bad 1:1¶\
    x ta\u{17f}\u{212a}⇒bad 1:3¶\
    ";

// Strings end at a single quotation mark.
const STRINGS: &str = "\
    \"\"⇒text end¶\
    \"a\"⇒text end¶\
    \"a\"\"b\"⇒text end¶\
    \"\"\"\"⇒text end¶\
    \"\"\"a\"\"\"⇒text end¶\
    \"a\" \"b\"⇒text text end¶\
    \"a\"&\"b\"⇒text m10 text end¶\
    \"--\"⇒text end¶\
    \"\u{e9}'\"⇒text end¶\
    \"⇒bad 1:1¶\
    x \"ab\n\"⇒bad 1:3¶\
    x \"ab⇒bad 1:3¶\
    \"a\"\"b⇒bad 1:1¶\
    \"\"\"⇒bad 1:1¶\
    \"a\tb\"⇒bad 1:1¶\
    \"a\u{85}b\"⇒bad 1:1¶\
    ";

// A character literal depends on the token before.
const LETTERS: &str = "\
    'a'⇒letter end¶\
    x'a'⇒id m11 id m11 end¶\
    range'a'⇒w51 m11 id m11 end¶\
    begin'a'⇒w10 letter end¶\
    1'a'⇒1 letter end¶\
    1.5'a'⇒real letter end¶\
    \"s\"'a'⇒text m11 id m11 end¶\
    'b''a'⇒letter letter end¶\
    )'a'⇒m13 m11 id m11 end¶\
    ]'a'⇒m27 m11 id m11 end¶\
    ('a')⇒m12 letter m13 end¶\
    ['a']⇒m26 letter m27 end¶\
    x -- y\n'a'⇒id m11 id m11 end¶\
    X'Y'Z'⇒id m11 id m11 id m11 end¶\
    '''⇒letter end¶\
    ''''⇒letter m11 end¶\
    ' '⇒letter end¶\
    '\"'⇒letter end¶\
    '\u{e9}'⇒letter end¶\
    ''⇒m11 m11 end¶\
    '\t'⇒m11 m11 end¶\
    'ab'⇒m11 id m11 end¶\
    ";

// White space and comments part tokens.
const GAPS: &str = "\
    ⇒end¶\
    \x20\t\n\u{b}\u{c}\r⇒end¶\
    a--b⇒id end¶\
    --⇒end¶\
    ---⇒end¶\
    a---b\nc⇒id id end¶\
    a -- \u{1}\"'\nb⇒id id end¶\
    -- x\ry\nz⇒id end¶\
    - -⇒m17 m17 end¶\
    a-b⇒id m17 id end¶\
    a\u{a0}b⇒bad 1:2¶\
    a\u{1}⇒bad 1:2¶\
    a\u{85}⇒bad 1:2¶\
    a ?⇒bad 1:3¶\
    a #⇒bad 1:3¶\
    $⇒bad 1:1¶\
    {⇒bad 1:1¶\
    a\n\t?⇒bad 2:2¶\
    \u{e9} ?⇒bad 1:3¶\
    \r\r?⇒bad 1:3¶\
    -- \u{e9}\n 1E39 ?⇒wide 2:2¶\
    ? 1E39⇒bad 1:1¶\
    ";

// The word of a kind, and its number.
fn kind_parts(kind: Kind) -> (&'static str, Option<i128>) {
    match kind {
        Kind::Ident => ("id", None),
        Kind::Word(number) => ("w", Some(i128::from(number))),
        Kind::Number(value) => ("", Some(value)),
        Kind::Text => ("text", None),
        Kind::Letter => ("letter", None),
        Kind::Real => ("real", None),
        Kind::Mark(number) => ("m", Some(i128::from(number))),
        Kind::End => ("end", None),
    }
}

// The kinds one after another, with a space between them.
fn kinds_text(alloc: Global, tokens: &[Token]) -> Result<String, AllocError> {
    let mut shown = String::new(alloc);
    for token in tokens {
        let (word, number) = kind_parts(token.kind);
        shown.push_str(word)?;
        if let Some(value) = number {
            let digits = format!(in alloc; "{value}")?;
            shown.push_str(digits.as_str())?;
        }
        if token.kind != Kind::End {
            shown.push(' ')?;
        }
    }
    Ok(shown)
}

// The word of a fault and its place, or its number.
fn fault_parts(fault: LexFault) -> (&'static str, Place) {
    match fault {
        LexFault::TooBig { bytes } => ("big", numbered(bytes.min(4_294_967_295) as u32)),
        LexFault::NotUtf8 { at } => ("utf8", numbered(at)),
        LexFault::BadToken { at } => ("bad", at),
        LexFault::WideLiteral { at } => ("wide", at),
        LexFault::TooLong { count: _count, at } => ("long", at),
        LexFault::OutOfMemory => ("memory", numbered(0)),
    }
}

fn numbered(line: u32) -> Place {
    Place { line, column: 0 }
}

fn fault_text(alloc: Global, fault: LexFault) -> Result<String, AllocError> {
    let (word, at) = fault_parts(fault);
    format!(in alloc; "{word} {}:{}", at.line, at.column)
}

fn lexed(alloc: Global, text: &[u8]) -> Result<String, AllocError> {
    match lex(alloc, text) {
        Ok(tokens) => kinds_text(alloc, tokens.items()),
        Err(fault) => fault_text(alloc, fault),
    }
}

// Lexes the text of each row, up to ⇒, and compares what comes with what stands after it. Each row ends at ¶.
// Gives the number of rows.
fn check(rt: &impl Abort, alloc: Global, table: &str) -> Result<u32, AllocError> {
    let mut rows: u32 = 0;
    for row in table.split('¶') {
        if let Some((text, want)) = row.split_once('⇒') {
            let came = lexed(alloc, text.as_bytes())?;
            assert!(rt; came.as_str() == want, "{row}");
            rows = rows.saturating_add(1);
        }
    }
    Ok(rows)
}

#[test]
fn each_text_has_its_tokens_or_its_fault(rt: HostRuntime) -> Result<(), AllocError> {
    for (table, rows) in [
        (WORDS, 3),
        (MARKS, 12),
        (NUMBERS, 44),
        (NO_NUMBERS, 33),
        (IDENTIFIERS, 18),
        (STRINGS, 16),
        (LETTERS, 22),
        (GAPS, 22),
    ] {
        assert!(rt; check(&rt, rt.alloc(), table)? == rows);
    }
    Ok(())
}

// Bytes that are no text, with the place of the first such one.
const NO_TEXTS: &[(&[u8], &str)] = &[
    (b"ab\xff", "utf8 2:0"),
    (b"\xc3", "utf8 0:0"),
    (b"? \xe2\x82", "utf8 2:0"),
    (b"\xc3\xa9\x80", "utf8 2:0"),
    (b"\xed\xa0\x80", "utf8 0:0"),
];

#[test]
fn bytes_that_are_no_text(rt: HostRuntime) -> Result<(), AllocError> {
    for &(text, want) in NO_TEXTS {
        let came = lexed(rt.alloc(), text)?;
        assert!(rt; came.as_str() == want);
    }
    Ok(())
}

// A piece so many times, and what stands last.
fn repeated(alloc: Global, piece: &str, times: u32, last: &str) -> Result<Vec<u8>, AllocError> {
    let mut text = Vec::new(alloc);
    for _ in 0..times {
        text.extend_from_slice(piece.as_bytes())?;
    }
    text.extend_from_slice(last.as_bytes())?;
    Ok(text)
}

// A piece, how often it stands in the text, what stands last, and what comes of it.
const LIMITS: &[(&str, u32, &str, &str)] = &[
    (" ", 1_048_576, " ", "big 1048577:0"),
    (" ", 1_048_576, "", "end"),
    ("a", 1_048_576, "", "id end"),
    ("9", 1_048_576, "", "wide 1:1"),
    ("0", 1_048_576, "", "0 end"),
    ("\"", 1_048_576, "", "text end"),
    ("-", 1_048_576, "", "end"),
    ("(;);\n", 49_999, "(;;; ;?", "long 50000:6"),
    (";", 200_000, "?", "bad 1:200001"),
    (";", 200_000, "1E39", "wide 1:200001"),
];

// Whether lexing a text comes to this.
fn comes(alloc: Global, text: &[u8], want: &str) -> Result<bool, AllocError> {
    let came = lexed(alloc, text)?;
    Ok(came.as_str() == want)
}

#[test]
fn texts_up_to_the_limit_of_bytes(rt: HostRuntime) -> Result<(), AllocError> {
    for &(piece, times, last, want) in LIMITS {
        let text = repeated(rt.alloc(), piece, times, last)?;
        assert!(rt; comes(rt.alloc(), &text, want)?);
    }
    Ok(())
}

// The same with the number of tokens, their end among them.
const COUNTS: &[(&str, u32, &str, usize)] = &[
    ("(;);\n", 49_999, "(;;", 200_000),
    ("(;);\n", 49_999, "(;;;", 200_001),
    (
        "   Item (Index) := Item (Index) + 12; -- x\n",
        16_000,
        "",
        192_001,
    ),
];

#[test]
fn texts_up_to_the_limit_of_tokens(rt: HostRuntime) -> Result<(), AllocError> {
    for &(piece, times, last, count) in COUNTS {
        let text = repeated(rt.alloc(), piece, times, last)?;
        match lex(rt.alloc(), &text) {
            Ok(tokens) => assert!(rt; tokens.items().len() == count),
            Err(_) => assert!(rt; false, "{piece}"),
        }
    }
    Ok(())
}
