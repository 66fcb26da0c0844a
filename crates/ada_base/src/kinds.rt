//! The kinds of tokens, by their numbers (2.2): those of `specs/Kinds.antt`.

ghost use Rattle.std.specs.Prelude.{◌≡◌};
ghost use Rattle.ada_base.specs.TokenKinds.{kind_number};

use crate::token::Kind;

/// The kind of a token by its number, whatever a literal's value is.
pub fn kind_number(kind: Kind) -> u16
    ensures { result ≡ kind_number kind }
{
    match kind {
        Kind::Ident => IDENTIFIER,
        Kind::Word(word) => FIRST_WORD + u16::from(word),
        Kind::Number(_) => NUMERAL,
        Kind::Text => STRING,
        Kind::Letter => CHARACTER,
        Kind::Real => REAL,
        Kind::Mark(mark) => FIRST_MARK + u16::from(mark),
        Kind::End => END_OF_TEXT,
    }
}

/// The end of the text.
pub const END_OF_TEXT: u16 = 0;

/// An identifier (2.3).
pub const IDENTIFIER: u16 = 1;

/// An integer literal (2.4).
pub const NUMERAL: u16 = 2;

/// A string literal (2.6).
pub const STRING: u16 = 3;

/// A character literal (2.5).
pub const CHARACTER: u16 = 4;

/// A real literal (2.4).
pub const REAL: u16 = 5;

/// The first reserved word; the others follow in the order of the alphabet.
pub const FIRST_WORD: u16 = 6;

/// The reserved word `abort` (2.9).
pub const ABORT: u16 = 6;

/// The reserved word `abs` (2.9).
pub const ABS: u16 = 7;

/// The reserved word `abstract` (2.9).
pub const ABSTRACT: u16 = 8;

/// The reserved word `accept` (2.9).
pub const ACCEPT: u16 = 9;

/// The reserved word `access` (2.9).
pub const ACCESS: u16 = 10;

/// The reserved word `aliased` (2.9).
pub const ALIASED: u16 = 11;

/// The reserved word `all` (2.9).
pub const ALL: u16 = 12;

/// The reserved word `and` (2.9).
pub const AND: u16 = 13;

/// The reserved word `array` (2.9).
pub const ARRAY: u16 = 14;

/// The reserved word `at` (2.9).
pub const AT: u16 = 15;

/// The reserved word `begin` (2.9).
pub const BEGIN: u16 = 16;

/// The reserved word `body` (2.9).
pub const BODY: u16 = 17;

/// The reserved word `case` (2.9).
pub const CASE: u16 = 18;

/// The reserved word `constant` (2.9).
pub const CONSTANT: u16 = 19;

/// The reserved word `declare` (2.9).
pub const DECLARE: u16 = 20;

/// The reserved word `delay` (2.9).
pub const DELAY: u16 = 21;

/// The reserved word `delta` (2.9).
pub const DELTA: u16 = 22;

/// The reserved word `digits` (2.9).
pub const DIGITS: u16 = 23;

/// The reserved word `do` (2.9).
pub const DO: u16 = 24;

/// The reserved word `else` (2.9).
pub const ELSE: u16 = 25;

/// The reserved word `elsif` (2.9).
pub const ELSIF: u16 = 26;

/// The reserved word `end` (2.9).
pub const END: u16 = 27;

/// The reserved word `entry` (2.9).
pub const ENTRY: u16 = 28;

/// The reserved word `exception` (2.9).
pub const EXCEPTION: u16 = 29;

/// The reserved word `exit` (2.9).
pub const EXIT: u16 = 30;

/// The reserved word `for` (2.9).
pub const FOR: u16 = 31;

/// The reserved word `function` (2.9).
pub const FUNCTION: u16 = 32;

/// The reserved word `generic` (2.9).
pub const GENERIC: u16 = 33;

/// The reserved word `goto` (2.9).
pub const GOTO: u16 = 34;

/// The reserved word `if` (2.9).
pub const IF: u16 = 35;

/// The reserved word `in` (2.9).
pub const IN: u16 = 36;

/// The reserved word `interface` (2.9).
pub const INTERFACE: u16 = 37;

/// The reserved word `is` (2.9).
pub const IS: u16 = 38;

/// The reserved word `limited` (2.9).
pub const LIMITED: u16 = 39;

/// The reserved word `loop` (2.9).
pub const LOOP: u16 = 40;

/// The reserved word `mod` (2.9).
pub const MOD: u16 = 41;

/// The reserved word `new` (2.9).
pub const NEW: u16 = 42;

/// The reserved word `not` (2.9).
pub const NOT: u16 = 43;

/// The reserved word `null` (2.9).
pub const NULL: u16 = 44;

/// The reserved word `of` (2.9).
pub const OF: u16 = 45;

/// The reserved word `or` (2.9).
pub const OR: u16 = 46;

/// The reserved word `others` (2.9).
pub const OTHERS: u16 = 47;

/// The reserved word `out` (2.9).
pub const OUT: u16 = 48;

/// The reserved word `overriding` (2.9).
pub const OVERRIDING: u16 = 49;

/// The reserved word `package` (2.9).
pub const PACKAGE: u16 = 50;

/// The reserved word `parallel` (2.9).
pub const PARALLEL: u16 = 51;

/// The reserved word `pragma` (2.9).
pub const PRAGMA: u16 = 52;

/// The reserved word `private` (2.9).
pub const PRIVATE: u16 = 53;

/// The reserved word `procedure` (2.9).
pub const PROCEDURE: u16 = 54;

/// The reserved word `protected` (2.9).
pub const PROTECTED: u16 = 55;

/// The reserved word `raise` (2.9).
pub const RAISE: u16 = 56;

/// The reserved word `range` (2.9).
pub const RANGE: u16 = 57;

/// The reserved word `record` (2.9).
pub const RECORD: u16 = 58;

/// The reserved word `rem` (2.9).
pub const REM: u16 = 59;

/// The reserved word `renames` (2.9).
pub const RENAMES: u16 = 60;

/// The reserved word `requeue` (2.9).
pub const REQUEUE: u16 = 61;

/// The reserved word `return` (2.9).
pub const RETURN: u16 = 62;

/// The reserved word `reverse` (2.9).
pub const REVERSE: u16 = 63;

/// The reserved word `select` (2.9).
pub const SELECT: u16 = 64;

/// The reserved word `separate` (2.9).
pub const SEPARATE: u16 = 65;

/// The reserved word `some` (2.9).
pub const SOME: u16 = 66;

/// The reserved word `subtype` (2.9).
pub const SUBTYPE: u16 = 67;

/// The reserved word `synchronized` (2.9).
pub const SYNCHRONIZED: u16 = 68;

/// The reserved word `tagged` (2.9).
pub const TAGGED: u16 = 69;

/// The reserved word `task` (2.9).
pub const TASK: u16 = 70;

/// The reserved word `terminate` (2.9).
pub const TERMINATE: u16 = 71;

/// The reserved word `then` (2.9).
pub const THEN: u16 = 72;

/// The reserved word `type` (2.9).
pub const TYPE: u16 = 73;

/// The reserved word `until` (2.9).
pub const UNTIL: u16 = 74;

/// The reserved word `use` (2.9).
pub const USE: u16 = 75;

/// The reserved word `when` (2.9).
pub const WHEN: u16 = 76;

/// The reserved word `while` (2.9).
pub const WHILE: u16 = 77;

/// The reserved word `with` (2.9).
pub const WITH: u16 = 78;

/// The reserved word `xor` (2.9).
pub const XOR: u16 = 79;

/// The first mark; the others follow in the order of `specs/Words.antt`.
pub const FIRST_MARK: u16 = 262;

/// The mark `=>` (2.2).
pub const ARROW: u16 = 262;

/// The mark `..` (2.2).
pub const DOTS: u16 = 263;

/// The mark `**` (2.2).
pub const DOUBLE_STAR: u16 = 264;

/// The mark `:=` (2.2).
pub const ASSIGN: u16 = 265;

/// The mark `/=` (2.2).
pub const UNEQUAL: u16 = 266;

/// The mark `>=` (2.2).
pub const AT_LEAST: u16 = 267;

/// The mark `<=` (2.2).
pub const AT_MOST: u16 = 268;

/// The mark `<<` (2.2).
pub const OPEN_LABEL: u16 = 269;

/// The mark `>>` (2.2).
pub const CLOSE_LABEL: u16 = 270;

/// The mark `<>` (2.2).
pub const BOX: u16 = 271;

/// The mark `&` (2.2).
pub const AMPERSAND: u16 = 272;

/// The mark `'` (2.2).
pub const TICK: u16 = 273;

/// The mark `(` (2.2).
pub const OPEN_ROUND: u16 = 274;

/// The mark `)` (2.2).
pub const CLOSE_ROUND: u16 = 275;

/// The mark `*` (2.2).
pub const STAR: u16 = 276;

/// The mark `+` (2.2).
pub const PLUS: u16 = 277;

/// The mark `,` (2.2).
pub const COMMA: u16 = 278;

/// The mark `-` (2.2).
pub const MINUS: u16 = 279;

/// The mark `.` (2.2).
pub const POINT: u16 = 280;

/// The mark `/` (2.2).
pub const SLASH: u16 = 281;

/// The mark `:` (2.2).
pub const COLON: u16 = 282;

/// The mark `;` (2.2).
pub const SEMICOLON: u16 = 283;

/// The mark `<` (2.2).
pub const LESS: u16 = 284;

/// The mark `=` (2.2).
pub const EQUAL: u16 = 285;

/// The mark `>` (2.2).
pub const GREATER: u16 = 286;

/// The mark `|` (2.2).
pub const BAR: u16 = 287;

/// The mark `[` (2.2).
pub const OPEN_SQUARE: u16 = 288;

/// The mark `]` (2.2).
pub const CLOSE_SQUARE: u16 = 289;

/// The mark `@` (2.2).
pub const TARGET: u16 = 290;
