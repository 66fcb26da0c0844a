//! Rows: texts, and what is to be said of them.

use driver::compile;
use std::alloc::{AllocError, Global};
use syntax_lexer::lex;
use syntax_parse::parse;

/// A row, whose fields are between tildes. The first tells what stands around its text: P nothing, D a procedure in whose
/// declarations it stands, S one in whose statements, E one with an assignment whose value it is, and N one in whose
/// statements it stands, behind the declarations below. The second is `ok` where the whole is accepted, `tree` where it is
/// a program of the grammar, and else what is said of its fault, which is at the bar `¦`. The third is the text, where `¶`
/// ends a line. In a row with three fields more they are a piece that follows, how often it stands there, and what comes
/// behind.
#[derive(Clone, Copy)]
pub struct Row<'a> {
    pub frame: &'a str,
    pub outcome: &'a str,
    front: &'a str,
    piece: &'a str,
    times: u32,
    back: &'a str,
}

// What the rows with N speak of.
const DECLARED: &str =
    "with Ada.Text_IO, Ada.Integer_Text_IO; use Ada.Text_IO, Ada.Integer_Text_IO; \
    procedure M is \
    X, Y : Integer := 0; B : Boolean := True; K : constant Integer := 5; \
    type Row is array (1 .. 3) of Integer; A : Row := (others => 0); Z : constant Row := (others => 1); \
    T : array (1 .. 2, 1 .. 3) of Boolean; \
    type Pair is record L, R : Integer; end record; P : Pair; \
    type Long is range 0 .. 1_000_000_000_000; G : Long; Bad : exception; \
    procedure Set (V : out Integer; W : Integer) is begin V := W; end Set; \
    procedure Go is begin null; end Go; \
    function Twice (N : Integer) return Integer is (2 * N); \
    function One return Integer is (1); \
    function Mix (V : Boolean; N : Integer) return Boolean is (V); \
    function Sum (V, N : Integer) return Integer is (V + N); begin ";

/// The field in front of the first tilde, and what is behind it.
fn field(rest: &str) -> (&str, &str) {
    rest.split_once('~').unwrap_or((rest, ""))
}

/// The row that a line has.
pub fn row_of(line: &str) -> Row<'_> {
    let (frame, rest) = field(line);
    let (outcome, rest) = field(rest);
    let (front, rest) = field(rest);
    let (piece, rest) = field(rest);
    let (times, back) = field(rest);
    Row {
        frame,
        outcome,
        front,
        piece,
        times: times.parse().unwrap_or(0),
        back,
    }
}

fn frame_of(letter: &str) -> (&'static str, &'static str) {
    match letter {
        "D" => ("procedure M is ", " begin null; end;"),
        "S" => ("procedure M is begin ", "end;"),
        "E" => ("procedure M is begin X := ", "; end;"),
        "N" => (DECLARED, " end;"),
        _ => ("", ""),
    }
}

/// The text of a row, with its bar.
pub fn text_of(alloc: Global, row: &Row<'_>) -> Result<String, AllocError> {
    let (before, behind) = frame_of(row.frame);
    let mut text = String::from_str(alloc, before)?;
    push_lines(&mut text, row.front)?;
    for _ in 0..row.times {
        text.push_str(row.piece)?;
    }
    text.push_str(row.back)?;
    text.push_str(behind)?;
    Ok(text)
}

/// Appends a field, where `¶` ends a line.
pub fn push_lines(text: &mut String, field: &str) -> Result<(), AllocError> {
    for part in field.chars() {
        text.push(if part == '¶' { '\n' } else { part })?;
    }
    Ok(())
}

/// What is said of a text.
pub fn said_of(alloc: Global, outcome: &str, text: &str) -> Result<String, AllocError> {
    if outcome == "tree" && has_tree(alloc, text) {
        return String::from_str(alloc, "tree");
    }
    match compile(alloc, text.as_bytes()) {
        Ok(_) => String::from_str(alloc, "ok"),
        Err(refusal) => refusal.line(alloc, "t", text.as_bytes()),
    }
}

fn has_tree(alloc: Global, text: &str) -> bool {
    match lex(alloc, text.as_bytes()) {
        Ok(tokens) => parse(alloc, &tokens).is_ok(),
        Err(_) => false,
    }
}

/// The line and the column behind a text.
fn place_behind(text: &str) -> (u64, u64) {
    let mut line: u64 = 1;
    let mut column: u64 = 1;
    for part in text.chars() {
        if part == '\n' {
            line = line.saturating_add(1);
            column = 1;
        } else {
            column = column.saturating_add(1);
        }
    }
    (line, column)
}

/// What is to be said of a text whose part in front of the bar is this, or which has none.
pub fn wanted_of(
    alloc: Global,
    outcome: &str,
    front: &str,
    has_bar: bool,
) -> Result<String, AllocError> {
    if has_bar {
        let (line, column) = place_behind(front);
        format!(in alloc; "t:{line}:{column}: {outcome}")
    } else {
        String::from_str(alloc, outcome)
    }
}
