//! Why a text is refused, and what is said of it.

ghost use Rattle.std.specs.Prelude.{◌≡◌, ◌↔◌, ◌<◌, ℕ, IfOk, IsTrue, length, string_bytes};
ghost use Rattle.ada_base.specs.Tokens.{place_of_token};
ghost use Rattle.ada_base.specs.declared.token.Kind.TheVariants as kind;
ghost use Rattle.syntax_lexer.specs.declared.fault.LexFault.TheVariants as lex_fault;
ghost use Rattle.driver.specs.Complaints.{clash_at, complaint};
ghost use Rattle.driver.specs.Compile.{IsRefusalOf, refusal_of};
ghost use Rattle.driver.specs.Lines.{HasFaultAt, IsLineOf, IsWordOf, Precedes, StandInOrder, said_at, left_out_text, other_text};
ghost use Rattle.driver.specs.declared.note.Note.TheVariants as notes;

use crate::note::Note;
use ada_base::{Kind, Place, Tokens};
use std::alloc::{AllocError, Global};
use syntax_lexer::{LexFault, lex};
use syntax_tree::{mark_text, word_text};

pub(crate) const BEGINNING: Place = Place { line: 1, column: 1 };

/// Why a text is refused: its fault, or that memory ran out. The fault has the number of its kind, 1 to 12; its place;
/// the place of the other part of a clash; and what is said of it.
#[derive(Clone, Copy, Debug, PartialEq, Eq)]
pub enum Refusal {
    Refused {
        code: u8,
        at: Place,
        other: Option<Place>,
        note: Note,
    },
    OutOfMemory,
}

impl Refusal {
    /// The refusal for a fault at a place.
    pub(crate) fn of(note: Note, at: Place) -> Refusal
        ensures { result ≡ refusal_of (complaint note at) }
    {
        Refusal::Refused {
            code: note.code(),
            at,
            other: None,
            note,
        }
    }

    /// The refusal for two effects that clash, at these places.
    pub(crate) fn clash(at: Place, other: Place) -> Refusal
        ensures { result ≡ refusal_of (clash_at at other) }
    {
        let note = Note::Clash;
        Refusal::Refused {
            code: note.code(),
            at,
            other: Some(other),
            note,
        }
    }

    /// What is said of a refusal of the text in this file: the file, the fault's line and column, both from 1, and the
    /// note's text, as `t.ada:5:10: E05 unknown name`. The word of a token that is left out is read from the text.
    pub fn line(&self, alloc: Global, file: &str, text: &[u8]) -> Result<String, AllocError>
        requires { IsRefusalOf text.now self.now }
        ensures { IfOk result (λ line. IsLineOf file.now text.now self.now (string_bytes line)) }
    {
        match *self {
            Refusal::Refused {
                at,
                other,
                note,
                ..
            } => {
                let word = word_of(alloc, text, note, at)?;
                said_at(alloc, file, at, note, word, other)
            }
            Refusal::OutOfMemory => String::from_str(alloc, "out of memory"),
        }
    }
}

fn said_at(
    alloc: Global,
    file: &str,
    at: Place,
    note: Note,
    word: &str,
    other: Option<Place>,
) -> Result<String, AllocError>
    ensures { IfOk result (λ line. string_bytes line ≡ said_at file.now at note word.now other) }
{
    let Place { line, column } = at;
    let said = note.text();
    let other = text_of_other(alloc, other)?;
    format!(in alloc; "{file}:{line}:{column}: {said}{word}{other}")
}

fn text_of_other(alloc: Global, other: Option<Place>) -> Result<String, AllocError>
    ensures { IfOk result (λ text. string_bytes text ≡ other_text other) }
{
    match other {
        Some(Place { line, column }) => format!(in alloc; "{line}:{column}"),
        None => Ok(String::new(alloc)),
    }
}

/// The word of a fault of the text, or nothing where its note has none.
fn word_of(alloc: Global, text: &[u8], note: Note, at: Place) -> Result<&'static str, AllocError>
    requires { HasFaultAt text.now note at }
    ensures { IfOk result (λ word. IsWordOf text.now word.now) }
{
    if is_left_out(note) {
        left_out_word(alloc, text, at)
    } else {
        Ok("")
    }
}

fn is_left_out(note: Note) -> bool
    ensures { IsTrue result ↔ (note ≡ notes.LeftOut) }
{
    matches!(note, Note::LeftOut)
}

/// The word of the token at a place, which is one that the language leaves out.
fn left_out_word(alloc: Global, text: &[u8], at: Place) -> Result<&'static str, AllocError>
    requires { HasFaultAt text.now notes.LeftOut at }
    ensures { IfOk result (λ word. IsWordOf text.now word.now) }
{
    match lex(alloc, text) {
        Ok(tokens) => {
            let token = token_at(&tokens, at);
            Ok(text_of_left_out(tokens.kind(token)))
        }
        Err(fault) => Err(out_of_memory(fault)),
    }
}

fn out_of_memory(_fault: LexFault) -> AllocError
    requires { _fault ≡ lex_fault.OutOfMemory }
{
    AllocError
}

/// The number of the token at a place, by halving: the places of tokens rise.
fn token_at(tokens: &Tokens, at: Place) -> u32
    requires { StandInOrder tokens.now }
    ensures { (token : ℕ) → token < length tokens.now.items → place_of_token tokens.now token ≡ at → result ≡ token }
{
    let mut low = 0_u32;
    let mut high = tokens.items().len() as u32;
    while low < high {
        let middle = low + (high - low) / 2;
        if precedes(tokens.place(middle), at) {
            low = middle + 1;
        } else {
            high = middle;
        }
    }
    low
}

fn precedes(a: Place, b: Place) -> bool
    ensures { IsTrue result ↔ Precedes a b }
{
    a.line < b.line || (a.line == b.line && a.column < b.column)
}

fn text_of_left_out(kind: Kind) -> &'static str
    ensures { result.now ≡ left_out_text kind }
{
    match kind {
        Kind::Word(number) => text_of_reserved(number),
        Kind::Mark(number) => text_of_mark(number),
        Kind::Real => "real literal",
        _ => "character literal",
    }
}

fn text_of_reserved(number: u8) -> &'static str
    ensures { result.now ≡ left_out_text (kind.Word number) }
{
    if number < 74 { word_text(number) } else { "" }
}

fn text_of_mark(number: u8) -> &'static str
    ensures { result.now ≡ left_out_text (kind.Mark number) }
{
    if number < 29 { mark_text(number) } else { "" }
}
