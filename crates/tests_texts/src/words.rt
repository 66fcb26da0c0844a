//! Rows of words, with devices that fail; and of canonical texts.

use crate::calls::{Call, Faults, came, swapped};
use crate::rows::push_lines;
use ada_port::Quiet;
use std::alloc::{AllocError, Global};
use std::thread::Threads;
use syntax_lexer::lex;
use syntax_parse::{parse, print};

fn field(rest: &str) -> (&str, &str) {
    rest.split_once('~').unwrap_or((rest, ""))
}

/// The bytes of a text. In its field `¶` ends a line, and each other character stands for the byte of its number.
fn text_of(alloc: Global, field: &str) -> Result<Vec<u8>, AllocError> {
    let mut bytes = Vec::new(alloc);
    for part in field.chars() {
        let byte = if part == '¶' {
            b'\n'
        } else {
            u8::try_from(u32::from(part)).unwrap_or(b'?')
        };
        bytes.push(byte)?;
    }
    Ok(bytes)
}

fn input_of(alloc: Global, field: &str) -> Result<Vec<u8>, AllocError> {
    let mut bytes = Vec::new(alloc);
    for byte in field.bytes() {
        bytes.push(swapped(byte))?;
    }
    Ok(bytes)
}

/// What comes of a row's words, where it isn't what is to come. The row's fields are between tildes, behind the letter W and a
/// tilde: the words, the text, the input, the faults of the devices, and what is to come of them, as in a row of a run.
pub fn words_difference<R: Threads + Sync>(
    rt: &R,
    alloc: Global,
    fields: &str,
) -> Result<Option<String>, AllocError> {
    let (words, rest) = field(fields);
    let (text, rest) = field(rest);
    let (input, rest) = field(rest);
    let (faults, wanted) = field(rest);
    let text = text_of(alloc, text)?;
    let input = input_of(alloc, input)?;
    let call = Call {
        words,
        text: &text,
        input: &input,
    };
    let line = came(rt, alloc, call, Faults::of(alloc, faults)?, &Quiet::new())?;
    Ok((line.as_str() != wanted).then_some(line))
}

/// The canonical text of a program, without the end of its line, or what it hasn't got.
fn printed(alloc: Global, text: &str) -> Result<String, AllocError> {
    let Ok(tokens) = lex(alloc, text.as_bytes()) else {
        return String::from_str(alloc, "no tokens");
    };
    match parse(alloc, &tokens) {
        Ok(tree) => print(alloc, &tokens, &tree),
        Err(_) => String::from_str(alloc, "no tree"),
    }
}

/// The canonical text of a row's program, where it isn't the one that is to come. The row's fields are between tildes, behind the
/// letter C and a tilde: the text, where `¶` ends a line, and its canonical text without the end of its line.
pub fn printing_difference(alloc: Global, fields: &str) -> Result<Option<String>, AllocError> {
    let (text, wanted) = field(fields);
    let mut whole = String::new(alloc);
    push_lines(&mut whole, text)?;
    let found = printed(alloc, whole.as_str())?;
    let wanted = format!(in alloc; "{wanted}\n")?;
    Ok((found.as_str() != wanted.as_str()).then_some(found))
}
