//! Reads rows from its input, each a text and what is to be said of it, or a program and what is to come of it, or its code, or
//! the words of a call with devices that fail, or a text and its canonical text; compiles each text, does what is asked with
//! each program, and writes each row of which something else comes, and how many rows there were. With the letter M threads
//! of a program look for each other, and with H one is held until the other left.
#![tactic(auto)]

mod calls;
mod programs;
mod pulses;
mod rows;
mod words;

use programs::{listing_difference, program_difference};
use pulses::{holding_difference, meeting_difference};
use rows::{Row, row_of, said_of, text_of, wanted_of};
use std::alloc::{AllocError, Global};
use std::io;
use words::{printing_difference, words_difference};

/// What is said of a row, where it isn't what is to be said.
fn difference(alloc: Global, row: &Row<'_>) -> Result<Option<String>, AllocError> {
    let text = text_of(alloc, row)?;
    let (front, back) = text.split_once('¦').unwrap_or((text.as_str(), ""));
    let whole = format!(in alloc; "{front}{back}")?;
    let said = said_of(alloc, row.outcome, whole.as_str())?;
    let wanted = wanted_of(alloc, row.outcome, front, text.len() > whole.len())?;
    Ok((said.as_str() != wanted.as_str()).then_some(said))
}

fn main(rt: HostRuntime) -> io::Result<()> {
    let alloc = rt.alloc();
    let rows = io::read_to_string(alloc, rt.stdin())?;
    let mut count: u64 = 0;
    let mut others: u64 = 0;
    for line in rows.lines() {
        count = count.saturating_add(1);
        let difference = match line.split_once('~') {
            Some(("R", fields)) => program_difference(&rt, alloc, fields)?,
            Some(("L", fields)) => listing_difference(&rt, alloc, fields)?,
            Some(("W", fields)) => words_difference(&rt, alloc, fields)?,
            Some(("C", fields)) => printing_difference(alloc, fields)?,
            Some(("M", fields)) => meeting_difference(&rt, alloc, fields)?,
            Some(("H", fields)) => holding_difference(&rt, alloc, fields)?,
            _ => difference(alloc, &row_of(line))?,
        };
        if let Some(said) = difference {
            others = others.saturating_add(1);
            println!(rt; "{line}: {said}")?;
        }
    }
    println!(rt; "{count} rows, {others} not as they should be")
}
