//! Rows of programs that run: each with the words behind its file, its input, and what is to come of it; or whose code is listed.

use crate::calls::{Call, Faults, came, swapped};
use ada_port::{Pulse, Quiet};
use std::alloc::{AllocError, Global};
use std::thread::Threads;

/// A row, whose fields are between tildes, behind the letter R and a tilde: the options; K (for the policy that asks for the
/// disjoint rule alone) or nothing; the declarations, which stand in line 3; the statements, in line 5; the input; and what
/// is to come, which is the status, and what is put to out and to err. In the input and in what is to come a bar stands for
/// the end of a line, and the end of a line for a bar.
#[derive(Clone, Copy)]
pub struct Program<'a> {
    mode: &'a str,
    options: &'a str,
    policy: &'a str,
    declarations: &'a str,
    statements: &'a str,
    input: &'a str,
    pub wanted: &'a str,
}

fn field(rest: &str) -> (&str, &str) {
    rest.split_once('~').unwrap_or((rest, ""))
}

/// The program of a row that runs.
pub fn program_of(fields: &str) -> Program<'_> {
    let (options, rest) = field(fields);
    let (policy, rest) = field(rest);
    let (declarations, rest) = field(rest);
    let (statements, rest) = field(rest);
    let (input, wanted) = field(rest);
    Program {
        mode: "run",
        options,
        policy,
        declarations,
        statements,
        input,
        wanted,
    }
}

/// The program of a row whose code is listed.
fn program_listed(fields: &str) -> Program<'_> {
    let (policy, rest) = field(fields);
    let (declarations, rest) = field(rest);
    let (statements, wanted) = field(rest);
    Program {
        mode: "list",
        options: "",
        policy,
        declarations,
        statements,
        input: "",
        wanted,
    }
}

/// The text of a row.
fn text_of(alloc: Global, row: &Program<'_>) -> Result<String, AllocError> {
    let front = if row.policy == "K" {
        "pragma Conflict_Check_Policy (Known_Parallel_Conflict_Checks); "
    } else {
        ""
    };
    let declarations = row.declarations;
    let statements = row.statements;
    format!(in alloc;
        "{front}with Ada.Text_IO, Ada.Integer_Text_IO; use Ada.Text_IO, Ada.Integer_Text_IO;\nprocedure Main is\n{declarations}\nbegin\n{statements}\nend Main;\n"
    )
}

/// The input of a row.
fn input_of(alloc: Global, row: &Program<'_>) -> Result<Vec<u8>, AllocError> {
    let mut bytes = Vec::new(alloc);
    for byte in row.input.bytes() {
        bytes.push(swapped(byte))?;
    }
    Ok(bytes)
}

/// What came of a row, as its last fields have it. The pulse is told of the threads that begin.
pub fn outcome<R: Threads + Sync, P: Pulse + Sync>(
    rt: &R,
    alloc: Global,
    row: &Program<'_>,
    pulse: &P,
) -> Result<String, AllocError> {
    let words = format!(in alloc; "{} t.ada {}", row.mode, row.options)?;
    let text = text_of(alloc, row)?;
    let input = input_of(alloc, row)?;
    let call = Call {
        words: words.as_str(),
        text: text.as_bytes(),
        input: &input,
    };
    came(rt, alloc, call, Faults::none(alloc), pulse)
}

/// What comes of a row's program, where it isn't what is to come.
pub fn program_difference<R: Threads + Sync>(
    rt: &R,
    alloc: Global,
    fields: &str,
) -> Result<Option<String>, AllocError> {
    let row = program_of(fields);
    let line = outcome(rt, alloc, &row, &Quiet::new())?;
    Ok((line.as_str() != row.wanted).then_some(line))
}

/// What comes of a row's program where its code is to be listed, where it isn't the listing that is to come. The row's fields
/// are between tildes, behind the letter L and a tilde: K or nothing, the declarations and the statements, as in a row of a run;
/// and the listing.
pub fn listing_difference<R: Threads + Sync>(
    rt: &R,
    alloc: Global,
    fields: &str,
) -> Result<Option<String>, AllocError> {
    let row = program_listed(fields);
    let line = outcome(rt, alloc, &row, &Quiet::new())?;
    let wanted = format!(in alloc; "0~{}~", row.wanted)?;
    Ok((line.as_str() != wanted.as_str()).then_some(line))
}
