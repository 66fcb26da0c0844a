//! The lines on err.

ghost use Rattle.std.specs.Prelude.{◌≡◌, IfOk, slice_get, string_bytes};
ghost use Rattle.run_reports.specs.Says.{Says, SaysNoMemory, SaysOrLacks};
ghost use Rattle.run_reports.specs.Lines.{exception_name, name_or_none, read_fault_line, spent_line, unhandled_line, unreadable_line, usage_line, write_fault_line};
ghost use Rattle.run_reports.specs.declared.status.Status.TheVariants as statuses;

use crate::status::Status;
use ada_base::{Items, Reason};
use ada_port::Sink;
use std::alloc::{AllocError, Global};

const USAGE: &[u8] =
    b"usage: ada_cmd MODE FILE [--workers N] [--chunks PLAN] [--turns K] [--vars]\n";

/// Ends with a status, whose line is written to err. Where that fails the status is that of a write fault, and nothing
/// more is put to err.
pub fn say<E: Sink>(err: &mut E, line: &[u8], status: Status) -> Status
    ensures { Says status line.now result (E.state err.old) (E.state err.new) }
{
    match err.put(line) {
        Ok(()) => status,
        Err(_) => Status::WriteFault,
    }
}

/// Ends for want of memory.
pub fn say_out_of_memory<E: Sink>(err: &mut E) -> Status
    ensures { SaysNoMemory result (E.state err.old) (E.state err.new) }
{
    say(err, b"out of memory\n", Status::OutOfMemory)
}

/// Ends for wrong words.
pub fn say_usage<E: Sink>(err: &mut E) -> Status
    ensures { Says statuses.Usage usage_line result (E.state err.old) (E.state err.new) }
{
    say(err, USAGE, Status::Usage)
}

/// Ends for a fault of the input.
pub fn say_read_fault<E: Sink>(err: &mut E) -> Status
    ensures { Says statuses.ReadFault read_fault_line result (E.state err.old) (E.state err.new) }
{
    say(err, b"read fault\n", Status::ReadFault)
}

/// Ends for a fault of out.
pub fn say_write_fault<E: Sink>(err: &mut E) -> Status
    ensures { Says statuses.WriteFault write_fault_line result (E.state err.old) (E.state err.new) }
{
    say(err, b"write fault\n", Status::WriteFault)
}

/// Ends for a text that can't be read.
pub fn say_unreadable<E: Sink>(alloc: Global, file: &str, err: &mut E) -> Status
    ensures { SaysOrLacks statuses.ShelfFault (unreadable_line file.now) result (E.state err.old) (E.state err.new) }
{
    match unreadable_line(alloc, file) {
        Ok(line) => say(err, line.as_bytes(), Status::ShelfFault),
        Err(_) => say_out_of_memory(err),
    }
}

fn unreadable_line(alloc: Global, file: &str) -> Result<String, AllocError>
    ensures { IfOk result (λ line. string_bytes line ≡ unreadable_line file.now) }
{
    format!(in alloc; "{file}: cannot be read\n")
}

/// Ends for spent turns.
pub fn say_spent<E: Sink>(alloc: Global, turns: u64, err: &mut E) -> Status
    ensures { SaysOrLacks statuses.Spent (spent_line turns) result (E.state err.old) (E.state err.new) }
{
    match spent_line(alloc, turns) {
        Ok(line) => say(err, line.as_bytes(), Status::Spent),
        Err(_) => say_out_of_memory(err),
    }
}

fn spent_line(alloc: Global, turns: u64) -> Result<String, AllocError>
    ensures { IfOk result (λ line. string_bytes line ≡ spent_line turns) }
{
    format!(in alloc; "turns spent: {turns}\n")
}

/// Ends for an exception that no handler took.
pub fn say_raised<E: Sink>(
    alloc: Global,
    exceptions: &[Items<u8>],
    reason: Reason,
    err: &mut E,
) -> Status
    ensures { SaysOrLacks statuses.Raised (unhandled_line exceptions.now reason) result (E.state err.old) (E.state err.new) }
{
    match unhandled_line(alloc, exceptions, reason) {
        Ok(line) => say(err, line.as_slice(), Status::Raised),
        Err(_) => say_out_of_memory(err),
    }
}

fn unhandled_line(
    alloc: Global,
    exceptions: &[Items<u8>],
    reason: Reason,
) -> Result<Items<u8>, AllocError>
    ensures { IfOk result (λ line. line ≡ unhandled_line exceptions.now reason) }
{
    let mut line = Items::new(alloc);
    line.extend(b"unhandled ")?;
    line.extend(exception_name(exceptions, reason))?;
    line.push(b'\n')?;
    Ok(line)
}

fn exception_name(exceptions: &[Items<u8>], reason: Reason) -> &[u8]
    ensures { result.now ≡ exception_name exceptions.now reason }
{
    match reason {
        Reason::ConstraintError => b"CONSTRAINT_ERROR",
        Reason::ProgramError => b"PROGRAM_ERROR",
        Reason::StorageError => b"STORAGE_ERROR",
        Reason::DataError => b"DATA_ERROR",
        Reason::EndError => b"END_ERROR",
        Reason::Declared(number) => declared_name(exceptions, number),
    }
}

fn declared_name(exceptions: &[Items<u8>], number: u32) -> &[u8]
    ensures { result.now ≡ name_or_none (slice_get exceptions.now number) }
{
    match exceptions.get(number as usize) {
        Some(name) => name.as_slice(),
        None => b"",
    }
}
