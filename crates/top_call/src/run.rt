//! What becomes of a file, of a text and of a unit.

ghost use Rattle.std.specs.Prelude.{◌≡◌, ◌<◌, IfOk, length, string_bytes};
ghost use Rattle.ada_port.specs.Ports.{IsTold};
ghost use Rattle.run_plan.specs.Plans.{HasNoZero};
ghost use Rattle.driver.specs.Coded.{IsBuilt};
ghost use Rattle.driver.specs.Compile.{IsAccepted, IsRefusalOf};
ghost use Rattle.stack_code.specs.Listing.{listing_of};
ghost use Rattle.driver.specs.Compiled.{compiled_of};
ghost use Rattle.run_reports.specs.Ends.{values_of};
ghost use Rattle.command_words.specs.Answers.{asked_of, settings_of};
ghost use Rattle.command_words.specs.Words.{Asked};
ghost use Rattle.top_call.specs.Answer.{AnswersFile, AnswersText, Closes, ClosesOrLacks, EndsBy, EndsSoak, IsRefusedLine, RunsSoak, RunsUnit, SaysRefusal, devices, outside};
ghost use Rattle.top_call.specs.Soak.{soak_lines, soak_text};
ghost use Rattle.run_reports.specs.Lines.{accepted_line};
ghost use Rattle.run_reports.specs.Vars.{vars_lines};

use crate::soak::{soak_lines, soak_text};
use ada_port::{HeldSink, Pulse, Shelf, ShelfFault, Sink, Source};
use code_listing::listing;
use command_words::{Mode, Request};
use driver::{Finals, Ran, Refusal, RunEnd, Unit, compile, execute};
use run_plan::Setting;
use run_reports::{
    Status, Unput, put_vars, say, say_out_of_memory, say_raised, say_read_fault, say_spent,
    say_unreadable, say_write_fault,
};
use stack_code::Code;
use std::alloc::{AllocError, Global};
use std::thread::Threads;

/// A status, with the input and out as they were left.
#[derive(Drop)]
pub struct Given<I: Source + Drop, O: Sink + Drop> {
    pub status: Status,
    pub input: I,
    pub out: O,
}

/// Says how a run ended. After a normal end the lines of the variables are put, where they are asked for.
fn say_end<O: Sink, E: Sink>(
    alloc: Global,
    unit: &Unit,
    vars: bool,
    end: RunEnd,
    out: &mut O,
    err: &mut E,
) -> Status
    ensures { EndsBy (compiled_of unit.now) vars end result (O.state out.old) (O.state out.new) (E.state err.old) (E.state err.new) }
{
    match end {
        RunEnd::Ended(finals) => {
            if vars {
                say_vars(alloc, unit, &finals, out, err)
            } else {
                Status::Done
            }
        }
        RunEnd::Raised(reason) => say_raised(alloc, unit.exceptions.as_slice(), reason, err),
        RunEnd::TurnsSpent(turns) => say_spent(alloc, turns, err),
        RunEnd::ReadFault => say_read_fault(err),
        RunEnd::WriteFault => say_write_fault(err),
        RunEnd::NoMemory => say_out_of_memory(err),
    }
}

fn say_vars<O: Sink, E: Sink>(
    alloc: Global,
    unit: &Unit,
    finals: &Finals,
    out: &mut O,
    err: &mut E,
) -> Status
    ensures { Closes (vars_lines unit.now.finals (values_of (compiled_of unit.now).program finals.now)) result (O.state out.old) (O.state out.new) (E.state err.old) (E.state err.new) }
{
    match put_vars(alloc, &unit.typed, &unit.finals, finals, out) {
        Ok(()) => Status::Done,
        Err(Unput::Failed) => say_write_fault(err),
        Err(Unput::OutOfMemory) => say_out_of_memory(err),
    }
}

/// Runs a unit, and says how the run ended.
fn run_unit<R: Threads + Sync, I: Source + Drop, O: Sink + Drop, E: Sink, P: Pulse + Sync>(
    rt: &R,
    alloc: Global,
    unit: &Unit,
    setting: Setting,
    vars: bool,
    input: I,
    out: O,
    err: &mut E,
    pulse: &P,
) -> Given<I, O>
    requires planned { HasNoZero setting.plan }
    requires some { 0 < setting.workers }
    requires built { IsBuilt unit.now }
    ensures { RunsUnit ((s : I) → IsTold (I.state s)) ((s : O) → IsTold (O.state s)) (compiled_of unit.now) (settings_of setting) vars result.status
        (devices (I.state input) (O.state out) (E.state err.old)) (devices (I.state result.input) (O.state result.out) (E.state err.new)) }
{
    let Ran { end, input, out } = execute(rt, alloc, unit, setting, input, out, pulse);
    let mut out = out;
    let status = say_end(alloc, unit, vars, end, &mut out, err);
    Given { status, input, out }
}

/// Says that a text is accepted.
fn say_accepted<O: Sink, E: Sink>(out: &mut O, err: &mut E) -> Status
    ensures { Closes accepted_line result (O.state out.old) (O.state out.new) (E.state err.old) (E.state err.new) }
{
    put_all(b"accepted\n", out, err)
}

/// Lists code.
fn say_listing<O: Sink, E: Sink>(alloc: Global, code: &Code, out: &mut O, err: &mut E) -> Status
    ensures { ClosesOrLacks (listing_of code.now) result (O.state out.old) (O.state out.new) (E.state err.old) (E.state err.new) }
{
    match listing(alloc, code) {
        Ok(text) => put_all(text.as_bytes(), out, err),
        Err(_) => say_out_of_memory(err),
    }
}

fn put_all<O: Sink, E: Sink>(bytes: &[u8], out: &mut O, err: &mut E) -> Status
    ensures { Closes bytes.now result (O.state out.old) (O.state out.new) (E.state err.old) (E.state err.new) }
{
    match out.put(bytes) {
        Ok(()) => Status::Done,
        Err(_) => say_write_fault(err),
    }
}

/// The text of a soak of so many statements.
#[derive(Clone, Copy)]
struct Soak<'a> {
    statements: u32,
    text: &'a [u8],
}

/// Says how a soak ended that put this. After a normal end its lines are put.
fn say_soak<O: Sink, E: Sink>(
    alloc: Global,
    unit: &Unit,
    soak: Soak<'_>,
    end: RunEnd,
    output: &[u8],
    out: &mut O,
    err: &mut E,
) -> Status
    ensures { EndsSoak (compiled_of unit.now) (soak_lines soak.entry.statements (length soak.entry.text.now) output.now) end result (O.state out.old) (O.state out.new) (E.state err.old) (E.state err.new) }
{
    match end {
        RunEnd::Ended(_) => put_soak(alloc, soak, output, out, err),
        RunEnd::Raised(reason) => say_raised(alloc, unit.exceptions.as_slice(), reason, err),
        RunEnd::TurnsSpent(turns) => say_spent(alloc, turns, err),
        RunEnd::ReadFault => say_read_fault(err),
        RunEnd::WriteFault => say_out_of_memory(err),
        RunEnd::NoMemory => say_out_of_memory(err),
    }
}

fn put_soak<O: Sink, E: Sink>(
    alloc: Global,
    soak: Soak<'_>,
    output: &[u8],
    out: &mut O,
    err: &mut E,
) -> Status
    ensures { ClosesOrLacks (soak_lines soak.entry.statements (length soak.entry.text.now) output.now) result (O.state out.old) (O.state out.new) (E.state err.old) (E.state err.new) }
{
    match soak_lines(alloc, soak.statements, soak.text.len() as u64, output) {
        Ok(lines) => put_all(lines.as_slice(), out, err),
        Err(_) => say_out_of_memory(err),
    }
}

/// Runs the unit of a soak, while memory holds its output, and says how the run ended.
fn run_soak<R: Threads + Sync, I: Source + Drop, O: Sink + Drop, E: Sink, P: Pulse + Sync>(
    rt: &R,
    alloc: Global,
    unit: &Unit,
    setting: Setting,
    soak: Soak<'_>,
    input: I,
    out: O,
    err: &mut E,
    pulse: &P,
) -> Given<I, O>
    requires planned { HasNoZero setting.plan }
    requires some { 0 < setting.workers }
    requires built { IsBuilt unit.now }
    ensures { RunsSoak ((s : I) → IsTold (I.state s)) ((s : O) → IsTold (O.state s)) (compiled_of unit.now) (settings_of setting) soak.entry.statements soak.entry.text.now result.status
        (devices (I.state input) (O.state out) (E.state err.old)) (devices (I.state result.input) (O.state result.out) (E.state err.new)) }
{
    let held = HeldSink::new(alloc);
    let Ran {
        end,
        input,
        out: held,
    } = execute(rt, alloc, unit, setting, input, held, pulse);
    let mut out = out;
    let status = say_soak(alloc, unit, soak, end, held.bytes(), &mut out, err);
    Given { status, input, out }
}

fn say_refusal<E: Sink>(
    alloc: Global,
    file: &str,
    text: &[u8],
    refusal: &Refusal,
    err: &mut E,
) -> Status
    requires { IsRefusalOf text.now refusal.now }
    ensures { SaysRefusal file.now text.now refusal.now result (E.state err.old) (E.state err.new) }
{
    match refusal {
        Refusal::OutOfMemory => say_out_of_memory(err),
        Refusal::Refused { .. } => match refused_line(alloc, file, text, refusal) {
            Ok(line) => say(err, line.as_bytes(), Status::Refused),
            Err(_) => say_out_of_memory(err),
        },
    }
}

fn refused_line(
    alloc: Global,
    file: &str,
    text: &[u8],
    refusal: &Refusal,
) -> Result<String, AllocError>
    requires { IsRefusalOf text.now refusal.now }
    ensures { IfOk result (λ line. IsRefusedLine file.now text.now refusal.now (string_bytes line)) }
{
    let mut line = refusal.line(alloc, file, text)?;
    line.push_str("\n")?;
    Ok(line)
}

/// Does with a text what is asked for.
fn answer_text<R: Threads + Sync, I: Source + Drop, O: Sink + Drop, E: Sink, P: Pulse + Sync>(
    rt: &R,
    alloc: Global,
    request: Request<'_>,
    text: &[u8],
    input: I,
    out: O,
    err: &mut E,
    pulse: &P,
) -> Given<I, O>
    requires planned { HasNoZero request.setting.plan }
    requires some { 0 < request.setting.workers }
    ensures { AnswersText ((s : I) → IsTold (I.state s)) ((s : O) → IsTold (O.state s)) (asked_of request.entry) text.now result.status
        (devices (I.state input) (O.state out) (E.state err.old)) (devices (I.state result.input) (O.state result.out) (E.state err.new)) }
{
    let Request {
        mode,
        file,
        setting,
        vars,
    } = request;
    match compile(alloc, text) {
        Err(refusal) => {
            let status = say_refusal(alloc, file, text, &refusal, err);
            Given { status, input, out }
        }
        Ok(unit) => match mode {
            Mode::Check => {
                let mut out = out;
                let status = say_accepted(&mut out, err);
                Given { status, input, out }
            }
            Mode::List => {
                let mut out = out;
                let status = say_listing(alloc, &unit.code, &mut out, err);
                Given { status, input, out }
            }
            Mode::Run => run_unit(rt, alloc, &unit, setting, vars, input, out, err, pulse),
            Mode::Soak(statements) => {
                let soak = Soak { statements, text };
                run_soak(rt, alloc, &unit, setting, soak, input, out, err, pulse)
            }
        },
    }
}

/// Does with the text of a soak of so many statements what is asked for.
pub fn answer_soak<R: Threads + Sync, I: Source + Drop, O: Sink + Drop, E: Sink, P: Pulse + Sync>(
    rt: &R,
    alloc: Global,
    request: Request<'_>,
    statements: u32,
    input: I,
    out: O,
    err: &mut E,
    pulse: &P,
) -> Given<I, O>
    requires planned { HasNoZero request.setting.plan }
    requires some { 0 < request.setting.workers }
    ensures { AnswersText ((s : I) → IsTold (I.state s)) ((s : O) → IsTold (O.state s)) (asked_of request.entry) (soak_text statements) result.status
        (devices (I.state input) (O.state out) (E.state err.old)) (devices (I.state result.input) (O.state result.out) (E.state err.new)) }
{
    match soak_text(alloc, statements) {
        Ok(text) => answer_text(rt, alloc, request, text.as_bytes(), input, out, err, pulse),
        Err(_) => {
            let status = say_out_of_memory(err);
            Given { status, input, out }
        }
    }
}

/// Fetches a text and does with it what is asked for.
pub fn answer_request<
    R: Threads + Sync,
    F: Shelf,
    I: Source + Drop,
    O: Sink + Drop,
    E: Sink,
    P: Pulse + Sync,
>(
    rt: &R,
    alloc: Global,
    request: Request<'_>,
    shelf: &mut F,
    input: I,
    out: O,
    err: &mut E,
    pulse: &P,
) -> Given<I, O>
    requires planned { HasNoZero request.setting.plan }
    requires some { 0 < request.setting.workers }
    ensures { AnswersFile ((s : I) → IsTold (I.state s)) ((s : O) → IsTold (O.state s)) (asked_of request.entry) result.status
        (outside (F.state shelf.old) (I.state input) (O.state out) (E.state err.old))
        (outside (F.state shelf.new) (I.state result.input) (O.state result.out) (E.state err.new)) }
{
    match shelf.fetch(alloc, request.file) {
        Ok(text) => answer_text(rt, alloc, request, &text, input, out, err, pulse),
        Err(ShelfFault::Failed) => {
            let status = say_unreadable(alloc, request.file, err);
            Given { status, input, out }
        }
        Err(ShelfFault::OutOfMemory) => {
            let status = say_out_of_memory(err);
            Given { status, input, out }
        }
    }
}
