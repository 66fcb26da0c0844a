//! The words.

ghost use Rattle.std.specs.Prelude.{◌≡◌, ◌≢◌, ◌≤◌, map, option_map, option_and_then, string_bytes, IfOk};
ghost use Rattle.clap.specs.Matches.{found_of};
ghost use Rattle.clap.specs.Simple.{app_of};
ghost use Rattle.clap.specs.Walk.{first_of, rows_of};
ghost use Rattle.ada_base.specs.Cuts.{Even};
ghost use Rattle.command_words.specs.Values.{number as number_in, plan as plan_in};
ghost use Rattle.command_words.specs.Words.{asked, asked_by, bare, command, flag, is_true, mode_named, name_of, option, positional, settings_by, soak_of, usual_chunks, value_or};
ghost use Rattle.command_words.specs.declared.request.WordsFault.TheVariants.{Usage};
ghost use Rattle.command_words.specs.Answers.{IsArg, GivesMatches, GivesMode, GivesPlan, GivesRequest, GivesSetting, GivesWithin};

use crate::request::{Mode, Request, WordsFault};
use crate::values::{number, plan};
use clap::error::ErrorKind;
use clap::{Arg, ArgAction, ArgMatches, Command};
use run_plan::{Plan, Setting};
use std::alloc::{AllocError, Global};

// What is taken where an option is absent, and the most that one may be.
const USUAL_CHUNKS: u32 = 8;

const USUAL_WORKERS: u64 = 4;

const MOST_WORKERS: u64 = 64;

const USUAL_TURNS: u64 = 1_000_000_000;

const MOST_TURNS: u64 = 1_099_511_627_776;

// The most statements of a soak.
const MOST_STATEMENTS: u64 = 1000;

fn positional<'a>(alloc: Global, name: &'a str) -> Arg<'a>
    ensures { IsArg (positional name.entry.now) result }
{
    Arg::new(alloc, name).required(true)
}

fn option<'a>(alloc: Global, name: &'a str) -> Arg<'a>
    ensures { IsArg (option name.entry.now) result }
{
    Arg::new(alloc, name).long(name)
}

fn flag<'a>(alloc: Global, name: &'a str) -> Arg<'a>
    ensures { IsArg (flag name.entry.now) result }
{
    Arg::new(alloc, name).long(name).action(ArgAction::SetTrue)
}

// The command without its arguments: no help, and no program's name among the words.
fn bare<'a>(alloc: Global) -> Command<'a>
    ensures { app_of result ≡ bare }
{
    Command::new(alloc, "ada_cmd")
        .no_binary_name(true)
        .disable_help_flag(true)
}

fn command<'a>(alloc: Global) -> Result<Command<'a>, AllocError>
    ensures { IfOk result (λ c. app_of c ≡ command) }
{
    let mode = positional(alloc, "mode");
    let file = positional(alloc, "file");
    let workers = option(alloc, "workers");
    let chunks = option(alloc, "chunks");
    let turns = option(alloc, "turns");
    let vars = flag(alloc, "vars");
    let command = bare(alloc)
        .arg(mode)?
        .arg(file)?
        .arg(workers)?
        .arg(chunks)?
        .arg(turns)?
        .arg(vars)?;
    Ok(command)
}

fn fault_of(kind: ErrorKind) -> WordsFault
    ensures { result ≡ Usage → kind ≢ ErrorKind.OutOfMemory }
{
    match kind {
        ErrorKind::OutOfMemory => WordsFault::OutOfMemory,
        _ => WordsFault::Usage,
    }
}

fn matches_of<'a>(alloc: Global, words: &'a [String]) -> Result<ArgMatches<'a>, WordsFault>
    ensures { GivesMatches (map string_bytes words.now) result }
{
    let command = command(alloc)?;
    match command.try_get_matches_from(words) {
        Ok(matches) => Ok(matches),
        Err(fault) => Err(fault_of(fault.kind())),
    }
}

fn value_of<'a>(matches: &ArgMatches<'a>, name: &str) -> Option<&'a str>
    ensures { option_map (λ s. s.now) result ≡ first_of name.now (rows_of (found_of matches.now)) }
{
    matches.get_str(name)
}

fn is_true(text: Option<&str>) -> bool
    ensures { result ≡ is_true (option_map (λ s. s.now) text.entry) }
{
    match text {
        Some(text) => text == "true",
        None => false,
    }
}

fn soak_of(file: &str) -> Result<Mode, WordsFault>
    ensures { GivesMode (soak_of file.now) result }
{
    let statements = number(file, 1, MOST_STATEMENTS)?;
    Ok(Mode::Soak(statements as u32))
}

fn mode_of(text: &str, file: &str) -> Result<Mode, WordsFault>
    ensures { GivesMode (mode_named text.now file.now) result }
{
    match text {
        "check" => Ok(Mode::Check),
        "run" => Ok(Mode::Run),
        "list" => Ok(Mode::List),
        "soak" => soak_of(file),
        _ => Err(WordsFault::Usage),
    }
}

fn name_of<'a>(mode: Mode, file: &'a str) -> &'a str
    ensures { result.now ≡ name_of mode file.now }
{
    match mode {
        Mode::Soak(_) => "soak",
        _ => file,
    }
}

fn plan_of(alloc: Global, text: Option<&str>) -> Result<Plan, WordsFault>
    ensures { GivesPlan (value_or (Even usual_chunks) plan_in (option_map (λ s. s.now) text.entry)) result }
{
    match text {
        Some(text) => plan(alloc, text),
        None => Ok(Plan::Even(USUAL_CHUNKS)),
    }
}

fn number_of(text: Option<&str>, usual: u64, most: u64) -> Result<u64, WordsFault>
    requires low { 1 ≤ usual }
    requires high { usual ≤ most }
    ensures { GivesWithin 1 most (value_or usual (number_in 1 most) (option_map (λ s. s.now) text.entry)) result }
{
    match text {
        Some(text) => number(text, 1, most),
        None => Ok(usual),
    }
}

fn setting_of(alloc: Global, matches: &ArgMatches<'_>) -> Result<Setting, WordsFault>
    ensures { GivesSetting (settings_by (rows_of (found_of matches.now))) result }
{
    let plan = plan_of(alloc, value_of(matches, "chunks"))?;
    let workers = number_of(value_of(matches, "workers"), USUAL_WORKERS, MOST_WORKERS)?;
    let turns = number_of(value_of(matches, "turns"), USUAL_TURNS, MOST_TURNS)?;
    Ok(Setting {
        plan,
        workers: workers as u32,
        turns,
    })
}

fn request_of<'a>(alloc: Global, matches: &ArgMatches<'a>) -> Result<Request<'a>, WordsFault>
    ensures { GivesRequest (asked_by (rows_of (found_of matches.now))) result }
{
    let Some(text) = value_of(matches, "mode") else {
        return Err(WordsFault::Usage);
    };
    let Some(file) = value_of(matches, "file") else {
        return Err(WordsFault::Usage);
    };
    let mode = mode_of(text, file)?;
    let setting = setting_of(alloc, matches)?;
    let vars = is_true(value_of(matches, "vars"));
    Ok(Request {
        mode,
        file: name_of(mode, file),
        setting,
        vars,
    })
}

/// What the words behind the program's name ask for.
///
/// They are `MODE FILE [--workers N] [--chunks PLAN] [--turns K] [--vars]`, in the forms that `clap` reads, each option
/// once at the most. In the mode `soak` a number from 1 to 1,000 stands in the place of FILE. `Usage` comes exactly where they
/// aren't such words.
pub fn read<'a>(alloc: Global, words: &'a [String]) -> Result<Request<'a>, WordsFault>
    ensures { GivesRequest (asked (map string_bytes words.now)) result }
{
    let matches = matches_of(alloc, words)?;
    let request = request_of(alloc, &matches)?;
    Ok(request)
}
