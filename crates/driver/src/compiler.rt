//! From a text to its unit.

ghost use Rattle.std.specs.Prelude.{◌≡◌, ◌≤◌, ℕ, List, take, Err, IfOk, IfErr, length};
ghost use Rattle.std.specs.Str.{IsUtf8};
ghost use Rattle.ada_base.specs.Place.{place_at};
ghost use Rattle.syntax_tree.specs.Faults.{byte_limit};
ghost use Rattle.syntax_parse.specs.Parsed.{Parsed};
ghost use Rattle.syntax_lexer.specs.Lexed.{Tells};
ghost use Rattle.ada_meaning.specs.Formed.{IsFormed};
ghost use Rattle.ada_meaning.specs.Law.{IsRaceFree};
ghost use Rattle.ada_meaning.specs.Nonblocking.{KeepsRule};
ghost use Rattle.typed_tree.specs.Programs.{program};
ghost use Rattle.syntax_nodes.specs.Trees.{program_of};
ghost use Rattle.driver.specs.Coded.{BuiltStands, IsBuilt, IsTyped, StandsFor};
ghost use Rattle.driver.specs.Complaints.{Complaint};
ghost use Rattle.driver.specs.Compile.{Decides, IsRefusal, lexing, parsing, from_unblocked, from_typed, from_tree, from_tokens, compiling, refusal_of, IsAccepted, IsFaultOf, IsRefusalOf, GivesUnit, GivesRefusal};
ghost use Rattle.driver.specs.Compiled.{Compiled, compiled_of};

use crate::naming::{built, keeps, separated, typed_of};
use crate::note::Note;
use crate::refusal::{BEGINNING, Refusal};
use crate::unit::Unit;
use ada_base::{Place, Tokens, place_of};
use std::alloc::Global;
use syntax_lexer::{LexFault, lex};
use syntax_nodes::Tree;
use syntax_parse::{ParseFault, parse};
use typed_tree::Typed;

/// Compiles a text, which is given by its bytes. A text that isn't accepted is refused by its one fault: its first
/// lexical fault (`E01`, `E02`, `E12`); else its first syntax fault, at a token that the language leaves out (`E04`) or
/// at another (`E03`), or the first token that stands deeper than 64 (`E12`), whichever comes first; else the least fault
/// of its names and types (`E05`, `E06`, `E07`, `E11`, `E12`); else its first call that breaks the rule on nonblocking
/// text (`E08`); else the least token at which a parallel construct breaks the strict rule on global variables (`E09`),
/// where that rule is asked for; and else the least pair of effects in different threads that clash (`E10`). No two threads
/// of an accepted text touch one variable where one writes, under whatever plan, limit and number of workers.
///
/// A unit was built of the text: its code is that of its typed program, whose parallel constructs lend what their threads
/// may write, and its variables have their places in the main frame. So it can be run: its code is valid and forward, and
/// stands for the program, so that each run of the machine on it tells of a run of the program that is permitted.
///
/// An accepted text gets its unit, and every fault of a text its refusal, unless memory runs out.
pub fn compile(alloc: Global, text: &[u8]) -> Result<Unit, Refusal>
    ensures accepted { IfOk result (λ unit. IsAccepted text.now (compiled_of unit)) }
    ensures race_free { IfOk result (λ unit. IsRaceFree (program unit.typed)) }
    ensures built { IfOk result IsBuilt }
    ensures stands { IfOk result (λ unit. StandsFor (program unit.typed) unit.code) }
    ensures refused { IfErr result (IsRefusalOf text.now) }
    ensures all_accepted { (due : Compiled) → IsAccepted text.now due → GivesUnit result due }
    ensures all_refused { (fault : Complaint) → IsFaultOf text.now fault → GivesRefusal result (refusal_of fault) }
{
    built_stands();
    compiled(alloc, text)
}

/// The code of a unit that was built stands for its program.
pub fn built_stands()
    ensures { BuiltStands }
{
    run_loaded::laws();
    name_scopes::laws();
    run_machine_laws::laws();
}

fn compiled(alloc: Global, text: &[u8]) -> Result<Unit, Refusal>
    ensures unit { Decides compiling compiled_of text.now result }
    ensures built { IfOk result IsBuilt }
{
    match tokens_of(alloc, text) {
        Ok(tokens) => unit_of(alloc, &tokens),
        Err(refusal) => Err(refusal),
    }
}

fn unit_of(alloc: Global, tokens: &Tokens) -> Result<Unit, Refusal>
    ensures unit { Decides from_tokens compiled_of tokens.now result }
    ensures built { IfOk result IsBuilt }
{
    let tree = match tree_of(alloc, tokens) {
        Ok(tree) => tree,
        Err(refusal) => return Err(refusal),
    };
    match whole_of(alloc, tokens, &tree) {
        Ok(unit) => Ok(unit),
        Err(refusal) => Err(refusal),
    }
}

fn whole_of(alloc: Global, tokens: &Tokens, tree: &Tree) -> Result<Unit, Refusal>
    ensures unit { Decides (from_tree tokens.now) compiled_of (program_of tree.now) result }
    ensures built { IfOk result IsBuilt }
{
    let typed = match typed_of(alloc, tokens, tree) {
        Ok(typed) => typed,
        Err(refusal) => return Err(refusal),
    };
    match checked(alloc, tokens, typed) {
        Ok(unit) => Ok(unit),
        Err(refusal) => Err(refusal),
    }
}

fn checked(alloc: Global, tokens: &Tokens, typed: Typed) -> Result<Unit, Refusal>
    requires formed { IsFormed (program typed) }
    requires named { IsTyped (program typed) }
    ensures unit { Decides (from_typed tokens.now) compiled_of (program typed) result }
    ensures built { IfOk result IsBuilt }
{
    if let Err(refusal) = keeps(tokens, &typed) {
        return Err(refusal);
    }
    match finished(alloc, tokens, typed) {
        Ok(unit) => Ok(unit),
        Err(refusal) => Err(refusal),
    }
}

fn finished(alloc: Global, tokens: &Tokens, typed: Typed) -> Result<Unit, Refusal>
    requires keeps { KeepsRule (program typed) }
    requires formed { IsFormed (program typed) }
    requires named { IsTyped (program typed) }
    ensures unit { Decides (from_unblocked tokens.now) compiled_of (program typed) result }
    ensures built { IfOk result IsBuilt }
{
    let grants = match separated(alloc, tokens, &typed) {
        Ok(grants) => grants,
        Err(refusal) => return Err(refusal),
    };
    match built(alloc, tokens, typed, &grants) {
        Ok(unit) => Ok(unit),
        Err(refusal) => Err(refusal),
    }
}

fn tokens_of(alloc: Global, text: &[u8]) -> Result<Tokens, Refusal>
    ensures { Decides lexing (λ tokens. tokens) text.now result }
{
    match lex(alloc, text) {
        Ok(tokens) => Ok(tokens),
        Err(fault) => Err(lexical_refusal(text, fault)),
    }
}

fn tree_of(alloc: Global, tokens: &Tokens) -> Result<Tree, Refusal>
    ensures { Decides parsing program_of tokens.now result }
{
    match parse(alloc, tokens) {
        Ok(tree) => Ok(tree),
        Err(fault) => Err(syntax_refusal(tokens, fault)),
    }
}

/// The refusal of a text for its first syntax fault, or for the first token that stands too deep.
fn syntax_refusal(tokens: &Tokens, fault: ParseFault) -> Refusal
    requires { Parsed tokens.now.items (Err fault) }
    ensures { IsRefusal parsing tokens.now result }
{
    match fault {
        ParseFault::LeftOut { token } => Refusal::of(Note::LeftOut, tokens.place(token)),
        ParseFault::Unexpected { token } => Refusal::of(Note::Syntax, tokens.place(token)),
        ParseFault::TooDeep { token } => Refusal::of(Note::LimitPassed, tokens.place(token)),
        ParseFault::OutOfMemory => Refusal::OutOfMemory,
    }
}

/// The refusal of a text for its first lexical fault.
fn lexical_refusal(text: &[u8], fault: LexFault) -> Refusal
    requires { Tells text.now fault }
    ensures { IsRefusal lexing text.now result }
{
    match fault {
        LexFault::TooBig { bytes: _bytes } => Refusal::of(Note::LimitPassed, BEGINNING),
        LexFault::NotUtf8 { at } => Refusal::of(Note::NotUtf8, place_of_byte(text, at as usize)),
        LexFault::BadToken { at } => Refusal::of(Note::NoToken, at),
        LexFault::WideLiteral { at } => Refusal::of(Note::LimitPassed, at),
        LexFault::TooLong { count: _count, at } => Refusal::of(Note::LimitPassed, at),
        LexFault::OutOfMemory => Refusal::OutOfMemory,
    }
}

/// The place of a byte that follows UTF-8 characters.
fn place_of_byte(text: &[u8], at: usize) -> Place
    requires within { at ≤ length text.now }
    requires short { length text.now ≤ byte_limit }
    requires front { IsUtf8 (take at text.now) }
    ensures { result ≡ place_at text.now at }
{
    match str::from_utf8(&text[..at]) {
        Ok(front) => place_of(front, front.len()),
        Err(_) => unreachable!(),
    }
}

/// A text has at most one unit, at most one fault, and not both.
pub fn one_answer()
    ensures unit { (text : List ℕ) (p q : Compiled) → IsAccepted text p → IsAccepted text q → p ≡ q }
    ensures fault { (text : List ℕ) (f g : Complaint) → IsFaultOf text f → IsFaultOf text g → f ≡ g }
    ensures not_both { (text : List ℕ) (p : Compiled) (f : Complaint) → IsAccepted text p → IsFaultOf text f → ⊥ }
{}
