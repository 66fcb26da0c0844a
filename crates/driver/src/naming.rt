//! The typed program of a text, the rules on nonblocking text and on conflicts, and the unit.

ghost use Rattle.std.specs.Prelude.{◌≡◌, IfOk};
ghost use Rattle.ada_base.specs.Tokens.{place_of_token};
ghost use Rattle.ada_meaning.specs.Formed.{IsFormed};
ghost use Rattle.typed_tree.specs.Programs.{program};
ghost use Rattle.name_programs.specs.Resolving.{fault_of};
ghost use Rattle.syntax_nodes.specs.Trees.{program_of};
ghost use Rattle.check_conflicts.specs.Answer.{AreGrants};
ghost use Rattle.check_effects.specs.Accepted.{IsAccepted};
ghost use Rattle.driver.specs.Coded.{IsBuilt, IsTyped};
ghost use Rattle.driver.specs.Complaints.{complaint};
ghost use Rattle.driver.specs.Compile.{Decides, blocking, building, naming, named_refusal, refusal_of, separating};
ghost use Rattle.driver.specs.Compiled.{compiled_of};

use crate::note::Note;
use crate::refusal::Refusal;
use crate::unit::Unit;
use crate::units::finish;
use ada_base::Tokens;
use check_blocking::{Blocked, check};
use check_clashes::granted::Grants;
use check_conflicts::accept::accept;
use check_conflicts::faults::ConflictFault;
use check_inference::infer::infer;
use name_programs::{NameFault, resolve};
use std::alloc::Global;
use syntax_nodes::Tree;
use typed_tree::Typed;

/// The typed program of a tree, or the least fault of its names and types.
#[tactic(auto, unfolding(syntax_nodes::specs::Trees::program_of))]
pub fn typed_of(alloc: Global, tokens: &Tokens, tree: &Tree) -> Result<Typed, Refusal>
    ensures { Decides (naming tokens.now) program (program_of tree.now) result }
{
    match resolve(alloc, tokens, tree) {
        Ok(typed) => Ok(typed),
        Err(fault) => Err(name_refusal(tokens, fault)),
    }
}

/// The refusal of a text for a fault of its names and types.
fn name_refusal(tokens: &Tokens, fault: NameFault) -> Refusal
    ensures { result ≡ named_refusal tokens.now (fault_of fault) }
{
    match fault {
        NameFault::Unknown { at } => refused(tokens, Note::UnknownName, at),
        NameFault::Twice { at } => refused(tokens, Note::DeclaredTwice, at),
        NameFault::NotVisible { at } => refused(tokens, Note::NotVisible, at),
        NameFault::WrongEnd { at } => refused(tokens, Note::EndName, at),
        NameFault::PolicyName { at } => refused(tokens, Note::PolicyName, at),
        NameFault::WrongType { at } => refused(tokens, Note::WrongType, at),
        NameFault::NotStatic { at } => refused(tokens, Note::NotStatic, at),
        NameFault::StaticRange { at } => refused(tokens, Note::StaticRange, at),
        NameFault::ChunkRule { at } => refused(tokens, Note::ChunkRule, at),
        NameFault::ReduceRule { at } => refused(tokens, Note::ReductionRule, at),
        NameFault::LimitPassed { at, .. } => refused(tokens, Note::LimitPassed, at),
        NameFault::OutOfMemory => Refusal::OutOfMemory,
    }
}

fn refused(tokens: &Tokens, note: Note, at: u32) -> Refusal
    ensures { result ≡ refusal_of (complaint note (place_of_token tokens.now at)) }
{
    Refusal::of(note, tokens.place(at))
}

/// Whether a typed program keeps the rule on nonblocking text, or the first call that breaks it (9.5).
pub fn keeps(tokens: &Tokens, typed: &Typed) -> Result<(), Refusal>
    ensures { Decides (blocking tokens.now) (λ u. program typed.now) (program typed.now) result }
{
    match check(typed) {
        Ok(()) => Ok(()),
        Err(Blocked::Call { at, .. }) => Err(refused(tokens, Note::BlockingCall, at)),
    }
}

/// What the threads of each parallel construct may write, if they are apart; if not, the least breach of the strict rule, or else the
/// least clash (9.10.1).
pub fn separated(alloc: Global, tokens: &Tokens, typed: &Typed) -> Result<Grants, Refusal>
    requires { IsFormed (program typed.now) }
    ensures apart { Decides (separating tokens.now) (λ u. program typed.now) (program typed.now) result }
    ensures granted { IfOk result (AreGrants (program typed.now)) }
{
    let effects = match infer(typed, alloc) {
        Ok(effects) => effects,
        Err(_) => return Err(Refusal::OutOfMemory),
    };
    match accept(typed, &effects, alloc) {
        Ok(grants) => Ok(grants),
        Err(ConflictFault::GlobalTouched { at, .. }) => {
            Err(refused(tokens, Note::GlobalTouched, at))
        }
        Err(ConflictFault::Clash { at, other }) => {
            Err(Refusal::clash(tokens.place(at), tokens.place(other)))
        }
        Err(ConflictFault::OutOfMemory) => Err(Refusal::OutOfMemory),
    }
}

/// The unit of a typed program that is accepted.
pub fn built(alloc: Global, tokens: &Tokens, typed: Typed, grants: &Grants) -> Result<Unit, Refusal>
    requires accepted { IsAccepted (program typed) }
    requires named { IsTyped (program typed) }
    requires granted { AreGrants (program typed) grants.now }
    ensures unit { Decides (building tokens.now) compiled_of (program typed) result }
    ensures built { IfOk result IsBuilt }
{
    match finish(alloc, tokens, typed, grants) {
        Ok(unit) => Ok(unit),
        Err(_) => Err(Refusal::OutOfMemory),
    }
}
