//! Constructs of text that isn't evaluated: their forks stand behind all other code.

ghost use Rattle.std.specs.Prelude.{◌≡◌, cond, length, IsTrue};
ghost use Rattle.lower_emission.specs.Emits.{written};
ghost use Rattle.lower_emission.specs.Programs as programs;
ghost use Rattle.lower_emission.specs.Scope.{none};
ghost use Rattle.lower_code.specs.Idle.{missing};
ghost use Rattle.lower_code.specs.BodyTables.{fork_flags};
ghost use Rattle.lower_values.specs.Words.{env_of, tables, Emits};

use crate::forks::forks_of;
use ada_base::Reason;
use lower_values::types::{Emitter, Env};
use stack_code::{Instr, SiteKind};
use std::alloc::Global;

/// The fork of a construct where no run comes, and its threads, which raise.
fn idle_fork(env: &Env<'_>, site: u32, out: &mut Emitter)
    ensures { Emits (programs.idle_fork (env_of env.now) site) out.old out.new }
{
    let nest = out.sum(env.nest, 1);
    let inside = env.with_nest(nest);
    out.fork(&inside, 5, SiteKind::Loop, site);
    let over = out.gap(&inside, 2);
    let thread = env.in_threads(site, 0);
    out.put(&thread, 0, Instr::Raise(Reason::ProgramError));
    out.aim(&inside, 2, over);
    out.put(&inside, 2, Instr::Raise(Reason::ProgramError));
}

/// The same, unless the construct has a fork.
fn missing_fork(env: &Env<'_>, forked: bool, site: u32, out: &mut Emitter)
    ensures { Emits (cond forked none (programs.idle_fork (env_of env.now) site)) out.old out.new }
{
    if !forked {
        idle_fork(env, site, out);
    }
}

/// The forks of the constructs that have none.
#[tactic(auto, using(crate::proofs::Missing::missing_last))]
fn missing_forks(env: &Env<'_>, flags: &[bool], out: &mut Emitter)
    ensures { Emits (missing (env_of env.now) 0 flags.now) out.old out.new }
{
    let mut site = 0;
    while let Some(forked) = flags.get(site as usize) {
        missing_fork(env, *forked, site, out);
        site = out.sum(site, 1);
        if !out.whole {
            return;
        }
    }
}

/// The forks of those of the program's constructs that have none in the code.
#[tactic(auto, using(crate::proofs::Starting::sites_of_typed))]
pub fn idle_forks(env: &Env<'_>, out: &mut Emitter, alloc: Global)
    ensures { IsTrue out.new.whole → IsTrue out.old.whole × (out.new.code ≡ written (missing (env_of env.now) 0 (fork_flags out.old.code (length (tables env.now).sites))) out.old.code) }
{
    match forks_of(out.code.as_slice(), env.typed.sites.len(), alloc) {
        Ok(flags) => missing_forks(env, flags.as_slice(), out),
        Err(_) => {
            out.whole = false;
            out.short = true;
        }
    }
}
