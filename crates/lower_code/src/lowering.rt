//! The code of a whole program.

ghost use Rattle.std.specs.Prelude.{◌≡◌, [], false, get_or, IfOk, IfSome};
ghost use Rattle.lower_emission.specs.Programs as spec;
ghost use Rattle.lower_code.specs.Lowered as lowered;
ghost use Rattle.lower_values.specs.Words.{program_of};

use crate::bodies::main_declared;
use crate::body_tables::{Start, sites_of, subs_of};
use crate::gathering::texts_of;
use crate::idle::idle_forks;
use crate::tables::{Tables, tables_of};
use ada_base::Items;
use lower_emission::laws;
use lower_emission::types::{Leaving, Need, Placed};
use lower_values::texts::Texts;
use lower_values::types::{Emitter, Env, Names};
use stack_code::{Around, Code, Lease, Words};
use std::alloc::{AllocError, Global};
use typed_tree::Typed;

/// The instructions of a program as they are listed, and its subprograms as they begin.
#[derive(Drop)]
pub struct Laid {
    pub code: Items<Placed>,
    pub subs: Items<Start>,
}

/// The main procedure, as it begins.
fn main_start() -> Start
    ensures { result ≡ record { entry = 0; need = spec.at_least 0; gives = false } }
{
    let need = Need {
        cells: 0,
        height: 0,
    };
    Start {
        entry: 0,
        need,
        gives: false,
    }
}

/// The instructions and subprograms of a program with these texts, or None where they don't fit into memory.
fn laid_out<'a>(typed: &'a Typed, texts: &'a Texts, alloc: Global) -> Option<Laid>
    ensures { IfSome result (λ laid. lowered.Lays (program_of typed.now) texts.now laid) }
{
    let parts = typed.nodes.body(typed.body)?;
    let mut subs = Items::new(alloc);
    if subs.push(main_start()).is_err() {
        return None;
    }
    let mut out = Emitter {
        code: Items::new(alloc),
        whole: true,
        short: false,
    };
    let env = Env {
        typed,
        names: Names::Outset,
        texts,
        free: 0,
        entry: None,
        leaving: Leaving::ByEnd,
        body: Around::Sub(0),
        nest: 0,
    };
    main_declared(&env, parts.decls, &mut out, &mut subs);
    idle_forks(&env, &mut out, alloc);
    laws();
    if out.whole {
        Some(Laid {
            code: out.code,
            subs,
        })
    } else {
        None
    }
}

/// The code that was laid out, with its tables.
#[tactic(auto, using(crate::proofs::Starting::sites_of_typed))]
fn tabled(
    typed: &Typed,
    laid: Laid,
    texts: Items<Words>,
    leases: Items<Items<Lease>>,
    alloc: Global,
) -> Result<Code, AllocError>
    ensures { IfOk result (λ code. code ≡ lowered.tabled (program_of typed.now) laid texts leases) }
{
    let Laid { code, subs: starts } = laid;
    let sites = sites_of(code.as_slice(), leases, typed.sites.len(), alloc)?;
    let subs = subs_of(code.as_slice(), starts, alloc)?;
    let Tables {
        instrs,
        spots,
        unwind,
    } = tables_of(code.as_slice(), alloc)?;
    Ok(Code {
        instrs,
        spots,
        unwind,
        sites,
        subs,
        texts,
    })
}

/// The code of a program, with the leases of each of its parallel constructs in the order of their numbers. An Err is
/// want of memory, also where a number of the code is beyond 32 bits.
#[tactic(auto, using(crate::proofs::Starting::lowered_by))]
pub fn lower(typed: &Typed, leases: Items<Items<Lease>>, alloc: Global) -> Result<Code, AllocError>
    ensures { IfOk result (λ code. code ≡ spec.code_of (program_of typed.now) (λ site. get_or leases site [])) }
{
    laws();
    let Some(texts) = texts_of(typed, alloc) else {
        return Err(AllocError);
    };
    let Some(laid) = laid_out(typed, &texts, alloc) else {
        return Err(AllocError);
    };
    match tabled(typed, laid, texts.into_list(), leases, alloc) {
        Ok(code) => Ok(code),
        Err(_) => Err(AllocError),
    }
}
