//! The typed program of what was found of a program.

ghost use Rattle.std.specs.Prelude.{◌≡◌, IfOk};
ghost use Rattle.typed_tree.specs.Programs as programs;
ghost use Rattle.name_rules.specs.Resolved.{typed_by};
ghost use Rattle.name_tables.specs.Heads.{whole_of};
ghost use Rattle.typed_parts.specs.Stack.{parts};

use crate::heads::{Head, subs_taken};
use crate::subtypes::{shape_parts, subtypes_taken};
use ada_base::Items;
use name_rules::log::Log;
use std::alloc::AllocError;
use typed_parts::Parts;
use typed_tree::Typed;

/// The typed program: its latest part is its body, and before it are those of its subprograms.
pub fn typed(
    out: Parts,
    log: Log,
    heads: Items<Head>,
    nonblocking: bool,
    strict: bool,
) -> Result<Typed, AllocError>
    ensures { IfOk result (λ t. programs.program t ≡ typed_by log (whole_of heads nonblocking strict (parts out))) }
{
    let alloc = out.alloc();
    let mut all = out;
    let Log {
        shapes,
        objects,
        sites,
        exceptions,
        ..
    } = log;
    shape_parts(&mut all, &shapes)?;
    let mut finished = all.finish();
    let subtypes = subtypes_taken(alloc, &mut finished, &shapes)?;
    let Some(body) = finished.take() else {
        return Err(AllocError);
    };
    let subs = subs_taken(alloc, &mut finished, heads)?;
    Ok(Typed {
        nodes: finished.nodes,
        subtypes,
        objects,
        subs,
        sites,
        exceptions,
        body,
        nonblocking,
        strict,
    })
}
