//! The main procedure's variables, and where they begin in its frame (3.3).

ghost use Rattle.std.specs.Prelude.{◌≡◌, ◌+◌, ◌∷◌, ◌++◌, [], IfOk};
ghost use Rattle.typed_tree.specs.Decoded.{as_decl, decls_at, part_at};
ghost use Rattle.typed_tree.specs.Programs.{program};
ghost use Rattle.typed_tree.specs.Syntax.{Decls};
ghost use Rattle.ada_lower.specs.Homes as spec;

use crate::homes::{object_cells, width};
use crate::shapes::sum;
use ada_base::Items;
use ada_meaning::Variable;
use std::alloc::{AllocError, Global};
use typed_tree::{Decl, Typed};

/// A variable of so many cells begins at the first free one; what is given is the first cell behind it.
fn begins(object: u32, free: u32, cells: u32, out: &mut Items<Variable>) -> Result<u32, AllocError>
    ensures { IfOk result (λ next. (out.new ≡ out.old ++ record { object = object; address = free; cells = cells } ∷ []) × (next ≡ free + cells)) }
{
    out.push(Variable {
        object,
        address: u64::from(free),
        cells: u64::from(cells),
    })?;
    sum(free, cells)
}

/// A declaration from a cell on; what is given is the first cell behind it.
#[tactic(auto, using(crate::proofs::Begun::behind_one))]
fn declared(typed: &Typed, free: u32, id: u32, out: &mut Items<Variable>) -> Result<u32, AllocError>
    ensures { IfOk result (λ next. (rest : Decls) → out.new ++ spec.main_variables (program typed.now) next rest ≡ out.old ++ spec.main_variables (program typed.now) free (as_decl (part_at typed.now.nodes id) rest)) }
{
    match typed.nodes.decl(id) {
        Some(Decl::Default { object }) => begins(object, free, object_cells(typed, object)?, out),
        Some(Decl::Variable { object, initial }) => {
            begins(object, free, width(typed, initial)?, out)
        }
        Some(Decl::Constant { initial, .. }) => sum(free, width(typed, initial)?),
        Some(Decl::Mentions { .. }) | None => Ok(free),
    }
}

/// The variables of declarations, in order.
#[tactic(auto, using(crate::proofs::Lent::none_more))]
fn all_variables(typed: &Typed, id: u32, alloc: Global) -> Result<Items<Variable>, AllocError>
    ensures { IfOk result (λ all. all ≡ spec.main_variables (program typed.now) 0 (decls_at typed.now.nodes id)) }
{
    let mut all = Items::new(alloc);
    let mut next = id;
    let mut free: u32 = 0;
    while let Some(cell) = typed.nodes.decls(next) {
        free = declared(typed, free, cell.first, &mut all)?;
        next = cell.rest;
    }
    Ok(all)
}

/// The variables of the main procedure's declarative part, in order, with the first of each one's cells in its frame. An Err is
/// want of memory, also where 32 bits don't hold the number of a cell.
pub fn variables_of(typed: &Typed, alloc: Global) -> Result<Items<Variable>, AllocError>
    ensures { IfOk result (λ all. all ≡ spec.main_variables (program typed.now) 0 (program typed.now).body.decls) }
{
    match typed.nodes.body(typed.body) {
        None => Ok(Items::new(alloc)),
        Some(parts) => all_variables(typed, parts.decls, alloc),
    }
}
