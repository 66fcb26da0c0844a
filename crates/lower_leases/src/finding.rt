//! Where all variables lie, and where all parallel constructs stand.

ghost use Rattle.std.specs.Prelude.{◌≡◌, ◌+◌, ◌∷◌, [], true, ℕ, List, IfOk, IsTrue};
ghost use Rattle.typed_tree.specs.Decoded.{body_at};
ghost use Rattle.typed_tree.specs.Programs.{formals_at, program, sub_of};
ghost use Rattle.typed_tree.specs.Syntax.{Program};
ghost use Rattle.lower_emission.specs.Emission as emission;
ghost use Rattle.ada_lower.specs.Homes as homes;
ghost use Rattle.ada_lower.specs.Standings as standings;
ghost use Rattle.lower_leases.specs.Words.{Finds, Houses};

use crate::homes::{Housing, Stand, add, block, decls, given, held, lies, object_cells};
use crate::shapes::sum;
use crate::standings::Finding;
use crate::stmts;
use ada_base::Items;
use ada_lower::types::{Home, Standing};
use std::alloc::{AllocError, Global};
use typed_tree::{Formal, Leaf, Mode, Sub, Typed};

/// How many cells a formal has before its own, for the address of what it is copied back to.
fn lead(mode: Mode) -> u32
    ensures { (p : Program) → (x : ℕ) → emission.lead (emission.shape_by p x mode).back ≡ result }
{
    match mode {
        Mode::In => 0,
        Mode::InOut | Mode::Out => 1,
    }
}

/// How many cells the formals of a list have. An Err is want of room, as with all numbers here: 32 bits don't hold it.
#[cycle(formals_cells)]
fn formals_cells(typed: &Typed, id: u32) -> Result<u32, AllocError>
    ensures { IfOk result (λ n. n ≡ emission.shapes_cells (emission.shapes (program typed.now) (formals_at typed.now.nodes id))) }
{
    match typed.nodes.leaf(id) {
        None => Ok(0),
        Some(cell) => match cell.leaf {
            Leaf::Formal(formal) => {
                let own = object_cells(typed, formal.object)?;
                let first = sum(lead(formal.mode), own)?;
                let rest = formals_cells(typed, cell.rest)?;
                sum(first, rest)
            }
            _ => formals_cells(typed, cell.rest),
        },
    }
}

/// Where a formal lies that begins at a cell; what is given is the first cell behind it.
fn formal(typed: &Typed, formal: Formal, cell: u32, out: &mut Housing) -> u32
    ensures { IsTrue out.new.whole → IsTrue out.old.whole × ((rest : List emission.Shape) → homes.formal_homes result rest out.new.found ≡ homes.formal_homes cell (emission.shape_by (program typed.now) formal.object formal.mode ∷ rest) out.old.found) }
{
    let cells = given(object_cells(typed, formal.object), out);
    match formal.mode {
        Mode::In => add(cell, cells, out),
        Mode::InOut | Mode::Out => {
            let first = add(cell, 1, out);
            let home = Home {
                object: formal.object,
                main: false,
                depth: 0,
                cell: first,
                cells,
            };
            lies(home, out);
            add(first, cells, out)
        }
    }
}

/// Where the formals of a list lie, from a cell on.
#[cycle(formals)]
fn formals(typed: &Typed, id: u32, cell: u32, out: &mut Housing)
    ensures { Houses (homes.formal_homes cell (emission.shapes (program typed.now) (formals_at typed.now.nodes id)) out.old.found) out.old out.new }
{
    match typed.nodes.leaf(id) {
        None => {}
        Some(link) => match link.leaf {
            Leaf::Formal(one) => {
                let next = formal(typed, one, cell, out);
                formals(typed, link.rest, next, out);
            }
            _ => formals(typed, link.rest, cell, out),
        },
    }
}

/// The variables of a subprogram, whose formals have the first cells of its frame.
fn sub_homes(typed: &Typed, sub: Sub, out: &mut Housing)
    ensures { Houses (homes.sub_homes (program typed.now) (sub_of typed.now.nodes sub) out.old.found) out.old out.new }
{
    formals(typed, sub.formals, 0, out);
    let free = given(formals_cells(typed, sub.formals), out);
    body_homes(typed, Stand { depth: 0, free }, sub.body, out);
}

/// The variables of a subprogram's body.
#[tactic(auto, unfolding(ada_lower::specs::Homes::stmts_homes, ada_lower::specs::Homes::handler_homes))]
fn body_homes(typed: &Typed, at: Stand, body: u32, out: &mut Housing)
    ensures { Houses (homes.body_homes (program typed.now) at.depth at.free (body_at typed.now.nodes body) out.old.found) out.old out.new }
{
    match typed.nodes.body(body) {
        None => {}
        Some(parts) => block(typed, at, parts.decls, parts.stmts, parts.handlers, out),
    }
}

/// The variables of the main procedure.
#[tactic(auto, unfolding(ada_lower::specs::Homes::stmts_homes, ada_lower::specs::Homes::handler_homes))]
fn main_homes(typed: &Typed, out: &mut Housing)
    ensures { Houses (homes.main_homes (program typed.now) out.old.found) out.old out.new }
{
    match typed.nodes.body(typed.body) {
        None => {}
        Some(parts) => {
            let outset = Stand { depth: 0, free: 0 };
            let free = decls(typed, true, outset, parts.decls, out);
            held(
                typed,
                Stand { depth: 0, free },
                parts.stmts,
                parts.handlers,
                out,
            );
        }
    }
}

/// The variables of all subprograms.
fn subs_homes(typed: &Typed, out: &mut Housing)
    ensures { Houses (homes.subs_homes (program typed.now) (program typed.now).subs out.old.found) out.old out.new }
{
    let mut rest = typed.subs.as_slice();
    while let Some((sub, others)) = rest.split_first() {
        sub_homes(typed, *sub, out);
        rest = others;
    }
}

/// Where the variables of a program lie. An Err is want of memory, also where 32 bits don't hold a number.
pub fn homes_of(typed: &Typed, alloc: Global) -> Result<Items<Home>, AllocError>
    ensures { IfOk result (λ found. found ≡ homes.homes_of (program typed.now)) }
{
    let mut out = Housing {
        found: Items::new(alloc),
        whole: true,
    };
    main_homes(typed, &mut out);
    subs_homes(typed, &mut out);
    if out.whole {
        Ok(out.found)
    } else {
        Err(AllocError)
    }
}

/// The parallel constructs of a body.
#[tactic(auto, unfolding(ada_lower::specs::Standings::stmts_standings, ada_lower::specs::Standings::handler_standings, ada_lower::specs::Standings::decls_standings))]
fn body_standings(typed: &Typed, body: u32, out: &mut Finding)
    ensures { Finds (standings.body_standings (body_at typed.now.nodes body) out.old.found) out.old out.new }
{
    match typed.nodes.body(body) {
        None => {}
        Some(parts) => stmts::block(
            &typed.nodes,
            0,
            parts.decls,
            parts.stmts,
            parts.handlers,
            out,
        ),
    }
}

/// The parallel constructs of all subprograms.
fn subs_standings(typed: &Typed, out: &mut Finding)
    ensures { Finds (standings.subs_standings (program typed.now).subs out.old.found) out.old out.new }
{
    let mut rest = typed.subs.as_slice();
    while let Some((sub, others)) = rest.split_first() {
        body_standings(typed, sub.body, out);
        rest = others;
    }
}

/// Where the parallel constructs of a program stand. An Err is want of memory.
pub fn standings_of(typed: &Typed, alloc: Global) -> Result<Items<Standing>, AllocError>
    ensures { IfOk result (λ found. found ≡ standings.standings_of (program typed.now)) }
{
    let mut out = Finding {
        found: Items::new(alloc),
        whole: true,
    };
    body_standings(typed, typed.body, &mut out);
    subs_standings(typed, &mut out);
    if out.whole {
        Ok(out.found)
    } else {
        Err(AllocError)
    }
}
