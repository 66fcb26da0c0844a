//! Where the variables of a program lie (3.3, 6.4).

ghost use Rattle.std.specs.Prelude.{◌≡◌, ◌<◌, ◌+◌, ◌++◌, ◌∷◌, [], false, length, IfOk, IsTrue, Ok};
ghost use Rattle.ada_meaning.specs.Meaning.{object_layout};
ghost use Rattle.typed_tree.specs.Decoded.{alternatives_at, arms_at, as_alternative, as_decl, as_handler, composite_at, decls_at, handlers_at, iteration_at, part_at, stmt_at, stmts_at, value_at};
ghost use Rattle.typed_tree.specs.Programs.{program};
ghost use Rattle.typed_tree.specs.Syntax.{Alternatives, Decls, Handlers};
ghost use Rattle.lower_emission.specs.Emission as emission;
ghost use Rattle.ada_lower.specs.Homes as spec;
ghost use Rattle.lower_leases.specs.Words.{homes_left, Counts, Houses, IsBelow};

use crate::shapes::{opened, part_size};
use crate::stmts::alone;
use ada_base::Items;
use ada_lower::types::Home;
use std::alloc::AllocError;
use typed_tree::{Composite, Decl, Handler, Iteration, Stmt, Typed, Value};

/// Where a text stands: within the threads of so many constructs, and the first cell of its frame that is free.
#[derive(Clone, Copy)]
pub struct Stand {
    pub depth: u32,
    pub free: u32,
}

/// The homes that were found, if all of them had room.
#[derive(Drop)]
pub struct Housing {
    pub found: Items<Home>,
    pub whole: bool,
}

/// A sum, if there is room for it.
pub fn add(number: u32, more: u32, out: &mut Housing) -> u32
    ensures { Counts (number + more) out.old result out.new }
{
    match number.checked_add(more) {
        Some(found) => found,
        None => {
            out.whole = false;
            0
        }
    }
}

/// A number, if there was room for it.
pub fn given(number: Result<u32, AllocError>, out: &mut Housing) -> u32
    ensures { IsTrue out.new.whole → IsTrue out.old.whole × ((out.new.found ≡ out.old.found) × (number ≡ Ok result)) }
{
    match number {
        Ok(found) => found,
        Err(_) => {
            out.whole = false;
            0
        }
    }
}

/// A variable lies somewhere.
pub fn lies(home: Home, out: &mut Housing)
    ensures { Houses (out.old.found ++ home ∷ []) out.old out.new }
{
    if out.found.push(home).is_err() {
        out.whole = false;
    }
}

/// How many cells a subtype has. An Err is want of room, as with all numbers here: 32 bits don't hold it.
fn cells_of(typed: &Typed, subtype: u32) -> Result<u32, AllocError>
    ensures { IfOk result (λ n. n ≡ emission.cells_of (program typed.now) subtype) }
{
    part_size(typed, opened(typed, typed.subtypes.len(), subtype))
}

/// How many cells an object has.
pub fn object_cells(typed: &Typed, object: u32) -> Result<u32, AllocError>
    ensures { IfOk result (λ n. n ≡ length (object_layout (program typed.now) object)) }
{
    match typed.objects.get(object as usize) {
        None => Ok(0),
        Some(found) => cells_of(typed, found.subtype),
    }
}

/// How many cells an array or record has.
#[cycle(width)]
fn composite_width(typed: &Typed, id: u32) -> Result<u32, AllocError>
    ensures { IfOk result (λ n. n ≡ emission.composite_width (program typed.now) (composite_at typed.now.nodes id)) }
{
    match typed.nodes.composite(id) {
        Composite::WholeVariable { subtype, .. }
        | Composite::WholeConstant { subtype, .. }
        | Composite::WholeTarget { subtype, .. } => cells_of(typed, subtype),
        Composite::If { value, .. } => composite_width(typed, value),
        Composite::Aggregate { cells, .. } => Ok(cells),
    }
}

/// How many cells a value has.
pub fn width(typed: &Typed, id: u32) -> Result<u32, AllocError>
    ensures { IfOk result (λ n. n ≡ emission.width (program typed.now) (value_at typed.now.nodes id)) }
{
    match typed.nodes.value(id) {
        Some(Value::Number { .. }) => Ok(1),
        Some(Value::Cells { composite }) => composite_width(typed, composite),
        None => Ok(0),
    }
}

/// The cells that a turn takes.
fn turn_cells(typed: &Typed, id: u32) -> u32
    ensures { result ≡ spec.turn_cells (iteration_at typed.now.nodes id) }
{
    match typed.nodes.iteration(id) {
        Some(Iteration::Range { .. }) => 2,
        Some(Iteration::Components { .. }) | None => 3,
    }
}

/// A statement. A statement that stands alone after `else`, as one made of `elsif` does, is gone through by a loop.
#[cycle(body)]
fn stmt(typed: &Typed, at: Stand, id: u32, out: &mut Housing)
    ensures { Houses (spec.stmt_homes (program typed.now) at.depth at.free (stmt_at typed.now.nodes id) out.old.found) out.old out.new }
{
    let mut rest = Some(id);
    while let Some(next) = rest {
        rest = stmt_step(typed, at, next, out);
    }
}

/// All of a statement but one statement that may be left.
#[cycle(body)]
#[inline(never)]
#[tactic(auto, unfolding(ada_lower::specs::Homes::stmt_homes))]
fn stmt_step(typed: &Typed, at: Stand, id: u32, out: &mut Housing) -> Option<u32>
    ensures { (IsTrue out.new.whole → IsTrue out.old.whole × (homes_left (program typed.now) typed.now.nodes at.depth at.free out.new.found result ≡ spec.stmt_homes (program typed.now) at.depth at.free (stmt_at typed.now.nodes id) out.old.found)) × IsBelow id result }
{
    match typed.nodes.stmt(id) {
        Stmt::If {
            stmts: then,
            otherwise,
            ..
        } => branch(typed, at, then, otherwise, out),
        Stmt::Case { alternatives, .. } => {
            case(typed, at, alternatives, out);
            None
        }
        Stmt::Loop { stmts: parts, .. } => {
            stmts(typed, at, parts, out);
            None
        }
        Stmt::For {
            iteration,
            stmts: parts,
            ..
        } => {
            for_loop(typed, at, iteration, parts, out);
            None
        }
        Stmt::ParallelFor {
            iteration,
            stmts: parts,
            ..
        } => {
            parallel_for(typed, at, iteration, parts, out);
            None
        }
        Stmt::Parallel { arms, .. } => {
            parallel(typed, at, arms, out);
            None
        }
        Stmt::Block {
            decls,
            stmts: parts,
            handlers,
        } => {
            block(typed, at, decls, parts, handlers, out);
            None
        }
        Stmt::Null
        | Stmt::Return
        | Stmt::Raise { .. }
        | Stmt::Reraise
        | Stmt::Assign { .. }
        | Stmt::Call { .. }
        | Stmt::Exit { .. }
        | Stmt::ReturnValue { .. }
        | Stmt::Put { .. }
        | Stmt::Get { .. } => None,
    }
}

/// What is done where a condition holds, and what is done where it doesn't, but for a statement that stands alone there.
#[cycle(body)]
#[inline(never)]
#[tactic(auto, unfolding(ada_lower::specs::Homes::stmts_homes))]
fn branch(typed: &Typed, at: Stand, then: u32, otherwise: u32, out: &mut Housing) -> Option<u32>
    ensures { (IsTrue out.new.whole → IsTrue out.old.whole × (homes_left (program typed.now) typed.now.nodes at.depth at.free out.new.found result ≡ spec.stmts_homes (program typed.now) at.depth at.free (stmts_at typed.now.nodes otherwise) (spec.stmts_homes (program typed.now) at.depth at.free (stmts_at typed.now.nodes then) out.old.found))) × IsBelow otherwise result }
{
    stmts(typed, at, then, out);
    match alone(&typed.nodes, otherwise) {
        Some(rest) => Some(rest),
        None => {
            stmts(typed, at, otherwise, out);
            None
        }
    }
}

/// A case statement (5.4).
#[cycle(body)]
#[inline(never)]
fn case(typed: &Typed, at: Stand, parts: u32, out: &mut Housing)
    ensures { Houses (spec.case_homes (program typed.now) at.depth (at.free + 1) (alternatives_at typed.now.nodes parts) out.old.found) out.old out.new }
{
    let free = add(at.free, 1, out);
    alternatives(typed, Stand { free, ..at }, parts, out);
}

/// A loop with an iteration (5.5, 5.5.2).
#[cycle(body)]
#[inline(never)]
fn for_loop(typed: &Typed, at: Stand, course: u32, parts: u32, out: &mut Housing)
    ensures { Houses (spec.stmts_homes (program typed.now) at.depth (at.free + spec.turn_cells (iteration_at typed.now.nodes course)) (stmts_at typed.now.nodes parts) out.old.found) out.old out.new }
{
    let free = add(at.free, turn_cells(typed, course), out);
    stmts(typed, Stand { free, ..at }, parts, out);
}

/// A parallel loop (5.5).
#[cycle(body)]
#[inline(never)]
fn parallel_for(typed: &Typed, at: Stand, course: u32, parts: u32, out: &mut Housing)
    ensures { Houses (spec.stmts_homes (program typed.now) (at.depth + 1) (2 + spec.turn_cells (iteration_at typed.now.nodes course)) (stmts_at typed.now.nodes parts) out.old.found) out.old out.new }
{
    let depth = add(at.depth, 1, out);
    let free = add(2, turn_cells(typed, course), out);
    stmts(typed, Stand { depth, free }, parts, out);
}

/// A parallel block (5.6.1).
#[cycle(body)]
#[inline(never)]
fn parallel(typed: &Typed, at: Stand, parts: u32, out: &mut Housing)
    ensures { Houses (spec.arm_homes (program typed.now) (at.depth + 1) 4 (arms_at typed.now.nodes parts) out.old.found) out.old out.new }
{
    let depth = add(at.depth, 1, out);
    arms(typed, Stand { depth, free: 4 }, parts, out);
}

/// Declarations, and the statements and handlers that see them (5.6).
#[cycle(body)]
#[inline(never)]
pub fn block(
    typed: &Typed,
    at: Stand,
    declarations: u32,
    statements: u32,
    handled: u32,
    out: &mut Housing,
)
    ensures { Houses (spec.block_homes (program typed.now) at.depth at.free (decls_at typed.now.nodes declarations) (stmts_at typed.now.nodes statements) (handlers_at typed.now.nodes handled) out.old.found) out.old out.new }
{
    let free = decls(typed, false, at, declarations, out);
    held(typed, Stand { free, ..at }, statements, handled, out);
}

/// Statements and handlers of what they raise, which have a cell for its number.
#[cycle(body)]
#[inline(never)]
pub fn held(typed: &Typed, at: Stand, statements: u32, handled: u32, out: &mut Housing)
    ensures { Houses (spec.handler_homes (program typed.now) at.depth (at.free + 1) (handlers_at typed.now.nodes handled) (spec.stmts_homes (program typed.now) at.depth at.free (stmts_at typed.now.nodes statements) out.old.found)) out.old out.new }
{
    stmts(typed, at, statements, out);
    let free = add(at.free, 1, out);
    handlers(typed, Stand { free, ..at }, handled, out);
}

/// Statements one after the other.
#[cycle(body)]
#[inline(never)]
#[tactic(auto, unfolding(ada_lower::specs::Homes::stmts_homes))]
fn stmts(typed: &Typed, at: Stand, id: u32, out: &mut Housing)
    ensures { Houses (spec.stmts_homes (program typed.now) at.depth at.free (stmts_at typed.now.nodes id) out.old.found) out.old out.new }
{
    let mut next = id;
    while let Some(cell) = typed.nodes.stmts(next) {
        stmt(typed, at, cell.first, out);
        next = cell.rest;
    }
}

/// Alternatives of a case statement (5.4).
#[cycle(body)]
#[inline(never)]
#[tactic(auto, unfolding(ada_lower::specs::Homes::case_homes))]
fn alternatives(typed: &Typed, at: Stand, id: u32, out: &mut Housing)
    ensures { Houses (spec.case_homes (program typed.now) at.depth at.free (alternatives_at typed.now.nodes id) out.old.found) out.old out.new }
{
    let mut next = id;
    while let Some(cell) = typed.nodes.alternatives(next) {
        alternative(typed, at, cell.first, out);
        next = cell.rest;
    }
}

#[cycle(body)]
#[tactic(auto, unfolding(ada_lower::specs::Homes::case_homes))]
fn alternative(typed: &Typed, at: Stand, id: u32, out: &mut Housing)
    ensures { IsTrue out.new.whole → IsTrue out.old.whole × ((rest : Alternatives) → spec.case_homes (program typed.now) at.depth at.free rest out.new.found ≡ spec.case_homes (program typed.now) at.depth at.free (as_alternative (part_at typed.now.nodes id) rest) out.old.found) }
{
    match typed.nodes.alternative(id) {
        None => {}
        Some(part) => stmts(typed, at, part.stmts, out),
    }
}

/// The arms of a parallel block (5.6.1).
#[cycle(body)]
#[inline(never)]
#[tactic(auto, unfolding(ada_lower::specs::Homes::arm_homes))]
fn arms(typed: &Typed, at: Stand, id: u32, out: &mut Housing)
    ensures { Houses (spec.arm_homes (program typed.now) at.depth at.free (arms_at typed.now.nodes id) out.old.found) out.old out.new }
{
    let mut next = id;
    while let Some(cell) = typed.nodes.arms(next) {
        stmts(typed, at, cell.first, out);
        next = cell.rest;
    }
}

/// Handlers (11.2).
#[cycle(body)]
#[inline(never)]
#[tactic(auto, unfolding(ada_lower::specs::Homes::handler_homes))]
fn handlers(typed: &Typed, at: Stand, id: u32, out: &mut Housing)
    ensures { Houses (spec.handler_homes (program typed.now) at.depth at.free (handlers_at typed.now.nodes id) out.old.found) out.old out.new }
{
    let mut next = id;
    while let Some(cell) = typed.nodes.handlers(next) {
        handler(typed, at, cell.first, out);
        next = cell.rest;
    }
}

#[cycle(body)]
#[tactic(auto, unfolding(ada_lower::specs::Homes::handler_homes))]
fn handler(typed: &Typed, at: Stand, id: u32, out: &mut Housing)
    ensures { IsTrue out.new.whole → IsTrue out.old.whole × ((rest : Handlers) → spec.handler_homes (program typed.now) at.depth at.free rest out.new.found ≡ spec.handler_homes (program typed.now) at.depth at.free (as_handler (part_at typed.now.nodes id) rest) out.old.found) }
{
    match typed.nodes.handler(id) {
        None => {}
        Some(Handler::Others { stmts: parts } | Handler::Reasons { stmts: parts, .. }) => {
            stmts(typed, at, parts, out)
        }
    }
}

/// A variable of so many cells lies at the first free one.
fn declare(main: bool, at: Stand, object: u32, cells: u32, out: &mut Housing) -> u32
    ensures { IsTrue out.new.whole → IsTrue out.old.whole × ((out.new.found ≡ spec.with_home main at.depth at.free object cells out.old.found) × (result ≡ at.free + cells)) }
{
    let home = Home {
        object,
        main,
        depth: at.depth,
        cell: at.free,
        cells,
    };
    lies(home, out);
    add(at.free, cells, out)
}

/// Declarations; what is given is the first cell that is free behind them.
pub fn decls(typed: &Typed, main: bool, at: Stand, id: u32, out: &mut Housing) -> u32
    ensures { IsTrue out.new.whole → IsTrue out.old.whole × ((out.new.found ≡ spec.decl_homes (program typed.now) main at.depth at.free (decls_at typed.now.nodes id) out.old.found) × (result ≡ spec.behind (program typed.now) at.free (decls_at typed.now.nodes id))) }
{
    let mut next = id;
    let mut free = at.free;
    while let Some(cell) = typed.nodes.decls(next) {
        free = decl(typed, main, Stand { free, ..at }, cell.first, out);
        next = cell.rest;
    }
    free
}

fn decl(typed: &Typed, main: bool, at: Stand, id: u32, out: &mut Housing) -> u32
    ensures { IsTrue out.new.whole → IsTrue out.old.whole × ((rest : Decls) → (spec.decl_homes (program typed.now) main at.depth result rest out.new.found ≡ spec.decl_homes (program typed.now) main at.depth at.free (as_decl (part_at typed.now.nodes id) rest) out.old.found) × (spec.behind (program typed.now) result rest ≡ spec.behind (program typed.now) at.free (as_decl (part_at typed.now.nodes id) rest))) }
{
    match typed.nodes.decl(id) {
        Some(Decl::Default { object }) => {
            let cells = given(object_cells(typed, object), out);
            declare(main, at, object, cells, out)
        }
        Some(Decl::Variable { object, initial }) => {
            let cells = given(width(typed, initial), out);
            declare(main, at, object, cells, out)
        }
        Some(Decl::Constant { initial, .. }) => {
            let cells = given(width(typed, initial), out);
            add(at.free, cells, out)
        }
        Some(Decl::Mentions { .. }) | None => at.free,
    }
}
