//! The parallel constructs in statements (5.1).

ghost use Rattle.std.specs.Prelude.{◌≡◌, ◌<◌, ◌+◌, true, IsTrue, MatchOption};
ghost use Rattle.typed_tree.specs.Decoded.{alternatives_at, arms_at, as_alternative, as_handler, chunk_at, decls_at, expr_at, handlers_at, iteration_at, optional_at, part_at, selections_at, stmt_at, stmts_at, value_at};
ghost use Rattle.typed_tree.specs.Syntax.{Alternatives, End, Handlers, Then};
ghost use Rattle.ada_lower.specs.Standings as spec;
ghost use Rattle.lower_leases.specs.Words.{stmt_left, Finds, IsBelow};

use crate::exprs::{
    actuals, chunk, expr, goes_through_range, iteration, optional, selections, value,
};
use crate::standings::{Finding, deeper, stands};
use crate::texts::{decls, pieces};
use typed_tree::{Handler, Nodes, Stmt};

/// The number of the site of a parallel loop (5.5), and those of its parts: its chunk specification, its iteration and its
/// statements.
#[derive(Clone, Copy)]
pub struct Looped {
    pub site: u32,
    pub chunk: u32,
    pub iteration: u32,
    pub stmts: u32,
}

/// A statement. A statement that stands alone after `else`, as one made of `elsif` does, is gone through by a loop.
#[cycle(body)]
fn stmt(nodes: &Nodes, depth: u32, id: u32, out: &mut Finding)
    ensures { Finds (spec.stmt_standings depth (stmt_at nodes.now id) out.old.found) out.old out.new }
{
    let mut rest = Some(id);
    while let Some(at) = rest {
        rest = stmt_step(nodes, depth, at, out);
    }
}

/// All of a statement but one statement that may be left.
#[cycle(body)]
#[inline(never)]
#[tactic(auto, unfolding(ada_lower::specs::Standings::stmt_standings))]
fn stmt_step(nodes: &Nodes, depth: u32, id: u32, out: &mut Finding) -> Option<u32>
    ensures { (IsTrue out.new.whole → IsTrue out.old.whole × (stmt_left nodes.now depth out.new.found result ≡ spec.stmt_standings depth (stmt_at nodes.now id) out.old.found)) × IsBelow id result }
{
    match nodes.stmt(id) {
        Stmt::Null | Stmt::Return | Stmt::Raise { .. } | Stmt::Reraise => None,
        Stmt::Assign {
            selections: parts,
            value: part,
            ..
        } => {
            assignment(nodes, depth, parts, part, out);
            None
        }
        Stmt::Call { actuals: parts, .. } => {
            actuals(nodes, depth, parts, out);
            None
        }
        Stmt::Exit { condition, .. } => {
            optional(nodes, depth, condition, out);
            None
        }
        Stmt::ReturnValue { value: part } => {
            value(nodes, depth, part, out);
            None
        }
        Stmt::If {
            condition,
            stmts: then,
            otherwise,
        } => branch(nodes, depth, condition, then, otherwise, out),
        Stmt::Case {
            value: part,
            alternatives,
        } => {
            case(nodes, depth, part, alternatives, out);
            None
        }
        Stmt::Loop {
            condition,
            stmts: parts,
            ..
        } => {
            while_loop(nodes, depth, condition, parts, out);
            None
        }
        Stmt::For {
            iteration,
            stmts: parts,
            ..
        } => {
            for_loop(nodes, depth, iteration, parts, out);
            None
        }
        Stmt::ParallelFor {
            site,
            chunk,
            iteration,
            stmts: parts,
            ..
        } => {
            let parts = Looped {
                site,
                chunk,
                iteration,
                stmts: parts,
            };
            parallel_for(nodes, depth, parts, out);
            None
        }
        Stmt::Parallel { site, count, arms } => {
            parallel(nodes, depth, site, count, arms, out);
            None
        }
        Stmt::Block {
            decls,
            stmts: parts,
            handlers,
        } => {
            block(nodes, depth, decls, parts, handlers, out);
            None
        }
        Stmt::Put { pieces: parts, .. } => {
            pieces(nodes, depth, parts, out);
            None
        }
        Stmt::Get {
            selections: parts,
            ..
        } => {
            selections(nodes, depth, parts, out);
            None
        }
    }
}

/// An assignment (5.2).
#[inline(never)]
fn assignment(nodes: &Nodes, depth: u32, parts: u32, part: u32, out: &mut Finding)
    ensures { Finds (spec.value_standings depth (value_at nodes.now part) (spec.selections_standings depth (selections_at nodes.now parts) out.old.found)) out.old out.new }
{
    selections(nodes, depth, parts, out);
    value(nodes, depth, part, out);
}

/// A condition, what is done where it holds, and what is done where it doesn't, but for a statement that stands alone there.
#[cycle(body)]
#[inline(never)]
#[tactic(auto, unfolding(ada_lower::specs::Standings::stmts_standings))]
fn branch(
    nodes: &Nodes,
    depth: u32,
    condition: u32,
    then: u32,
    otherwise: u32,
    out: &mut Finding,
) -> Option<u32>
    ensures { (IsTrue out.new.whole → IsTrue out.old.whole × (stmt_left nodes.now depth out.new.found result ≡ spec.stmts_standings depth (stmts_at nodes.now otherwise) (spec.stmts_standings depth (stmts_at nodes.now then) (spec.expr_standings depth (expr_at nodes.now condition) out.old.found)))) × IsBelow otherwise result }
{
    expr(nodes, depth, condition, out);
    stmts(nodes, depth, then, out);
    match alone(nodes, otherwise) {
        Some(rest) => Some(rest),
        None => {
            stmts(nodes, depth, otherwise, out);
            None
        }
    }
}

/// The statement of a list of one.
pub fn alone(nodes: &Nodes, id: u32) -> Option<u32>
    ensures { MatchOption result (Unit {0}) (λ first. (stmts_at nodes.now id ≡ Then (stmt_at nodes.now first) End) × (first < id)) }
{
    match nodes.stmts(id) {
        None => None,
        Some(cell) => match nodes.stmts(cell.rest) {
            None => Some(cell.first),
            Some(_) => None,
        },
    }
}

/// A case statement (5.4).
#[cycle(body)]
#[inline(never)]
fn case(nodes: &Nodes, depth: u32, part: u32, parts: u32, out: &mut Finding)
    ensures { Finds (spec.case_standings depth (alternatives_at nodes.now parts) (spec.expr_standings depth (expr_at nodes.now part) out.old.found)) out.old out.new }
{
    expr(nodes, depth, part, out);
    alternatives(nodes, depth, parts, out);
}

/// A loop that may have a condition (5.5).
#[cycle(body)]
#[inline(never)]
fn while_loop(nodes: &Nodes, depth: u32, condition: u32, parts: u32, out: &mut Finding)
    ensures { Finds (spec.stmts_standings depth (stmts_at nodes.now parts) (spec.optional_standings depth (optional_at nodes.now condition) out.old.found)) out.old out.new }
{
    optional(nodes, depth, condition, out);
    stmts(nodes, depth, parts, out);
}

/// A loop with an iteration (5.5, 5.5.2).
#[cycle(body)]
#[inline(never)]
fn for_loop(nodes: &Nodes, depth: u32, course: u32, parts: u32, out: &mut Finding)
    ensures { Finds (spec.stmts_standings depth (stmts_at nodes.now parts) (spec.iteration_standings depth depth (iteration_at nodes.now course) out.old.found)) out.old out.new }
{
    iteration(nodes, depth, depth, course, out);
    stmts(nodes, depth, parts, out);
}

/// A parallel loop (5.5).
#[cycle(body)]
#[inline(never)]
fn parallel_for(nodes: &Nodes, depth: u32, parts: Looped, out: &mut Finding)
    ensures { Finds (spec.stmts_standings (depth + 1) (stmts_at nodes.now parts.stmts) (spec.iteration_standings depth (depth + 1) (iteration_at nodes.now parts.iteration) (spec.chunk_standings depth (chunk_at nodes.now parts.chunk) (spec.with_standing depth parts.site (spec.goes_through_range (iteration_at nodes.now parts.iteration)) out.old.found)))) out.old out.new }
{
    let within = deeper(depth, out);
    let ranges = goes_through_range(nodes, parts.iteration);
    stands(parts.site, depth, ranges, out);
    chunk(nodes, depth, parts.chunk, out);
    iteration(nodes, depth, within, parts.iteration, out);
    stmts(nodes, within, parts.stmts, out);
}

/// A parallel block (5.6.1).
#[cycle(body)]
#[inline(never)]
fn parallel(nodes: &Nodes, depth: u32, site: u32, count: u32, parts: u32, out: &mut Finding)
    ensures { Finds (spec.arm_standings (depth + 1) (arms_at nodes.now parts) (spec.optional_standings depth (optional_at nodes.now count) (spec.with_standing depth site true out.old.found))) out.old out.new }
{
    let within = deeper(depth, out);
    stands(site, depth, true, out);
    optional(nodes, depth, count, out);
    arms(nodes, within, parts, out);
}

/// Declarations, and the statements and handlers that see them (5.6).
#[cycle(body)]
#[inline(never)]
pub fn block(
    nodes: &Nodes,
    depth: u32,
    declarations: u32,
    statements: u32,
    handled: u32,
    out: &mut Finding,
)
    ensures { Finds (spec.handler_standings depth (handlers_at nodes.now handled) (spec.stmts_standings depth (stmts_at nodes.now statements) (spec.decls_standings depth (decls_at nodes.now declarations) out.old.found))) out.old out.new }
{
    decls(nodes, depth, declarations, out);
    stmts(nodes, depth, statements, out);
    handlers(nodes, depth, handled, out);
}

/// Statements one after the other.
#[cycle(body)]
#[inline(never)]
#[tactic(auto, unfolding(ada_lower::specs::Standings::stmts_standings))]
fn stmts(nodes: &Nodes, depth: u32, id: u32, out: &mut Finding)
    ensures { Finds (spec.stmts_standings depth (stmts_at nodes.now id) out.old.found) out.old out.new }
{
    let mut at = id;
    while let Some(cell) = nodes.stmts(at) {
        stmt(nodes, depth, cell.first, out);
        at = cell.rest;
    }
}

/// Alternatives of a case statement (5.4).
#[cycle(body)]
#[inline(never)]
#[tactic(auto, unfolding(ada_lower::specs::Standings::case_standings))]
fn alternatives(nodes: &Nodes, depth: u32, id: u32, out: &mut Finding)
    ensures { Finds (spec.case_standings depth (alternatives_at nodes.now id) out.old.found) out.old out.new }
{
    let mut at = id;
    while let Some(cell) = nodes.alternatives(at) {
        alternative(nodes, depth, cell.first, out);
        at = cell.rest;
    }
}

#[cycle(body)]
#[tactic(auto, unfolding(ada_lower::specs::Standings::case_standings))]
fn alternative(nodes: &Nodes, depth: u32, id: u32, out: &mut Finding)
    ensures { IsTrue out.new.whole → IsTrue out.old.whole × ((rest : Alternatives) → spec.case_standings depth rest out.new.found ≡ spec.case_standings depth (as_alternative (part_at nodes.now id) rest) out.old.found) }
{
    match nodes.alternative(id) {
        None => {}
        Some(part) => stmts(nodes, depth, part.stmts, out),
    }
}

/// The arms of a parallel block (5.6.1).
#[cycle(body)]
#[inline(never)]
#[tactic(auto, unfolding(ada_lower::specs::Standings::arm_standings))]
fn arms(nodes: &Nodes, depth: u32, id: u32, out: &mut Finding)
    ensures { Finds (spec.arm_standings depth (arms_at nodes.now id) out.old.found) out.old out.new }
{
    let mut at = id;
    while let Some(cell) = nodes.arms(at) {
        stmts(nodes, depth, cell.first, out);
        at = cell.rest;
    }
}

/// Handlers (11.2).
#[cycle(body)]
#[inline(never)]
#[tactic(auto, unfolding(ada_lower::specs::Standings::handler_standings))]
fn handlers(nodes: &Nodes, depth: u32, id: u32, out: &mut Finding)
    ensures { Finds (spec.handler_standings depth (handlers_at nodes.now id) out.old.found) out.old out.new }
{
    let mut at = id;
    while let Some(cell) = nodes.handlers(at) {
        handler(nodes, depth, cell.first, out);
        at = cell.rest;
    }
}

#[cycle(body)]
#[tactic(auto, unfolding(ada_lower::specs::Standings::handler_standings))]
fn handler(nodes: &Nodes, depth: u32, id: u32, out: &mut Finding)
    ensures { IsTrue out.new.whole → IsTrue out.old.whole × ((rest : Handlers) → spec.handler_standings depth rest out.new.found ≡ spec.handler_standings depth (as_handler (part_at nodes.now id) rest) out.old.found) }
{
    match nodes.handler(id) {
        None => {}
        Some(Handler::Others { stmts: parts } | Handler::Reasons { stmts: parts, .. }) => {
            stmts(nodes, depth, parts, out)
        }
    }
}
