//! Statements (5.1).

ghost use Rattle.std.specs.Prelude.{◌≡◌, ◌<◌, false, true, IfOk, MatchOption, OnOk};
ghost use Rattle.typed_tree.specs.Decoded.{alternatives_at, arms_at, as_alternative, as_handler, chunk_at, decls_at, expr_at, handlers_at, iteration_at, optional_at, part_at, selections_at, stmt_at, stmts_at, value_at};
ghost use Rattle.typed_tree.specs.Syntax.{Alternatives, Assign, End, Handlers, Then};
ghost use Rattle.check_inference.specs.Gather as spec;
ghost use Rattle.check_inference.specs.Paths.{place_of, judging as judging_of, chunk_hidden, chunk_parameter as parameter_of};
ghost use Rattle.check_inference.specs.Words.{stmt_left, IsBelow};

use crate::environment::{Environment, judging, range_below};
use crate::exprs::{
    call, course, expr, exprs, filter, front, front_uses, name, optional, value, whole,
};
use crate::gathering::Gathered;
use crate::paths::{chunk_below, chunk_parameter, component, named_by, path, with_item};
use crate::source::Source;
use crate::texts::{declared, pieces};
use ada_base::Items;
use check_clashes::effects::{Access, SiteEffects, Uses};
use std::alloc::AllocError;
use typed_tree::{Handler, Iteration, Root, Stmt};

/// The number of the site of a parallel loop (5.5), and those of its parts: its chunk specification, its iteration and its
/// statements.
#[derive(Clone, Copy)]
pub struct Looped {
    pub site: u32,
    pub chunk: u32,
    pub iteration: u32,
    pub stmts: u32,
}

/// A statement. A statement that stands alone after `else`, as one made of `elsif` does, is gone through by a loop.
#[cycle(body)]
fn stmt(
    source: Source<'_>,
    env: Environment<'_>,
    id: u32,
    out: &mut Gathered,
) -> Result<(), AllocError>
    ensures { OnOk result (out.new ≡ spec.gather_stmt (place_of env.entry) (stmt_at source.entry.typed.now.nodes id) out.old) }
{
    let mut rest = Some(id);
    while let Some(at) = rest {
        rest = stmt_step(source, env, at, out)?;
    }
    Ok(())
}

/// All of a statement but one statement that may be left.
#[cycle(body)]
#[inline(never)]
#[tactic(auto, unfolding(crate::specs::Gather::gather_stmt))]
fn stmt_step(
    source: Source<'_>,
    env: Environment<'_>,
    id: u32,
    out: &mut Gathered,
) -> Result<Option<u32>, AllocError>
    ensures { IfOk result (λ rest. (stmt_left source.entry.typed.now (place_of env.entry) out.new rest ≡ spec.gather_stmt (place_of env.entry) (stmt_at source.entry.typed.now.nodes id) out.old) × IsBelow id rest) }
{
    match source.typed.nodes.stmt(id) {
        Stmt::Null | Stmt::Return | Stmt::Raise { .. } | Stmt::Reraise => Ok(None),
        Stmt::Assign {
            at,
            root,
            selections,
            value,
        } => whole(assignment(source, env, at, root, selections, value, out)),
        Stmt::Call {
            at,
            sub,
            actuals,
            ..
        } => whole(call(source, env, at, sub, actuals, out)),
        Stmt::Exit { condition, .. } => whole(optional(source, env, condition, out)),
        Stmt::ReturnValue { value: part } => whole(value(source, env, part, out)),
        Stmt::If {
            condition,
            stmts: then,
            otherwise,
        } => branch(source, env, condition, then, otherwise, out),
        Stmt::Case {
            value: part,
            alternatives,
        } => whole(case(source, env, part, alternatives, out)),
        Stmt::Loop {
            condition,
            stmts: parts,
            ..
        } => whole(while_loop(source, env, condition, parts, out)),
        Stmt::For {
            iteration,
            stmts: parts,
            ..
        } => whole(for_loop(source, env, iteration, parts, out)),
        Stmt::ParallelFor {
            site,
            chunk,
            iteration,
            stmts: parts,
            ..
        } => {
            let parts = Looped {
                site,
                chunk,
                iteration,
                stmts: parts,
            };
            whole(parallel_for(source, env, parts, out))
        }
        Stmt::Parallel { site, count, arms } => {
            whole(parallel(source, env, site, count, arms, out))
        }
        Stmt::Block {
            decls,
            stmts: parts,
            handlers,
        } => whole(block(source, env, decls, parts, handlers, out)),
        Stmt::Put { pieces: parts, .. } => whole(pieces(source, env, parts, out)),
        Stmt::Get {
            first,
            root,
            selections,
            ..
        } => whole(name(source, env, first, Access::Write, root, selections, out)),
    }
}

/// An assignment (5.2). In its value the target's name stands for the variable (5.2.1).
#[inline(never)]
#[tactic(auto, unfolding(crate::specs::Gather::gather_stmt))]
fn assignment(
    source: Source<'_>,
    env: Environment<'_>,
    at: u32,
    root: Root,
    selections: u32,
    part: u32,
    out: &mut Gathered,
) -> Result<(), AllocError>
    ensures { OnOk result (out.new ≡ spec.gather_stmt (place_of env.entry) (Assign at root (selections_at source.entry.typed.now.nodes selections) (value_at source.entry.typed.now.nodes part)) out.old) }
{
    name(source, env, at, Access::Write, root, selections, out)?;
    let found = path(source, env, root, selections)?;
    let target = named_by(&found);
    value(source, Environment { target, ..env }, part, out)
}

/// A condition, what is done where it holds, and what is done where it doesn't, but for a statement that stands alone there.
#[cycle(body)]
#[inline(never)]
#[tactic(auto, unfolding(crate::specs::Gather::gather_stmts))]
fn branch(
    source: Source<'_>,
    env: Environment<'_>,
    condition: u32,
    then: u32,
    otherwise: u32,
    out: &mut Gathered,
) -> Result<Option<u32>, AllocError>
    ensures { IfOk result (λ rest. (stmt_left source.entry.typed.now (place_of env.entry) out.new rest ≡ spec.gather_stmts (place_of env.entry) (stmts_at source.entry.typed.now.nodes otherwise) (spec.gather_stmts (place_of env.entry) (stmts_at source.entry.typed.now.nodes then) (spec.gather_expr (place_of env.entry) (expr_at source.entry.typed.now.nodes condition) out.old))) × IsBelow otherwise rest) }
{
    expr(source, env, condition, out)?;
    stmts(source, env, then, out)?;
    match alone(source, otherwise) {
        Some(rest) => Ok(Some(rest)),
        None => whole(stmts(source, env, otherwise, out)),
    }
}

/// The statement of a list of one.
fn alone(source: Source<'_>, id: u32) -> Option<u32>
    ensures { MatchOption result (Unit {0}) (λ first. (stmts_at source.entry.typed.now.nodes id ≡ Then (stmt_at source.entry.typed.now.nodes first) End) × (first < id)) }
{
    match source.typed.nodes.stmts(id) {
        None => None,
        Some(cell) => match source.typed.nodes.stmts(cell.rest) {
            None => Some(cell.first),
            Some(_) => None,
        },
    }
}

/// A case statement (5.4).
#[cycle(body)]
#[inline(never)]
fn case(
    source: Source<'_>,
    env: Environment<'_>,
    part: u32,
    parts: u32,
    out: &mut Gathered,
) -> Result<(), AllocError>
    ensures { OnOk result (out.new ≡ spec.gather_alternatives (place_of env.entry) (alternatives_at source.entry.typed.now.nodes parts) (spec.gather_expr (place_of env.entry) (expr_at source.entry.typed.now.nodes part) out.old)) }
{
    expr(source, env, part, out)?;
    alternatives(source, env, parts, out)
}

/// A loop that may have a condition (5.5).
#[cycle(body)]
#[inline(never)]
fn while_loop(
    source: Source<'_>,
    env: Environment<'_>,
    condition: u32,
    parts: u32,
    out: &mut Gathered,
) -> Result<(), AllocError>
    ensures { OnOk result (out.new ≡ spec.gather_stmts (place_of env.entry) (stmts_at source.entry.typed.now.nodes parts) (spec.gather_optional (place_of env.entry) (optional_at source.entry.typed.now.nodes condition) out.old)) }
{
    optional(source, env, condition, out)?;
    stmts(source, env, parts, out)
}

/// A loop with an iteration (5.5, 5.5.2).
#[cycle(body)]
#[inline(never)]
fn for_loop(
    source: Source<'_>,
    env: Environment<'_>,
    iteration: u32,
    parts: u32,
    out: &mut Gathered,
) -> Result<(), AllocError>
    ensures { OnOk result (out.new ≡ spec.gather_turns (place_of env.entry) (place_of env.entry) false (iteration_at source.entry.typed.now.nodes iteration) (stmts_at source.entry.typed.now.nodes parts) (spec.gather_course (place_of env.entry) (iteration_at source.entry.typed.now.nodes iteration) out.old)) }
{
    course(source, env, iteration, out)?;
    turns(source, env, env, false, iteration, parts, out)
}

/// A parallel loop (5.5): itself, and what stands in it for the constructs around.
#[cycle(body)]
#[inline(never)]
fn parallel_for(
    source: Source<'_>,
    env: Environment<'_>,
    parts: Looped,
    out: &mut Gathered,
) -> Result<(), AllocError>
    ensures { OnOk result (out.new ≡ spec.gather_turns (place_of env.entry) (chunk_hidden (chunk_at source.entry.typed.now.nodes parts.chunk) (place_of env.entry)) false (iteration_at source.entry.typed.now.nodes parts.iteration) (stmts_at source.entry.typed.now.nodes parts.stmts) (spec.gather_course (place_of env.entry) (iteration_at source.entry.typed.now.nodes parts.iteration) (spec.gather_chunk (place_of env.entry) (chunk_at source.entry.typed.now.nodes parts.chunk) (spec.gather_loop (place_of env.entry) parts.site (chunk_at source.entry.typed.now.nodes parts.chunk) (iteration_at source.entry.typed.now.nodes parts.iteration) (stmts_at source.entry.typed.now.nodes parts.stmts) out.old)))) }
{
    parallel_loop(source, env, parts, out)?;
    front(source, env, parts.chunk, parts.iteration, out)?;
    turns(
        source,
        env,
        chunk_below(source, env, parts.chunk),
        false,
        parts.iteration,
        parts.stmts,
        out,
    )
}

/// A parallel loop, where parallel constructs are recorded.
#[cycle(body)]
#[inline(never)]
fn parallel_loop(
    source: Source<'_>,
    env: Environment<'_>,
    parts: Looped,
    out: &mut Gathered,
) -> Result<(), AllocError>
    ensures { OnOk result (out.new ≡ spec.gather_loop (place_of env.entry) parts.site (chunk_at source.entry.typed.now.nodes parts.chunk) (iteration_at source.entry.typed.now.nodes parts.iteration) (stmts_at source.entry.typed.now.nodes parts.stmts) out.old) }
{
    if !env.sites {
        return Ok(());
    }
    let front = front_uses(source, env, parts.chunk, parts.iteration)?;
    let threads = loop_uses(source, env, parts)?;
    out.site(
        env,
        SiteEffects {
            site: parts.site,
            block: false,
            front,
            threads,
        },
    )
}

/// What the threads of a parallel loop use that is judged.
#[cycle(body)]
#[inline(never)]
fn loop_uses(source: Source<'_>, env: Environment<'_>, parts: Looped) -> Result<Uses, AllocError>
    ensures { IfOk result (λ uses. uses ≡ (spec.gather_turns (judging_of (place_of env.entry)) (record (judging_of (place_of env.entry)) { chunk_parameter = parameter_of (chunk_at source.entry.typed.now.nodes parts.chunk) }) true (iteration_at source.entry.typed.now.nodes parts.iteration) (stmts_at source.entry.typed.now.nodes parts.stmts) spec.nothing).uses) }
{
    let mut out = Gathered::new(source.alloc);
    let around = judging(env);
    let inside = Environment {
        chunk_parameter: chunk_parameter(source, parts.chunk),
        ..around
    };
    turns(
        source,
        around,
        inside,
        true,
        parts.iteration,
        parts.stmts,
        &mut out,
    )?;
    let Gathered { uses, .. } = out;
    Ok(uses)
}

/// The filter and the statements of a loop. What its iteration goes through stands in `around`, its text in `env`.
#[cycle(body)]
#[inline(never)]
fn turns(
    source: Source<'_>,
    around: Environment<'_>,
    env: Environment<'_>,
    judged: bool,
    iteration: u32,
    parts: u32,
    out: &mut Gathered,
) -> Result<(), AllocError>
    ensures { OnOk result (out.new ≡ spec.gather_turns (place_of around.entry) (place_of env.entry) judged (iteration_at source.entry.typed.now.nodes iteration) (stmts_at source.entry.typed.now.nodes parts) out.old) }
{
    match source.typed.nodes.iteration(iteration) {
        Some(Iteration::Range { parameter, .. }) => {
            turn(
                source,
                range_below(env, judged, parameter),
                iteration,
                parts,
                out,
            )
        }
        Some(
            Iteration::Components {
                item,
                constant: false,
                root,
                selections,
                dimensions,
                ..
            },
        ) => {
            let found = component(source, around, judged, root, selections, dimensions)?;
            let list = with_item(source, item, &found, env.items)?;
            let items = list.as_slice();
            turn(source, Environment { items, ..env }, iteration, parts, out)
        }
        Some(Iteration::Components { constant: true, .. }) | None => {
            turn(source, env, iteration, parts, out)
        }
    }
}

/// A filter and statements, where an iteration's parameter or item is known.
#[cycle(body)]
#[inline(never)]
fn turn(
    source: Source<'_>,
    env: Environment<'_>,
    iteration: u32,
    parts: u32,
    out: &mut Gathered,
) -> Result<(), AllocError>
    ensures { OnOk result (out.new ≡ spec.gather_stmts (place_of env.entry) (stmts_at source.entry.typed.now.nodes parts) (spec.gather_filter (place_of env.entry) (iteration_at source.entry.typed.now.nodes iteration) out.old)) }
{
    filter(source, env, iteration, out)?;
    stmts(source, env, parts, out)
}

/// A parallel block (5.6.1): itself, and what stands in it for the constructs around.
#[cycle(body)]
#[inline(never)]
fn parallel(
    source: Source<'_>,
    env: Environment<'_>,
    site: u32,
    count: u32,
    parts: u32,
    out: &mut Gathered,
) -> Result<(), AllocError>
    ensures { OnOk result (out.new ≡ spec.gather_arms (place_of env.entry) (arms_at source.entry.typed.now.nodes parts) (spec.gather_optional (place_of env.entry) (optional_at source.entry.typed.now.nodes count) (spec.gather_parallel (place_of env.entry) site (optional_at source.entry.typed.now.nodes count) (arms_at source.entry.typed.now.nodes parts) out.old))) }
{
    parallel_block(source, env, site, count, parts, out)?;
    optional(source, env, count, out)?;
    arms(source, env, parts, out)
}

/// A parallel block, where parallel constructs are recorded.
#[cycle(body)]
#[inline(never)]
fn parallel_block(
    source: Source<'_>,
    env: Environment<'_>,
    site: u32,
    count: u32,
    parts: u32,
    out: &mut Gathered,
) -> Result<(), AllocError>
    ensures { OnOk result (out.new ≡ spec.gather_parallel (place_of env.entry) site (optional_at source.entry.typed.now.nodes count) (arms_at source.entry.typed.now.nodes parts) out.old) }
{
    if !env.sites {
        return Ok(());
    }
    let front = count_uses(source, env, count)?;
    let threads = arm_uses(source, env, parts)?;
    out.site(
        env,
        SiteEffects {
            site,
            block: true,
            front,
            threads,
        },
    )
}

/// What the number of chunks of a parallel block uses that is judged.
fn count_uses(source: Source<'_>, env: Environment<'_>, count: u32) -> Result<Uses, AllocError>
    ensures { IfOk result (λ uses. uses ≡ (spec.gather_optional (judging_of (place_of env.entry)) (optional_at source.entry.typed.now.nodes count) spec.nothing).uses) }
{
    let mut out = Gathered::new(source.alloc);
    optional(source, judging(env), count, &mut out)?;
    let Gathered { uses, .. } = out;
    Ok(uses)
}

/// What the arms of a parallel block use that is judged.
#[cycle(body)]
#[inline(never)]
fn arm_uses(source: Source<'_>, env: Environment<'_>, parts: u32) -> Result<Uses, AllocError>
    ensures { IfOk result (λ uses. uses ≡ (spec.gather_numbered (judging_of (place_of env.entry)) 0 (arms_at source.entry.typed.now.nodes parts) spec.nothing).uses) }
{
    let mut out = Gathered::new(source.alloc);
    numbered(source, judging(env), parts, &mut out)?;
    let Gathered { uses, .. } = out;
    Ok(uses)
}

/// Arms with their numbers.
#[cycle(body)]
#[inline(never)]
#[tactic(auto, unfolding(crate::specs::Gather::gather_numbered))]
fn numbered(
    source: Source<'_>,
    env: Environment<'_>,
    id: u32,
    out: &mut Gathered,
) -> Result<(), AllocError>
    ensures { OnOk result (out.new ≡ spec.gather_numbered (place_of env.entry) 0 (arms_at source.entry.typed.now.nodes id) out.old) }
{
    let mut arm = 0;
    let mut at = id;
    while let Some(cell) = source.typed.nodes.arms(at) {
        stmts(source, Environment { arm, ..env }, cell.first, out)?;
        arm += 1;
        at = cell.rest;
    }
    Ok(())
}

/// Arms, as they stand for the constructs around.
#[cycle(body)]
#[inline(never)]
#[tactic(auto, unfolding(crate::specs::Gather::gather_arms))]
fn arms(
    source: Source<'_>,
    env: Environment<'_>,
    id: u32,
    out: &mut Gathered,
) -> Result<(), AllocError>
    ensures { OnOk result (out.new ≡ spec.gather_arms (place_of env.entry) (arms_at source.entry.typed.now.nodes id) out.old) }
{
    let mut at = id;
    while let Some(cell) = source.typed.nodes.arms(at) {
        stmts(source, env, cell.first, out)?;
        at = cell.rest;
    }
    Ok(())
}

/// Declarations, and the statements and handlers that see them (5.6). An Err is want of memory.
#[cycle(body)]
#[inline(never)]
pub fn block(
    source: Source<'_>,
    env: Environment<'_>,
    declarations: u32,
    statements: u32,
    handled: u32,
    out: &mut Gathered,
) -> Result<(), AllocError>
    ensures { OnOk result (out.new ≡ spec.gather_block (place_of env.entry) (decls_at source.entry.typed.now.nodes declarations) (stmts_at source.entry.typed.now.nodes statements) (handlers_at source.entry.typed.now.nodes handled) out.old) }
{
    let mut hidden = Items::new(source.alloc);
    hidden.extend(env.hidden)?;
    declared(source, env, declarations, &mut hidden, out)?;
    let hidden = hidden.as_slice();
    held(
        source,
        Environment { hidden, ..env },
        statements,
        handled,
        out,
    )
}

/// Statements and handlers of what they raise.
#[cycle(body)]
#[inline(never)]
fn held(
    source: Source<'_>,
    env: Environment<'_>,
    statements: u32,
    handled: u32,
    out: &mut Gathered,
) -> Result<(), AllocError>
    ensures { OnOk result (out.new ≡ spec.gather_handlers (place_of env.entry) (handlers_at source.entry.typed.now.nodes handled) (spec.gather_stmts (place_of env.entry) (stmts_at source.entry.typed.now.nodes statements) out.old)) }
{
    stmts(source, env, statements, out)?;
    handlers(source, env, handled, out)
}

/// Statements one after the other.
#[cycle(body)]
#[inline(never)]
#[tactic(auto, unfolding(crate::specs::Gather::gather_stmts))]
fn stmts(
    source: Source<'_>,
    env: Environment<'_>,
    id: u32,
    out: &mut Gathered,
) -> Result<(), AllocError>
    ensures { OnOk result (out.new ≡ spec.gather_stmts (place_of env.entry) (stmts_at source.entry.typed.now.nodes id) out.old) }
{
    let mut at = id;
    while let Some(cell) = source.typed.nodes.stmts(at) {
        stmt(source, env, cell.first, out)?;
        at = cell.rest;
    }
    Ok(())
}

/// Alternatives of a case statement (5.4).
#[cycle(body)]
#[inline(never)]
#[tactic(auto, unfolding(crate::specs::Gather::gather_alternatives))]
fn alternatives(
    source: Source<'_>,
    env: Environment<'_>,
    id: u32,
    out: &mut Gathered,
) -> Result<(), AllocError>
    ensures { OnOk result (out.new ≡ spec.gather_alternatives (place_of env.entry) (alternatives_at source.entry.typed.now.nodes id) out.old) }
{
    let mut at = id;
    while let Some(cell) = source.typed.nodes.alternatives(at) {
        alternative(source, env, cell.first, out)?;
        at = cell.rest;
    }
    Ok(())
}

#[cycle(body)]
#[tactic(auto, unfolding(crate::specs::Gather::gather_alternatives))]
fn alternative(
    source: Source<'_>,
    env: Environment<'_>,
    id: u32,
    out: &mut Gathered,
) -> Result<(), AllocError>
    ensures { OnOk result ((rest : Alternatives) → spec.gather_alternatives (place_of env.entry) rest out.new ≡ spec.gather_alternatives (place_of env.entry) (as_alternative (part_at source.entry.typed.now.nodes id) rest) out.old) }
{
    match source.typed.nodes.alternative(id) {
        None => Ok(()),
        Some(part) => {
            exprs(source, env, part.mentions, out)?;
            stmts(source, env, part.stmts, out)
        }
    }
}

/// Handlers (11.2).
#[cycle(body)]
#[inline(never)]
#[tactic(auto, unfolding(crate::specs::Gather::gather_handlers))]
fn handlers(
    source: Source<'_>,
    env: Environment<'_>,
    id: u32,
    out: &mut Gathered,
) -> Result<(), AllocError>
    ensures { OnOk result (out.new ≡ spec.gather_handlers (place_of env.entry) (handlers_at source.entry.typed.now.nodes id) out.old) }
{
    let mut at = id;
    while let Some(cell) = source.typed.nodes.handlers(at) {
        handler(source, env, cell.first, out)?;
        at = cell.rest;
    }
    Ok(())
}

#[cycle(body)]
#[tactic(auto, unfolding(crate::specs::Gather::gather_handlers))]
fn handler(
    source: Source<'_>,
    env: Environment<'_>,
    id: u32,
    out: &mut Gathered,
) -> Result<(), AllocError>
    ensures { OnOk result ((rest : Handlers) → spec.gather_handlers (place_of env.entry) rest out.new ≡ spec.gather_handlers (place_of env.entry) (as_handler (part_at source.entry.typed.now.nodes id) rest) out.old) }
{
    match source.typed.nodes.handler(id) {
        None => Ok(()),
        Some(Handler::Others { stmts: parts } | Handler::Reasons { stmts: parts, .. }) => {
            stmts(source, env, parts, out)
        }
    }
}
