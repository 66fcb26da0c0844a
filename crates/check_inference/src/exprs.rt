//! Expressions (4.4) and what stands in them.

ghost use Rattle.std.specs.Prelude.{◌≡◌, ℕ, true, Err, IfOk, MatchResult, None, Ok, OnOk, Some};
ghost use Rattle.typed_tree.specs.Decoded.{actuals_at, as_actual, as_association, as_selection, associations_at, chunk_at, composite_at, expr_at, exprs_at, iteration_at, optional_at, part_at, reducer_at, selections_at, value_at};
ghost use Rattle.typed_tree.specs.Syntax.{Actuals, Associations, Selections};
ghost use Rattle.check_inference.specs.Gather as spec;
ghost use Rattle.check_inference.specs.Paths.{place_of, judging as judging_of, chunk_hidden, chunk_parameter as parameter_of, below};
ghost use Rattle.check_inference.specs.Words.{expr_left, composite_left, reduced, IsBelow};

use crate::environment::{Environment, association_below, judging, range_below};
use crate::gathering::Gathered;
use crate::paths::{chunk_below, chunk_parameter, component, path, with_item};
use crate::source::Source;
use check_clashes::effects::{Access, SiteEffects, Uses};
use std::alloc::AllocError;
use typed_tree::{Actual, Chunk, Composite, Expr, Iteration, Reducer, Root, Selection, Value};

/// The numbers of the parts of a reduction (4.5.10): its reducer, its initial value, its chunk specification, its
/// iteration and its value.
#[derive(Clone, Copy)]
pub struct Reduced {
    pub reducer: u32,
    pub initial: u32,
    pub chunk: u32,
    pub iteration: u32,
    pub value: u32,
}

/// A part of which nothing is left.
pub fn whole(done: Result<(), AllocError>) -> Result<Option<u32>, AllocError>
    ensures { MatchResult result (λ rest. (done ≡ Ok tt) × (rest ≡ None)) (λ e. done ≡ Err e) }
{
    done?;
    Ok(None)
}

/// A part of which another part is left.
fn left(done: Result<(), AllocError>, rest: u32) -> Result<Option<u32>, AllocError>
    ensures { MatchResult result (λ found. (done ≡ Ok tt) × (found ≡ Some rest)) (λ e. done ≡ Err e) }
{
    done?;
    Ok(Some(rest))
}

/// The calls of a reducer where a reduction stands (4.5.10). An Err is want of memory.
pub fn reducer(
    source: Source<'_>,
    env: Environment<'_>,
    id: u32,
    out: &mut Gathered,
) -> Result<(), AllocError>
    ensures { OnOk result (out.new ≡ spec.gather_reducer (place_of env.entry) (reducer_at source.entry.typed.now.nodes id) out.old) }
{
    match source.typed.nodes.reducer(id) {
        Reducer::Operator { .. } => Ok(()),
        Reducer::Function { at, sub, .. } => out.call(env, at, sub),
    }
}

/// An expression. What stands last in it is gone through by a loop, so that a chain of operators takes no native stack.
/// An Err is want of memory.
#[cycle(text)]
pub fn expr(
    source: Source<'_>,
    env: Environment<'_>,
    id: u32,
    out: &mut Gathered,
) -> Result<(), AllocError>
    ensures { OnOk result (out.new ≡ spec.gather_expr (place_of env.entry) (expr_at source.entry.typed.now.nodes id) out.old) }
{
    let mut rest = Some(id);
    'parts: while let Some(at) = rest {
        rest = expr_step(source, env, at, out)?;
    }
    Ok(())
}

/// All of an expression but one part that may be left.
#[cycle(text)]
#[inline(never)]
#[tactic(auto, unfolding(crate::specs::Gather::gather_expr))]
fn expr_step(
    source: Source<'_>,
    env: Environment<'_>,
    id: u32,
    out: &mut Gathered,
) -> Result<Option<u32>, AllocError>
    ensures { IfOk result (λ rest. (expr_left source.entry.typed.now (place_of env.entry) out.new rest ≡ spec.gather_expr (place_of env.entry) (expr_at source.entry.typed.now.nodes id) out.old) × IsBelow id rest) }
{
    match source.typed.nodes.expr(id) {
        Expr::Static { mentions, .. } => whole(exprs(source, env, mentions, out)),
        Expr::Variable {
            at,
            root,
            selections: parts,
            ..
        } => whole(name(source, env, at, Access::Read, root, parts, out)),
        Expr::Constant {
            selections: parts,
            ..
        } => whole(selections(source, env, parts, out)),
        Expr::Parameter { .. } => Ok(None),
        Expr::Target { at, .. } => {
            whole(out.touch(env, at, Access::Read, env.target, source.alloc))
        }
        Expr::Group { inside: last }
        | Expr::Unary { operand: last, .. }
        | Expr::Convert { value: last, .. } => Ok(Some(last)),
        Expr::Binary {
            left: last,
            right: other,
            ..
        }
        | Expr::AndThen {
            left: last,
            right: other,
        }
        | Expr::OrElse {
            left: last,
            right: other,
        }
        | Expr::Relation {
            left: last,
            right: other,
            ..
        } => left(expr(source, env, other, out), last),
        Expr::Membership {
            value: one,
            low: two,
            high: last,
            ..
        }
        | Expr::If {
            condition: one,
            value: two,
            otherwise: last,
        } => left(both(source, env, one, two, out), last),
        Expr::Call {
            at,
            sub,
            actuals: parts,
            ..
        } => whole(call(source, env, at, sub, parts, out)),
        Expr::Reduction {
            reducer: by,
            initial,
            site,
            chunk,
            iteration,
            value,
            ..
        } => {
            let parts = Reduced {
                reducer: by,
                initial,
                chunk,
                iteration,
                value,
            };
            whole(reduction(source, env, site, parts, out))
        }
    }
}

/// Two expressions, one after the other.
#[cycle(text)]
#[inline(never)]
fn both(
    source: Source<'_>,
    env: Environment<'_>,
    one: u32,
    two: u32,
    out: &mut Gathered,
) -> Result<(), AllocError>
    ensures { OnOk result (out.new ≡ spec.gather_expr (place_of env.entry) (expr_at source.entry.typed.now.nodes two) (spec.gather_expr (place_of env.entry) (expr_at source.entry.typed.now.nodes one) out.old)) }
{
    expr(source, env, one, out)?;
    expr(source, env, two, out)
}

/// A call with its actual parameters (6.4).
#[cycle(text)]
#[inline(never)]
pub fn call(
    source: Source<'_>,
    env: Environment<'_>,
    at: u32,
    sub: u32,
    parts: u32,
    out: &mut Gathered,
) -> Result<(), AllocError>
    ensures { OnOk result (out.new ≡ spec.gather_actuals (place_of env.entry) (actuals_at source.entry.typed.now.nodes parts) (spec.with_call (place_of env.entry) at sub out.old)) }
{
    out.call(env, at, sub)?;
    actuals(source, env, parts, out)
}

/// Expressions that are only text. An Err is want of memory.
#[cycle(text)]
#[tactic(auto, unfolding(crate::specs::Gather::gather_exprs))]
pub fn exprs(
    source: Source<'_>,
    env: Environment<'_>,
    id: u32,
    out: &mut Gathered,
) -> Result<(), AllocError>
    ensures { OnOk result (out.new ≡ spec.gather_exprs (place_of env.entry) (exprs_at source.entry.typed.now.nodes id) out.old) }
{
    let mut at = id;
    'cells: while let Some(cell) = source.typed.nodes.exprs(at) {
        expr(source, env, cell.first, out)?;
        at = cell.rest;
    }
    Ok(())
}

/// An expression that may be left out. An Err is want of memory.
#[cycle(text)]
#[tactic(auto, using(crate::proofs::Reading::present_is), unfolding(crate::specs::Gather::gather_optional))]
pub fn optional(
    source: Source<'_>,
    env: Environment<'_>,
    id: u32,
    out: &mut Gathered,
) -> Result<(), AllocError>
    ensures { OnOk result (out.new ≡ spec.gather_optional (place_of env.entry) (optional_at source.entry.typed.now.nodes id) out.old) }
{
    match source.typed.nodes.optional(id) {
        None => Ok(()),
        Some(_) => expr(source, env, id, out),
    }
}

/// The name of a variable at its first token, and the index expressions in it. An Err is want of memory.
#[cycle(text)]
#[inline(never)]
pub fn name(
    source: Source<'_>,
    env: Environment<'_>,
    at: u32,
    access: Access,
    root: Root,
    parts: u32,
    out: &mut Gathered,
) -> Result<(), AllocError>
    ensures { OnOk result (out.new ≡ spec.gather_name (place_of env.entry) at access root (selections_at source.entry.typed.now.nodes parts) out.old) }
{
    let found = path(source, env, root, parts)?;
    out.reach(env, at, access, found)?;
    selections(source, env, parts, out)
}

/// What a name goes on with (4.1.1, 4.1.3). An Err is want of memory.
#[cycle(text)]
#[tactic(auto, unfolding(crate::specs::Gather::gather_selections))]
pub fn selections(
    source: Source<'_>,
    env: Environment<'_>,
    id: u32,
    out: &mut Gathered,
) -> Result<(), AllocError>
    ensures { OnOk result (out.new ≡ spec.gather_selections (place_of env.entry) (selections_at source.entry.typed.now.nodes id) out.old) }
{
    let mut at = id;
    'cells: while let Some(cell) = source.typed.nodes.selections(at) {
        selection(source, env, cell.first, out)?;
        at = cell.rest;
    }
    Ok(())
}

#[cycle(text)]
#[tactic(auto, unfolding(crate::specs::Gather::gather_selections))]
fn selection(
    source: Source<'_>,
    env: Environment<'_>,
    id: u32,
    out: &mut Gathered,
) -> Result<(), AllocError>
    ensures { OnOk result ((rest : Selections) → spec.gather_selections (place_of env.entry) rest out.new ≡ spec.gather_selections (place_of env.entry) (as_selection (part_at source.entry.typed.now.nodes id) rest) out.old) }
{
    match source.typed.nodes.selection(id) {
        Some(Selection::Index { index, .. }) => expr(source, env, index, out),
        Some(Selection::Field { .. }) | None => Ok(()),
    }
}

/// Actual parameters (6.4.1). An Err is want of memory.
#[cycle(text)]
#[tactic(auto, unfolding(crate::specs::Gather::gather_actuals))]
pub fn actuals(
    source: Source<'_>,
    env: Environment<'_>,
    id: u32,
    out: &mut Gathered,
) -> Result<(), AllocError>
    ensures { OnOk result (out.new ≡ spec.gather_actuals (place_of env.entry) (actuals_at source.entry.typed.now.nodes id) out.old) }
{
    let mut at = id;
    'cells: while let Some(cell) = source.typed.nodes.actuals(at) {
        actual(source, env, cell.first, out)?;
        at = cell.rest;
    }
    Ok(())
}

#[cycle(text)]
#[tactic(auto, unfolding(crate::specs::Gather::gather_actuals))]
fn actual(
    source: Source<'_>,
    env: Environment<'_>,
    id: u32,
    out: &mut Gathered,
) -> Result<(), AllocError>
    ensures { OnOk result ((rest : Actuals) → spec.gather_actuals (place_of env.entry) rest out.new ≡ spec.gather_actuals (place_of env.entry) (as_actual (part_at source.entry.typed.now.nodes id) rest) out.old) }
{
    match source.typed.nodes.actual(id) {
        None => Ok(()),
        Some(Actual::In { value: part, .. }) => value(source, env, part, out),
        Some(
            Actual::Out {
                at,
                root,
                selections: parts,
                ..
            },
        ) => name(source, env, at, Access::Write, root, parts, out),
        Some(
            Actual::InOut {
                at,
                root,
                selections: parts,
                ..
            }
            | Actual::CompositeInOut {
                at,
                root,
                selections: parts,
                ..
            }
            | Actual::CompositeOut {
                at,
                root,
                selections: parts,
                ..
            },
        ) => name(source, env, at, Access::Update, root, parts, out),
    }
}

/// What is stored somewhere. An Err is want of memory.
#[cycle(text)]
#[tactic(auto, unfolding(crate::specs::Gather::gather_value, crate::specs::Gather::gather_composite, crate::specs::Gather::gather_associations))]
pub fn value(
    source: Source<'_>,
    env: Environment<'_>,
    id: u32,
    out: &mut Gathered,
) -> Result<(), AllocError>
    ensures { OnOk result (out.new ≡ spec.gather_value (place_of env.entry) (value_at source.entry.typed.now.nodes id) out.old) }
{
    match source.typed.nodes.value(id) {
        None => Ok(()),
        Some(Value::Number { value: part, .. }) => expr(source, env, part, out),
        Some(Value::Cells { composite: part }) => composite(source, env, part, out),
    }
}

/// An expression of an array or record type. The last part of a conditional expression is gone through by a loop.
#[cycle(text)]
fn composite(
    source: Source<'_>,
    env: Environment<'_>,
    id: u32,
    out: &mut Gathered,
) -> Result<(), AllocError>
    ensures { OnOk result (out.new ≡ spec.gather_composite (place_of env.entry) (composite_at source.entry.typed.now.nodes id) out.old) }
{
    let mut rest = Some(id);
    'parts: while let Some(at) = rest {
        rest = composite_step(source, env, at, out)?;
    }
    Ok(())
}

#[cycle(text)]
#[inline(never)]
#[tactic(auto, unfolding(crate::specs::Gather::gather_composite))]
fn composite_step(
    source: Source<'_>,
    env: Environment<'_>,
    id: u32,
    out: &mut Gathered,
) -> Result<Option<u32>, AllocError>
    ensures { IfOk result (λ rest. (composite_left source.entry.typed.now (place_of env.entry) out.new rest ≡ spec.gather_composite (place_of env.entry) (composite_at source.entry.typed.now.nodes id) out.old) × IsBelow id rest) }
{
    match source.typed.nodes.composite(id) {
        Composite::WholeVariable {
            at,
            root,
            selections: parts,
            ..
        } => whole(name(source, env, at, Access::Read, root, parts, out)),
        Composite::WholeConstant {
            selections: parts,
            ..
        } => whole(selections(source, env, parts, out)),
        Composite::WholeTarget { at, .. } => {
            whole(out.touch(env, at, Access::Read, env.target, source.alloc))
        }
        Composite::If {
            condition,
            value: part,
            otherwise,
        } => left(chosen(source, env, condition, part, out), otherwise),
        Composite::Aggregate {
            associations: parts,
            ..
        } => whole(associations(source, env, parts, out)),
    }
}

/// A condition and what it chooses.
#[cycle(text)]
#[inline(never)]
fn chosen(
    source: Source<'_>,
    env: Environment<'_>,
    condition: u32,
    part: u32,
    out: &mut Gathered,
) -> Result<(), AllocError>
    ensures { OnOk result (out.new ≡ spec.gather_composite (place_of env.entry) (composite_at source.entry.typed.now.nodes part) (spec.gather_expr (place_of env.entry) (expr_at source.entry.typed.now.nodes condition) out.old)) }
{
    expr(source, env, condition, out)?;
    composite(source, env, part, out)
}

/// Associations of an aggregate (4.3.1, 4.3.3).
#[cycle(text)]
#[tactic(auto, unfolding(crate::specs::Gather::gather_associations))]
fn associations(
    source: Source<'_>,
    env: Environment<'_>,
    id: u32,
    out: &mut Gathered,
) -> Result<(), AllocError>
    ensures { OnOk result (out.new ≡ spec.gather_associations (place_of env.entry) (associations_at source.entry.typed.now.nodes id) out.old) }
{
    let mut at = id;
    'cells: while let Some(cell) = source.typed.nodes.associations(at) {
        association(source, env, cell.first, out)?;
        at = cell.rest;
    }
    Ok(())
}

#[cycle(text)]
#[tactic(auto, unfolding(crate::specs::Gather::gather_associations))]
fn association(
    source: Source<'_>,
    env: Environment<'_>,
    id: u32,
    out: &mut Gathered,
) -> Result<(), AllocError>
    ensures { OnOk result ((rest : Associations) → spec.gather_associations (place_of env.entry) rest out.new ≡ spec.gather_associations (place_of env.entry) (as_association (part_at source.entry.typed.now.nodes id) rest) out.old) }
{
    match source.typed.nodes.association(id) {
        None => Ok(()),
        Some(part) => {
            exprs(source, env, part.mentions, out)?;
            value(
                source,
                association_below(env, part.iterated),
                part.value,
                out,
            )
        }
    }
}

/// What of an iteration is evaluated once, before the first turn (5.5, 5.5.2). An Err is want of memory.
#[cycle(text)]
#[tactic(auto, unfolding(crate::specs::Gather::gather_course, crate::specs::Gather::gather_selections))]
pub fn course(
    source: Source<'_>,
    env: Environment<'_>,
    id: u32,
    out: &mut Gathered,
) -> Result<(), AllocError>
    ensures { OnOk result (out.new ≡ spec.gather_course (place_of env.entry) (iteration_at source.entry.typed.now.nodes id) out.old) }
{
    match source.typed.nodes.iteration(id) {
        None => Ok(()),
        Some(Iteration::Range { low, high, .. }) => both(source, env, low, high, out),
        Some(
            Iteration::Components {
                selections: parts,
                ..
            },
        ) => selections(source, env, parts, out),
    }
}

/// What of an iteration is evaluated in each turn (5.5). An Err is want of memory.
#[cycle(text)]
#[tactic(auto, unfolding(crate::specs::Gather::gather_filter, crate::specs::Gather::gather_optional))]
pub fn filter(
    source: Source<'_>,
    env: Environment<'_>,
    id: u32,
    out: &mut Gathered,
) -> Result<(), AllocError>
    ensures { OnOk result (out.new ≡ spec.gather_filter (place_of env.entry) (iteration_at source.entry.typed.now.nodes id) out.old) }
{
    match source.typed.nodes.iteration(id) {
        None => Ok(()),
        Some(Iteration::Range { filter: part, .. } | Iteration::Components { filter: part, .. }) =>
            optional(source, env, part, out),
    }
}

/// A chunk specification (5.5). An Err is want of memory.
#[cycle(text)]
#[tactic(auto, unfolding(crate::specs::Gather::gather_chunk))]
pub fn chunk(
    source: Source<'_>,
    env: Environment<'_>,
    id: u32,
    out: &mut Gathered,
) -> Result<(), AllocError>
    ensures { OnOk result (out.new ≡ spec.gather_chunk (place_of env.entry) (chunk_at source.entry.typed.now.nodes id) out.old) }
{
    match source.typed.nodes.chunk(id) {
        None => Ok(()),
        Some(Chunk::Count { value: part }) => expr(source, env, part, out),
        Some(Chunk::Each { low, high, .. }) => both(source, env, low, high, out),
    }
}

/// What is evaluated before the threads of a construct begin: its chunk specification, then what its iteration goes
/// through (5.5). An Err is want of memory.
#[cycle(text)]
#[inline(never)]
pub fn front(
    source: Source<'_>,
    env: Environment<'_>,
    specification: u32,
    iteration: u32,
    out: &mut Gathered,
) -> Result<(), AllocError>
    ensures { OnOk result (out.new ≡ spec.gather_course (place_of env.entry) (iteration_at source.entry.typed.now.nodes iteration) (spec.gather_chunk (place_of env.entry) (chunk_at source.entry.typed.now.nodes specification) out.old)) }
{
    chunk(source, env, specification, out)?;
    course(source, env, iteration, out)
}

/// What a construct that is judged uses before its threads begin. An Err is want of memory.
#[cycle(text)]
#[inline(never)]
pub fn front_uses(
    source: Source<'_>,
    env: Environment<'_>,
    specification: u32,
    iteration: u32,
) -> Result<Uses, AllocError>
    ensures { IfOk result (λ uses. uses ≡ (spec.gather_course (judging_of (place_of env.entry)) (iteration_at source.entry.typed.now.nodes iteration) (spec.gather_chunk (judging_of (place_of env.entry)) (chunk_at source.entry.typed.now.nodes specification) spec.nothing)).uses) }
{
    let mut out = Gathered::new(source.alloc);
    front(source, judging(env), specification, iteration, &mut out)?;
    let Gathered { uses, .. } = out;
    Ok(uses)
}

/// A filter and a value, where an iteration's parameter or item is known.
#[cycle(text)]
#[inline(never)]
fn turn(
    source: Source<'_>,
    env: Environment<'_>,
    iteration: u32,
    value: u32,
    out: &mut Gathered,
) -> Result<(), AllocError>
    ensures { OnOk result (out.new ≡ spec.gather_expr (place_of env.entry) (expr_at source.entry.typed.now.nodes value) (spec.gather_filter (place_of env.entry) (iteration_at source.entry.typed.now.nodes iteration) out.old)) }
{
    filter(source, env, iteration, out)?;
    expr(source, env, value, out)
}

/// The filter and the value of a reduction (4.5.10). What its iteration goes through stands in `around`, its text in `env`.
#[cycle(text)]
#[inline(never)]
fn values(
    source: Source<'_>,
    around: Environment<'_>,
    env: Environment<'_>,
    judged: bool,
    iteration: u32,
    value: u32,
    out: &mut Gathered,
) -> Result<(), AllocError>
    ensures { OnOk result (out.new ≡ spec.gather_values (place_of around.entry) (place_of env.entry) judged (iteration_at source.entry.typed.now.nodes iteration) (expr_at source.entry.typed.now.nodes value) out.old) }
{
    match source.typed.nodes.iteration(iteration) {
        Some(Iteration::Range { parameter, .. }) => {
            turn(
                source,
                range_below(env, judged, parameter),
                iteration,
                value,
                out,
            )
        }
        Some(
            Iteration::Components {
                item,
                constant: false,
                root,
                selections: parts,
                dimensions,
                ..
            },
        ) => {
            let found = component(source, around, judged, root, parts, dimensions)?;
            let list = with_item(source, item, &found, env.items)?;
            let items = list.as_slice();
            turn(source, Environment { items, ..env }, iteration, value, out)
        }
        Some(Iteration::Components { constant: true, .. }) | None => {
            turn(source, env, iteration, value, out)
        }
    }
}

/// What the threads of a reduction use that is judged.
#[cycle(text)]
#[inline(never)]
fn thread_uses(source: Source<'_>, env: Environment<'_>, parts: Reduced) -> Result<Uses, AllocError>
    ensures { IfOk result (λ uses. uses ≡ (spec.gather_values (judging_of (place_of env.entry)) (record (judging_of (place_of env.entry)) { chunk_parameter = parameter_of (chunk_at source.entry.typed.now.nodes parts.chunk) }) true (iteration_at source.entry.typed.now.nodes parts.iteration) (expr_at source.entry.typed.now.nodes parts.value) (spec.gather_reducer (judging_of (place_of env.entry)) (reducer_at source.entry.typed.now.nodes parts.reducer) spec.nothing)).uses) }
{
    let mut out = Gathered::new(source.alloc);
    let around = judging(env);
    reducer(source, around, parts.reducer, &mut out)?;
    let inside = Environment {
        chunk_parameter: chunk_parameter(source, parts.chunk),
        ..around
    };
    values(
        source,
        around,
        inside,
        true,
        parts.iteration,
        parts.value,
        &mut out,
    )?;
    let Gathered { uses, .. } = out;
    Ok(uses)
}

/// A parallel reduction, where parallel constructs are recorded.
#[cycle(text)]
#[inline(never)]
fn site(
    source: Source<'_>,
    env: Environment<'_>,
    number: u32,
    parts: Reduced,
    out: &mut Gathered,
) -> Result<(), AllocError>
    ensures { OnOk result (out.new ≡ spec.gather_reduction (place_of env.entry) number (reducer_at source.entry.typed.now.nodes parts.reducer) (chunk_at source.entry.typed.now.nodes parts.chunk) (iteration_at source.entry.typed.now.nodes parts.iteration) (expr_at source.entry.typed.now.nodes parts.value) out.old) }
{
    if !env.sites {
        return Ok(());
    }
    let front = front_uses(source, env, parts.chunk, parts.iteration)?;
    let threads = thread_uses(source, env, parts)?;
    out.site(
        env,
        SiteEffects {
            site: number,
            block: false,
            front,
            threads,
        },
    )
}

/// The reducer and the initial value of a reduction.
#[cycle(text)]
#[inline(never)]
fn begun(
    source: Source<'_>,
    env: Environment<'_>,
    parts: Reduced,
    out: &mut Gathered,
) -> Result<(), AllocError>
    ensures { OnOk result (out.new ≡ spec.gather_expr (place_of env.entry) (expr_at source.entry.typed.now.nodes parts.initial) (spec.gather_reducer (place_of env.entry) (reducer_at source.entry.typed.now.nodes parts.reducer) out.old)) }
{
    reducer(source, env, parts.reducer, out)?;
    expr(source, env, parts.initial, out)
}

/// A reduction that isn't parallel.
#[cycle(text)]
#[inline(never)]
fn sequential(
    source: Source<'_>,
    env: Environment<'_>,
    parts: Reduced,
    out: &mut Gathered,
) -> Result<(), AllocError>
    ensures { OnOk result (out.new ≡ reduced source.entry.typed.now (place_of env.entry) parts None out.old) }
{
    begun(source, env, parts, out)?;
    course(source, env, parts.iteration, out)?;
    values(source, env, env, false, parts.iteration, parts.value, out)
}

/// A reduction that is parallel.
#[cycle(text)]
#[inline(never)]
fn parallel(
    source: Source<'_>,
    env: Environment<'_>,
    number: u32,
    parts: Reduced,
    out: &mut Gathered,
) -> Result<(), AllocError>
    ensures { OnOk result (out.new ≡ reduced source.entry.typed.now (place_of env.entry) parts (Some number) out.old) }
{
    site(source, env, number, parts, out)?;
    begun(source, env, parts, out)?;
    front(source, env, parts.chunk, parts.iteration, out)?;
    let inside = chunk_below(source, env, parts.chunk);
    values(
        source,
        env,
        inside,
        false,
        parts.iteration,
        parts.value,
        out,
    )
}

/// A reduction (4.5.10).
#[cycle(text)]
#[inline(never)]
fn reduction(
    source: Source<'_>,
    env: Environment<'_>,
    number: Option<u32>,
    parts: Reduced,
    out: &mut Gathered,
) -> Result<(), AllocError>
    ensures { OnOk result (out.new ≡ reduced source.entry.typed.now (place_of env.entry) parts number out.old) }
{
    match number {
        None => sequential(source, env, parts, out),
        Some(site) => parallel(source, env, site, parts, out),
    }
}
