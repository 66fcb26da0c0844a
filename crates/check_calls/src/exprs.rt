//! Expressions (4.4) and what stands in them.

ghost use Rattle.std.specs.Prelude.{◌≡◌, ◌<◌};
ghost use Rattle.typed_tree.specs.Decoded.{actuals_at, as_actual, as_association, as_selection, associations_at, chunk_at, composite_at, expr_at, exprs_at, iteration_at, optional_at, part_at, selections_at, value_at};
ghost use Rattle.typed_tree.specs.Syntax.{Actuals, Associations, Selections};
ghost use Rattle.check_calls.specs.First as spec;
ghost use Rattle.check_calls.specs.Words.{rule_of, expr_left, composite_left, inside, IsBelow};

use crate::calls::{Breach, Step, call, left, reducer, whole};
use typed_tree::{Actual, Chunk, Composite, Expr, Iteration, Selection, Typed, Value};

/// An expression. What stands last in it is gone through by a loop, so that a chain of operators takes no native stack.
#[cycle(text)]
pub fn expr(typed: &Typed, id: u32, blocking: bool, found: Option<Breach>) -> Option<Breach>
    ensures { result ≡ spec.first_expr (rule_of typed.now) (expr_at typed.now.nodes id) blocking found }
{
    let mut step = left(found, id);
    while let Some(at) = step.rest {
        step = expr_step(typed, at, blocking, step.found);
    }
    step.found
}

/// All of an expression but one part that may be left.
#[cycle(text)]
#[inline(never)]
#[tactic(auto, unfolding(crate::specs::First::first_expr))]
fn expr_step(typed: &Typed, id: u32, blocking: bool, found: Option<Breach>) -> Step
    ensures { (expr_left typed.now blocking result.found result.rest ≡ spec.first_expr (rule_of typed.now) (expr_at typed.now.nodes id) blocking found) × IsBelow id result.rest }
{
    match typed.nodes.expr(id) {
        Expr::Static { mentions, .. } => whole(exprs(typed, mentions, blocking, found)),
        Expr::Variable {
            selections: parts,
            ..
        }
        | Expr::Constant {
            selections: parts,
            ..
        } => { whole(selections(typed, parts, blocking, found)) }
        Expr::Parameter { .. } | Expr::Target { .. } => whole(found),
        Expr::Group { inside: last }
        | Expr::Unary { operand: last, .. }
        | Expr::Convert { value: last, .. } => left(found, last),
        Expr::Binary {
            left: last,
            right: other,
            ..
        }
        | Expr::AndThen {
            left: last,
            right: other,
        }
        | Expr::OrElse {
            left: last,
            right: other,
        }
        | Expr::Relation {
            left: last,
            right: other,
            ..
        } => { left(expr(typed, other, blocking, found), last) }
        Expr::Membership {
            value: one,
            low: two,
            high: last,
            ..
        }
        | Expr::If {
            condition: one,
            value: two,
            otherwise: last,
        } => {
            let first = expr(typed, one, blocking, found);
            left(expr(typed, two, blocking, first), last)
        }
        Expr::Call {
            at,
            callee,
            sub,
            actuals: parts,
        } => {
            let first = call(typed, blocking, sub, at, callee, found);
            whole(actuals(typed, parts, blocking, first))
        }
        Expr::Reduction {
            reducer: by,
            initial,
            site,
            chunk,
            iteration,
            value,
            ..
        } => {
            let inside = in_site(blocking, site);
            let outer = reducer(typed, by, blocking, found);
            let both = reducer(typed, by, inside, outer);
            let first = expr(typed, initial, blocking, both);
            whole(values(typed, chunk, iteration, value, inside, first))
        }
    }
}

/// The values of a reduction.
#[cycle(text)]
#[inline(never)]
fn values(
    typed: &Typed,
    specification: u32,
    course: u32,
    value: u32,
    blocking: bool,
    found: Option<Breach>,
) -> Option<Breach>
    ensures { result ≡ spec.first_expr (rule_of typed.now) (expr_at typed.now.nodes value) blocking (spec.first_iteration (rule_of typed.now) (iteration_at typed.now.nodes course) blocking (spec.first_chunk (rule_of typed.now) (chunk_at typed.now.nodes specification) blocking found)) }
{
    let first = chunk(typed, specification, blocking, found);
    let second = iteration(typed, course, blocking, first);
    expr(typed, value, blocking, second)
}

/// Whether calls that may block are allowed in a reduction.
fn in_site(blocking: bool, site: Option<u32>) -> bool
    ensures { result ≡ inside blocking site }
{
    match site {
        None => blocking,
        Some(_) => false,
    }
}

/// Expressions that are only text.
#[cycle(text)]
#[tactic(auto, unfolding(crate::specs::First::first_exprs))]
pub fn exprs(typed: &Typed, id: u32, blocking: bool, found: Option<Breach>) -> Option<Breach>
    ensures { result ≡ spec.first_exprs (rule_of typed.now) (exprs_at typed.now.nodes id) blocking found }
{
    let mut at = id;
    let mut all = found;
    while let Some(cell) = typed.nodes.exprs(at) {
        all = expr(typed, cell.first, blocking, all);
        at = cell.rest;
    }
    all
}

/// An expression that may be left out.
#[cycle(text)]
#[tactic(auto, using(crate::proofs::Reading::present_is), unfolding(crate::specs::First::first_optional))]
pub fn optional(typed: &Typed, id: u32, blocking: bool, found: Option<Breach>) -> Option<Breach>
    ensures { result ≡ spec.first_optional (rule_of typed.now) (optional_at typed.now.nodes id) blocking found }
{
    match typed.nodes.optional(id) {
        None => found,
        Some(_) => expr(typed, id, blocking, found),
    }
}

/// What a name goes on with (4.1.1, 4.1.3).
#[cycle(text)]
#[tactic(auto, unfolding(crate::specs::First::first_selections))]
pub fn selections(typed: &Typed, id: u32, blocking: bool, found: Option<Breach>) -> Option<Breach>
    ensures { result ≡ spec.first_selections (rule_of typed.now) (selections_at typed.now.nodes id) blocking found }
{
    let mut at = id;
    let mut all = found;
    while let Some(cell) = typed.nodes.selections(at) {
        all = selection(typed, cell.first, blocking, all);
        at = cell.rest;
    }
    all
}

#[cycle(text)]
#[tactic(auto, unfolding(crate::specs::First::first_selections))]
fn selection(typed: &Typed, id: u32, blocking: bool, found: Option<Breach>) -> Option<Breach>
    ensures { (rest : Selections) → spec.first_selections (rule_of typed.now) rest blocking result ≡ spec.first_selections (rule_of typed.now) (as_selection (part_at typed.now.nodes id) rest) blocking found }
{
    match typed.nodes.selection(id) {
        Some(Selection::Index { index, .. }) => expr(typed, index, blocking, found),
        Some(Selection::Field { .. }) | None => found,
    }
}

/// Actual parameters (6.4.1).
#[cycle(text)]
#[tactic(auto, unfolding(crate::specs::First::first_actuals))]
pub fn actuals(typed: &Typed, id: u32, blocking: bool, found: Option<Breach>) -> Option<Breach>
    ensures { result ≡ spec.first_actuals (rule_of typed.now) (actuals_at typed.now.nodes id) blocking found }
{
    let mut at = id;
    let mut all = found;
    while let Some(cell) = typed.nodes.actuals(at) {
        all = actual(typed, cell.first, blocking, all);
        at = cell.rest;
    }
    all
}

#[cycle(text)]
#[tactic(auto, unfolding(crate::specs::First::first_actuals))]
fn actual(typed: &Typed, id: u32, blocking: bool, found: Option<Breach>) -> Option<Breach>
    ensures { (rest : Actuals) → spec.first_actuals (rule_of typed.now) rest blocking result ≡ spec.first_actuals (rule_of typed.now) (as_actual (part_at typed.now.nodes id) rest) blocking found }
{
    match typed.nodes.actual(id) {
        Some(Actual::In { value: part, .. }) => value(typed, part, blocking, found),
        Some(
            Actual::InOut {
                selections: parts,
                ..
            }
            | Actual::Out {
                selections: parts,
                ..
            }
            | Actual::CompositeInOut {
                selections: parts,
                ..
            }
            | Actual::CompositeOut {
                selections: parts,
                ..
            },
        ) => selections(typed, parts, blocking, found),
        None => found,
    }
}

/// What is stored somewhere.
#[cycle(text)]
#[tactic(auto, unfolding(crate::specs::First::first_value, crate::specs::First::first_composite, crate::specs::First::first_associations))]
pub fn value(typed: &Typed, id: u32, blocking: bool, found: Option<Breach>) -> Option<Breach>
    ensures { result ≡ spec.first_value (rule_of typed.now) (value_at typed.now.nodes id) blocking found }
{
    match typed.nodes.value(id) {
        Some(Value::Number { value: part, .. }) => expr(typed, part, blocking, found),
        Some(Value::Cells { composite: part }) => composite(typed, part, blocking, found),
        None => found,
    }
}

/// An expression of an array or record type. The last part of a conditional expression is gone through by a loop.
#[cycle(text)]
fn composite(typed: &Typed, id: u32, blocking: bool, found: Option<Breach>) -> Option<Breach>
    ensures { result ≡ spec.first_composite (rule_of typed.now) (composite_at typed.now.nodes id) blocking found }
{
    let mut step = left(found, id);
    while let Some(at) = step.rest {
        step = composite_step(typed, at, blocking, step.found);
    }
    step.found
}

#[cycle(text)]
#[inline(never)]
#[tactic(auto, unfolding(crate::specs::First::first_composite))]
fn composite_step(typed: &Typed, id: u32, blocking: bool, found: Option<Breach>) -> Step
    ensures { (composite_left typed.now blocking result.found result.rest ≡ spec.first_composite (rule_of typed.now) (composite_at typed.now.nodes id) blocking found) × IsBelow id result.rest }
{
    match typed.nodes.composite(id) {
        Composite::WholeVariable {
            selections: parts,
            ..
        }
        | Composite::WholeConstant {
            selections: parts,
            ..
        } => { whole(selections(typed, parts, blocking, found)) }
        Composite::WholeTarget { .. } => whole(found),
        Composite::If {
            condition,
            value: part,
            otherwise,
        } => {
            let first = expr(typed, condition, blocking, found);
            left(composite(typed, part, blocking, first), otherwise)
        }
        Composite::Aggregate {
            associations: parts,
            ..
        } => { whole(associations(typed, parts, blocking, found)) }
    }
}

/// Associations of an aggregate (4.3.1, 4.3.3).
#[cycle(text)]
#[tactic(auto, unfolding(crate::specs::First::first_associations))]
fn associations(typed: &Typed, id: u32, blocking: bool, found: Option<Breach>) -> Option<Breach>
    ensures { result ≡ spec.first_associations (rule_of typed.now) (associations_at typed.now.nodes id) blocking found }
{
    let mut at = id;
    let mut all = found;
    while let Some(cell) = typed.nodes.associations(at) {
        all = association(typed, cell.first, blocking, all);
        at = cell.rest;
    }
    all
}

#[cycle(text)]
#[tactic(auto, unfolding(crate::specs::First::first_associations))]
fn association(typed: &Typed, id: u32, blocking: bool, found: Option<Breach>) -> Option<Breach>
    ensures { (rest : Associations) → spec.first_associations (rule_of typed.now) rest blocking result ≡ spec.first_associations (rule_of typed.now) (as_association (part_at typed.now.nodes id) rest) blocking found }
{
    match typed.nodes.association(id) {
        None => found,
        Some(part) => {
            let first = exprs(typed, part.mentions, blocking, found);
            value(typed, part.value, blocking, first)
        }
    }
}

/// What an iteration goes through (5.5, 5.5.2).
#[cycle(text)]
#[tactic(auto, unfolding(crate::specs::First::first_iteration, crate::specs::First::first_selections, crate::specs::First::first_optional))]
pub fn iteration(typed: &Typed, id: u32, blocking: bool, found: Option<Breach>) -> Option<Breach>
    ensures { result ≡ spec.first_iteration (rule_of typed.now) (iteration_at typed.now.nodes id) blocking found }
{
    match typed.nodes.iteration(id) {
        None => found,
        Some(
            Iteration::Range {
                low,
                high,
                filter,
                ..
            },
        ) => {
            let first = expr(typed, low, blocking, found);
            let second = expr(typed, high, blocking, first);
            optional(typed, filter, blocking, second)
        }
        Some(
            Iteration::Components {
                selections: parts,
                filter,
                ..
            },
        ) => {
            let first = selections(typed, parts, blocking, found);
            optional(typed, filter, blocking, first)
        }
    }
}

/// A chunk specification (5.5).
#[cycle(text)]
#[tactic(auto, unfolding(crate::specs::First::first_chunk))]
pub fn chunk(typed: &Typed, id: u32, blocking: bool, found: Option<Breach>) -> Option<Breach>
    ensures { result ≡ spec.first_chunk (rule_of typed.now) (chunk_at typed.now.nodes id) blocking found }
{
    match typed.nodes.chunk(id) {
        None => found,
        Some(Chunk::Count { value: part }) => expr(typed, part, blocking, found),
        Some(Chunk::Each { low, high, .. }) => {
            let first = expr(typed, low, blocking, found);
            expr(typed, high, blocking, first)
        }
    }
}
