//! Values of expressions and places of names that need no call: they are found without a change of the state.

ghost use Rattle.std.specs.Prelude.{◌≡◌, ◌<◌, ◌≤ℤ◌, ◌+◌, ◌*◌, ◌-ℤ◌, ℕ, IfSome};
ghost use Rattle.typed_tree.specs.Decoded.{as_selection, expr_at, part_at, selections_at};
ghost use Rattle.typed_tree.specs.Syntax.{Selections};
ghost use Rattle.ada_meaning.specs.Values.{to_nat};
ghost use Rattle.run_store.specs.Environment.{env_of};
ghost use Rattle.run_walk.specs.Quick.{Gives, GivesAs, SameAs, at_offset};
ghost use Rattle.run_walk.specs.Walk as spec;
ghost use Rattle.run_parts.specs.Words.{nodes_of};

use crate::paths::{constant_by_path, place_by_path, variable_by_path};
use ada_base::Comparison;
use run_outside::Port;
use run_parts::Work;
use run_store::{Env, Object, Store};
use run_values::{between, bit, compares, is_in, is_true, operated, unary_result};
use typed_tree::{Check, Class, Expr, Link, Root, Selection, Sign};

/// How many levels of operands, and how many selections of a name, are gone through before it is left to the walk. So a
/// node is looked at a bounded number of times before the walk comes to it.
pub const LEVELS: u32 = 12;

/// The value of an expression; None where it calls, reduces, is nested deeper than so many levels, or has no value.
#[cycle(quick)]
#[tactic(auto, unfolding(ada_meaning::specs::Stored::bind, ada_meaning::specs::Stored::ret, crate::specs::Walk::eval, crate::specs::Walk::select))]
pub fn quick<P: Port + Drop>(
    work: &Work<'_>,
    calls: u32,
    levels: u32,
    id: u32,
    env: &Env<'_>,
    store: &Store<P>,
) -> Option<i64>
    ensures { Gives P.Tells (spec.eval work.now calls (expr_at (nodes_of work.now) id) (env_of env.now)) store.now result }
{
    match levels.checked_sub(1) {
        None => None,
        Some(left) => match work.typed.nodes.expr(id) {
            Expr::Static { value, .. } => Some(value),
            Expr::Parameter { parameter, .. } => Some(env.parameter(parameter)),
            Expr::Variable {
                root,
                selections,
                ..
            } => quick_variable(work, calls, left, root, selections, env, store),
            Expr::Constant {
                root,
                selections,
                ..
            } => quick_constant(work, calls, left, root, selections, env, store),
            Expr::Target { .. } => quick_target(work, calls, env, store),
            Expr::Group { inside } => quick(work, calls, left, inside, env, store),
            Expr::Unary {
                sign,
                class,
                operand,
                ..
            } => quick_unary(work, calls, left, sign, class, operand, env, store),
            Expr::Binary {
                at,
                op,
                class,
                left: first,
                right,
            } => {
                let last = Link::Operator {
                    at,
                    op,
                    class,
                    right,
                };
                quick_operators(work, calls, left, last, first, env, store)
            }
            Expr::AndThen { left: first, right } => {
                quick_operators(
                    work,
                    calls,
                    left,
                    Link::AndThen { right },
                    first,
                    env,
                    store,
                )
            }
            Expr::OrElse { left: first, right } => {
                quick_operators(work, calls, left, Link::OrElse { right }, first, env, store)
            }
            Expr::Relation {
                class,
                comparison,
                left: first,
                right,
            } => quick_relation(
                work, calls, left, class, comparison, first, right, env, store,
            ),
            Expr::Convert { check, value } => {
                quick_converted(work, calls, left, check, value, env, store)
            }
            _ => None,
        },
    }
}

/// The value of a static expression, or of the parameter of a loop; None for every other expression. It calls nothing of
/// the cycle, so it is tried in place, before a call of `quick`.
#[inline(always)]
#[tactic(auto, unfolding(ada_meaning::specs::Stored::bind, ada_meaning::specs::Stored::ret, crate::specs::Walk::eval, crate::specs::Walk::select))]
fn quick_leaf<P: Port + Drop>(
    work: &Work<'_>,
    calls: u32,
    id: u32,
    env: &Env<'_>,
    store: &Store<P>,
) -> Option<i64>
    ensures { Gives P.Tells (spec.eval work.now calls (expr_at (nodes_of work.now) id) (env_of env.now)) store.now result }
{
    match work.typed.nodes.expr(id) {
        Expr::Static { value, .. } => Some(value),
        Expr::Parameter { parameter, .. } => Some(env.parameter(parameter)),
        _ => None,
    }
}

/// What `quick_leaf` gives, or the value of an object that is a scalar as a whole or of a part to which a path leads. It
/// calls nothing of the cycle either.
#[inline(always)]
#[tactic(auto, unfolding(ada_meaning::specs::Stored::bind, ada_meaning::specs::Stored::ret, crate::specs::Walk::eval, crate::specs::Walk::select))]
fn quick_simple<P: Port + Drop>(
    work: &Work<'_>,
    calls: u32,
    id: u32,
    env: &Env<'_>,
    store: &Store<P>,
) -> Option<i64>
    ensures { Gives P.Tells (spec.eval work.now calls (expr_at (nodes_of work.now) id) (env_of env.now)) store.now result }
{
    match work.typed.nodes.expr(id) {
        Expr::Variable {
            root,
            selections,
            ..
        } => simple_variable(work, calls, root, selections, env, store),
        Expr::Constant {
            root,
            selections,
            ..
        } => simple_constant(work, calls, root, selections, env, store),
        _ => quick_leaf(work, calls, id, env, store),
    }
}

// the value of a variable that is a scalar as a whole, or of a part to which a path leads
#[inline(always)]
#[tactic(auto, unfolding(ada_meaning::specs::Stored::bind, ada_meaning::specs::Stored::ret, crate::specs::Walk::eval, crate::specs::Walk::select))]
fn simple_variable<P: Port + Drop>(
    work: &Work<'_>,
    calls: u32,
    root: Root,
    selections: u32,
    env: &Env<'_>,
    store: &Store<P>,
) -> Option<i64>
    ensures { Gives P.Tells (spec.variable work.now calls root (selections_at (nodes_of work.now) selections) (env_of env.now)) store.now result }
{
    match work.typed.nodes.selections(selections) {
        Some(_) => variable_by_path(work, calls, root, selections, env, store),
        None => {
            let part = env.variable_root(root);
            store.cell(Object::Variable(part.object), part.offset)
        }
    }
}

// the value of a constant that is a scalar as a whole, or of a part to which a path leads
#[inline(always)]
#[tactic(auto, unfolding(ada_meaning::specs::Stored::bind, ada_meaning::specs::Stored::ret, crate::specs::Walk::eval, crate::specs::Walk::select))]
fn simple_constant<P: Port + Drop>(
    work: &Work<'_>,
    calls: u32,
    root: Root,
    selections: u32,
    env: &Env<'_>,
    store: &Store<P>,
) -> Option<i64>
    ensures { Gives P.Tells (spec.constant work.now calls root (selections_at (nodes_of work.now) selections) (env_of env.now)) store.now result }
{
    match work.typed.nodes.selections(selections) {
        Some(_) => constant_by_path(work, calls, root, selections, env, store),
        None => {
            let part = env.constant_root(root);
            store.cell(Object::Constant(part.object), part.offset)
        }
    }
}

/// The value of an operand, as `quick` has it.
#[cycle(quick)]
#[inline(always)]
pub fn quick_operand<P: Port + Drop>(
    work: &Work<'_>,
    calls: u32,
    levels: u32,
    id: u32,
    env: &Env<'_>,
    store: &Store<P>,
) -> Option<i64>
    ensures { Gives P.Tells (spec.eval work.now calls (expr_at (nodes_of work.now) id) (env_of env.now)) store.now result }
{
    match quick_simple(work, calls, id, env, store) {
        Some(value) => Some(value),
        None => quick(work, calls, levels, id, env, store),
    }
}

/// The value of an index, as `quick` has it. It is seldom an object as a whole.
#[cycle(quick)]
#[inline(always)]
fn quick_at_index<P: Port + Drop>(
    work: &Work<'_>,
    calls: u32,
    levels: u32,
    id: u32,
    env: &Env<'_>,
    store: &Store<P>,
) -> Option<i64>
    ensures { Gives P.Tells (spec.eval work.now calls (expr_at (nodes_of work.now) id) (env_of env.now)) store.now result }
{
    match quick_leaf(work, calls, id, env, store) {
        Some(value) => Some(value),
        None => quick(work, calls, levels, id, env, store),
    }
}

#[cycle(quick)]
fn quick_variable<P: Port + Drop>(
    work: &Work<'_>,
    calls: u32,
    levels: u32,
    root: Root,
    selections: u32,
    env: &Env<'_>,
    store: &Store<P>,
) -> Option<i64>
    ensures { Gives P.Tells (spec.variable work.now calls root (selections_at (nodes_of work.now) selections) (env_of env.now)) store.now result }
{
    let part = env.variable_root(root);
    match quick_rest(
        work,
        calls,
        levels,
        selections,
        env,
        part.object,
        part.offset,
        store,
    ) {
        None => None,
        Some(offset) => store.cell(Object::Variable(part.object), offset),
    }
}

#[cycle(quick)]
fn quick_constant<P: Port + Drop>(
    work: &Work<'_>,
    calls: u32,
    levels: u32,
    root: Root,
    selections: u32,
    env: &Env<'_>,
    store: &Store<P>,
) -> Option<i64>
    ensures { Gives P.Tells (spec.constant work.now calls root (selections_at (nodes_of work.now) selections) (env_of env.now)) store.now result }
{
    let part = env.constant_root(root);
    match quick_rest(
        work,
        calls,
        levels,
        selections,
        env,
        part.object,
        part.offset,
        store,
    ) {
        None => None,
        Some(offset) => store.cell(Object::Constant(part.object), offset),
    }
}

fn quick_target<P: Port + Drop>(
    work: &Work<'_>,
    calls: u32,
    env: &Env<'_>,
    store: &Store<P>,
) -> Option<i64>
    ensures { Gives P.Tells (spec.target work.now calls (env_of env.now)) store.now result }
{
    let part = env.target();
    store.cell(Object::Variable(part.object), part.offset)
}

#[cycle(quick)]
fn quick_unary<P: Port + Drop>(
    work: &Work<'_>,
    calls: u32,
    levels: u32,
    sign: Sign,
    class: Class,
    operand: u32,
    env: &Env<'_>,
    store: &Store<P>,
) -> Option<i64>
    ensures { (at : ℕ) → Gives P.Tells (spec.unary_of work.now calls sign at class (expr_at (nodes_of work.now) operand) (env_of env.now)) store.now result }
{
    match quick_operand(work, calls, levels, operand, env, store) {
        None => None,
        Some(x) => unary_result(sign, class, x),
    }
}

#[cycle(quick)]
#[inline(always)]
fn quick_operators<P: Port + Drop>(
    work: &Work<'_>,
    calls: u32,
    levels: u32,
    last: Link,
    first: u32,
    env: &Env<'_>,
    store: &Store<P>,
) -> Option<i64>
    ensures { Gives P.Tells (spec.operators work.now calls last (expr_at (nodes_of work.now) first) (env_of env.now)) store.now result }
{
    match quick_operand(work, calls, levels, first, env, store) {
        None => None,
        Some(x) => quick_operator(work, calls, levels, last, x, env, store),
    }
}

#[cycle(quick)]
#[inline(always)]
fn quick_operator<P: Port + Drop>(
    work: &Work<'_>,
    calls: u32,
    levels: u32,
    link: Link,
    x: i64,
    env: &Env<'_>,
    store: &Store<P>,
) -> Option<i64>
    ensures { Gives P.Tells (spec.operator work.now calls link (env_of env.now) x) store.now result }
{
    match link {
        Link::Operator {
            op,
            class,
            right,
            ..
        } => match quick_operand(work, calls, levels, right, env, store) {
            None => None,
            Some(y) => operated(op, class, x, y),
        },
        Link::AndThen { right } => {
            if is_true(x) {
                quick_operand(work, calls, levels, right, env, store)
            } else {
                Some(0)
            }
        }
        Link::OrElse { right } => {
            if is_true(x) {
                Some(1)
            } else {
                quick_operand(work, calls, levels, right, env, store)
            }
        }
    }
}

#[cycle(quick)]
fn quick_relation<P: Port + Drop>(
    work: &Work<'_>,
    calls: u32,
    levels: u32,
    class: Class,
    comparison: Comparison,
    first: u32,
    right: u32,
    env: &Env<'_>,
    store: &Store<P>,
) -> Option<i64>
    ensures { Gives P.Tells (spec.relation work.now calls class comparison (expr_at (nodes_of work.now) first) (expr_at (nodes_of work.now) right) (env_of env.now)) store.now result }
{
    match quick_operand(work, calls, levels, first, env, store) {
        None => None,
        Some(x) => match quick_operand(work, calls, levels, right, env, store) {
            None => None,
            Some(y) => Some(bit(compares(comparison, class, x, y))),
        },
    }
}

#[cycle(quick)]
fn quick_converted<P: Port + Drop>(
    work: &Work<'_>,
    calls: u32,
    levels: u32,
    check: Check,
    value: u32,
    env: &Env<'_>,
    store: &Store<P>,
) -> Option<i64>
    ensures { Gives P.Tells (spec.converted work.now calls check (expr_at (nodes_of work.now) value) (env_of env.now)) store.now result }
{
    match quick_operand(work, calls, levels, value, env, store) {
        None => None,
        Some(x) => {
            if is_in(check.scalar, x) {
                Some(x)
            } else {
                None
            }
        }
    }
}

/// What `quick_offset` gives, without a call of it where no selection is left or a path leads there.
#[cycle(quick)]
#[inline(always)]
#[tactic(auto, unfolding(ada_meaning::specs::Stored::bind, ada_meaning::specs::Stored::ret, crate::specs::Walk::eval, crate::specs::Walk::select))]
pub fn quick_rest<P: Port + Drop>(
    work: &Work<'_>,
    calls: u32,
    levels: u32,
    id: u32,
    env: &Env<'_>,
    object: u32,
    offset: u64,
    store: &Store<P>,
) -> Option<u64>
    ensures { GivesAs (at_offset object) P.Tells (spec.select work.now calls (selections_at (nodes_of work.now) id) (env_of env.now) (at_offset object offset)) store.now result }
{
    match work.typed.nodes.selections(id) {
        None => Some(offset),
        Some(_) => match place_by_path(work, id, env, offset) {
            Some(inner) => Some(inner),
            None => quick_offset(work, calls, levels, id, env, object, offset, store),
        },
    }
}

/// How many cells of an object come before the part that selections lead to; None where an index has no quick value, no
/// level is left, or there are `LEVELS` selections or more.
#[cycle(quick)]
pub fn quick_offset<P: Port + Drop>(
    work: &Work<'_>,
    calls: u32,
    levels: u32,
    id: u32,
    env: &Env<'_>,
    object: u32,
    offset: u64,
    store: &Store<P>,
) -> Option<u64>
    ensures { GivesAs (at_offset object) P.Tells (spec.select work.now calls (selections_at (nodes_of work.now) id) (env_of env.now) (at_offset object offset)) store.now result }
{
    match levels.checked_sub(1) {
        None => None,
        Some(left) => quick_places(work, calls, left, id, env, object, offset, store),
    }
}

#[cycle(quick)]
#[inline(always)]
fn quick_places<P: Port + Drop>(
    work: &Work<'_>,
    calls: u32,
    levels: u32,
    id: u32,
    env: &Env<'_>,
    object: u32,
    offset: u64,
    store: &Store<P>,
) -> Option<u64>
    ensures { GivesAs (at_offset object) P.Tells (spec.select work.now calls (selections_at (nodes_of work.now) id) (env_of env.now) (at_offset object offset)) store.now result }
{
    let mut at = id;
    let mut place = offset;
    for _k in 0..LEVELS {
        match work.typed.nodes.selections(at) {
            None => return Some(place),
            Some(cell) => {
                match quick_selection(work, calls, levels, cell.first, env, object, place, store) {
                    None => return None,
                    Some(inner) => {
                        place = inner;
                        at = cell.rest;
                    }
                }
            }
        }
    }
    None
}

// where the part begins that one selection leads to
#[cycle(quick)]
#[inline(always)]
#[tactic(auto, unfolding(ada_meaning::specs::Stored::bind, ada_meaning::specs::Stored::ret, crate::specs::Walk::eval, crate::specs::Walk::select))]
fn quick_selection<P: Port + Drop>(
    work: &Work<'_>,
    calls: u32,
    levels: u32,
    id: u32,
    env: &Env<'_>,
    object: u32,
    offset: u64,
    store: &Store<P>,
) -> Option<u64>
    ensures { IfSome result (λ inner. (rest : Selections) → SameAs P.Tells (spec.select work.now calls (as_selection (part_at (nodes_of work.now) id) rest) (env_of env.now) (at_offset object offset)) (spec.select work.now calls rest (env_of env.now) (at_offset object inner)) store.now) }
{
    match work.typed.nodes.selection(id) {
        None => None,
        Some(Selection::Field { offset: more, .. }) => offset.checked_add(u64::from(more)),
        Some(
            Selection::Index {
                index,
                low,
                high,
                stride,
                ..
            },
        ) => {
            match quick_at_index(work, calls, levels, index, env, store) {
                None => None,
                Some(i) => {
                    if between(low, i, high) {
                        component_offset(offset, i, low, stride)
                    } else {
                        None
                    }
                }
            }
        }
    }
}

/// Where the component of an index begins, in 64 bits.
#[inline(always)]
fn component_offset(offset: u64, index: i64, low: i64, stride: u32) -> Option<u64>
    requires { low ≤ℤ index }
    ensures { IfSome result (λ inner. inner ≡ offset + to_nat (index -ℤ low) * stride) }
{
    match index.abs_diff(low).checked_mul(u64::from(stride)) {
        None => None,
        Some(count) => offset.checked_add(count),
    }
}
