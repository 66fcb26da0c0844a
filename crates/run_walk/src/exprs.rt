//! Expressions (4.4).

ghost use Rattle.std.specs.Prelude.{◌≡◌, ◌<◌, length};
ghost use Rattle.typed_tree.specs.Decoded.{expr_at, selections_at, optional_at, actuals_at};
ghost use Rattle.run_store.specs.Environment.{env_of};
ghost use Rattle.run_store.specs.Shows.{Shows};
ghost use Rattle.run_walk.specs.Walk as spec;
ghost use Rattle.run_parts.specs.Words.{nodes_of};

use crate::actuals::pass;
use crate::calls::call;
use crate::chains::operators;
use crate::folds::{Fold, parallel_reduction, reduction};
use crate::names::select;
use crate::quick::{LEVELS, quick};
use crate::scalars::{call_scalars, pass_scalars};
use ada_base::{Comparison, Items, Reason};
use run_outside::Port;
use run_parts::Work;
use run_store::{Env, Object, Store};
use run_values::{End, Leave, bit, compares, is_in, is_member, is_true};
use typed_tree::{Check, Class, Expr, Link, Root, Sign};

/// The value of an expression, where so many more calls may be active.
#[cycle(walk)]
pub fn eval<P: Port + Drop>(
    work: &Work<'_>,
    calls: u32,
    id: u32,
    env: &Env<'_>,
    store: &mut Store<P>,
) -> Result<i64, End>
    ensures { Shows P.Tells (spec.eval work.now calls (expr_at (nodes_of work.now) id) (env_of env.now)) result store.old store.new }
{
    match quick(work, calls, LEVELS, id, env, &*store) {
        Some(value) => Ok(value),
        None => eval_by_parts(work, calls, id, env, store),
    }
}

#[cycle(walk)]
#[inline(never)]
#[tactic(auto, unfolding(ada_meaning::specs::Stored::bind, ada_meaning::specs::Stored::ret, ada_meaning::specs::Stored::leaves, ada_meaning::specs::Stored::spent, ada_meaning::specs::Stored::handles, crate::specs::Walk::eval, crate::specs::Walk::select, crate::specs::Walk::pass, crate::specs::Walk::course, crate::specs::Walk::filtered, crate::specs::Walk::fold_left, crate::specs::Walk::chunking))]
fn eval_by_parts<P: Port + Drop>(
    work: &Work<'_>,
    calls: u32,
    id: u32,
    env: &Env<'_>,
    store: &mut Store<P>,
) -> Result<i64, End>
    ensures { Shows P.Tells (spec.eval work.now calls (expr_at (nodes_of work.now) id) (env_of env.now)) result store.old store.new }
{
    match work.typed.nodes.expr(id) {
        Expr::Static { value, .. } => Ok(value),
        Expr::Variable {
            root,
            selections,
            ..
        } => variable(work, calls, root, selections, env, store),
        Expr::Constant {
            root,
            selections,
            ..
        } => constant(work, calls, root, selections, env, store),
        Expr::Parameter { parameter, .. } => Ok(env.parameter(parameter)),
        Expr::Target { .. } => target(work, calls, env, store),
        Expr::Group { inside } => eval(work, calls, inside, env, store),
        Expr::Unary {
            at,
            sign,
            class,
            operand,
        } => unary(work, calls, at, sign, class, operand, env, store),
        Expr::Binary {
            at,
            op,
            class,
            left,
            right,
        } => {
            let last = Link::Operator {
                at,
                op,
                class,
                right,
            };
            operators(work, calls, last, left, env, store)
        }
        Expr::AndThen { left, right } => {
            operators(work, calls, Link::AndThen { right }, left, env, store)
        }
        Expr::OrElse { left, right } => {
            operators(work, calls, Link::OrElse { right }, left, env, store)
        }
        Expr::Relation {
            class,
            comparison,
            left,
            right,
        } => relation(work, calls, class, comparison, left, right, env, store),
        Expr::Membership {
            class,
            negated,
            value,
            low,
            high,
        } => membership(work, calls, class, negated, value, low, high, env, store),
        Expr::If {
            condition,
            value,
            otherwise,
        } => conditional(work, calls, condition, value, otherwise, env, store),
        Expr::Convert { check, value } => converted(work, calls, check, value, env, store),
        Expr::Call { sub, actuals, .. } => call_function(work, calls, sub, actuals, env, store),
        Expr::Reduction {
            attribute,
            reducer,
            initial,
            site,
            chunk,
            iteration,
            value,
            ..
        } => {
            let by = Fold {
                attribute,
                reducer: work.typed.nodes.reducer(reducer),
                iteration,
                value,
            };
            match site {
                None => reduction(work, calls, by, initial, env, store),
                Some(_) => parallel_reduction(work, calls, by, initial, chunk, env, store),
            }
        }
    }
}

#[cycle(walk)]
#[inline(never)]
fn variable<P: Port + Drop>(
    work: &Work<'_>,
    calls: u32,
    root: Root,
    selections: u32,
    env: &Env<'_>,
    store: &mut Store<P>,
) -> Result<i64, End>
    ensures { Shows P.Tells (spec.variable work.now calls root (selections_at (nodes_of work.now) selections) (env_of env.now)) result store.old store.new }
{
    let part = select(work, calls, selections, env, env.variable_root(root), store)?;
    store.read(Object::Variable(part.object), part.offset)
}

#[cycle(walk)]
#[inline(never)]
fn constant<P: Port + Drop>(
    work: &Work<'_>,
    calls: u32,
    root: Root,
    selections: u32,
    env: &Env<'_>,
    store: &mut Store<P>,
) -> Result<i64, End>
    ensures { Shows P.Tells (spec.constant work.now calls root (selections_at (nodes_of work.now) selections) (env_of env.now)) result store.old store.new }
{
    let part = select(work, calls, selections, env, env.constant_root(root), store)?;
    store.read(Object::Constant(part.object), part.offset)
}

fn target<P: Port + Drop>(
    work: &Work<'_>,
    calls: u32,
    env: &Env<'_>,
    store: &Store<P>,
) -> Result<i64, End>
    ensures { Shows P.Tells (spec.target work.now calls (env_of env.now)) result store.now store.now }
{
    let part = env.target();
    store.read(Object::Variable(part.object), part.offset)
}

#[cycle(walk)]
#[inline(never)]
fn unary<P: Port + Drop>(
    work: &Work<'_>,
    calls: u32,
    at: u32,
    sign: Sign,
    class: Class,
    operand: u32,
    env: &Env<'_>,
    store: &mut Store<P>,
) -> Result<i64, End>
    ensures { Shows P.Tells (spec.unary_of work.now calls sign at class (expr_at (nodes_of work.now) operand) (env_of env.now)) result store.old store.new }
{
    let x = eval(work, calls, operand, env, store)?;
    store.unary(sign, at, class, x)
}

#[cycle(walk)]
#[inline(never)]
fn relation<P: Port + Drop>(
    work: &Work<'_>,
    calls: u32,
    class: Class,
    comparison: Comparison,
    left: u32,
    right: u32,
    env: &Env<'_>,
    store: &mut Store<P>,
) -> Result<i64, End>
    ensures { Shows P.Tells (spec.relation work.now calls class comparison (expr_at (nodes_of work.now) left) (expr_at (nodes_of work.now) right) (env_of env.now)) result store.old store.new }
{
    let x = eval(work, calls, left, env, store)?;
    let y = eval(work, calls, right, env, store)?;
    let found = compares(comparison, class, x, y);
    Ok(bit(found))
}

#[cycle(walk)]
#[inline(never)]
fn membership<P: Port + Drop>(
    work: &Work<'_>,
    calls: u32,
    class: Class,
    negated: bool,
    value: u32,
    low: u32,
    high: u32,
    env: &Env<'_>,
    store: &mut Store<P>,
) -> Result<i64, End>
    ensures { Shows P.Tells (spec.membership work.now calls class negated (expr_at (nodes_of work.now) value) (expr_at (nodes_of work.now) low) (expr_at (nodes_of work.now) high) (env_of env.now)) result store.old store.new }
{
    let x = eval(work, calls, value, env, store)?;
    let l = eval(work, calls, low, env, store)?;
    let h = eval(work, calls, high, env, store)?;
    let found = if negated {
        !is_member(class, l, x, h)
    } else {
        is_member(class, l, x, h)
    };
    Ok(bit(found))
}

#[cycle(walk)]
#[inline(never)]
fn conditional<P: Port + Drop>(
    work: &Work<'_>,
    calls: u32,
    condition: u32,
    value: u32,
    otherwise: u32,
    env: &Env<'_>,
    store: &mut Store<P>,
) -> Result<i64, End>
    ensures { Shows P.Tells (spec.conditional work.now calls (expr_at (nodes_of work.now) condition) (expr_at (nodes_of work.now) value) (expr_at (nodes_of work.now) otherwise) (env_of env.now)) result store.old store.new }
{
    let c = eval(work, calls, condition, env, store)?;
    if is_true(c) {
        let x = eval(work, calls, value, env, store)?;
        Ok(x)
    } else {
        let y = eval_else(work, calls, otherwise, env, store)?;
        Ok(y)
    }
}

// the value of what stands behind `else` or `elsif`, one frame deeper
#[cycle(walk)]
fn eval_else<P: Port + Drop>(
    work: &Work<'_>,
    calls: u32,
    id: u32,
    env: &Env<'_>,
    store: &mut Store<P>,
) -> Result<i64, End>
    ensures { Shows P.Tells (spec.eval work.now calls (expr_at (nodes_of work.now) id) (env_of env.now)) result store.old store.new }
{
    store.take_room()?;
    let value = eval(work, calls, id, env, store);
    store.give_room();
    value
}

#[cycle(walk)]
#[inline(never)]
fn converted<P: Port + Drop>(
    work: &Work<'_>,
    calls: u32,
    check: Check,
    value: u32,
    env: &Env<'_>,
    store: &mut Store<P>,
) -> Result<i64, End>
    ensures { Shows P.Tells (spec.converted work.now calls check (expr_at (nodes_of work.now) value) (env_of env.now)) result store.old store.new }
{
    let x = eval(work, calls, value, env, store)?;
    if is_in(check.scalar, x) {
        Ok(x)
    } else {
        Err(End::Left(Leave::Raises(Reason::ConstraintError)))
    }
}

/// Whether an expression holds, or is left out.
#[cycle(walk)]
#[tactic(auto, using(crate::proofs::Parts::present_is), unfolding(ada_meaning::specs::Stored::bind, ada_meaning::specs::Stored::ret, ada_meaning::specs::Stored::leaves, ada_meaning::specs::Stored::spent, ada_meaning::specs::Stored::handles, crate::specs::Walk::eval, crate::specs::Walk::holds))]
pub fn holds<P: Port + Drop>(
    work: &Work<'_>,
    calls: u32,
    id: u32,
    env: &Env<'_>,
    store: &mut Store<P>,
) -> Result<bool, End>
    ensures { Shows P.Tells (spec.holds work.now calls (optional_at (nodes_of work.now) id) (env_of env.now)) result store.old store.new }
{
    match work.typed.nodes.optional(id) {
        None => Ok(true),
        Some(_) => {
            let value = eval(work, calls, id, env, store)?;
            Ok(is_true(value))
        }
    }
}

#[cycle(walk)]
#[inline(never)]
fn call_function<P: Port + Drop>(
    work: &Work<'_>,
    calls: u32,
    sub: u32,
    actuals: u32,
    env: &Env<'_>,
    store: &mut Store<P>,
) -> Result<i64, End>
    ensures { Shows P.Tells (spec.call_function work.now calls sub (actuals_at (nodes_of work.now) actuals) (env_of env.now)) result store.old store.new }
{
    match pass_scalars(work, calls, actuals, env, &*store) {
        Some(given) => call_scalars(work, calls, env.nested(), sub, given.as_slice(), store),
        None => {
            let passed = pass(work, calls, actuals, env, Items::new(work.alloc), store)?;
            let returned = call(work, calls, env.nested(), sub, passed.as_slice(), store)?;
            Ok(returned.value)
        }
    }
}
