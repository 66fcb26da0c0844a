//! Operators with two operands (4.5.1, 4.5.3, 4.5.5, 4.5.6), of which those of one level are nested to the left.

ghost use Rattle.std.specs.Prelude.{◌≡◌, ◌<◌};
ghost use Rattle.typed_tree.specs.Decoded.{expr_at};
ghost use Rattle.run_store.specs.Environment.{env_of};
ghost use Rattle.run_store.specs.Shows.{Shows};
ghost use Rattle.run_walk.specs.Walk as spec;
ghost use Rattle.run_parts.specs.Words.{nodes_of};

use crate::exprs::eval;
use run_outside::Port;
use run_parts::{Work, operands};
use run_store::{Env, Store};
use run_values::{End, is_true};
use typed_tree::Link;

/// An operator and its operands.
#[cycle(walk)]
#[inline(never)]
pub fn operators<P: Port + Drop>(
    work: &Work<'_>,
    calls: u32,
    last: Link,
    left: u32,
    env: &Env<'_>,
    store: &mut Store<P>,
) -> Result<i64, End>
    ensures { Shows P.Tells (spec.operators work.now calls last (expr_at (nodes_of work.now) left) (env_of env.now)) result store.old store.new }
{
    let x = operand(work, calls, left, env, store)?;
    let y = operator(work, calls, last, x, env, store)?;
    Ok(y)
}

// an operator, after its left operand
#[cycle(walk)]
#[inline(never)]
fn operator<P: Port + Drop>(
    work: &Work<'_>,
    calls: u32,
    link: Link,
    x: i64,
    env: &Env<'_>,
    store: &mut Store<P>,
) -> Result<i64, End>
    ensures { Shows P.Tells (spec.operator work.now calls link (env_of env.now) x) result store.old store.new }
{
    match link {
        Link::Operator {
            at,
            op,
            class,
            right,
        } => {
            let y = eval(work, calls, right, env, store)?;
            store.operate(op, at, class, x, y)
        }
        Link::AndThen { right } => {
            if is_true(x) {
                let y = eval(work, calls, right, env, store)?;
                Ok(y)
            } else {
                Ok(0)
            }
        }
        Link::OrElse { right } => {
            if is_true(x) {
                Ok(1)
            } else {
                let y = eval(work, calls, right, env, store)?;
                Ok(y)
            }
        }
    }
}

// what stands on the left of an operator: where that is more than one operator, they are gone through in a loop
#[cycle(walk)]
#[inline(never)]
fn operand<P: Port + Drop>(
    work: &Work<'_>,
    calls: u32,
    id: u32,
    env: &Env<'_>,
    store: &mut Store<P>,
) -> Result<i64, End>
    ensures { Shows P.Tells (spec.eval work.now calls (expr_at (nodes_of work.now) id) (env_of env.now)) result store.old store.new }
{
    match work.typed.nodes.link(id) {
        None => {
            let x = eval(work, calls, id, env, store)?;
            Ok(x)
        }
        Some((_, left)) => match work.typed.nodes.link(left) {
            None => {
                let x = eval(work, calls, id, env, store)?;
                Ok(x)
            }
            Some(_) => {
                let x = chain(work, calls, id, env, store)?;
                Ok(x)
            }
        },
    }
}

#[cycle(walk)]
#[inline(never)]
fn chain<P: Port + Drop>(
    work: &Work<'_>,
    calls: u32,
    id: u32,
    env: &Env<'_>,
    store: &mut Store<P>,
) -> Result<i64, End>
    ensures { Shows P.Tells (spec.eval work.now calls (expr_at (nodes_of work.now) id) (env_of env.now)) result store.old store.new }
{
    let chain = operands(work, id)?;
    let mut links = chain.links;
    let mut value = eval(work, calls, chain.first, env, store)?;
    while let Some(link) = links.pop() {
        value = operator(work, calls, link, value, env, store)?;
    }
    Ok(value)
}
