//! Actual parameters (6.4.1).

ghost use Rattle.typed_tree.specs.Decoded.{actuals_at, scalar_at, selections_at, value_at};
ghost use Rattle.run_store.specs.Environment.{env_of};
ghost use Rattle.run_store.specs.Shows.{ShowsAs};
ghost use Rattle.run_parts.specs.Passing.{passed_list, passed_of};
ghost use Rattle.run_walk.specs.Walk as spec;
ghost use Rattle.run_parts.specs.Words.{nodes_of};

use crate::exprs::eval;
use crate::names::select;
use crate::values::cells;
use ada_base::{Items, Reason};
use run_outside::Port;
use run_parts::{Back, Cells, Passed, Shape, Work, read_whole};
use run_store::{Env, Object, Store};
use run_values::{End, Leave, is_in};
use typed_tree::{Actual, Check, Root, Value};

/// Actual parameters, evaluated, read and checked from left to right, behind others.
#[cycle(walk)]
#[inline(never)]
pub fn pass<P: Port + Drop>(
    work: &Work<'_>,
    calls: u32,
    id: u32,
    env: &Env<'_>,
    passed: Items<Passed>,
    store: &mut Store<P>,
) -> Result<Items<Passed>, End>
    ensures { ShowsAs (passed_list work.now) P.Tells (spec.pass work.now calls (actuals_at (nodes_of work.now) id) (env_of env.now) (passed_list work.now passed)) result store.old store.new }
{
    let mut all = passed;
    let mut at = id;
    while let Some(cell) = work.typed.nodes.actuals(at) {
        if let Some(actual) = work.typed.nodes.actual(cell.first) {
            let one = evaluated(work, calls, actual, env, store)?;
            match all.push(one) {
                Ok(()) => {}
                Err(_) => return Err(End::NoMemory),
            }
        }
        at = cell.rest;
    }
    Ok(all)
}

#[cycle(walk)]
fn evaluated<P: Port + Drop>(
    work: &Work<'_>,
    calls: u32,
    actual: Actual,
    env: &Env<'_>,
    store: &mut Store<P>,
) -> Result<Passed, End>
    ensures { ShowsAs (passed_of work.now) P.Tells (spec.one_passed work.now calls actual (env_of env.now)) result store.old store.new }
{
    match actual {
        Actual::In { formal, value } => passed_in(work, calls, formal, value, env, store),
        Actual::InOut {
            formal,
            at,
            root,
            selections,
            inside,
            outside,
        } => passed_in_out(
            work, calls, formal, at, root, selections, inside, outside, env, store,
        ),
        Actual::Out {
            formal,
            at,
            root,
            selections,
            inside,
            outside,
        } => passed_out(
            work, calls, formal, at, root, selections, inside, outside, env, store,
        ),
        Actual::CompositeInOut {
            formal,
            root,
            selections,
            subtype,
            ..
        }
        | Actual::CompositeOut {
            formal,
            root,
            selections,
            subtype,
            ..
        } => passed_whole(work, calls, formal, root, selections, subtype, env, store),
    }
}

#[cycle(walk)]
#[tactic(auto, unfolding(ada_meaning::specs::Stored::bind, ada_meaning::specs::Stored::ret, ada_meaning::specs::Stored::leaves, ada_meaning::specs::Stored::spent, ada_meaning::specs::Stored::handles, crate::specs::Walk::cells, crate::specs::Walk::eval))]
fn passed_in<P: Port + Drop>(
    work: &Work<'_>,
    calls: u32,
    formal: u32,
    value: u32,
    env: &Env<'_>,
    store: &mut Store<P>,
) -> Result<Passed, End>
    ensures { ShowsAs (passed_of work.now) P.Tells (spec.in_passed work.now calls formal (value_at (nodes_of work.now) value) (env_of env.now)) result store.old store.new }
{
    match work.typed.nodes.value(value) {
        Some(Value::Number { check, value }) => {
            let x = eval(work, calls, value, env, store)?;
            if is_in(check.scalar, x) {
                Ok(Passed {
                    formal: Object::Constant(formal),
                    cells: Cells::one(work.alloc, x),
                    back: None,
                })
            } else {
                Err(End::Left(Leave::Raises(Reason::ConstraintError)))
            }
        }
        _ => {
            let values = cells(work, calls, value, env, store)?;
            Ok(Passed {
                formal: Object::Constant(formal),
                cells: values,
                back: None,
            })
        }
    }
}

#[cycle(walk)]
#[inline(never)]
fn passed_in_out<P: Port + Drop>(
    work: &Work<'_>,
    calls: u32,
    formal: u32,
    at: u32,
    root: Root,
    selections: u32,
    inside: u32,
    outside: u32,
    env: &Env<'_>,
    store: &mut Store<P>,
) -> Result<Passed, End>
    ensures { ShowsAs (passed_of work.now) P.Tells (spec.in_out_passed work.now calls formal at root (selections_at (nodes_of work.now) selections) (scalar_at (nodes_of work.now) inside) (scalar_at (nodes_of work.now) outside) (env_of env.now)) result store.old store.new }
{
    let part = select(work, calls, selections, env, env.variable_root(root), store)?;
    let value = store.read(Object::Variable(part.object), part.offset)?;
    let scalar = work.typed.nodes.scalar(inside);
    if is_in(scalar, value) {
        let check = Check {
            at,
            scalar: work.typed.nodes.scalar(outside),
        };
        Ok(Passed {
            formal: Object::Variable(formal),
            cells: Cells::one(work.alloc, value),
            back: Some(Back {
                part,
                shape: Shape::Single(scalar),
                check: Some(check),
            }),
        })
    } else {
        Err(End::Left(Leave::Raises(Reason::ConstraintError)))
    }
}

#[cycle(walk)]
#[inline(never)]
fn passed_out<P: Port + Drop>(
    work: &Work<'_>,
    calls: u32,
    formal: u32,
    at: u32,
    root: Root,
    selections: u32,
    inside: u32,
    outside: u32,
    env: &Env<'_>,
    store: &mut Store<P>,
) -> Result<Passed, End>
    ensures { ShowsAs (passed_of work.now) P.Tells (spec.out_passed work.now calls formal at root (selections_at (nodes_of work.now) selections) (scalar_at (nodes_of work.now) inside) (scalar_at (nodes_of work.now) outside) (env_of env.now)) result store.old store.new }
{
    let part = select(work, calls, selections, env, env.variable_root(root), store)?;
    let scalar = work.typed.nodes.scalar(inside);
    let check = Check {
        at,
        scalar: work.typed.nodes.scalar(outside),
    };
    Ok(Passed {
        formal: Object::Variable(formal),
        cells: Cells::one(work.alloc, scalar.low),
        back: Some(Back {
            part,
            shape: Shape::Single(scalar),
            check: Some(check),
        }),
    })
}

// an array or record
#[cycle(walk)]
#[inline(never)]
fn passed_whole<P: Port + Drop>(
    work: &Work<'_>,
    calls: u32,
    formal: u32,
    root: Root,
    selections: u32,
    subtype: u32,
    env: &Env<'_>,
    store: &mut Store<P>,
) -> Result<Passed, End>
    ensures { ShowsAs (passed_of work.now) P.Tells (spec.whole_passed work.now calls formal root (selections_at (nodes_of work.now) selections) subtype (env_of env.now)) result store.old store.new }
{
    let part = select(work, calls, selections, env, env.variable_root(root), store)?;
    let object = Object::Variable(part.object);
    let values = read_whole(work, object, part.offset, subtype, store)?;
    Ok(Passed {
        formal: Object::Variable(formal),
        cells: Cells::many(values),
        back: Some(Back {
            part,
            shape: Shape::Whole(subtype),
            check: None,
        }),
    })
}
