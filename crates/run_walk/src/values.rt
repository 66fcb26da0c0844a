//! What is stored: numbers, arrays and records (4.3, 5.2).

ghost use Rattle.std.specs.Prelude.{◌≡◌, ◌<◌, ◌+◌, ◌-◌, ◌+ℤ◌, pos, []};
ghost use Rattle.typed_tree.specs.Decoded.{expr_at, selections_at, value_at, composite_at, associations_at, leaves_at, runs_in};
ghost use Rattle.run_store.specs.Environment.{env_of, part_of};
ghost use Rattle.run_store.specs.Shows.{Shows, ShowsAs};
ghost use Rattle.run_values.specs.Values.{OrNoMemory};
ghost use Rattle.run_walk.specs.Walk as spec;
ghost use Rattle.run_parts.specs.Words.{nodes_of};

use crate::exprs::eval;
use crate::names::select;
use ada_base::{Items, Reason};
use run_outside::Port;
use run_parts::{Cells, Work, further, lay, one, placed, read_whole, turned, write_all, zeros};
use run_store::{Env, Object, ObjectPart, Store};
use run_values::{End, Leave, is_in, is_true};
use typed_tree::{Association, Check, Composite, Iterated, Leaf, Root, Run, Value};

/// The cells of what is stored.
#[cycle(walk)]
#[inline(never)]
#[tactic(auto, unfolding(ada_meaning::specs::Stored::bind, ada_meaning::specs::Stored::ret, ada_meaning::specs::Stored::leaves, ada_meaning::specs::Stored::spent, ada_meaning::specs::Stored::handles, crate::specs::Walk::cells, crate::specs::Walk::composite, crate::specs::Walk::eval))]
pub fn cells<P: Port + Drop>(
    work: &Work<'_>,
    calls: u32,
    id: u32,
    env: &Env<'_>,
    store: &mut Store<P>,
) -> Result<Cells, End>
    ensures { Shows P.Tells (spec.cells work.now calls (value_at (nodes_of work.now) id) (env_of env.now)) result store.old store.new }
{
    match work.typed.nodes.value(id) {
        None => Ok(Cells::many(Items::new(work.alloc))),
        Some(Value::Number { check, value }) => {
            let values = number(work, calls, check, value, env, store)?;
            Ok(values)
        }
        Some(Value::Cells { composite: value }) => {
            let values = composite(work, calls, value, env, store)?;
            Ok(Cells::many(values))
        }
    }
}

#[cycle(walk)]
fn number<P: Port + Drop>(
    work: &Work<'_>,
    calls: u32,
    check: Check,
    value: u32,
    env: &Env<'_>,
    store: &mut Store<P>,
) -> Result<Cells, End>
    ensures { Shows P.Tells (spec.number work.now calls check (expr_at (nodes_of work.now) value) (env_of env.now)) result store.old store.new }
{
    let x = eval(work, calls, value, env, store)?;
    if is_in(check.scalar, x) {
        let values = one(work, x)?;
        Ok(values)
    } else {
        Err(End::Left(Leave::Raises(Reason::ConstraintError)))
    }
}

/// The cells of an expression of an array or record type.
#[cycle(walk)]
#[inline(never)]
#[tactic(auto, unfolding(ada_meaning::specs::Stored::bind, ada_meaning::specs::Stored::ret, ada_meaning::specs::Stored::leaves, ada_meaning::specs::Stored::spent, ada_meaning::specs::Stored::handles, crate::specs::Walk::composite, crate::specs::Walk::associated, crate::specs::Walk::eval, crate::specs::Walk::select, run_parts::specs::Words::read_all))]
pub fn composite<P: Port + Drop>(
    work: &Work<'_>,
    calls: u32,
    id: u32,
    env: &Env<'_>,
    store: &mut Store<P>,
) -> Result<Items<i64>, End>
    ensures { Shows P.Tells (spec.composite work.now calls (composite_at (nodes_of work.now) id) (env_of env.now)) result store.old store.new }
{
    match work.typed.nodes.composite(id) {
        Composite::WholeVariable {
            root,
            selections,
            subtype,
            ..
        } => {
            let values = whole_variable(work, calls, root, selections, subtype, env, store)?;
            Ok(values)
        }
        Composite::WholeConstant {
            root,
            selections,
            subtype,
            ..
        } => {
            let values = whole_constant(work, calls, root, selections, subtype, env, store)?;
            Ok(values)
        }
        Composite::WholeTarget { subtype, .. } => {
            let part = env.target();
            let values = read_whole(
                work,
                Object::Variable(part.object),
                part.offset,
                subtype,
                store,
            )?;
            Ok(values)
        }
        Composite::If {
            condition,
            value,
            otherwise,
        } => {
            let values = composite_if(work, calls, condition, value, otherwise, env, store)?;
            Ok(values)
        }
        Composite::Aggregate {
            cells: count,
            associations,
            ..
        } => {
            let first = zeros(work, count)?;
            let values = associated(work, calls, associations, env, first, store)?;
            Ok(values)
        }
    }
}

#[cycle(walk)]
#[inline(never)]
fn whole_variable<P: Port + Drop>(
    work: &Work<'_>,
    calls: u32,
    root: Root,
    selections: u32,
    subtype: u32,
    env: &Env<'_>,
    store: &mut Store<P>,
) -> Result<Items<i64>, End>
    ensures { Shows P.Tells (spec.whole_variable work.now calls root (selections_at (nodes_of work.now) selections) subtype (env_of env.now)) result store.old store.new }
{
    let part = select(work, calls, selections, env, env.variable_root(root), store)?;
    let values = read_whole(
        work,
        Object::Variable(part.object),
        part.offset,
        subtype,
        store,
    )?;
    Ok(values)
}

#[cycle(walk)]
#[inline(never)]
fn whole_constant<P: Port + Drop>(
    work: &Work<'_>,
    calls: u32,
    root: Root,
    selections: u32,
    subtype: u32,
    env: &Env<'_>,
    store: &mut Store<P>,
) -> Result<Items<i64>, End>
    ensures { Shows P.Tells (spec.whole_constant work.now calls root (selections_at (nodes_of work.now) selections) subtype (env_of env.now)) result store.old store.new }
{
    let part = select(work, calls, selections, env, env.constant_root(root), store)?;
    let values = read_whole(
        work,
        Object::Constant(part.object),
        part.offset,
        subtype,
        store,
    )?;
    Ok(values)
}

#[cycle(walk)]
#[inline(never)]
fn composite_if<P: Port + Drop>(
    work: &Work<'_>,
    calls: u32,
    condition: u32,
    value: u32,
    otherwise: u32,
    env: &Env<'_>,
    store: &mut Store<P>,
) -> Result<Items<i64>, End>
    ensures { Shows P.Tells (spec.composite_if work.now calls (expr_at (nodes_of work.now) condition) (composite_at (nodes_of work.now) value) (composite_at (nodes_of work.now) otherwise) (env_of env.now)) result store.old store.new }
{
    let c = eval(work, calls, condition, env, store)?;
    if is_true(c) {
        let values = composite(work, calls, value, env, store)?;
        Ok(values)
    } else {
        let values = composite_else(work, calls, otherwise, env, store)?;
        Ok(values)
    }
}

// the cells of what stands behind `else` or `elsif`, one frame deeper
#[cycle(walk)]
fn composite_else<P: Port + Drop>(
    work: &Work<'_>,
    calls: u32,
    id: u32,
    env: &Env<'_>,
    store: &mut Store<P>,
) -> Result<Items<i64>, End>
    ensures { Shows P.Tells (spec.composite work.now calls (composite_at (nodes_of work.now) id) (env_of env.now)) result store.old store.new }
{
    store.take_room()?;
    let values = composite(work, calls, id, env, store);
    store.give_room();
    values
}

/// The components that associations give, from left to right, laid over cells (4.3).
#[cycle(walk)]
#[inline(never)]
#[tactic(auto, unfolding(ada_meaning::specs::Stored::bind, ada_meaning::specs::Stored::ret, ada_meaning::specs::Stored::leaves, ada_meaning::specs::Stored::spent, ada_meaning::specs::Stored::handles, crate::specs::Walk::associated, crate::specs::Walk::association_values, crate::specs::Walk::runs_values, crate::specs::Walk::cells))]
fn associated<P: Port + Drop>(
    work: &Work<'_>,
    calls: u32,
    id: u32,
    env: &Env<'_>,
    out: Items<i64>,
    store: &mut Store<P>,
) -> Result<Items<i64>, End>
    ensures { Shows P.Tells (spec.associated work.now calls (associations_at (nodes_of work.now) id) (env_of env.now) out) result store.old store.new }
{
    match work.typed.nodes.associations(id) {
        None => Ok(out),
        Some(cell) => match work.typed.nodes.association(cell.first) {
            None => {
                let all = associated_rest(work, calls, cell.rest, env, out, store)?;
                Ok(all)
            }
            Some(association) => {
                let more = association_values(work, calls, association, env, out, store)?;
                let all = associated_rest(work, calls, cell.rest, env, more, store)?;
                Ok(all)
            }
        },
    }
}

// the components that one association gives
#[cycle(walk)]
#[inline(never)]
#[tactic(auto, unfolding(crate::specs::Walk::association_values))]
fn association_values<P: Port + Drop>(
    work: &Work<'_>,
    calls: u32,
    association: Association,
    env: &Env<'_>,
    out: Items<i64>,
    store: &mut Store<P>,
) -> Result<Items<i64>, End>
    ensures { Shows P.Tells (spec.association_values work.now calls (runs_in (leaves_at (nodes_of work.now) association.runs)) association.iterated (value_at (nodes_of work.now) association.value) (env_of env.now) out) result store.old store.new }
{
    let turns = association.iterated.is_some();
    let each = PerComponent {
        turns,
        iterated: association.iterated,
        value: association.value,
    };
    runs_values(work, calls, association.runs, each, env, out, store)
}

// the components of the associations behind one, one frame deeper
#[cycle(walk)]
fn associated_rest<P: Port + Drop>(
    work: &Work<'_>,
    calls: u32,
    id: u32,
    env: &Env<'_>,
    out: Items<i64>,
    store: &mut Store<P>,
) -> Result<Items<i64>, End>
    ensures { Shows P.Tells (spec.associated work.now calls (associations_at (nodes_of work.now) id) (env_of env.now) out) result store.old store.new }
{
    store.take_room()?;
    let all = associated(work, calls, id, env, out, store);
    store.give_room();
    all
}

/// How a component of an association gets its value (4.3.3): whether that takes a turn, the parameter, and the value.
#[derive(Clone, Copy)]
struct PerComponent {
    turns: bool,
    iterated: Option<Iterated>,
    value: u32,
}

#[cycle(walk)]
#[inline(never)]
#[tactic(auto, unfolding(ada_meaning::specs::Stored::bind, ada_meaning::specs::Stored::ret, ada_meaning::specs::Stored::leaves, ada_meaning::specs::Stored::spent, ada_meaning::specs::Stored::handles, crate::specs::Walk::runs_values, crate::specs::Walk::run_values))]
fn runs_values<P: Port + Drop>(
    work: &Work<'_>,
    calls: u32,
    runs: u32,
    each: PerComponent,
    env: &Env<'_>,
    out: Items<i64>,
    store: &mut Store<P>,
) -> Result<Items<i64>, End>
    ensures { Shows P.Tells (spec.runs_values work.now calls (runs_in (leaves_at (nodes_of work.now) runs)) each.turns each.iterated (value_at (nodes_of work.now) each.value) (env_of env.now) out) result store.old store.new }
{
    match work.typed.nodes.leaf(runs) {
        None => Ok(out),
        Some(cell) => match cell.leaf {
            Leaf::Run(run) => {
                let more = run_values(work, calls, run, each, env, out, store)?;
                let all = runs_rest(work, calls, cell.rest, each, env, more, store)?;
                Ok(all)
            }
            _ => {
                let all = runs_rest(work, calls, cell.rest, each, env, out, store)?;
                Ok(all)
            }
        },
    }
}

// the components of the runs behind one, one frame deeper
#[cycle(walk)]
fn runs_rest<P: Port + Drop>(
    work: &Work<'_>,
    calls: u32,
    runs: u32,
    each: PerComponent,
    env: &Env<'_>,
    out: Items<i64>,
    store: &mut Store<P>,
) -> Result<Items<i64>, End>
    ensures { Shows P.Tells (spec.runs_values work.now calls (runs_in (leaves_at (nodes_of work.now) runs)) each.turns each.iterated (value_at (nodes_of work.now) each.value) (env_of env.now) out) result store.old store.new }
{
    store.take_room()?;
    let all = runs_values(work, calls, runs, each, env, out, store);
    store.give_room();
    all
}

#[cycle(walk)]
#[inline(never)]
fn run_values<P: Port + Drop>(
    work: &Work<'_>,
    calls: u32,
    run: Run,
    each: PerComponent,
    env: &Env<'_>,
    out: Items<i64>,
    store: &mut Store<P>,
) -> Result<Items<i64>, End>
    ensures { Shows P.Tells (spec.run_values work.now calls 0 run.count run.first run.stride each.turns each.iterated (value_at (nodes_of work.now) each.value) (env_of env.now) out) result store.old store.new }
{
    let mut cells = out;
    let mut first = run.first as u64;
    for k in 0..run.count as u64 {
        let values = given(work, calls, each, k, env, store)?;
        lay(&mut cells, first, values.as_slice());
        first = further(first, run.stride)?;
    }
    Ok(cells)
}

// the cells of one component of an association
#[cycle(walk)]
#[inline(never)]
#[tactic(auto, unfolding(ada_meaning::specs::Stored::bind, ada_meaning::specs::Stored::ret, ada_meaning::specs::Stored::turn))]
fn given<P: Port + Drop>(
    work: &Work<'_>,
    calls: u32,
    each: PerComponent,
    index: u64,
    env: &Env<'_>,
    store: &mut Store<P>,
) -> Result<Cells, End>
    ensures { Shows P.Tells (spec.given work.now calls each.turns each.iterated index (value_at (nodes_of work.now) each.value) (env_of env.now)) result store.old store.new }
{
    if each.turns {
        turned(work, store)?;
        let values = placed_value(work, calls, each, index, env, store)?;
        Ok(values)
    } else {
        let values = placed_value(work, calls, each, index, env, store)?;
        Ok(values)
    }
}

// the same where the turn has been taken
#[cycle(walk)]
#[inline(never)]
fn placed_value<P: Port + Drop>(
    work: &Work<'_>,
    calls: u32,
    each: PerComponent,
    index: u64,
    env: &Env<'_>,
    store: &mut Store<P>,
) -> Result<Cells, End>
    ensures { Shows P.Tells (spec.placed_value work.now calls each.iterated index (value_at (nodes_of work.now) each.value) (env_of env.now)) result store.old store.new }
{
    match each.iterated {
        None => {
            let values = cells(work, calls, each.value, env, store)?;
            Ok(values)
        }
        Some(iterated) => {
            let place = placed(iterated.first, index)?;
            let inner = Env::Parameter {
                number: iterated.parameter,
                value: place,
                outer: &*env,
            };
            let values = cells(work, calls, each.value, &inner, store)?;
            Ok(values)
        }
    }
}

/// A part of a variable gets what is stored there (5.2).
#[cycle(walk)]
#[inline(always)]
#[tactic(auto, unfolding(ada_meaning::specs::Stored::bind, ada_meaning::specs::Stored::ret, ada_meaning::specs::Stored::leaves, ada_meaning::specs::Stored::spent, ada_meaning::specs::Stored::handles, crate::specs::Walk::cells, crate::specs::Walk::composite, crate::specs::Walk::eval, run_parts::specs::Words::write_all))]
fn assigned<P: Port + Drop>(
    work: &Work<'_>,
    calls: u32,
    id: u32,
    part: ObjectPart,
    env: &Env<'_>,
    store: &mut Store<P>,
) -> Result<(), End>
    ensures { Shows P.Tells (spec.assigned work.now calls (value_at (nodes_of work.now) id) (part_of part) (env_of env.now)) result store.old store.new }
{
    match work.typed.nodes.value(id) {
        None => Ok(()),
        Some(Value::Number { check, value }) => {
            let x = eval(work, calls, value, env, store)?;
            if is_in(check.scalar, x) {
                store.write(part.object, part.offset, x)?;
                Ok(())
            } else {
                Err(End::Left(Leave::Raises(Reason::ConstraintError)))
            }
        }
        Some(Value::Cells { composite: value }) => {
            let values = composite(work, calls, value, env, store)?;
            write_all(work, part.object, part.offset, values.as_slice(), store)?;
            Ok(())
        }
    }
}

/// An assignment (5.2).
#[cycle(walk)]
#[inline(never)]
pub fn assign<P: Port + Drop>(
    work: &Work<'_>,
    calls: u32,
    root: Root,
    selections: u32,
    value: u32,
    env: &Env<'_>,
    store: &mut Store<P>,
) -> Result<(), End>
    ensures { Shows P.Tells (spec.assign work.now calls root (selections_at (nodes_of work.now) selections) (value_at (nodes_of work.now) value) (env_of env.now)) result store.old store.new }
{
    let part = select(work, calls, selections, env, env.variable_root(root), store)?;
    let inner = Env::Target { part, outer: &*env };
    assigned(work, calls, value, part, &inner, store)?;
    Ok(())
}
