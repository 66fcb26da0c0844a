//! Names of objects and of parts of them (4.1).

ghost use Rattle.std.specs.Prelude.{◌≡◌, ◌<◌, ◌+◌, ◌*◌, ◌-ℤ◌, length};
ghost use Rattle.typed_tree.specs.Decoded.{expr_at, selections_at};
ghost use Rattle.run_store.specs.Environment.{env_of, part_of};
ghost use Rattle.run_store.specs.Shows.{ShowsAs};
ghost use Rattle.run_values.specs.Values.{OrNoMemory};
ghost use Rattle.ada_meaning.specs.Values.{to_nat};
ghost use Rattle.ada_meaning.specs.Meaning as meaning;
ghost use Rattle.run_walk.specs.Walk as spec;
ghost use Rattle.run_parts.specs.Words.{nodes_of};

use crate::exprs::eval;
use crate::quick::{LEVELS, quick_rest};
use ada_base::Reason;
use run_outside::Port;
use run_parts::{Work, component, moved};
use run_store::{Env, ObjectPart, Store};
use run_values::{End, Leave, Range, between};
use typed_tree::Selection;

/// The part that selections lead to (4.1.1, 4.1.3).
#[cycle(walk)]
pub fn select<P: Port + Drop>(
    work: &Work<'_>,
    calls: u32,
    id: u32,
    env: &Env<'_>,
    part: ObjectPart,
    store: &mut Store<P>,
) -> Result<ObjectPart, End>
    ensures { ShowsAs part_of P.Tells (spec.select work.now calls (selections_at (nodes_of work.now) id) (env_of env.now) (part_of part)) result store.old store.new }
{
    match quick_rest(
        work,
        calls,
        LEVELS,
        id,
        env,
        part.object,
        part.offset,
        &*store,
    ) {
        Some(offset) => Ok(ObjectPart {
            object: part.object,
            offset,
        }),
        None => select_by_parts(work, calls, id, env, part, store),
    }
}

#[cycle(walk)]
#[inline(never)]
#[tactic(auto, unfolding(ada_meaning::specs::Stored::bind, ada_meaning::specs::Stored::ret, ada_meaning::specs::Stored::leaves, ada_meaning::specs::Stored::spent, ada_meaning::specs::Stored::handles, crate::specs::Walk::eval, crate::specs::Walk::select))]
fn select_by_parts<P: Port + Drop>(
    work: &Work<'_>,
    calls: u32,
    id: u32,
    env: &Env<'_>,
    part: ObjectPart,
    store: &mut Store<P>,
) -> Result<ObjectPart, End>
    ensures { ShowsAs part_of P.Tells (spec.select work.now calls (selections_at (nodes_of work.now) id) (env_of env.now) (part_of part)) result store.old store.new }
{
    match work.typed.nodes.selections(id) {
        None => Ok(part),
        Some(cell) => match work.typed.nodes.selection(cell.first) {
            None => select_rest(work, calls, cell.rest, env, part, store),
            Some(Selection::Field { offset, .. }) => field(
                work, calls, offset, cell.rest, env, part, store,
            ),
            Some(
                Selection::Index {
                    at,
                    index: value,
                    low,
                    high,
                    stride,
                },
            ) => {
                let range = Range { low, high };
                index(
                    work, calls, at, value, range, stride, cell.rest, env, part, store,
                )
            }
        },
    }
}

// the part that the selections behind one lead to, one frame deeper
#[cycle(walk)]
fn select_rest<P: Port + Drop>(
    work: &Work<'_>,
    calls: u32,
    id: u32,
    env: &Env<'_>,
    part: ObjectPart,
    store: &mut Store<P>,
) -> Result<ObjectPart, End>
    ensures { ShowsAs part_of P.Tells (spec.select work.now calls (selections_at (nodes_of work.now) id) (env_of env.now) (part_of part)) result store.old store.new }
{
    store.take_room()?;
    let found = select(work, calls, id, env, part, store);
    store.give_room();
    found
}

#[cycle(walk)]
#[inline(never)]
fn field<P: Port + Drop>(
    work: &Work<'_>,
    calls: u32,
    offset: u32,
    rest: u32,
    env: &Env<'_>,
    part: ObjectPart,
    store: &mut Store<P>,
) -> Result<ObjectPart, End>
    ensures { ShowsAs part_of P.Tells (spec.field work.now calls offset (selections_at (nodes_of work.now) rest) (env_of env.now) (part_of part)) result store.old store.new }
{
    let inner = moved(part, u64::from(offset))?;
    let found = select_rest(work, calls, rest, env, inner, store)?;
    Ok(found)
}

#[cycle(walk)]
#[inline(never)]
fn index<P: Port + Drop>(
    work: &Work<'_>,
    calls: u32,
    at: u32,
    value: u32,
    range: Range,
    stride: u32,
    rest: u32,
    env: &Env<'_>,
    part: ObjectPart,
    store: &mut Store<P>,
) -> Result<ObjectPart, End>
    ensures { ShowsAs part_of P.Tells (spec.index work.now calls at (expr_at (nodes_of work.now) value) range.low range.high stride (selections_at (nodes_of work.now) rest) (env_of env.now) (part_of part)) result store.old store.new }
{
    let _ = at;
    let i = eval(work, calls, value, env, store)?;
    if between(range.low, i, range.high) {
        let inner = component(part, i, range.low, stride)?;
        let found = select_rest(work, calls, rest, env, inner, store)?;
        Ok(found)
    } else {
        Err(End::Left(Leave::Raises(Reason::ConstraintError)))
    }
}
