//! What iterations go through (5.5, 5.5.2).

ghost use Rattle.std.specs.Prelude.{◌≡◌, ◌<◌, ◌*◌, length};
ghost use Rattle.typed_tree.specs.Decoded.{expr_at, selections_at, iteration_at, optional_at};
ghost use Rattle.ada_meaning.specs.Meaning as meaning;
ghost use Rattle.run_store.specs.Environment.{env_of, part_of};
ghost use Rattle.run_store.specs.Shows.{Shows, ShowsAs};
ghost use Rattle.run_values.specs.Values.{OrNoMemory};
ghost use Rattle.run_parts.specs.Passing.{course_of};
ghost use Rattle.run_walk.specs.Walk as spec;
ghost use Rattle.run_parts.specs.Words.{nodes_of};

use crate::exprs::{eval, holds};
use crate::names::select;
use ada_base::Reason;
use run_outside::Port;
use run_parts::{Course, Work, bounds_hold};
use run_store::{Env, ObjectPart, Store};
use run_values::{End, Leave, Range};
use typed_tree::Iteration;

/// The range or array of an iteration.
#[cycle(walk)]
#[inline(never)]
#[tactic(auto, unfolding(ada_meaning::specs::Stored::bind, ada_meaning::specs::Stored::ret, ada_meaning::specs::Stored::leaves, ada_meaning::specs::Stored::spent, ada_meaning::specs::Stored::handles, crate::specs::Walk::course, crate::specs::Walk::eval, crate::specs::Walk::select))]
pub fn begin_course<P: Port + Drop>(
    work: &Work<'_>,
    calls: u32,
    id: u32,
    env: &Env<'_>,
    store: &mut Store<P>,
) -> Result<Course, End>
    ensures { ShowsAs course_of P.Tells (spec.course work.now calls (iteration_at (nodes_of work.now) id) (env_of env.now)) result store.old store.new }
{
    match work.typed.nodes.iteration(id) {
        None => Ok(Course::Components {
            item: 0,
            constant: true,
            part: ObjectPart {
                object: 0,
                offset: 0,
            },
            count: 0,
            stride: 0,
        }),
        Some(
            Iteration::Range {
                parameter,
                reverse,
                low,
                high,
                check,
                ..
            },
        ) => {
            let l = eval(work, calls, low, env, store)?;
            let h = eval(work, calls, high, env, store)?;
            let range = Range { low: l, high: h };
            if bounds_hold(work.typed.nodes.check(check), range) {
                Ok(Course::Values {
                    parameter,
                    reverse,
                    range,
                })
            } else {
                Err(End::Left(Leave::Raises(Reason::ConstraintError)))
            }
        }
        Some(
            Iteration::Components {
                item,
                constant,
                root,
                selections,
                count,
                stride,
                ..
            },
        ) => {
            let part = select(
                work,
                calls,
                selections,
                env,
                env.array_root(constant, root),
                store,
            )?;
            Ok(Course::Components {
                item,
                constant,
                part,
                count,
                stride,
            })
        }
    }
}

/// Whether an iteration passes its filter (5.5).
#[cycle(walk)]
#[tactic(auto, unfolding(ada_meaning::specs::Stored::bind, ada_meaning::specs::Stored::ret, ada_meaning::specs::Stored::leaves, ada_meaning::specs::Stored::spent, ada_meaning::specs::Stored::handles, crate::specs::Walk::filtered, crate::specs::Walk::holds))]
pub fn filtered<P: Port + Drop>(
    work: &Work<'_>,
    calls: u32,
    id: u32,
    env: &Env<'_>,
    store: &mut Store<P>,
) -> Result<bool, End>
    ensures { Shows P.Tells (spec.filtered work.now calls (iteration_at (nodes_of work.now) id) (env_of env.now)) result store.old store.new }
{
    match work.typed.nodes.iteration(id) {
        None => Ok(true),
        Some(Iteration::Range { filter, .. } | Iteration::Components { filter, .. }) => {
            let passes = holds(work, calls, filter, env, store)?;
            Ok(passes)
        }
    }
}
