//! Loops (5.5).

ghost use Rattle.std.specs.Prelude.{◌≡◌, ◌<◌};
ghost use Rattle.typed_tree.specs.Decoded.{iteration_at, optional_at, stmts_at};
ghost use Rattle.run_store.specs.Environment.{env_of};
ghost use Rattle.run_store.specs.Shows.{Shows};
ghost use Rattle.run_parts.specs.Caught.{caught};
ghost use Rattle.run_parts.specs.Passing.{course_of};
ghost use Rattle.run_walk.specs.Walk as spec;
ghost use Rattle.run_parts.specs.Words.{nodes_of};

use crate::courses::{begin_course, filtered};
use crate::exprs::holds;
use crate::stmts::exec_all;
use run_outside::Port;
use run_parts::{Course, Work, caught, turned};
use run_store::{Env, Store};
use run_values::End;

/// `loop` and `while` (5.5)
#[cycle(walk)]
#[inline(never)]
pub fn while_stmt<P: Port + Drop>(
    work: &Work<'_>,
    calls: u32,
    number: u32,
    condition: u32,
    stmts: u32,
    env: &Env<'_>,
    store: &mut Store<P>,
) -> Result<(), End>
    ensures { Shows P.Tells (spec.while_stmt work.now calls number (optional_at (nodes_of work.now) condition) (stmts_at (nodes_of work.now) stmts) (env_of env.now)) result store.old store.new }
{
    let how = while_loop(work, calls, condition, stmts, env, store);
    caught(number, how)
}

#[cycle(walk)]
#[inline(never)]
fn while_loop<P: Port + Drop>(
    work: &Work<'_>,
    calls: u32,
    condition: u32,
    stmts: u32,
    env: &Env<'_>,
    store: &mut Store<P>,
) -> Result<(), End>
    ensures { Shows P.Tells (spec.while_loop work.now calls (optional_at (nodes_of work.now) condition) (stmts_at (nodes_of work.now) stmts) (env_of env.now)) result store.old store.new }
{
    for turn in 0..=work.limit {
        let goes_on = holds(work, calls, condition, env, store)?;
        if !goes_on {
            return Ok(());
        }
        turned(work, store)?;
        exec_all(work, calls, stmts, env, store)?;
    }
    Err(End::Spent)
}

/// `for` (5.5)
#[cycle(walk)]
#[inline(never)]
pub fn for_stmt<P: Port + Drop>(
    work: &Work<'_>,
    calls: u32,
    number: u32,
    iteration: u32,
    stmts: u32,
    env: &Env<'_>,
    store: &mut Store<P>,
) -> Result<(), End>
    ensures { Shows P.Tells (spec.for_stmt work.now calls number (iteration_at (nodes_of work.now) iteration) (stmts_at (nodes_of work.now) stmts) (env_of env.now)) result store.old store.new }
{
    let course = begin_course(work, calls, iteration, env, store)?;
    let how = for_loop(work, calls, course, iteration, stmts, env, store);
    caught(number, how)
}

#[cycle(walk)]
#[inline(never)]
fn for_loop<P: Port + Drop>(
    work: &Work<'_>,
    calls: u32,
    course: Course,
    iteration: u32,
    stmts: u32,
    env: &Env<'_>,
    store: &mut Store<P>,
) -> Result<(), End>
    ensures { Shows P.Tells (spec.for_loop work.now calls (course_of course) (iteration_at (nodes_of work.now) iteration) (stmts_at (nodes_of work.now) stmts) (env_of env.now)) result store.old store.new }
{
    match course.last() {
        None => Ok(()),
        Some(last) => {
            for i in 0..=last {
                iterate(work, calls, course, i, iteration, stmts, env, store)?;
            }
            Ok(())
        }
    }
}

/// An iteration: its turn, its filter, and what is done where that passes.
#[cycle(walk)]
#[inline(never)]
pub fn iterate<P: Port + Drop>(
    work: &Work<'_>,
    calls: u32,
    course: Course,
    index: u64,
    iteration: u32,
    stmts: u32,
    env: &Env<'_>,
    store: &mut Store<P>,
) -> Result<(), End>
    ensures { Shows P.Tells (spec.iterate work.now calls (iteration_at (nodes_of work.now) iteration) (stmts_at (nodes_of work.now) stmts) ((course_of course).bound index (env_of env.now))) result store.old store.new }
{
    let inner = course.bound(index, &*env)?;
    turned(work, store)?;
    let passes = filtered(work, calls, iteration, &inner, store)?;
    if passes {
        exec_all(work, calls, stmts, &inner, store)?;
        Ok(())
    } else {
        Ok(())
    }
}
