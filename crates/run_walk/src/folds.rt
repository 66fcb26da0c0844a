//! Reductions (4.5.10).

ghost use Rattle.std.specs.Prelude.{◌≡◌, ◌<◌, ◌+◌, ◌-◌, suc};
ghost use Rattle.typed_tree.specs.Decoded.{chunk_at, expr_at, iteration_at};
ghost use Rattle.behaviours.specs.Joins.{Share};
ghost use Rattle.run_store.specs.Environment.{env_of};
ghost use Rattle.run_store.specs.Shows.{Shows, ShowsAs};
ghost use Rattle.run_parts.specs.Dealing.{chunking_of};
ghost use Rattle.run_parts.specs.Passing.{course_of};
ghost use Rattle.run_walk.specs.Walk as spec;
ghost use Rattle.run_walk.specs.Threads.{folded_of};
ghost use Rattle.run_parts.specs.Words.{nodes_of};

use crate::calls::{call, call_checked};
use crate::constructs::begin_chunks;
use crate::courses::{begin_course, filtered};
use crate::exprs::eval;
use ada_base::{Items, Reason};
use run_outside::Port;
use run_parts::{
    Both, Chunking, Course, Work, check_count, either, fold_sizes, inside, is_spent, later, opened,
    push_some, reduced_by, size_at, turned, value_at,
};
use run_store::{Env, Store};
use run_values::{End, Leave};
use typed_tree::Reducer;

/// What is folded in a reduction, and by what: the token of its attribute, and the nodes of its iteration and its value.
#[derive(Clone, Copy)]
pub struct Fold {
    pub attribute: u32,
    pub reducer: Reducer,
    pub iteration: u32,
    pub value: u32,
}

/// What a thread folded, unless it was left, or None where its turns are spent; and the greatest count of turns so far.
#[derive(Clone, Copy)]
pub struct Folded {
    pub value: Option<i64>,
    pub most: u64,
}

/// A reduction that isn't parallel.
#[cycle(walk)]
#[inline(never)]
pub fn reduction<P: Port + Drop>(
    work: &Work<'_>,
    calls: u32,
    by: Fold,
    initial: u32,
    env: &Env<'_>,
    store: &mut Store<P>,
) -> Result<i64, End>
    ensures { Shows P.Tells (spec.reduction work.now calls by (expr_at (nodes_of work.now) initial) (env_of env.now)) result store.old store.new }
{
    let start = eval(work, calls, initial, env, store)?;
    let course = begin_course(work, calls, by.iteration, env, store)?;
    let total = fold_all(work, calls, by, course, start, env, store)?;
    Ok(total)
}

#[cycle(walk)]
#[inline(never)]
fn fold_all<P: Port + Drop>(
    work: &Work<'_>,
    calls: u32,
    by: Fold,
    course: Course,
    start: i64,
    env: &Env<'_>,
    store: &mut Store<P>,
) -> Result<i64, End>
    ensures { Shows P.Tells (spec.fold_left work.now calls by 0 (course_of course).count (course_of course) start (env_of env.now)) result store.old store.new }
{
    match course.last() {
        None => Ok(start),
        Some(last) => {
            let total = fold_iterations(work, calls, by, course, 0, last, start, env, store)?;
            Ok(total)
        }
    }
}

// the iterations from one to another
#[cycle(walk)]
#[inline(never)]
fn fold_iterations<P: Port + Drop>(
    work: &Work<'_>,
    calls: u32,
    by: Fold,
    course: Course,
    first: u64,
    last: u64,
    start: i64,
    env: &Env<'_>,
    store: &mut Store<P>,
) -> Result<i64, End>
    ensures { Shows P.Tells (spec.fold_left work.now calls by first (suc last - first) (course_of course) start (env_of env.now)) result store.old store.new }
{
    let mut total = start;
    for i in first..=last {
        total = fold_one(work, calls, by, course, i, total, env, store)?;
    }
    Ok(total)
}

// the value of an iteration, where that passes its filter, onto what was folded so far
#[cycle(walk)]
#[inline(never)]
fn fold_one<P: Port + Drop>(
    work: &Work<'_>,
    calls: u32,
    by: Fold,
    course: Course,
    index: u64,
    so_far: i64,
    env: &Env<'_>,
    store: &mut Store<P>,
) -> Result<i64, End>
    ensures { Shows P.Tells (spec.fold_one work.now calls by (env_of env.now).nested ((course_of course).bound index (env_of env.now)) so_far) result store.old store.new }
{
    let inner = course.bound(index, &*env)?;
    let found = iterated_value(work, calls, by, &inner, store)?;
    match found {
        None => Ok(so_far),
        Some(v) => {
            let total = reduced(work, calls, by, env.nested(), so_far, v, store)?;
            Ok(total)
        }
    }
}

#[cycle(walk)]
#[inline(never)]
fn iterated_value<P: Port + Drop>(
    work: &Work<'_>,
    calls: u32,
    by: Fold,
    env: &Env<'_>,
    store: &mut Store<P>,
) -> Result<Option<i64>, End>
    ensures { Shows P.Tells (spec.iterated_value work.now calls by (env_of env.now)) result store.old store.new }
{
    turned(work, store)?;
    let passes = filtered(work, calls, by.iteration, env, store)?;
    if passes {
        let v = eval(work, calls, by.value, env, store)?;
        Ok(Some(v))
    } else {
        Ok(None)
    }
}

// one step of a fold by a reducer
#[cycle(walk)]
#[inline(never)]
fn reduced<P: Port + Drop>(
    work: &Work<'_>,
    calls: u32,
    by: Fold,
    nested: u32,
    a: i64,
    b: i64,
    store: &mut Store<P>,
) -> Result<i64, End>
    ensures { Shows P.Tells (spec.reduced work.now calls by nested a b) result store.old store.new }
{
    match by.reducer {
        Reducer::Operator { op, class, .. } => store.operate(op, by.attribute, class, a, b),
        Reducer::Function {
            at,
            sub,
            accumulator,
            value,
        } => {
            let both = Both {
                at,
                accumulator,
                value,
                a,
                b,
            };
            reduced_by_call(work, calls, nested, sub, both, store)
        }
    }
}

#[cycle(walk)]
#[inline(never)]
fn reduced_by_call<P: Port + Drop>(
    work: &Work<'_>,
    calls: u32,
    nested: u32,
    sub: u32,
    both: Both,
    store: &mut Store<P>,
) -> Result<i64, End>
    ensures { Shows P.Tells (spec.reduced_by_call work.now calls nested sub both) result store.old store.new }
{
    if both.hold() {
        let passed = reduced_by(work, sub, both.a, both.b)?;
        let returned = call(work, calls, nested, sub, passed.as_slice(), store)?;
        Ok(returned.value)
    } else {
        Err(End::Left(Leave::Raises(Reason::ConstraintError)))
    }
}

/// A parallel reduction.
#[cycle(walk)]
#[inline(never)]
pub fn parallel_reduction<P: Port + Drop>(
    work: &Work<'_>,
    calls: u32,
    by: Fold,
    initial: u32,
    chunk: u32,
    env: &Env<'_>,
    store: &mut Store<P>,
) -> Result<i64, End>
    ensures { Shows P.Tells (spec.parallel_reduction work.now calls by (expr_at (nodes_of work.now) initial) (chunk_at (nodes_of work.now) chunk) (env_of env.now)) result store.old store.new }
{
    let inner = inside(&*env)?;
    let start = eval(work, calls, initial, env, store)?;
    opened(work, env, store)?;
    let chunking = begin_chunks(work, calls, chunk, &inner, store)?;
    let total = chunked_fold(work, calls, by, chunking, start, env, store)?;
    Ok(total)
}

#[cycle(walk)]
#[inline(never)]
fn chunked_fold<P: Port + Drop>(
    work: &Work<'_>,
    calls: u32,
    by: Fold,
    chunking: Chunking,
    start: i64,
    env: &Env<'_>,
    store: &mut Store<P>,
) -> Result<i64, End>
    ensures { Shows P.Tells (spec.chunked_fold work.now calls by (chunking_of chunking) start (env_of env.now)) result store.old store.new }
{
    let inner = inside(&*env)?;
    let course = begin_course(work, calls, by.iteration, &inner, store)?;
    check_count(work, course, store)?;
    let total = dealt_fold(work, calls, by, chunking, course, start, env, store)?;
    Ok(total)
}

#[cycle(walk)]
#[inline(never)]
fn dealt_fold<P: Port + Drop>(
    work: &Work<'_>,
    calls: u32,
    by: Fold,
    chunking: Chunking,
    course: Course,
    start: i64,
    env: &Env<'_>,
    store: &mut Store<P>,
) -> Result<i64, End>
    ensures { Shows P.Tells (spec.dealt_fold work.now calls by (chunking_of chunking) (course_of course) start (env_of env.now)) result store.old store.new }
{
    let inner = inside(&*env)?;
    let count = course.count()?;
    let sizes = fold_sizes(work, chunking, count)?;
    let values = fold_threads(
        work,
        calls,
        by,
        chunking,
        course,
        start,
        sizes.as_slice(),
        &inner,
        store,
    )?;
    let total = combined(
        work,
        calls,
        by,
        env.nested(),
        start,
        values.as_slice(),
        store,
    )?;
    Ok(total)
}

// threads of these sizes, one after the other; one that is left is the last
#[cycle(walk)]
#[inline(never)]
fn fold_threads<P: Port + Drop>(
    work: &Work<'_>,
    calls: u32,
    by: Fold,
    chunking: Chunking,
    course: Course,
    start: i64,
    sizes: &[u64],
    env: &Env<'_>,
    store: &mut Store<P>,
) -> Result<Items<i64>, End>
    ensures { Shows P.Tells (spec.threads_folded work.now calls by (chunking_of chunking) (course_of course) start sizes.now (env_of env.now)) result store.old store.new }
{
    let from = store.turns();
    let mut most = from;
    let mut over = false;
    let mut first = 0;
    let mut values = Items::new(work.alloc);
    let mut k = 0;
    while let Some(size) = size_at(sizes, k) {
        store.rewind(from);
        let folded = fold_thread(
            work, calls, by, chunking, course, start, most, k as u64, first, size, env, store,
        )?;
        most = folded.most;
        over = either(over, is_spent(folded.value));
        push_some(&mut values, folded.value)?;
        first = later(first, size)?;
        k += 1;
    }
    store.rewind(most);
    if over { Err(End::Spent) } else { Ok(values) }
}

#[cycle(walk)]
#[inline(never)]
#[tactic(auto, unfolding(ada_meaning::specs::Stored::bind, ada_meaning::specs::Stored::ret, ada_meaning::specs::Stored::leaves, ada_meaning::specs::Stored::spent, ada_meaning::specs::Stored::handles, ada_meaning::specs::Stored::thread, ada_meaning::specs::Stored::rewinds))]
fn fold_thread<P: Port + Drop>(
    work: &Work<'_>,
    calls: u32,
    by: Fold,
    chunking: Chunking,
    course: Course,
    start: i64,
    most: u64,
    number: u64,
    first: u64,
    size: u64,
    env: &Env<'_>,
    store: &mut Store<P>,
) -> Result<Folded, End>
    ensures { ShowsAs folded_of P.Tells (spec.thread_folded work.now calls by (chunking_of chunking) (course_of course) start most (record { number = number; first = first; size = size }) (env_of env.now)) result store.old store.new }
{
    match fold_share(
        work, calls, by, chunking, course, start, number, first, size, env, store,
    ) {
        Ok(value) => Ok(Folded {
            value: Some(value),
            most: most.max(store.turns()),
        }),
        Err(End::Spent) => Ok(Folded {
            value: None,
            most: most.max(store.turns()),
        }),
        Err(End::Left(how)) => {
            store.rewind(most.max(store.turns()));
            Err(End::Left(how))
        }
        Err(End::NoMemory) => Err(End::NoMemory),
        Err(End::ReadFault) => Err(End::ReadFault),
        Err(End::WriteFault) => Err(End::WriteFault),
    }
}

#[cycle(walk)]
#[inline(never)]
fn fold_share<P: Port + Drop>(
    work: &Work<'_>,
    calls: u32,
    by: Fold,
    chunking: Chunking,
    course: Course,
    start: i64,
    number: u64,
    first: u64,
    size: u64,
    env: &Env<'_>,
    store: &mut Store<P>,
) -> Result<i64, End>
    ensures { Shows P.Tells (spec.share_folded work.now calls by (chunking_of chunking) (course_of course) start (env_of env.now) (record { number = number; first = first; size = size })) result store.old store.new }
{
    let inner = chunking.bound(number, &*env)?;
    if size == 0 {
        Ok(start)
    } else {
        let last = later(first, size - 1)?;
        let total = fold_iterations(work, calls, by, course, first, last, start, &inner, store)?;
        Ok(total)
    }
}

// the accumulators of the threads, in their order; the initial value where there was none
#[cycle(walk)]
#[inline(never)]
#[tactic(auto, unfolding(ada_meaning::specs::Stored::bind, ada_meaning::specs::Stored::ret, ada_meaning::specs::Stored::leaves, ada_meaning::specs::Stored::spent, ada_meaning::specs::Stored::handles, crate::specs::Walk::combined, crate::specs::Walk::combined_onto))]
fn combined<P: Port + Drop>(
    work: &Work<'_>,
    calls: u32,
    by: Fold,
    nested: u32,
    start: i64,
    values: &[i64],
    store: &mut Store<P>,
) -> Result<i64, End>
    ensures { Shows P.Tells (spec.combined work.now calls by nested start values.now) result store.old store.new }
{
    match values.split_first() {
        None => Ok(start),
        Some((first, others)) => {
            let total = combined_onto(work, calls, by, nested, *first, others, store)?;
            Ok(total)
        }
    }
}

#[cycle(walk)]
#[inline(never)]
fn combined_onto<P: Port + Drop>(
    work: &Work<'_>,
    calls: u32,
    by: Fold,
    nested: u32,
    first: i64,
    values: &[i64],
    store: &mut Store<P>,
) -> Result<i64, End>
    ensures { Shows P.Tells (spec.combined_onto work.now calls by nested first values.now) result store.old store.new }
{
    let mut total = first;
    let mut k = 0;
    while let Some(value) = value_at(values, k) {
        total = combined_two(work, calls, by, nested, total, value, store)?;
        k += 1;
    }
    Ok(total)
}

#[cycle(walk)]
#[inline(never)]
fn combined_two<P: Port + Drop>(
    work: &Work<'_>,
    calls: u32,
    by: Fold,
    nested: u32,
    a: i64,
    b: i64,
    store: &mut Store<P>,
) -> Result<i64, End>
    ensures { Shows P.Tells (spec.combined_two work.now calls by nested a b) result store.old store.new }
{
    match by.reducer {
        Reducer::Operator { op, class, .. } => store.operate(op, by.attribute, class, a, b),
        Reducer::Function {
            at,
            sub,
            accumulator,
            value,
        } => {
            let both = Both {
                at,
                accumulator,
                value,
                a,
                b,
            };
            combined_by_call(work, calls, nested, sub, both, store)
        }
    }
}

#[cycle(walk)]
#[inline(never)]
fn combined_by_call<P: Port + Drop>(
    work: &Work<'_>,
    calls: u32,
    nested: u32,
    sub: u32,
    both: Both,
    store: &mut Store<P>,
) -> Result<i64, End>
    ensures { Shows P.Tells (spec.combined_by_call work.now calls nested sub both) result store.old store.new }
{
    let passed = reduced_by(work, sub, both.a, both.b)?;
    let returned = call_checked(work, calls, nested, sub, both, passed.as_slice(), store)?;
    Ok(returned.value)
}
