//! Parallel loops and blocks (5.5, 5.6.1), their threads in order.

ghost use Rattle.std.specs.Prelude.{◌≡◌, ◌<◌};
ghost use Rattle.typed_tree.specs.Decoded.{arms_at, chunk_at, iteration_at, optional_at, stmts_at};
ghost use Rattle.ada_meaning.specs.Meaning.{inside};
ghost use Rattle.behaviours.specs.Joins.{Share};
ghost use Rattle.run_store.specs.Environment.{env_of};
ghost use Rattle.run_store.specs.Shows.{Shows, ShowsAs};
ghost use Rattle.run_parts.specs.Dealing.{chunking_of};
ghost use Rattle.run_parts.specs.Passing.{course_of};
ghost use Rattle.run_walk.specs.Walk as spec;
ghost use Rattle.run_walk.specs.Threads.{took_of};
ghost use Rattle.run_parts.specs.Words.{nodes_of};

use crate::courses::begin_course;
use crate::exprs::eval;
use crate::loops::iterate;
use crate::stmts::exec_all;
use ada_meaning::MOST_THREADS;
use run_outside::Port;
use run_parts::{
    Chunking, Course, Work, caught, check_count, count_arms, each_chunk, either, even_sizes,
    find_arm, inside, later, loop_sizes, most_of, opened, size_at,
};
use run_store::{Env, Store};
use run_values::{End, Range};
use typed_tree::Chunk;

/// What the threads of a construct do: iterations of a loop, or arms of a block.
#[derive(Clone, Copy)]
pub enum Task {
    Loop {
        chunking: Chunking,
        course: Course,
        iteration: u32,
        stmts: u32,
    },
    Arms {
        arms: u32,
    },
}

/// How a thread ended, unless it was left: whether its turns are spent; and the greatest count of turns so far.
#[derive(Clone, Copy)]
pub struct Took {
    pub spent: bool,
    pub most: u64,
}

/// `parallel for` (5.5)
#[cycle(walk)]
#[inline(never)]
pub fn parallel_for<P: Port + Drop>(
    work: &Work<'_>,
    calls: u32,
    number: u32,
    chunk: u32,
    iteration: u32,
    stmts: u32,
    env: &Env<'_>,
    store: &mut Store<P>,
) -> Result<(), End>
    ensures { Shows P.Tells (spec.parallel_for work.now calls number (chunk_at (nodes_of work.now) chunk) (iteration_at (nodes_of work.now) iteration) (stmts_at (nodes_of work.now) stmts) (env_of env.now)) result store.old store.new }
{
    let inner = inside(&*env)?;
    opened(work, env, store)?;
    let chunking = begin_chunks(work, calls, chunk, &inner, store)?;
    chunked_loop(
        work, calls, number, chunking, iteration, stmts, &inner, store,
    )?;
    Ok(())
}

#[cycle(walk)]
#[inline(never)]
fn chunked_loop<P: Port + Drop>(
    work: &Work<'_>,
    calls: u32,
    number: u32,
    chunking: Chunking,
    iteration: u32,
    stmts: u32,
    env: &Env<'_>,
    store: &mut Store<P>,
) -> Result<(), End>
    ensures { Shows P.Tells (spec.chunked_loop work.now calls number (chunking_of chunking) (iteration_at (nodes_of work.now) iteration) (stmts_at (nodes_of work.now) stmts) (env_of env.now)) result store.old store.new }
{
    let course = begin_course(work, calls, iteration, env, store)?;
    check_count(work, course, store)?;
    dealt_loop(
        work, calls, number, chunking, course, iteration, stmts, env, store,
    )?;
    Ok(())
}

#[cycle(walk)]
#[inline(never)]
fn dealt_loop<P: Port + Drop>(
    work: &Work<'_>,
    calls: u32,
    number: u32,
    chunking: Chunking,
    course: Course,
    iteration: u32,
    stmts: u32,
    env: &Env<'_>,
    store: &mut Store<P>,
) -> Result<(), End>
    ensures { Shows P.Tells (spec.dealt_loop work.now calls number (chunking_of chunking) (course_of course) (iteration_at (nodes_of work.now) iteration) (stmts_at (nodes_of work.now) stmts) (env_of env.now)) result store.old store.new }
{
    let count = course.count()?;
    let sizes = loop_sizes(work, chunking, count)?;
    let task = Task::Loop {
        chunking,
        course,
        iteration,
        stmts,
    };
    let how = run_threads(work, calls, task, sizes.as_slice(), env, store);
    caught(number, how)
}

/// `parallel do` (5.6.1)
#[cycle(walk)]
#[inline(never)]
pub fn parallel_block<P: Port + Drop>(
    work: &Work<'_>,
    calls: u32,
    count: u32,
    arms: u32,
    env: &Env<'_>,
    store: &mut Store<P>,
) -> Result<(), End>
    ensures { Shows P.Tells (spec.parallel_block work.now calls (optional_at (nodes_of work.now) count) (arms_at (nodes_of work.now) arms) (env_of env.now)) result store.old store.new }
{
    let inner = inside(&*env)?;
    opened(work, env, store)?;
    let most = threads_of(work, calls, count, &inner, store)?;
    dealt_arms(work, calls, most, arms, &inner, store)?;
    Ok(())
}

#[cycle(walk)]
#[inline(never)]
fn dealt_arms<P: Port + Drop>(
    work: &Work<'_>,
    calls: u32,
    most: u32,
    arms: u32,
    env: &Env<'_>,
    store: &mut Store<P>,
) -> Result<(), End>
    ensures { Shows P.Tells (spec.dealt_arms work.now calls most (arms_at (nodes_of work.now) arms) (env_of env.now)) result store.old store.new }
{
    let count = count_arms(work, arms)?;
    let sizes = even_sizes(work, u64::from(count), most.min(count))?;
    run_threads(
        work,
        calls,
        Task::Arms { arms },
        sizes.as_slice(),
        env,
        store,
    )?;
    Ok(())
}

// the greatest number of a block's threads
#[cycle(walk)]
#[inline(never)]
#[tactic(auto, using(crate::proofs::Parts::present_is), unfolding(ada_meaning::specs::Stored::bind, ada_meaning::specs::Stored::ret, ada_meaning::specs::Stored::leaves, ada_meaning::specs::Stored::spent, ada_meaning::specs::Stored::handles, crate::specs::Walk::eval, crate::specs::Walk::threads_of))]
fn threads_of<P: Port + Drop>(
    work: &Work<'_>,
    calls: u32,
    id: u32,
    env: &Env<'_>,
    store: &mut Store<P>,
) -> Result<u32, End>
    ensures { Shows P.Tells (spec.threads_of work.now calls (optional_at (nodes_of work.now) id) (env_of env.now)) result store.old store.new }
{
    match work.typed.nodes.optional(id) {
        None => Ok(MOST_THREADS),
        Some(_) => {
            let value = eval(work, calls, id, env, store)?;
            let most = most_of(work, value, store)?;
            Ok(most)
        }
    }
}

/// A chunk specification (5.5).
#[cycle(walk)]
#[inline(never)]
#[tactic(auto, unfolding(ada_meaning::specs::Stored::bind, ada_meaning::specs::Stored::ret, ada_meaning::specs::Stored::leaves, ada_meaning::specs::Stored::spent, ada_meaning::specs::Stored::handles, crate::specs::Walk::chunking, crate::specs::Walk::eval))]
pub fn begin_chunks<P: Port + Drop>(
    work: &Work<'_>,
    calls: u32,
    id: u32,
    env: &Env<'_>,
    store: &mut Store<P>,
) -> Result<Chunking, End>
    ensures { ShowsAs chunking_of P.Tells (spec.chunking work.now calls (chunk_at (nodes_of work.now) id) (env_of env.now)) result store.old store.new }
{
    match work.typed.nodes.chunk(id) {
        None => Ok(Chunking::ByPlan { most: MOST_THREADS }),
        Some(Chunk::Count { value }) => {
            let v = eval(work, calls, value, env, store)?;
            let most = most_of(work, v, store)?;
            Ok(Chunking::ByPlan { most })
        }
        Some(
            Chunk::Each {
                parameter,
                low,
                high,
                check,
            },
        ) => {
            let l = eval(work, calls, low, env, store)?;
            let h = eval(work, calls, high, env, store)?;
            let range = Range { low: l, high: h };
            let chunking = each_chunk(
                work,
                parameter,
                work.typed.nodes.check(check),
                range,
                store,
            )?;
            Ok(chunking)
        }
    }
}

// threads of these sizes, one after the other; one that is left is the last
#[cycle(walk)]
#[inline(never)]
fn run_threads<P: Port + Drop>(
    work: &Work<'_>,
    calls: u32,
    task: Task,
    sizes: &[u64],
    env: &Env<'_>,
    store: &mut Store<P>,
) -> Result<(), End>
    ensures { Shows P.Tells (spec.threads_run work.now calls task sizes.now (env_of env.now)) result store.old store.new }
{
    let from = store.turns();
    let mut most = from;
    let mut over = false;
    let mut first = 0;
    let mut k = 0;
    while let Some(size) = size_at(sizes, k) {
        store.rewind(from);
        let took = run_thread(work, calls, task, most, k as u64, first, size, env, store)?;
        most = took.most;
        over = either(over, took.spent);
        first = later(first, size)?;
        k += 1;
    }
    store.rewind(most);
    if over { Err(End::Spent) } else { Ok(()) }
}

#[cycle(walk)]
#[inline(never)]
#[tactic(auto, unfolding(ada_meaning::specs::Stored::bind, ada_meaning::specs::Stored::ret, ada_meaning::specs::Stored::leaves, ada_meaning::specs::Stored::spent, ada_meaning::specs::Stored::handles, ada_meaning::specs::Stored::thread, ada_meaning::specs::Stored::rewinds))]
fn run_thread<P: Port + Drop>(
    work: &Work<'_>,
    calls: u32,
    task: Task,
    most: u64,
    number: u64,
    first: u64,
    size: u64,
    env: &Env<'_>,
    store: &mut Store<P>,
) -> Result<Took, End>
    ensures { ShowsAs took_of P.Tells (spec.thread_run work.now calls task most (record { number = number; first = first; size = size }) (env_of env.now)) result store.old store.new }
{
    match run_share(work, calls, task, number, first, size, env, store) {
        Ok(()) => Ok(Took {
            spent: false,
            most: most.max(store.turns()),
        }),
        Err(End::Spent) => Ok(Took {
            spent: true,
            most: most.max(store.turns()),
        }),
        Err(End::Left(how)) => {
            store.rewind(most.max(store.turns()));
            Err(End::Left(how))
        }
        Err(End::NoMemory) => Err(End::NoMemory),
        Err(End::ReadFault) => Err(End::ReadFault),
        Err(End::WriteFault) => Err(End::WriteFault),
    }
}

#[cycle(walk)]
#[inline(never)]
fn run_share<P: Port + Drop>(
    work: &Work<'_>,
    calls: u32,
    task: Task,
    number: u64,
    first: u64,
    size: u64,
    env: &Env<'_>,
    store: &mut Store<P>,
) -> Result<(), End>
    ensures { Shows P.Tells (spec.share_run work.now calls task (env_of env.now) (record { number = number; first = first; size = size })) result store.old store.new }
{
    let last = later(first, size)?;
    for i in first..last {
        run_turn(work, calls, task, number, i, env, store)?;
    }
    Ok(())
}

#[cycle(walk)]
#[inline(never)]
fn run_turn<P: Port + Drop>(
    work: &Work<'_>,
    calls: u32,
    task: Task,
    number: u64,
    index: u64,
    env: &Env<'_>,
    store: &mut Store<P>,
) -> Result<(), End>
    ensures { Shows P.Tells (spec.task_turn work.now calls task number index (env_of env.now)) result store.old store.new }
{
    match task {
        Task::Loop {
            chunking,
            course,
            iteration,
            stmts,
        } => {
            let inner = chunking.bound(number, &*env)?;
            iterate(work, calls, course, index, iteration, stmts, &inner, store)?;
            Ok(())
        }
        Task::Arms { arms } => match find_arm(work, arms, index) {
            None => Ok(()),
            Some(stmts) => {
                exec_all(work, calls, stmts, env, store)?;
                Ok(())
            }
        },
    }
}
