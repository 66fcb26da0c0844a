//! Threads as a construct gives them.
ghost use Rattle.std.specs.Prelude.{◌≡◌, ℕ, ◌+◌, ◌<◌, ◌≤◌, ◌^◌, ◌≢◌, ◌++◌, [], ◌∷◌, map, length, take, vec_len, vec_capacity, None, Some, true, false, IfOk, OnErr};
ghost use Rattle.std.specs.Vec.Iter.{into_iter_items, into_iter_len};
ghost use Rattle.ada_base.specs.Cells.{Mine};
ghost use Rattle.cell_memory.specs.Sight.{OwnThere};
ghost use Rattle.ada_workers.specs.Paths.{Fine};
ghost use Rattle.ada_workers.specs.Orders.{AllFine, all_out};
ghost use Rattle.ada_workers.specs.Joins.{starts_of, regions_of, Joined};
ghost use Rattle.ada_workers.specs.Threads.{frame_values, begin_of, begins_of, areas_of, AllInside, told, alone, ordered, FineInOrder, SameView, unbegun, FramesFit, Entered, Leaves, Leaving, StaysOn, IsOrdered};

use crate::construct::{Finished, Job, NoMemory, Over, discard, keeps_frames, run_construct};
use crate::path::{Path, Stop};
use crate::tasks::State;
use ada_port::Pulse;
use cell_memory::{Memory, Region, View};
use leave_board::Never;
use std::alloc::{AllocError, Global};
use std::marker::Send;
use std::thread::Threads;
use std::vec::IntoIter;

/// The first values of a thread's own cells: these four numbers, each in a cell, and so many more cells of 0. What a path
/// does with them is its own affair.
#[derive(Clone, Copy)]
pub struct Frame {
    /// The value of the chunk parameter, or 0 where there is none (5.5).
    pub chunk: i64,
    /// The value at which the thread's fold begins, or 0 where it has none (4.5.10).
    pub initial: i64,
    /// The first of the thread's loop values or positions; above `last` where it has none.
    pub first: i64,
    /// The last of them.
    pub last: i64,
    /// How many cells of 0 follow.
    pub more: u32,
}

/// A thread: the regions whose cells it may write, its frame, and its path.
#[derive(Drop)]
pub struct Thread<P> {
    pub regions: Vec<Region>,
    pub frame: Frame,
    pub path: P,
}

// A frame's cells.
fn framed(alloc: Global, frame: Frame) -> Result<Memory, AllocError>
    requires { frame.more + 4 < 2 ^ 32 }
    ensures { IfOk result (λ m. m.values ≡ frame_values frame) }
{
    let mut own = Memory::new(alloc, frame.more + 4)?;
    own.set(0, frame.chunk);
    own.set(1, frame.initial);
    own.set(2, frame.first);
    own.set(3, frame.last);
    Ok(own)
}

fn prepared<P: Path + Drop>(
    alloc: Global,
    threads: Vec<Thread<P>>,
) -> Result<Vec<Job<P>>, AllocError>
    requires { FramesFit threads.items }
    ensures { IfOk result (λ js. (starts_of js.items ≡ begins_of threads.items) × (regions_of js.items ≡ areas_of threads.items) × (vec_len js ≡ vec_len threads)) }
{
    let mut jobs = Vec::with_capacity(alloc, threads.len())?;
    let mut rest = threads.into_iter();
    while let Some(thread) = rest.next() {
        let Thread {
            regions,
            frame,
            path,
        } = thread;
        match framed(alloc, frame) {
            Ok(own) => jobs.push_reserved(Job { regions, own, path }),
            Err(_) => {
                discard(jobs);
                return Err(AllocError);
            }
        }
    }
    Ok(jobs)
}

/// Begins a frame on the view itself. An Err is want of memory.
pub fn enter(view: &mut View<'_>, frame: Frame) -> Result<(), AllocError>
    requires there { OwnThere view.old }
    requires fits { frame.more + 4 < 2 ^ 32 }
    ensures ok { IfOk result (λ _. Entered view.old frame view.new) }
    ensures err { OnErr result (SameView view.old view.new) }
{
    let base = view.len();
    view.reserve(frame.more + 4)?;
    view.push_frame(frame.more + 4);
    view.set(base, frame.chunk);
    view.set(base + 1, frame.initial);
    view.set(base + 2, frame.first);
    view.set(base + 3, frame.last);
    Ok(())
}

/// Takes off what stands after the first `many` cells. It takes no memory.
pub fn leave(view: &mut View<'_>, many: u64)
    requires { Leaves many view.old }
    ensures { Leaving many view.old view.new }
{
    let more = view.len() - many;
    view.pop_frame(more as u32);
}

// Runs a thread on the view itself.
fn run_one<P: Path + Drop, U: Pulse>(
    alloc: Global,
    view: &mut View<'_>,
    thread: Thread<P>,
    number: u32,
    pulse: &U,
) -> Result<Over<P>, NoMemory>
    requires there { OwnThere view.old }
    requires fits { thread.frame.more + 4 < 2 ^ 32 }
    requires fine { Fine (alone P.runs (begin_of thread) view.old.cells).end }
    ensures ok { IfOk result (λ o. (o ≡ told (alone P.runs (begin_of thread) view.old.cells)) × (view.new.cells ≡ take (length view.old.cells) (alone P.runs (begin_of thread) view.old.cells).cells)) }
    ensures stays { StaysOn view.old view.new }
{
    let many = view.len();
    let Thread {
        regions: _,
        frame,
        mut path,
    } = thread;
    let Ok(_) = enter(view, frame) else {
        return Err(NoMemory);
    };
    pulse.begins(number);
    let stop = path.go(alloc, view, &mut Never);
    leave(view, many);
    match stop {
        Stop::NoMemory => Err(NoMemory),
        // Not paused, as nothing asks it to stop.
        _ => Ok(Over {
            path,
            state: State::Stopped(stop),
        }),
    }
}

fn has_left(state: State) -> bool
    ensures yes { result ≡ true → state ≡ State.Stopped Stop.Gone }
    ensures no { result ≡ false → state ≢ State.Stopped Stop.Gone }
{
    match state {
        State::Stopped(Stop::Gone) => true,
        State::NotBegun
        | State::Stopped(Stop::Ended | Stop::NoMemory | Stop::Spent | Stop::Paused(_)) => false,
    }
}

// The threads that are left aren't begun.
fn with_unbegun<P: Path + Drop>(
    threads: IntoIter<Thread<P>>,
    mut overs: Vec<Over<P>>,
) -> Vec<Over<P>>
    requires room { vec_len overs + into_iter_len threads ≤ vec_capacity overs }
    requires long { into_iter_len threads ≡ length (into_iter_items threads) }
    ensures { result.items ≡ overs.items ++ unbegun (begins_of (into_iter_items threads)) }
{
    let mut rest = threads;
    while let Some(thread) = rest.next() {
        let Thread {
            regions: _,
            frame: _,
            path,
        } = thread;
        overs.push_reserved(Over {
            path,
            state: State::NotBegun,
        });
    }
    overs
}

/// Runs threads one after the other on the view itself, each with its frame behind the other cells, up to the first that
/// leaves; those after it aren't begun. This is how the threads of a construct inside a thread are run. An Err is want of
/// memory; the view then has as many cells as before.
pub fn run_in_order<P: Path + Drop, U: Pulse>(
    alloc: Global,
    view: &mut View<'_>,
    threads: Vec<Thread<P>>,
    pulse: &U,
) -> Result<Finished<P>, NoMemory>
    requires many { vec_len threads < 2 ^ 32 }
    requires there { OwnThere view.old }
    requires fits { FramesFit threads.items }
    requires fine { FineInOrder P.runs (begins_of threads.items) view.old.cells }
    ensures ok { IfOk result (λ r. IsOrdered P.runs (begins_of threads.items) view.old.cells r.chosen r.overs.items view.new.cells) }
    ensures stays { StaysOn view.old view.new }
{
    let Ok(mut overs) = Vec::with_capacity(alloc, threads.len()) else {
        return Err(NoMemory);
    };
    let mut number = 0u32;
    let mut rest = threads.into_iter();
    while let Some(thread) = rest.next() {
        let Ok(over) = run_one(alloc, view, thread, number, pulse) else {
            return Err(NoMemory);
        };
        let left = has_left(over.state);
        overs.push_reserved(over);
        if left {
            return Ok(Finished {
                chosen: Some(number),
                overs: with_unbegun(rest, overs),
            });
        }
        number += 1;
    }
    Ok(Finished {
        chosen: None,
        overs,
    })
}

/// Runs the threads of an outermost construct on so many workers, on one of them in order on the main view itself.
/// Worker number i of w does, in order, the threads that even division gives to part i, and begins no further one after it
/// finds that a thread left. What they come to is what they come to one after the other on one memory, by the notes of
/// their states. An Err is want of memory; the view then has as many cells as before.
pub fn run_threads<R: Threads + Sync, P: Path + Send + Drop, U: Pulse + Sync>(
    rt: &R,
    alloc: Global,
    view: &mut View<'_>,
    threads: Vec<Thread<P>>,
    workers: u32,
    pulse: &U,
) -> Result<Finished<P>, NoMemory>
    requires some { 0 < workers }
    requires many { vec_len threads < 2 ^ 32 }
    requires main { view.old.held ≡ None }
    requires there { OwnThere view.old }
    requires fits { FramesFit threads.items }
    requires within { AllInside (length view.old.cells) threads.items }
    requires fine { AllFine P.runs (all_out view.old.cells (areas_of threads.items)) view.old.cells (begins_of threads.items) (areas_of threads.items) }
    ensures ok { IfOk result (λ r. Joined P.runs (begins_of threads.items) view.old.cells r.chosen r.overs.items view.new.cells) }
    ensures order { workers ≡ 1 → IfOk result (λ r. IsOrdered P.runs (begins_of threads.items) view.old.cells r.chosen r.overs.items view.new.cells) }
    ensures stays { StaysOn view.old view.new }
{
    let _many = view.len();
    keeps_frames::<P>();
    if workers == 1 {
        return run_in_order(alloc, view, threads, pulse);
    }
    let Ok(jobs) = prepared(alloc, threads) else {
        return Err(NoMemory);
    };
    run_construct(rt, alloc, view, jobs, workers, pulse)
}
