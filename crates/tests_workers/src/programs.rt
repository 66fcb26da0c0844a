//! Threads that work on cells of their own.
ghost use Rattle.std.specs.Prelude.{◌≡◌, ◌<◌, length, None, IfOk};
ghost use Rattle.cell_memory.specs.Sight.{OwnThere};
ghost use Rattle.tests_workers.specs.OwnCells.{OnOwnCell, AllOnOwn};

use crate::walker::{Op, Walker};
use ada_port::Quiet;
use ada_workers::{Finished, Frame, NoMemory, Thread, run_threads};
use cell_memory::{Memory, Region, View};
use std::alloc::{AllocError, Global};
use std::thread::Threads;

/// What threads came to: the cells afterwards, and what became of each thread.
#[derive(Drop)]
pub(crate) struct Came {
    pub cells: Vec<i64>,
    pub finished: Finished<Walker>,
}

// The thread that copies its number from its frame into the cell of its number, takes a turn, and then leaves or copies
// the cell back into its frame.
fn thread(
    alloc: Global,
    cells: u32,
    number: u32,
    leaves: bool,
) -> Result<Thread<Walker>, AllocError>
    ensures { IfOk result (λ t. OnOwnCell cells number t) }
{
    let frame = u64::from(cells);
    let own = u64::from(number);
    let last = if leaves {
        Op::Leave
    } else {
        Op::Copy(own, frame + 3)
    };
    let ops = vec![in alloc; Op::Copy(frame + 2, own), Op::Turn, last]?;
    let regions = vec![in alloc;
        Region {
            base: own,
            count: 1,
            stride: 1,
            run: 1
        },
    ]?;
    Ok(Thread {
        regions,
        frame: Frame {
            chunk: 0,
            initial: 1,
            first: i64::from(number),
            last: 0,
            more: 1,
        },
        path: Walker {
            ops,
            at: 0,
            turns: 0,
            limit: 3,
        },
    })
}

fn threads(alloc: Global, many: u32, leaver: u32) -> Result<Vec<Thread<Walker>>, AllocError>
    ensures { IfOk result (λ v. AllOnOwn many 0 v.items × (length v.items ≡ many)) }
{
    let mut all = Vec::new(alloc);
    for number in 0..many {
        all.push(thread(alloc, many, number, number == leaver)?)?;
    }
    Ok(all)
}

fn values(alloc: Global, view: &View<'_>) -> Result<Vec<i64>, AllocError>
    requires { (view.now.held ≡ None) × OwnThere view.now }
{
    let mut all = Vec::new(alloc);
    for at in 0..view.len() {
        all.push(view.get(at))?;
    }
    Ok(all)
}

fn on_view<R: Threads + Sync>(
    rt: &R,
    alloc: Global,
    view: &mut View<'_>,
    workers: u32,
    threads: Vec<Thread<Walker>>,
) -> Result<Came, NoMemory>
    requires some { 0 < workers }
    requires view { (view.old.held ≡ None) × OwnThere view.old }
    requires threads { AllOnOwn (length view.old.cells) 0 threads.items × (length threads.items ≡ length view.old.cells) }
    ensures { (view.new.held ≡ None) × OwnThere view.new }
{
    let _many = view.len();
    let finished = run_threads(rt, alloc, view, threads, workers, &Quiet::new())?;
    let Ok(cells) = values(alloc, view) else {
        return Err(NoMemory);
    };
    Ok(Came { cells, finished })
}

/// Runs so many threads on so many workers, where thread number `leaver`, if there is one, leaves.
pub(crate) fn run<R: Threads + Sync>(
    rt: &R,
    alloc: Global,
    many: u32,
    workers: u32,
    leaver: u32,
) -> Result<Came, NoMemory>
    requires { 0 < workers }
{
    let Ok(threads) = threads(alloc, many, leaver) else {
        return Err(NoMemory);
    };
    let Ok(own) = Memory::new(alloc, many) else {
        return Err(NoMemory);
    };
    let mut view = View::main(own);
    let done = on_view(rt, alloc, &mut view, workers, threads);
    match view.into_lent() {
        None => done,
        Some(_) => unreachable!(),
    }
}
