ghost use Rattle.std.specs.Prelude.{◌<◌};

use crate::programs::{Came, run};
use ada_workers::{NoMemory, State, Stop, ThreadNote};
use std::alloc::Global;
use std::thread::Threads;

// How many threads went to their own end.
fn whole(came: &Came) -> u64 {
    let mut many = 0u64;
    for over in came.finished.overs.iter() {
        if let ThreadNote::Whole = over.state.note() {
            many = many.saturating_add(1);
        }
    }
    many
}

// How many cells have the number of their thread.
fn numbered(came: &Came) -> u64 {
    let mut many = 0u64;
    for (at, value) in came.cells.iter().enumerate() {
        if *value == at as i64 {
            many = many.saturating_add(1);
        }
    }
    many
}

// Whether this thread left.
fn left(came: &Came, number: usize) -> bool {
    for (at, over) in came.finished.overs.iter().enumerate() {
        if at == number && matches!(over.state, State::Stopped(Stop::Gone)) {
            return true;
        }
    }
    false
}

// Whether this cell has the number of its thread.
fn has_own(came: &Came, number: usize) -> bool {
    for (at, value) in came.cells.iter().enumerate() {
        if at == number && *value == at as i64 {
            return true;
        }
    }
    false
}

// Each of 70 threads writes its number into its cell.
pub(crate) fn all_write<R: Threads + Sync>(
    rt: &R,
    alloc: Global,
    workers: u32,
) -> Result<bool, NoMemory>
    requires { 0 < workers }
{
    let came = run(rt, alloc, 70, workers, 70)?;
    Ok(came.finished.chosen.is_none() && whole(&came) == 70 && numbered(&came) == 70)
}

// On one worker the threads after the one that leaves do nothing.
pub(crate) fn leaving_in_order<R: Threads + Sync>(rt: &R, alloc: Global) -> Result<bool, NoMemory> {
    let came = run(rt, alloc, 5, 1, 2)?;
    let cells = came.cells.as_slice() == [0, 1, 2, 0, 0].as_slice();
    Ok(came.finished.chosen == Some(2) && whole(&came) == 3 && cells)
}

// On several it is the one that leaves that is chosen, whatever the others came to.
pub(crate) fn leaving_on_four<R: Threads + Sync>(rt: &R, alloc: Global) -> Result<bool, NoMemory> {
    let came = run(rt, alloc, 9, 4, 6)?;
    let all = came.cells.len() == 9;
    Ok(came.finished.chosen == Some(6) && all && has_own(&came, 6) && left(&came, 6))
}
