//! A construct.
ghost use Rattle.std.specs.Prelude.{◌≡◌, ℕ, ◌+◌, ◌<◌, ◌≤◌, ◌^◌, [], ◌∷◌, map, length, get_or, vec_len, vec_capacity, None, IfOk, OnErr, false, ◌≢◌};
ghost use Rattle.cell_memory.specs.Sight.{OwnThere};
ghost use Rattle.leave_board.specs.Boards.{AllOf, fresh, Closes};
ghost use Rattle.ada_workers.specs.Paths.{Frames};
ghost use Rattle.ada_workers.specs.Orders.{AllFine, all_out};
ghost use Rattle.ada_workers.specs.Tasks.{AllHome, AllFineOver, AllReturned, SeatsTell};
ghost use Rattle.ada_workers.specs.Joins.{AllIn, LentTo, regions_of, starts_of, with_cells, BacksHome, puts_back, overs_of, IsRoom, JobsRan, Joined, Stays, EndedSo};

use crate::path::{Path, Stop};
use crate::tasks::{Back, Crew, Ready, State, TaskRooms, run_all};
use ada_port::Pulse;
use cell_memory::{Memory, Region, View};
use leave_board::{Board, Seat};
use std::alloc::{AllocError, Global};
use std::marker::Send;
use std::thread::Threads;

/// A thread to be run on a view of its own: the regions whose cells are lent to it, the cells of its frame, and its path.
/// Of a cell that the regions of several threads have, the first of them has the use.
pub struct Job<P> {
    pub regions: Vec<Region>,
    pub own: Memory,
    pub path: P,
}

/// A thread afterwards: its path, and how far it came.
#[derive(Drop)]
pub struct Over<P> {
    pub path: P,
    pub state: State,
}

/// What a construct came to: the number of the thread by which it was left, if it was, and each thread in order.
#[derive(Drop)]
pub struct Finished<P> {
    pub chosen: Option<u32>,
    pub overs: Vec<Over<P>>,
}

/// Want of memory.
#[derive(Debug, Drop)]
pub struct NoMemory;

struct Rooms<P> {
    ready: Vec<Ready<P>>,
    backs: Vec<Back<P>>,
    board: Board,
    seats: Vec<Seat>,
}

// Room for so many threads.
fn make_rooms<P>(alloc: Global, n: u32) -> Result<Rooms<P>, AllocError>
    requires { 0 < n }
    ensures { IfOk result (λ r. IsRoom n r) }
{
    let (board, seats) = Board::new(alloc, n)?;
    let Ok(ready) = Vec::with_capacity(alloc, n as usize) else {
        let _ = board.close(seats);
        return Err(AllocError);
    };
    let Ok(backs) = Vec::with_capacity(alloc, n as usize) else {
        ready.destroy_empty();
        let _ = board.close(seats);
        return Err(AllocError);
    };
    Ok(Rooms {
        ready,
        backs,
        board,
        seats,
    })
}

pub(crate) fn discard<P: Drop>(jobs: Vec<Job<P>>) {
    let mut rest = jobs.into_iter();
    while let Some(job) = rest.next() {
        let Job {
            regions: _,
            own,
            path: _,
        } = job;
        own.free();
    }
    rest.destroy_empty();
}

// Lends each thread its cells.
fn lend_all<P: Path>(
    view: &mut View<'_>,
    jobs: Vec<Job<P>>,
    mut ready: Vec<Ready<P>>,
) -> Vec<Ready<P>>
    requires main { view.old.held ≡ None }
    requires within { AllIn (length view.old.cells) jobs.items }
    requires room { (ready.items ≡ []) × (vec_len jobs ≤ vec_capacity ready) }
    ensures view { view.new ≡ with_cells view.old (all_out view.old.cells (regions_of jobs.items)) }
    ensures ready { LentTo view.old.home view.old.cells jobs.items result.items }
    ensures many { vec_len result ≡ vec_len jobs }
{
    let mut rest = jobs.into_iter();
    while let Some(job) = rest.next() {
        let Job { regions, own, path } = job;
        let lent = view.take(regions.as_slice());
        ready.push_reserved(Ready { lent, own, path });
    }
    rest.destroy_empty();
    ready
}

// Takes back what came back of each thread.
fn put_all<P: Path>(
    view: &mut View<'_>,
    backs: Vec<Back<P>>,
    mut overs: Vec<Over<P>>,
) -> Vec<Over<P>>
    requires main { view.old.held ≡ None }
    requires home { BacksHome view.old.home backs.items }
    requires room { (overs.items ≡ []) × (vec_len backs ≤ vec_capacity overs) }
    ensures view { view.new ≡ with_cells view.old (puts_back view.old.cells backs.items) }
    ensures overs { result.items ≡ overs_of backs.items }
{
    let mut rest = backs.into_iter();
    while let Some(back) = rest.next() {
        let Back { lent, path, state } = back;
        view.put_back(lent);
        overs.push_reserved(Over { path, state });
    }
    rest.destroy_empty();
    overs
}

// Whether some thread stopped for want of memory.
fn any_short<P>(overs: &[Over<P>]) -> bool
    ensures { result ≡ false → (k : ℕ) (d : _) → k < length overs.now → EndedSo (get_or overs.now k d) }
{
    for over in overs {
        if is_short(over.state) {
            return true;
        }
    }
    false
}

fn is_short(state: State) -> bool
    ensures { result ≡ false → state ≢ State.Stopped Stop.NoMemory }
{
    match state {
        State::Stopped(Stop::NoMemory) => true,
        State::NotBegun
        | State::Stopped(Stop::Ended | Stop::Gone | Stop::Spent | Stop::Paused(_)) => false,
    }
}

// Runs the threads on what they are lent.
fn run_lent<R: Threads + Sync, P: Path + Send + Drop, U: Pulse + Sync>(
    crew: Crew<'_, R, U>,
    view: &mut View<'_>,
    jobs: Vec<Job<P>>,
    rooms: Rooms<P>,
) -> Result<(Option<u32>, Vec<Back<P>>), AllocError>
    requires some { 0 < crew.workers }
    requires many { (0 < vec_len jobs) × (vec_len jobs < 2 ^ 32) }
    requires rooms { IsRoom (vec_len jobs) rooms }
    requires main { view.old.held ≡ None }
    requires within { AllIn (length view.old.cells) jobs.items }
    requires fine { AllFine P.runs (all_out view.old.cells (regions_of jobs.items)) view.old.cells (starts_of jobs.items) (regions_of jobs.items) }
    ensures ok { IfOk result (λ r. (view.new ≡ with_cells view.old (all_out view.old.cells (regions_of jobs.items))) × JobsRan P.runs view.old.home view.new view.old.cells jobs.items r.1.items r.0) }
    ensures err { OnErr result (view.new ≡ view.old) }
{
    let Rooms {
        ready,
        backs,
        board,
        mut seats,
    } = rooms;
    let Ok(tasks) = Vec::with_capacity(crew.alloc, jobs.len()) else {
        discard(jobs);
        ready.destroy_empty();
        backs.destroy_empty();
        let _ = board.close(seats);
        return Err(AllocError);
    };
    let ready = lend_all(view, jobs, ready);
    let rooms = TaskRooms { tasks, backs };
    let backs = run_all(crew, &*view, &board, &mut seats, ready, rooms);
    Ok((board.close(seats), backs))
}

// What a path keeps.
pub(crate) fn keeps_frames<P: Path>()
    ensures { Frames P.runs }
{}

/// Runs the threads of a construct on so many workers, each on a view over the main view `view`, which lends it the cells
/// of its regions. What they come to is what they come to one after the other on one memory, by the notes of their states.
/// Where no thread was chosen, each went to its own end and none left. The view has afterwards as many cells as before,
/// and none is lent. An Err is want of memory, before the threads or in one of them.
pub fn run_construct<R: Threads + Sync, P: Path + Send + Drop, U: Pulse + Sync>(
    rt: &R,
    alloc: Global,
    view: &mut View<'_>,
    jobs: Vec<Job<P>>,
    workers: u32,
    pulse: &U,
) -> Result<Finished<P>, NoMemory>
    requires some { 0 < workers }
    requires many { vec_len jobs < 2 ^ 32 }
    requires main { view.old.held ≡ None }
    requires there { OwnThere view.old }
    requires within { AllIn (length view.old.cells) jobs.items }
    requires fine { AllFine P.runs (all_out view.old.cells (regions_of jobs.items)) view.old.cells (starts_of jobs.items) (regions_of jobs.items) }
    ensures ok { IfOk result (λ r. Joined P.runs (starts_of jobs.items) view.old.cells r.chosen r.overs.items view.new.cells) }
    ensures stays { Stays view.old view.new }
{
    let _many = view.len();
    keeps_frames::<P>();
    if jobs.is_empty() {
        discard(jobs);
        return Ok(Finished {
            chosen: None,
            overs: Vec::new(alloc),
        });
    }
    let Ok(overs) = Vec::with_capacity(alloc, jobs.len()) else {
        discard(jobs);
        return Err(NoMemory);
    };
    let Ok(rooms) = make_rooms(alloc, jobs.len() as u32) else {
        discard(jobs);
        return Err(NoMemory);
    };
    let crew = Crew {
        rt,
        alloc,
        workers,
        pulse,
    };
    let Ok((chosen, backs)) = run_lent(crew, view, jobs, rooms) else {
        return Err(NoMemory);
    };
    let overs = put_all(view, backs, overs);
    if any_short(overs.as_slice()) {
        return Err(NoMemory);
    }
    Ok(Finished { chosen, overs })
}
