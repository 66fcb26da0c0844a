//! The records of threads, and what a worker does with one.
ghost use Rattle.std.specs.Prelude.{◌≡◌, ℕ, ◌+◌, ◌<◌, ◌≤◌, ◌^◌, [], ◌∷◌, length, get_or, vec_len, vec_capacity, None, Some};
ghost use Rattle.leave_board.specs.Boards.{AllOf, fresh};
ghost use Rattle.leave_board.specs.Halts.{watching};
ghost use Rattle.cell_memory.specs.Sight.{thread_sight};
ghost use Rattle.cell_memory.specs.Sight.{OwnThere, GivesBack};
ghost use Rattle.ada_workers.specs.Tasks.{IsReady, TaskRan, BegunFrom, AllHome, CanEnd, AllCanEnd, SeatOf, AllGiven, AllFineOver, AllReturned, SeatsTell};

use crate::dealing::{Duty, run_duties};
use crate::path::{Path, Stop};
use ada_port::Pulse;
use cell_memory::{Lent, Memory, View};
use leave_board::{Board, Halt, Seat, Watch};
use std::alloc::Global;
use std::thread::Threads;

/// How far a thread came.
#[derive(Clone, Copy)]
pub enum State {
    /// It wasn't begun, as another thread had left.
    NotBegun,
    /// It was begun, and stopped so.
    Stopped(Stop),
}

/// A thread with what it is lent.
pub(crate) struct Ready<P> {
    pub lent: Lent,
    pub own: Memory,
    pub path: P,
}

/// A thread with its view.
pub(crate) struct Task<'a, 'b, P> {
    pub number: u32,
    pub path: P,
    pub view: View<'a>,
    pub watch: Watch<'b>,
    pub state: State,
    pub alloc: Global,
}

/// A thread with what it gave back.
pub(crate) struct Back<P> {
    pub lent: Lent,
    pub path: P,
    pub state: State,
}

/// By what threads are run: the threads of the system, the allocator of the paths, how many workers there are, and what is
/// told of each beginning.
#[derive(Drop)]
pub(crate) struct Crew<'r, R, U> {
    pub rt: &'r R,
    pub alloc: Global,
    pub workers: u32,
    pub pulse: &'r U,
}

/// Room for the records of threads, and for what comes back.
pub(crate) struct TaskRooms<'a, 'b, P> {
    pub tasks: Vec<Task<'a, 'b, P>>,
    pub backs: Vec<Back<P>>,
}

fn begin<'a, 'b, P: Path>(
    alloc: Global,
    outer: &'a View<'a>,
    board: &'b Board,
    seat: Seat,
    number: u32,
    ready: Ready<P>,
) -> Task<'a, 'b, P>
    requires main { outer.now.held ≡ None }
    requires home { ready.lent.block ≡ outer.now.home }
    requires seat { seat.board ≡ board.now.name }
    ensures view { result.view ≡ thread_sight outer.entry.now ready.lent ready.own }
    ensures fresh { (result.path ≡ ready.path) × (result.state ≡ State.NotBegun) × (result.number ≡ number) }
    ensures watch { result.watch ≡ watching board.entry.now seat }
{
    let Ready { lent, own, path } = ready;
    Task {
        number,
        path,
        view: View::thread(outer, lent, own),
        watch: Watch::new(board, seat),
        state: State::NotBegun,
        alloc,
    }
}

pub(crate) fn begin_all<'a, 'b, P: Path>(
    alloc: Global,
    outer: &'a View<'a>,
    board: &'b Board,
    seats: &mut Vec<Seat>,
    ready: Vec<Ready<P>>,
    mut tasks: Vec<Task<'a, 'b, P>>,
) -> Vec<Task<'a, 'b, P>>
    requires main { outer.now.held ≡ None }
    requires home { AllHome outer.now.home ready.items }
    requires seats { AllOf (λ s. s ≡ fresh board.now.name) seats.old.items × (vec_len seats.old ≡ vec_len ready) }
    requires room { (tasks.items ≡ []) × (vec_len ready ≤ vec_capacity tasks) × (vec_len ready < 2 ^ 32) }
    ensures seats { (seats.new.items ≡ []) × (vec_capacity seats.new ≡ vec_capacity seats.old) }
    ensures begun { BegunFrom outer.entry.now board.entry.now 0 ready.items result.items }
{
    let mut number = 0;
    let mut rest = ready.into_iter();
    while let Some(one) = rest.next() {
        let seat = seats.take_last();
        tasks.push_reserved(begin(alloc, outer, board, seat, number, one));
        number += 1;
    }
    rest.destroy_empty();
    tasks
}

impl<'a, 'b, P: Path> Duty for Task<'a, 'b, P> {
    ghost number = { λ t. t.number };

    ghost ready = { λ t. IsReady P.runs t };

    ghost ran = { λ t u. TaskRan P.runs t u };

    // A worker that finds that some thread left begins no further one.
    fn run<U: Pulse>(&mut self, pulse: &U) {
        if self.watch.asked() {
            return;
        }
        pulse.begins(self.number);
        let stop = self.path.go(self.alloc, &mut self.view, &mut self.watch);
        self.state = State::Stopped(stop);
        if let Stop::Gone = stop {
            let _ = self.watch.offer(self.number);
        }
    }
}

// What a view was lent.
fn lent_back(view: View<'_>) -> Lent
    requires there { OwnThere view }
    requires held { (b : _) × (view.held ≡ Some b) }
    ensures { GivesBack view.entry (Some result) }
{
    match view.into_lent() {
        Some(lent) => lent,
        None => unreachable!(),
    }
}

// Takes a thread's record apart.
fn end<P: Path>(task: Task<'_, '_, P>) -> (Seat, Back<P>)
    requires { CanEnd task }
    ensures seat { SeatOf task.entry.watch result.0 }
    ensures back { (result.1.path ≡ task.entry.path) × (result.1.state ≡ task.entry.state) × GivesBack task.entry.view (Some result.1.lent) }
{
    let Task {
        number: _,
        path,
        view,
        watch,
        state,
        alloc: _,
    } = task;
    (
        watch.into_seat(),
        Back {
            lent: lent_back(view),
            path,
            state,
        },
    )
}

fn end_all<P: Path>(
    tasks: Vec<Task<'_, '_, P>>,
    seats: &mut Vec<Seat>,
    mut backs: Vec<Back<P>>,
) -> Vec<Back<P>>
    requires ended { AllCanEnd tasks.items }
    requires seats { (seats.old.items ≡ []) × (vec_len tasks ≤ vec_capacity seats.old) }
    requires backs { (backs.items ≡ []) × (vec_len tasks ≤ vec_capacity backs) }
    ensures { AllGiven tasks.entry.items seats.new.items result.items }
{
    let mut rest = tasks.into_iter();
    while let Some(task) = rest.next() {
        let (seat, back) = end(task);
        seats.push_reserved(seat);
        backs.push_reserved(back);
    }
    rest.destroy_empty();
    backs
}

/// Runs threads on views of their own.
pub(crate) fn run_all<'a, 'b, R: Threads + Sync, P: Path + Send, U: Pulse + Sync>(
    crew: Crew<'_, R, U>,
    outer: &'a View<'a>,
    board: &'b Board,
    seats: &mut Vec<Seat>,
    ready: Vec<Ready<P>>,
    rooms: TaskRooms<'a, 'b, P>,
) -> Vec<Back<P>>
    requires some { 0 < crew.workers }
    requires main { outer.now.held ≡ None }
    requires home { AllHome outer.now.home ready.items }
    requires fine { AllFineOver P.runs outer.now ready.items }
    requires seats { AllOf (λ s. s ≡ fresh board.now.name) seats.old.items × (vec_len seats.old ≡ vec_len ready) }
    requires room { (rooms.tasks.items ≡ []) × (vec_len ready ≤ vec_capacity rooms.tasks) × (vec_len ready < 2 ^ 32) }
    requires backs { (rooms.backs.items ≡ []) × (vec_len ready ≤ vec_capacity rooms.backs) }
    ensures returned { AllReturned P.runs outer.entry.now ready.items result.items }
    ensures seats { SeatsTell board.entry.now.name 0 result.items seats.new.items }
{
    let Crew {
        rt,
        alloc,
        workers,
        pulse,
    } = crew;
    let TaskRooms { tasks, backs } = rooms;
    let mut tasks = begin_all(alloc, outer, board, seats, ready, tasks);
    run_duties(rt, tasks.as_mut_slice(), workers, pulse);
    end_all(tasks, seats, backs)
}
