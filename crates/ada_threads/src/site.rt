// An outermost construct, on workers.
ghost use Rattle.std.specs.Prelude.{◌≡◌, ◌<◌, ◌≤◌, ◌^◌, [], Bool, List, None, Some, Result, IfOk, OnOk, length, slice_get, map, false, vec_len};
ghost use Rattle.ada_base.specs.Cells.{Cell};
ghost use Rattle.cell_memory.specs.Sight.{OwnThere};
ghost use Rattle.run_plan.specs.Plans.{plan_of};
ghost use Rattle.stack_code.specs.declared.code.Around.{Around as AroundOf};
ghost use Rattle.stack_code.specs.declared.code.CodeSite.{CodeSite as SiteOf};
ghost use Rattle.stack_code.specs.declared.path.Gave.{Gave as GaveOf};
ghost use Rattle.stack_code.specs.Machine.{Stop as StopOf};
ghost use Rattle.stack_code.specs.Stands.{Forked};
ghost use Rattle.ada_machine.specs.States.{state_of, Awaits, Ready};
ghost use Rattle.ada_workers.specs.Noted.{told_note};
ghost use Rattle.ada_workers.specs.Joins.{notes_of};
ghost use Rattle.ada_workers.specs.Orders.{AllFine, all_out};
ghost use Rattle.ada_workers.specs.Threads.{begins_of, areas_of, FramesFit, AllInside, StaysOn};
ghost use Rattle.machine_paths.specs.Constructing.{starts_at};
ghost use Rattle.machine_paths.specs.Noting.{AnswerOf, spent_by, turns_of, values_by};
ghost use Rattle.machine_paths.specs.Threads.{ThreadPath, runs};
ghost use Rattle.ada_threads.specs.Came.{EndWell, OfBody};
ghost use Rattle.ada_threads.specs.Sites.{AllRan, EndOf, SiteRan, left_in};
ghost use Rattle.ada_threads.specs.ThreadPaths.{how_by};

use crate::inside::answered;
use crate::thread::{MachineThread, Team};
use crate::way::{End, Way};
use ada_base::Items;
use ada_machine::Machine;
use ada_port::Pulse;
use ada_workers::{NoMemory, Over, Thread, ThreadNote, run_threads};
use cell_memory::View;
use stack_code::{Asked, Leave};
use std::alloc::{AllocError, Global};
use std::marker::Send;
use std::thread::Threads;

/// By what the threads of an outermost construct are run: the threads of the system, how many workers there are, and what
/// is told of each beginning.
#[derive(Drop)]
pub struct Crew<'r, R, U> {
    pub rt: &'r R,
    pub workers: u32,
    pub pulse: &'r U,
}

/// What the threads of an outermost construct did: by which of them it was left, if it was, how each went, and whether
/// turns ran out, so that the machine was given no answer.
#[derive(Drop)]
pub struct Told {
    pub chosen: Option<u32>,
    pub threads: Vec<ThreadNote>,
    pub spent: bool,
}

// The most turns of a thread that was begun.
fn most_turns(from: u64, overs: &[Over<MachineThread<'_>>]) -> u64
    ensures most { result ≡ turns_of from overs.now }
    ensures within { (p : ThreadPath) → AllRan p overs.now → from ≤ p.limit → result ≤ p.limit }
{
    let mut most = from;
    for over in overs {
        most = over.path.turns_by(most, over.state);
    }
    most
}

// How each went.
fn told_of(alloc: Global, overs: &[Over<MachineThread<'_>>]) -> Result<Vec<ThreadNote>, AllocError>
    ensures { IfOk result (λ v. map told_note v.items ≡ notes_of overs.now) }
{
    let mut notes = Vec::with_capacity(alloc, overs.len())?;
    for over in overs {
        notes.push_reserved(over.state.note());
    }
    Ok(notes)
}

// Counts a thread that came to that: whether turns ran out, and the accumulators.
fn count(values: &mut Items<i64>, spent: bool, how: Option<Way>) -> Result<bool, AllocError>
    ensures spent { IfOk result (λ over. over ≡ spent_by spent (how_by how)) }
    ensures values { OnOk result (values.new ≡ values_by values.old (how_by how)) }
{
    match how {
        None => Ok(spent),
        Some(Way::Spent) => Ok(true),
        Some(Way::Done(None)) => Ok(spent),
        Some(Way::Done(Some(value))) => {
            values.push(value)?;
            Ok(spent)
        }
        Some(Way::Left(_)) => Ok(spent),
        Some(Way::Paused) => Ok(spent),
        Some(Way::NoMemory) => Ok(spent),
    }
}

// How threads ended none of which was chosen.
fn own_ends(alloc: Global, overs: &[Over<MachineThread<'_>>]) -> End
    ensures ends { (how : Result GaveOf StopOf) → AnswerOf None overs.now how → EndOf result how }
    ensures well { (b : Bool) → EndWell b result }
{
    let mut values = Items::new(alloc);
    let mut spent = false;
    for over in overs {
        match count(&mut values, spent, over.path.how()) {
            Ok(now) => spent = now,
            Err(_) => return End::NoMemory,
        }
    }
    if spent {
        End::Spent
    } else {
        End::Values(values)
    }
}

// By what a thread left that came to that, if it left.
fn leave_of(how: Option<Way>) -> Option<Leave>
    ensures { result ≡ left_in how }
{
    match how {
        Some(Way::Left(leave)) => Some(leave),
        Some(Way::Done(_)) => None,
        Some(Way::Spent) => None,
        Some(Way::Paused) => None,
        Some(Way::NoMemory) => None,
        None => None,
    }
}

// By what the chosen thread left.
fn chosen_end(overs: &[Over<MachineThread<'_>>], chosen: u32) -> End
    requires { (how : Result GaveOf StopOf) × AnswerOf (Some chosen) overs.now how }
    ensures ends { (how : Result GaveOf StopOf) → AnswerOf (Some chosen) overs.now how → EndOf result how }
    ensures well { (p : ThreadPath) → AllRan p overs.now → OfBody p (λ b. EndWell b result) }
{
    match leave_of(overs[chosen as usize].path.how()) {
        Some(leave) => End::Left(leave),
        None => unreachable!(),
    }
}

// How threads ended that are runs of paths that begin at the same entry.
fn end_of(alloc: Global, chosen: Option<u32>, overs: &[Over<MachineThread<'_>>]) -> End
    requires { (how : Result GaveOf StopOf) × AnswerOf chosen overs.now how }
    ensures ends { (how : Result GaveOf StopOf) → AnswerOf chosen overs.now how → EndOf result how }
    ensures well { (p : ThreadPath) → AllRan p overs.now → OfBody p (λ b. EndWell b result) }
{
    match chosen {
        Some(chosen) => chosen_end(overs, chosen),
        None => own_ends(alloc, overs),
    }
}

/// Runs the threads of an outermost construct at which the machine stands on so many workers, and goes on with the answer,
/// unless turns ran out. By the note that is told, and on one worker in order, the fork comes to what the machine goes on
/// with. An Err is want of memory; the view then has as many cells as before.
pub fn run_site<R: Threads + Sync, U: Pulse + Sync>(
    crew: &Crew<'_, R, U>,
    team: &Team<'_>,
    machine: &mut Machine,
    view: &mut View<'_>,
    asked: Asked,
    threads: Vec<Thread<MachineThread<'_>>>,
) -> Result<Told, NoMemory>
    requires awaits { Awaits team.now.code.now machine.old }
    requires here { (low : AroundOf) × Forked team.now.code.now low asked.site (state_of machine.old []) }
    requires within { machine.old.turns ≤ team.now.limit }
    requires some { 0 < crew.now.workers }
    requires main { view.old.held ≡ None }
    requires there { OwnThere view.old }
    requires starts { (site : SiteOf) × (slice_get team.now.code.now.sites asked.site ≡ Some site) × (begins_of threads.items ≡ starts_at team.now.limit team.now.code.now (plan_of team.now.plan.now) site asked (state_of machine.old view.old.cells)) }
    requires fits { FramesFit threads.items × (vec_len threads < 2 ^ 32) }
    requires inside { AllInside (length view.old.cells) threads.items }
    requires fine { AllFine runs (all_out view.old.cells (areas_of threads.items)) view.old.cells (begins_of threads.items) (areas_of threads.items) }
    ensures ok { IfOk result (λ told. SiteRan team.now.limit team.now.code.now (plan_of team.now.plan.now) asked crew.now.workers told machine.old view.old.cells machine.new view.new.cells) }
    ensures ready { IfOk result (λ told. told.spent ≡ false → (cells : List Cell) → Ready team.now.code.now machine.new cells) }
    ensures stays { StaysOn view.old view.new }
{
    let _many = view.len();
    let site = &team.code.sites.as_slice()[asked.site as usize];
    let Ok(finished) = run_threads(crew.rt, team.alloc, view, threads, crew.workers, crew.pulse)
    else {
        return Err(NoMemory);
    };
    let Ok(notes) = told_of(team.alloc, finished.overs.as_slice()) else {
        return Err(NoMemory);
    };
    let end = end_of(team.alloc, finished.chosen, finished.overs.as_slice());
    machine.turns = most_turns(machine.turns, finished.overs.as_slice());
    match answered(team.alloc, site.kind, asked.initial, end) {
        Ok(gave) => {
            machine.resume_after(team.code, gave);
            Ok(Told {
                chosen: finished.chosen,
                threads: notes,
                spent: false,
            })
        }
        Err(Way::Spent) => Ok(Told {
            chosen: finished.chosen,
            threads: notes,
            spent: true,
        }),
        Err(_) => Err(NoMemory),
    }
}
