// The machine goes on from stop to stop.
ghost use Rattle.std.specs.Prelude.{◌≡◌, ◌<◌, ◌≤◌, ℕ, List, [], None, OnOk, slice_get};
ghost use Rattle.ada_port.specs.Ports.{IsTold};
ghost use Rattle.cell_memory.specs.Sight.{OwnThere};
ghost use Rattle.run_plan.specs.Plans.{HasNoZero, plan_of};
ghost use Rattle.stack_code.specs.declared.code.Around.{Around as AroundOf};
ghost use Rattle.stack_code.specs.Stands.{Forked};
ghost use Rattle.ada_base.specs.declared.reason.Reason.{Reason as ReasonOf};
ghost use Rattle.ada_machine.specs.States.{Awaits, Ready, state_of};
ghost use Rattle.ada_workers.specs.Threads.{StaysOn};
ghost use Rattle.run_machine.specs.Asked.{BuiltSo, IsFineFork};
ghost use Rattle.run_machine.specs.Loops.{Answers, IsOn, Ends, StopsSo};
ghost use Rattle.run_machine.specs.Running.{IsGetting, IsSending, setting_of};

use crate::asking::{get, put};
use crate::ends::How;
use ada_io::GetEnd;
use ada_machine::{Machine, Never, Stop, go};
use ada_port::{Pulse, Sink, Source};
use ada_threads::{Crew, Team, run_site, threads_of};
use cell_memory::View;
use run_outside::Ports;
use stack_code::{Asked, Io, Leave};
use std::marker::Send;
use std::thread::Threads;

// Gives the threads of an outermost construct to workers, and goes on.
fn construct<R: Threads + Sync, U: Pulse + Sync>(
    crew: &Crew<'_, R, U>,
    team: &Team<'_>,
    machine: &mut Machine,
    view: &mut View<'_>,
    asked: Asked,
) -> Result<(), How>
    requires some { 0 < crew.now.workers }
    requires planned { HasNoZero team.now.plan.now }
    requires awaits { Awaits team.now.code.now machine.old }
    requires here { (low : AroundOf) × Forked team.now.code.now low asked.site (state_of machine.old []) }
    requires within { machine.old.turns ≤ team.now.limit }
    requires main { view.old.held ≡ None }
    requires there { OwnThere view.old }
    requires fine { IsFineFork team.now.limit team.now.code.now (plan_of team.now.plan.now) asked (state_of machine.old view.old.cells) }
    ensures built { BuiltSo team.now.limit team.now.code.now (plan_of team.now.plan.now) asked crew.now.workers result machine.old view.old.cells machine.new view.new.cells }
    ensures ready { OnOk result (Ready team.now.code.now machine.new view.new.cells) }
    ensures within { OnOk result (machine.new.turns ≤ team.now.limit) }
    ensures stays { StaysOn view.old view.new }
{
    let Ok(threads) = threads_of(team, machine, view.len(), asked) else {
        return Err(How::NoMemory);
    };
    match run_site(crew, team, machine, view, asked, threads) {
        Ok(told) => {
            if told.spent {
                Err(How::TurnsSpent)
            } else {
                Ok(())
            }
        }
        Err(_) => Err(How::NoMemory),
    }
}

// Answers what the machine asks for.
fn answer<I: Source + Drop, O: Sink + Drop>(
    team: &Team<'_>,
    machine: &mut Machine,
    ports: &mut Ports<I, O>,
    io: Io,
) -> Result<(), How>
    requires awaits { Awaits team.now.code.now machine.old }
    requires sends { (piece : List ℕ) → io ≡ Io.Write piece → IsSending (slice_get team.now.code.now.instrs machine.old.pc) }
    requires gets { io ≡ Io.Take → IsGetting (slice_get team.now.code.now.instrs machine.old.pc) }
    requires within { machine.old.turns ≤ team.now.limit }
    ensures answers { Answers ((s : I) → IsTold (I.state s)) team.now.limit team.now.code.now io result machine.old machine.new ports.old ports.new }
{
    match io {
        Io::Write(piece) => match put(team, machine, ports, piece.as_slice()) {
            Ok(()) => Ok(()),
            Err(_) => Err(How::WriteFault),
        },
        Io::Take => match get(team, machine, ports) {
            Err(_) => Err(How::NoMemory),
            Ok(got) => match got.end {
                GetEnd::Number { .. } => Ok(()),
                GetEnd::Raise { .. } => Ok(()),
                GetEnd::Spent => Err(How::TurnsSpent),
                GetEnd::ReadFault => Err(How::ReadFault),
            },
        },
    }
}

fn left_by(leave: Leave) -> How
    requires { (r : ReasonOf) × (leave ≡ Leave.Raise r) }
    ensures { (r : ReasonOf) → leave ≡ Leave.Raise r → result ≡ How.Raised r }
{
    match leave {
        Leave::Raise(reason) => How::Raised(reason),
        _ => unreachable!(),
    }
}

// Goes to the next stop and does what is asked there. An Err is how the run ended.
fn next_stop<R: Threads + Sync, I: Source + Drop, O: Sink + Drop, U: Pulse + Sync>(
    crew: &Crew<'_, R, U>,
    team: &Team<'_>,
    machine: &mut Machine,
    view: &mut View<'_>,
    ports: &mut Ports<I, O>,
) -> Result<(), How>
    requires some { 0 < crew.now.workers }
    requires planned { HasNoZero team.now.plan.now }
    requires on { (frame : ℕ) × (before : List ℕ) × IsOn ((s : I) → IsTold (I.state s)) (setting_of (plan_of team.now.plan.now) team.now.limit crew.now.workers) team.now.code.now frame before machine.old view.old ports.old }
    ensures stopped { (frame : ℕ) (before : List ℕ) → IsOn ((s : I) → IsTold (I.state s)) (setting_of (plan_of team.now.plan.now) team.now.limit crew.now.workers) team.now.code.now frame before machine.old view.old ports.old → StopsSo ((s : I) → IsTold (I.state s)) (setting_of (plan_of team.now.plan.now) team.now.limit crew.now.workers) team.now.code.now frame before result machine.new view.new ports.old ports.new }
{
    run_machine_laws::laws();
    ada_threads::laws();
    match go(team.code, machine, view, team.limit, &mut Never) {
        Stop::Construct(asked) => {
            let _many = view.len();
            construct(crew, team, machine, view, asked)
        }
        Stop::Ask(io) => answer(team, machine, ports, io),
        Stop::Done(_) => Err(How::Ended),
        Stop::Left(leave) => Err(left_by(leave)),
        Stop::Spent => Err(How::TurnsSpent),
        Stop::Paused => unreachable!(),
        Stop::NoMemory => Err(How::NoMemory),
    }
}

/// Goes on until the run ended. The loop ends where the machine does: between two stops it takes a step at least, and none of
/// the real world lives to take 2^64 - 1. That many would be want of memory.
pub(crate) fn go_on<R: Threads + Sync, I: Source + Drop, O: Sink + Drop, U: Pulse + Sync>(
    crew: &Crew<'_, R, U>,
    team: &Team<'_>,
    machine: &mut Machine,
    view: &mut View<'_>,
    ports: &mut Ports<I, O>,
) -> How
    requires some { 0 < crew.now.workers }
    requires planned { HasNoZero team.now.plan.now }
    requires on { (frame : ℕ) × (before : List ℕ) × IsOn ((s : I) → IsTold (I.state s)) (setting_of (plan_of team.now.plan.now) team.now.limit crew.now.workers) team.now.code.now frame before machine.old view.old ports.old }
    ensures ends { (frame : ℕ) (before : List ℕ) → IsOn ((s : I) → IsTold (I.state s)) (setting_of (plan_of team.now.plan.now) team.now.limit crew.now.workers) team.now.code.now frame before machine.old view.old ports.old → Ends ((s : I) → IsTold (I.state s)) (setting_of (plan_of team.now.plan.now) team.now.limit crew.now.workers) team.now.code.now frame before result ports.old ports.new view.new }
{
    run_machine_laws::laws();
    for _ in 0..u64::MAX {
        match next_stop(crew, team, machine, view, ports) {
            Ok(()) => {}
            Err(how) => return how,
        }
    }
    How::NoMemory
}
