//! The run of a unit.

ghost use Rattle.std.specs.Prelude.{◌≡◌, ◌<◌, IfOk, None, pos, replicate};
ghost use Rattle.ada_port.specs.Ports.{IsTold, Stream};
ghost use Rattle.cell_memory.specs.Sight.{OwnThere};
ghost use Rattle.typed_tree.specs.Programs.{program};
ghost use Rattle.run_plan.specs.Plans.{HasNoZero, plan_of};
ghost use Rattle.run_outside.specs.Outside.{fresh};
ghost use Rattle.driver.specs.Coded.{IsBuilt};
ghost use Rattle.driver.specs.Kept.{IsRoom, main_frame};
ghost use Rattle.driver.specs.Running.{Runs, by_workers, end_by, setting_of};

use crate::kept::{read, room};
use crate::unit::Unit;
use ada_port::{Pulse, Sink, Source};
use ada_threads::{Crew, Team};
use cell_memory::{Memory, View};
use run_machine::{How, run_machine};
use run_outside::Ports;
use run_plan::Setting;
use run_reports::{Finals, RunEnd};
use stack_code::Code;
use std::alloc::{AllocError, Global};
use std::thread::Threads;

/// A run's end, with its input and its output as it left them.
#[derive(Drop)]
pub struct Ran<I: Source + Drop, O: Sink + Drop> {
    pub end: RunEnd,
    pub input: I,
    pub out: O,
}

/// The cells of the main frame, and room for what the main procedure's variables have at the end.
struct Begun {
    memory: Memory,
    finals: Finals,
}

fn main_frame(code: &Code) -> u32
    ensures { result ≡ main_frame code.now }
{
    match code.subs.get(0) {
        Some(main) => main.frame,
        None => 0,
    }
}

/// All the memory that a run needs beside what the machine takes. An Err is want of it.
fn prepared(alloc: Global, unit: &Unit) -> Result<Begun, AllocError>
    ensures room { IfOk result (λ b. IsRoom unit.now.variables b.finals) }
    ensures memory { IfOk result (λ b. b.memory.values ≡ replicate (main_frame unit.now.code) (pos 0)) }
{
    let finals = room(alloc, unit.variables.as_slice())?;
    let memory = Memory::new(alloc, main_frame(&unit.code))?;
    Ok(Begun { memory, finals })
}

fn ended(how: How, limit: u64, finals: Finals) -> RunEnd
    ensures { result ≡ end_by how limit finals }
{
    match how {
        How::Ended => RunEnd::Ended(finals),
        How::Raised(reason) => RunEnd::Raised(reason),
        How::TurnsSpent => RunEnd::TurnsSpent(limit),
        How::ReadFault => RunEnd::ReadFault,
        How::WriteFault => RunEnd::WriteFault,
        How::NoMemory => RunEnd::NoMemory,
    }
}

fn give_up(view: View<'_>)
    requires main { view.held ≡ None }
    requires there { OwnThere view }
{
    match view.into_lent() {
        None => {}
        Some(_) => unreachable!(),
    }
}

/// Runs the machine on the code of a unit.
fn on_machine<R: Threads + Sync, I: Source + Drop, O: Sink + Drop, P: Pulse + Sync>(
    crew: &Crew<'_, R, P>,
    alloc: Global,
    unit: &Unit,
    setting: &Setting,
    begun: Begun,
    ports: Ports<I, O>,
) -> Ran<I, O>
    requires some { 0 < crew.now.workers }
    requires planned { HasNoZero setting.now.plan }
    requires built { IsBuilt unit.now }
    requires room { IsRoom unit.now.variables begun.finals }
    requires memory { begun.memory.values ≡ replicate (main_frame unit.now.code) (pos 0) }
    requires fresh { (i : Stream) × ((o : Stream) × (ports ≡ fresh i o)) }
    ensures { (i o : Stream) → ports ≡ fresh i o → Runs ((s : I) → IsTold (I.state s)) ((s : O) → IsTold (O.state s)) (program unit.now.typed) (by_workers (plan_of setting.now.plan) crew.now.workers setting.now.turns) result.end i (I.state result.input) o (O.state result.out) }
{
    run_loaded::laws();
    name_scopes::laws();
    let Begun { memory, mut finals } = begun;
    let mut ports = ports;
    let mut view = View::main(memory);
    let team = Team {
        alloc,
        code: &unit.code,
        plan: &setting.plan,
        limit: setting.turns,
    };
    let how = run_machine(crew, &team, &mut view, &mut ports);
    read(&view, &mut finals.kept);
    give_up(view);
    let (input, out) = ports.into_parts();
    let end = ended(how, setting.turns, finals);
    Ran { end, input, out }
}

/// Runs a unit under a setting, on an input and an output, which it gives back as the run left them. `ReadFault` and
/// `WriteFault` come only where the count of that device's faults rose. There is an input on which a run is permitted under
/// the setting's plan, number of workers and limit that ends as the answer says: where the input tells what it holds, that,
/// and what that run didn't take is left; where the output tells, that run's output was put. Where it ended by itself, and
/// left no parallel construct early or had one worker, no other run that is permitted there ends by itself and comes to
/// anything else. Where the sequential run on that input is calm, the output is a prefix of that run's, also where a fault or
/// want of memory stopped the run. The threads of outermost parallel constructs run on so many workers; the pulse is told of
/// each thread that one of them begins.
pub fn execute<R: Threads + Sync, I: Source + Drop, O: Sink + Drop, P: Pulse + Sync>(
    rt: &R,
    alloc: Global,
    unit: &Unit,
    setting: Setting,
    input: I,
    out: O,
    pulse: &P,
) -> Ran<I, O>
    requires planned { HasNoZero setting.plan }
    requires some { 0 < setting.workers }
    requires built { IsBuilt unit.now }
    ensures { Runs ((s : I) → IsTold (I.state s)) ((s : O) → IsTold (O.state s)) (program unit.now.typed) (setting_of setting) result.end (I.state input) (I.state result.input) (O.state out) (O.state result.out) }
{
    let ports = Ports::new(input, out);
    match prepared(alloc, unit) {
        Ok(begun) => {
            let crew = Crew {
                rt,
                workers: setting.workers,
                pulse,
            };
            on_machine(&crew, alloc, unit, &setting, begun, ports)
        }
        Err(_) => {
            let (input, out) = ports.into_parts();
            Ran {
                end: RunEnd::NoMemory,
                input,
                out,
            }
        }
    }
}
