// A whole run.
ghost use Rattle.std.specs.Prelude.{◌≡◌, ◌<◌, ℕ, pos, [], None, length, replicate};
ghost use Rattle.ada_base.specs.Cells.{Mine};
ghost use Rattle.ada_base.specs.Input.{Nothing};
ghost use Rattle.typed_tree.specs.Syntax.{Program};
ghost use Rattle.ada_port.specs.Ports.{IsTold};
ghost use Rattle.cell_memory.specs.Sight.{OwnThere};
ghost use Rattle.run_plan.specs.Plans.{HasNoZero, plan_of};
ghost use Rattle.run_machine_laws.specs.Programs.{IsLoaded};
ghost use Rattle.run_machine.specs.Running.{Runs, setting_of};

use crate::ends::How;
use crate::looping::go_on;
use ada_machine::Machine;
use ada_machine::starting::Counts;
use ada_port::{Pulse, Sink, Source};
use ada_threads::{Crew, Team};
use cell_memory::View;
use run_outside::Ports;
use stack_code::Around;
use std::marker::Send;
use std::thread::Threads;

/// Runs the machine on a program's code, on a main view of as many cells as the main frame has, all of 0, and on an input of
/// which nothing came yet. Its threads run on so many workers; with one worker constructs are run in order. The answer tells
/// of a run that is permitted, with the input that came and the output that was put. Want of memory and faults of devices are
/// ends of their own. The view is left with the cells as the machine left them, all of them
/// there.
pub fn run_machine<R: Threads + Sync, I: Source + Drop, O: Sink + Drop, U: Pulse + Sync>(
    crew: &Crew<'_, R, U>,
    team: &Team<'_>,
    view: &mut View<'_>,
    ports: &mut Ports<I, O>,
) -> How
    requires some { 0 < crew.now.workers }
    requires planned { HasNoZero team.now.plan.now }
    requires main { (view.old.held ≡ None) × OwnThere view.old }
    requires zeroed { view.old.cells ≡ replicate (length view.old.cells) (Mine (pos 0)) }
    requires fresh { (ports.old.came ≡ []) × (ports.old.held ≡ Nothing) }
    requires loaded { (program : Program) × (slots : ℕ) × IsLoaded program team.now.code.now (length view.old.cells) slots }
    ensures runs { Runs ((s : I) → IsTold (I.state s)) (setting_of (plan_of team.now.plan.now) team.now.limit crew.now.workers) team.now.code.now (length view.old.cells) ports.old.put result ports.old ports.new view.new.cells }
    ensures main { (view.new.held ≡ None) × OwnThere view.new }
{
    run_machine_laws::laws();
    ada_lower::laws();
    let counts = Counts {
        turns: 0,
        calls: 0,
        nested: 0,
    };
    match Machine::start(team.alloc, team.code, Around::Sub(0), &[0], counts) {
        Ok(mut machine) => go_on(crew, team, &mut machine, view, ports),
        Err(_) => How::NoMemory,
    }
}
