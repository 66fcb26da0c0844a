// How a thread of the machine runs on a view, and the constructs in it in order on the same view.
ghost use Rattle.std.specs.Prelude.{◌≡◌, ◌<◌, ◌≤◌, [], false, None, Err, length};
ghost use Rattle.behaviours.specs.Joins.{deal};
ghost use Rattle.cell_memory.specs.Sight.{OwnThere, lower_length};
ghost use Rattle.run_plan.specs.Plans.{HasNoZero, plan_of};
ghost use Rattle.stack_code.specs.declared.code.Around.{Around as AroundOf};
ghost use Rattle.stack_code.specs.Stands.{Forked};
ghost use Rattle.stack_code.specs.Tops.{IsTopped};
ghost use Rattle.ada_lower.specs.Driven.{On};
ghost use Rattle.ada_machine.specs.States.{state_of, Awaits};
ghost use Rattle.ada_machine.specs.Places.{Stays};
ghost use Rattle.ada_machine.specs.Viewed.{seat_of};
ghost use Rattle.machine_paths.specs.Threads.{starts};
ghost use Rattle.ada_threads.specs.Going.{IsFine};
ghost use Rattle.ada_threads.specs.Shares.{share_of};
ghost use Rattle.ada_threads.specs.Came.{Came, IsSet, at_fork, ForkRan, thread, BodyRan, ThreadRan, OrderRan, IsFineOrder, dyn};

use crate::cutting::sizes_of;
use crate::inside::{answered, inner};
use crate::iterations::{Iterations, frame_of};
use crate::settling::settle;
use crate::tally::{Tally, looks_after};
use crate::thread::{MachineThread, Team};
use crate::way::{End, Fork, Joined, Ran, Way};
use ada_machine::{Halt, Machine, Stop, go};
use ada_workers::{enter, leave};
use cell_memory::View;
use stack_code::{Asked, Gave};

// Goes on until the machine's path ends. `levels` is how deep constructs may still be nested; want of more is want of
// memory, as is that of a further construct after 2^64 - 1.
#[cycle(paths)]
fn pursue<H: Halt>(
    team: &Team<'_>,
    machine: &mut Machine,
    view: &mut View<'_>,
    halt: &mut H,
    levels: u32,
) -> Way
    requires planned { HasNoZero team.now.plan.now }
    requires set { IsSet team.now.limit team.now.code.now (plan_of team.now.plan.now) machine.old view.old.cells }
    requires there { OwnThere view.old }
    requires tops { IsTopped (lower_length view.old) (state_of machine.old view.old.cells) }
    ensures came { Came team.now.limit team.now.code.now (plan_of team.now.plan.now) result machine.old view.old.cells machine.new view.new.cells }
    ensures stays { Stays lower_length OwnThere seat_of view.old view.new }
    ensures halts { (H.kept halt.new ≡ H.kept halt.old) × (H.told halt.old → H.told halt.new) }
    ensures paused { result ≡ Way.Paused → H.told halt.new }
{
    for _ in 0..u64::MAX {
        match go(team.code, machine, view, team.limit, halt) {
            Stop::Construct(asked) => {
                if levels == 0 {
                    return Way::NoMemory;
                }
                match run_fork(team, machine, view, halt, asked, levels - 1) {
                    Ok(gave) => machine.resume_after(team.code, gave),
                    Err(way) => return way,
                }
            }
            Stop::Done(value) => return Way::Done(value),
            Stop::Left(leave) => return Way::Left(leave),
            Stop::Spent => return Way::Spent,
            Stop::Paused => return Way::Paused,
            Stop::NoMemory => return Way::NoMemory,
            Stop::Ask(_) => unreachable!(),
        }
    }
    Way::NoMemory
}

// Runs the threads of a construct at which the machine stands.
#[cycle(paths)]
fn run_fork<H: Halt>(
    team: &Team<'_>,
    machine: &mut Machine,
    view: &mut View<'_>,
    halt: &mut H,
    asked: Asked,
    levels: u32,
) -> Result<Gave, Way>
    requires planned { HasNoZero team.now.plan.now }
    requires awaits { Awaits team.now.code.now machine.old }
    requires here { (low : AroundOf) × Forked team.now.code.now low asked.site (state_of machine.old view.old.cells) }
    requires fine { IsFine team.now.limit team.now.code.now (at_fork (plan_of team.now.plan.now) asked (state_of machine.old view.old.cells) None) }
    requires within { machine.old.turns ≤ team.now.limit }
    requires there { OwnThere view.old }
    ensures ran { ForkRan team.now.limit team.now.code.now (plan_of team.now.plan.now) asked result machine.old view.old.cells machine.new view.new.cells }
    ensures stays { Stays lower_length OwnThere seat_of view.old view.new }
    ensures halts { (H.kept halt.new ≡ H.kept halt.old) × (H.told halt.old → H.told halt.new) }
    ensures paused { result ≡ Err Way.Paused → H.told halt.new }
{
    let Some(path) = inner(team, machine, view.len(), asked.site) else {
        return Err(Way::NoMemory);
    };
    let site = &team.code.sites.as_slice()[asked.site as usize];
    let Ok(sizes) = sizes_of(team.alloc, team.plan, site.kind, asked) else {
        return Err(Way::NoMemory);
    };
    let fork = Fork {
        asked,
        frame: site.frame,
    };
    let joined = run_order(&path, view, halt, fork, sizes.as_slice(), levels);
    machine.turns = joined.turns;
    machine.looks = looks_after(machine.looks, joined.looks);
    answered(team.alloc, site.kind, asked.initial, joined.end)
}

// Runs threads one after the other, up to one that leaves.
#[cycle(paths)]
fn run_order<H: Halt>(
    path: &MachineThread<'_>,
    view: &mut View<'_>,
    halt: &mut H,
    fork: Fork,
    sizes: &[u64],
    levels: u32,
) -> Joined
    requires there { OwnThere view.old }
    requires base { path.now.base ≡ length view.old.cells }
    requires fine { IsFineOrder path.now fork.frame fork.asked (deal 0 0 sizes.now) (dyn path.now.plan view.old.cells path.now.turns None) path.now.turns false [] }
    ensures ran { OrderRan path.now fork.frame fork.asked (deal 0 0 sizes.now) result view.old.cells view.new.cells }
    ensures stays { Stays lower_length OwnThere seat_of view.old view.new }
    ensures halts { (H.kept halt.new ≡ H.kept halt.old) × (H.told halt.old → H.told halt.new) }
    ensures paused { result.end ≡ End.Paused → H.told halt.new }
{
    let mut tally = Tally::new(path.team.alloc, path.counts.turns);
    for size in sizes {
        let ran = run_thread(path, view, halt, fork, tally.share(*size), levels);
        if let Some(end) = tally.add(ran, *size) {
            return tally.ended(end);
        }
    }
    tally.joined()
}

// Runs a thread with its frame behind the other cells.
#[cycle(paths)]
fn run_thread<H: Halt>(
    path: &MachineThread<'_>,
    view: &mut View<'_>,
    halt: &mut H,
    fork: Fork,
    share: Iterations,
    levels: u32,
) -> Ran
    requires there { OwnThere view.old }
    requires fine { IsFine path.now.limit path.now.code (thread path.now fork.frame fork.asked (share_of share) view.old.cells None) }
    ensures ran { ThreadRan path.now fork.frame fork.asked (share_of share) result view.old.cells view.new.cells }
    ensures stays { Stays lower_length OwnThere seat_of view.old view.new }
    ensures halts { (H.kept halt.new ≡ H.kept halt.old) × (H.told halt.old → H.told halt.new) }
    ensures paused { result.way ≡ Way.Paused → H.told halt.new }
{
    let many = view.len();
    let Some(frame) = frame_of(fork.frame, fork.asked, share) else {
        return path.short();
    };
    match enter(view, frame) {
        Ok(()) => {}
        Err(_) => return path.short(),
    }
    let ran = run_body(path, view, halt, levels);
    leave(view, many);
    ran
}

/// Runs the body of a thread on a view which its frame stands on.
#[cycle(paths)]
pub(crate) fn run_body<H: Halt>(
    path: &MachineThread<'_>,
    view: &mut View<'_>,
    halt: &mut H,
    levels: u32,
) -> Ran
    requires there { OwnThere view.old }
    requires fine { IsFine path.now.limit path.now.code (On (starts path.now None view.old.cells)) }
    ensures ran { BodyRan path.now result view.old.cells view.new.cells }
    ensures stays { Stays lower_length OwnThere seat_of view.old view.new }
    ensures halts { (H.kept halt.new ≡ H.kept halt.old) × (H.told halt.old → H.told halt.new) }
    ensures paused { result.way ≡ Way.Paused → H.told halt.new }
{
    let Ok(mut machine) = path.machine() else {
        return path.short();
    };
    let way = pursue(&path.team, &mut machine, view, halt, levels);
    settle(&machine, view);
    Ran {
        way,
        turns: machine.turns,
        looks: machine.looks,
    }
}
