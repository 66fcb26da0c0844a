// A construct inside a thread: the path of its threads, and its answer.
ghost use Rattle.std.specs.Prelude.{◌≡◌, ◌≤◌, ◌^◌, [], ◌∷◌, IfOk, IfSome};
ghost use Rattle.stack_code.specs.declared.code.Around.{Around as AroundOf};
ghost use Rattle.stack_code.specs.Machine.{sees};
ghost use Rattle.stack_code.specs.Stands.{Forked};
ghost use Rattle.run_plan.specs.Plans.{HasNoZero, plan_of};
ghost use Rattle.ada_machine.specs.States.{state_of, Awaits};
ghost use Rattle.ada_threads.specs.Answers.{Answers, IsPathAt};

use crate::combining::answer_of;
use crate::thread::{MachineThread, Team};
use crate::way::{End, Way};
use ada_machine::Machine;
use ada_machine::starting::Counts;
use stack_code::{Gave, SiteKind};
use std::alloc::{AllocError, Global};

// Where the frames begin that its threads see, their own first. An Err is want of memory.
fn all_frames(alloc: Global, machine: &Machine, base: u64) -> Result<Vec<u64>, AllocError>
    ensures { IfOk result (λ v. v.items ≡ base ∷ sees (state_of machine.now [])) }
{
    let seen = machine.frames(alloc)?;
    let mut frames = Vec::new(alloc);
    frames.push(base)?;
    frames.extend_from_slice(seen.as_slice())?;
    Ok(frames)
}

/// The path of the threads of a construct at which the machine stands, whose frames begin at `base`. None is want of memory.
pub(crate) fn inner<'a>(
    team: &Team<'a>,
    machine: &Machine,
    base: u64,
    site: u32,
) -> Option<MachineThread<'a>>
    requires planned { HasNoZero team.now.plan.now }
    requires awaits { Awaits team.now.code.now machine.now }
    requires here { (low : AroundOf) × Forked team.now.code.now low site (state_of machine.now []) }
    requires within { machine.now.turns ≤ team.now.limit }
    requires near { base ≤ 2 ^ 62 }
    ensures { IfSome result (λ p. IsPathAt team.now.limit team.now.code.now (plan_of team.now.plan.now) base site (state_of machine.now []) p) }
{
    let body = &team.code.sites.as_slice()[site as usize];
    let Ok(frames) = all_frames(team.alloc, machine, base) else {
        return None;
    };
    Some(MachineThread {
        team: *team,
        site,
        entry: body.entry,
        frames,
        counts: Counts {
            turns: machine.turns,
            calls: machine.calls,
            nested: machine.nested,
        },
        how: None,
    })
}

/// What the construct answers, or how its threads stopped.
pub(crate) fn answered(alloc: Global, kind: SiteKind, initial: i64, end: End) -> Result<Gave, Way>
    ensures { Answers kind initial end result }
{
    match end {
        End::Values(parts) => match answer_of(alloc, kind, initial, parts) {
            Ok(gave) => Ok(gave),
            Err(_) => Err(Way::NoMemory),
        },
        End::Left(leave) => Ok(Gave::Left(leave)),
        End::Spent => Err(Way::Spent),
        End::Paused => Err(Way::Paused),
        End::NoMemory => Err(Way::NoMemory),
    }
}
