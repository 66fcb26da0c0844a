// The threads of an outermost construct, as workers take them.
ghost use Rattle.std.specs.Prelude.{◌≡◌, ◌≤◌, ◌<◌, ◌+◌, ◌^◌, [], List, IfOk, IfSome, Some, length, slice_get, vec_len};
ghost use Rattle.ada_base.specs.Cells.{Cell};
ghost use Rattle.behaviours.specs.Joins.{deal};
ghost use Rattle.run_plan.specs.Plans.{HasNoZero, plan_of};
ghost use Rattle.stack_code.specs.declared.code.Around.{Around as AroundOf};
ghost use Rattle.stack_code.specs.declared.code.CodeSite.{CodeSite as SiteOf};
ghost use Rattle.stack_code.specs.Machine.{sees};
ghost use Rattle.stack_code.specs.Stands.{Forked};
ghost use Rattle.ada_lower.specs.Lending.{Owns};
ghost use Rattle.ada_machine.specs.States.{state_of, Awaits};
ghost use Rattle.ada_workers.specs.Threads.{begins_of, areas_of, FramesFit, AllInside};
ghost use Rattle.machine_paths.specs.Constructing.{shares_of, starts_at};
ghost use Rattle.ada_threads.specs.Dealt.{AllDealt, IsDealt, LendsAt};
ghost use Rattle.ada_threads.specs.Lent.{owner_from};
ghost use Rattle.ada_threads.specs.Shares.{share_of};

use crate::cutting::sizes_of;
use crate::inside::inner;
use crate::iterations::{Iterations, frame_of};
use crate::regions::{Lender, regions_of};
use crate::thread::{MachineThread, Team};
use ada_machine::Machine;
use ada_workers::{NoMemory, Thread};
use stack_code::Asked;

// A thread of the construct at which the machine stands. None is want of memory.
fn thread_of<'a>(
    team: &Team<'a>,
    machine: &Machine,
    lender: &Lender<'_>,
    part: Iterations,
) -> Option<Thread<MachineThread<'a>>>
    requires planned { HasNoZero team.now.plan.now }
    requires awaits { Awaits team.now.code.now machine.now }
    requires here { (low : AroundOf) × Forked team.now.code.now low lender.now.asked.site (state_of machine.now []) }
    requires within { machine.now.turns ≤ team.now.limit }
    requires near { lender.now.many ≤ 2 ^ 62 }
    requires lends { LendsAt team.now.code.now (state_of machine.now []) lender.now }
    ensures { IfSome result (λ t. IsDealt team.now.limit team.now.code.now (plan_of team.now.plan.now) lender.now.site.now lender.now.asked (state_of machine.now []) lender.now.many (share_of part) t) }
{
    let path = inner(team, machine, lender.many, lender.asked.site)?;
    let frame = frame_of(lender.site.frame, lender.asked, part)?;
    let Ok(regions) = regions_of(lender, part) else {
        return None;
    };
    Some(Thread {
        regions,
        frame,
        path,
    })
}

// The next thread begins behind the iterations of this one. None where no number of 32 or 64 bits holds it.
fn next_of(part: Iterations) -> Option<Iterations>
    ensures next { IfSome result (λ next. next ≡ record { number = part.number + 1; first = part.first + part.size; size = 0 }) }
    ensures small { IfSome result (λ next. next.number < 2 ^ 32) }
{
    let number = part.number.checked_add(1)?;
    let first = part.first.checked_add(part.size)?;
    Some(Iterations {
        number,
        first,
        size: 0,
    })
}

// The threads that have so many iterations each.
fn dealt<'a>(
    team: &Team<'a>,
    machine: &Machine,
    lender: &Lender<'_>,
    sizes: &[u64],
) -> Option<Vec<Thread<MachineThread<'a>>>>
    requires planned { HasNoZero team.now.plan.now }
    requires awaits { Awaits team.now.code.now machine.now }
    requires here { (low : AroundOf) × Forked team.now.code.now low lender.now.asked.site (state_of machine.now []) }
    requires within { machine.now.turns ≤ team.now.limit }
    requires near { lender.now.many ≤ 2 ^ 62 }
    requires lends { LendsAt team.now.code.now (state_of machine.now []) lender.now }
    ensures threads { IfSome result (λ ts. AllDealt team.now.limit team.now.code.now (plan_of team.now.plan.now) lender.now.site.now lender.now.asked (state_of machine.now []) lender.now.many (deal 0 0 sizes.now) ts.items) }
    ensures many { IfSome result (λ ts. vec_len ts < 2 ^ 32) }
{
    let mut threads = Vec::new(team.alloc);
    let mut next = Iterations {
        number: 0,
        first: 0,
        size: 0,
    };
    for size in sizes {
        let part = Iterations {
            size: *size,
            ..next
        };
        let thread = thread_of(team, machine, lender, part)?;
        let Ok(()) = threads.push(thread) else {
            return None;
        };
        next = next_of(part)?;
    }
    Some(threads)
}

/// The threads of an outermost construct at which the machine stands, whose view has so many cells: as the construct's plan
/// or chunks deal its iterations, each with the regions that it is lent, exactly. An Err is want of memory, as are more
/// threads or greater numbers than 32 or 64 bits hold, and a lease of cells that the view doesn't have; lowered code has none.
pub fn threads_of<'a>(
    team: &Team<'a>,
    machine: &Machine,
    many: u64,
    asked: Asked,
) -> Result<Vec<Thread<MachineThread<'a>>>, NoMemory>
    requires planned { HasNoZero team.now.plan.now }
    requires awaits { Awaits team.now.code.now machine.now }
    requires here { (low : AroundOf) × Forked team.now.code.now low asked.site (state_of machine.now []) }
    requires within { machine.now.turns ≤ team.now.limit }
    requires near { many ≤ 2 ^ 62 }
    ensures starts { IfOk result (λ ts. (site : SiteOf) (cells : List Cell) → slice_get team.now.code.now.sites asked.site ≡ Some site → length cells ≡ many → begins_of ts.items ≡ starts_at team.now.limit team.now.code.now (plan_of team.now.plan.now) site asked (state_of machine.now cells)) }
    ensures fits { IfOk result (λ ts. FramesFit ts.items × (vec_len ts < 2 ^ 32)) }
    ensures inside { IfOk result (λ ts. AllInside many ts.items) }
    ensures lent { IfOk result (λ ts. (site : SiteOf) → slice_get team.now.code.now.sites asked.site ≡ Some site → Owns site asked (sees (state_of machine.now [])) (shares_of (plan_of team.now.plan.now) site asked) (owner_from 0 (areas_of ts.items))) }
{
    let site = &team.code.sites.as_slice()[asked.site as usize];
    let Ok(sees) = machine.frames(team.alloc) else {
        return Err(NoMemory);
    };
    let Ok(sizes) = sizes_of(team.alloc, team.plan, site.kind, asked) else {
        return Err(NoMemory);
    };
    let lender = Lender {
        alloc: team.alloc,
        site,
        asked,
        sees: sees.as_slice(),
        many,
    };
    match dealt(team, machine, &lender, sizes.as_slice()) {
        Some(threads) => Ok(threads),
        None => Err(NoMemory),
    }
}
