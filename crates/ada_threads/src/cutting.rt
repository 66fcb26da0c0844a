// How the iterations of a construct are dealt.
ghost use Rattle.std.specs.Prelude.{◌≡◌, ◌≤◌, min, IfOk};
ghost use Rattle.ada_base.specs.Cuts.{cuts_of, evens};
ghost use Rattle.run_plan.specs.Plans.{HasNoZero, plan_of};
ghost use Rattle.ada_meaning.specs.Values.{without_zeros};
ghost use Rattle.ada_lower.specs.Driven.{sizes_for};

use ada_base::Items;
use run_plan::{Plan, cuts, evenly};
use stack_code::{Asked, SiteKind};
use std::alloc::{AllocError, Global};

// Those that aren't 0.
fn filled(alloc: Global, sizes: &[u64]) -> Result<Items<u64>, AllocError>
    ensures { IfOk result (λ r. r ≡ without_zeros sizes.now) }
{
    let mut kept = Items::new(alloc);
    for size in sizes {
        if *size == 0 {
            continue;
        }
        kept.push(*size)?;
    }
    Ok(kept)
}

fn by_plan(alloc: Global, plan: &Plan, count: u64, most: u32) -> Result<Items<u64>, AllocError>
    requires { HasNoZero plan.now }
    ensures { IfOk result (λ r. r ≡ cuts_of (plan_of plan.now) most count) }
{
    if most == 0 {
        return Err(AllocError);
    }
    Ok(cuts(alloc, plan, count, most)?.sizes)
}

// No more arms than there may be threads.
fn fewest(most: u32, count: u64) -> u32
    ensures { result ≡ min most count }
{
    count.min(u64::from(most)) as u32
}

/// How many iterations each thread of a construct has: by the plan, or evenly where the construct has a chunk parameter or
/// is a block (5.5). An Err is want of memory; so is a fork that asks for no thread at most, of which lowered code has none.
pub fn sizes_of(
    alloc: Global,
    plan: &Plan,
    kind: SiteKind,
    asked: Asked,
) -> Result<Items<u64>, AllocError>
    requires { HasNoZero plan.now }
    ensures { IfOk result (λ r. r ≡ sizes_for (cuts_of (plan_of plan.now)) kind asked) }
{
    match kind {
        SiteKind::Loop => by_plan(alloc, plan, asked.count, asked.most),
        SiteKind::ChunkLoop => evenly(alloc, asked.count, asked.most),
        SiteKind::Block(_) => evenly(alloc, asked.count, fewest(asked.most, asked.count)),
        SiteKind::Reduction(_) => by_plan(alloc, plan, asked.count, asked.most),
        SiteKind::ChunkReduction(_) => {
            let sizes = evenly(alloc, asked.count, asked.most)?;
            filled(alloc, sizes.as_slice())
        }
    }
}
