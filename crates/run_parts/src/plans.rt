//! How the iterations of parallel constructs are dealt to threads (5.5, 5.6.1).

ghost use Rattle.std.specs.Prelude.{◌≡◌, ◌≤◌, MatchOption};
ghost use Rattle.ada_base.specs.Cuts.{cuts_of, evens};
ghost use Rattle.ada_meaning.specs.Values.{without_zeros};
ghost use Rattle.run_plan.specs.Plans.{HasNoZero, plan_of};
ghost use Rattle.run_values.specs.Values.{OrNoMemory};
ghost use Rattle.run_parts.specs.Dealing as spec;

use crate::cells::size_at;
use crate::chunks::Chunking;
use crate::work::Work;
use ada_base::Items;
use run_plan::{Plan, cuts, evenly};
use run_values::End;
use std::marker::Model;

/// A plan of which each number is at least 1.
#[derive(Drop)]
pub struct SoundPlan {
    plan: Plan,
}

impl Model for SoundPlan {
    ghost use Rattle.ada_base.specs.Cuts as cuts;
    ghost use Rattle.run_plan.specs.Plans.{HasNoZero, plan_of};

    ghost Value = { cuts.Plan };

    ghost view = { λ sound. plan_of sound.plan };

    ghost invariant = { λ sound. HasNoZero sound.plan };
}

impl SoundPlan {
    /// A plan of which no number is 0.
    pub fn new(plan: Plan) -> SoundPlan
        requires { HasNoZero plan }
        ensures { result ≡ plan_of plan }
    {
        SoundPlan { plan }
    }

    /// A plan, unless a number in it is 0.
    pub fn checked(plan: Plan) -> Option<SoundPlan>
        ensures { MatchOption result (HasNoZero plan → ⊥) (λ sound. sound ≡ plan_of plan) }
    {
        if plan.has_no_zero() {
            Some(SoundPlan { plan })
        } else {
            None
        }
    }

    // the sizes of chunks by the plan
    fn sizes(&self, work: &Work<'_>, most: u32, count: u64) -> Result<Items<u64>, End>
        ensures { OrNoMemory (λ sizes. sizes ≡ cuts_of self.now most count) result }
    {
        if most == 0 {
            return Err(End::NoMemory);
        }
        match cuts(work.alloc, &self.plan, count, most) {
            Ok(cuts) => Ok(cuts.sizes),
            Err(_) => Err(End::NoMemory),
        }
    }
}

/// The sizes of the chunks of a loop's iterations.
pub fn loop_sizes(work: &Work<'_>, chunking: Chunking, count: u64) -> Result<Items<u64>, End>
    ensures { OrNoMemory (λ sizes. sizes ≡ spec.loop_sizes work.now chunking count) result }
{
    match chunking {
        Chunking::ByPlan { most } => {
            let sizes = work.plan.sizes(work, most, count)?;
            Ok(sizes)
        }
        Chunking::Each { chunks, .. } => {
            let sizes = even_sizes(work, count, chunks)?;
            Ok(sizes)
        }
    }
}

/// The sizes of the chunks of a reduction's iterations, none of which is empty.
pub fn fold_sizes(work: &Work<'_>, chunking: Chunking, count: u64) -> Result<Items<u64>, End>
    ensures { OrNoMemory (λ sizes. sizes ≡ spec.fold_sizes work.now chunking count) result }
{
    match chunking {
        Chunking::ByPlan { most } => {
            let sizes = work.plan.sizes(work, most, count)?;
            Ok(sizes)
        }
        Chunking::Each { chunks, .. } => {
            let sizes = even_sizes(work, count, chunks)?;
            let filled = filled(work, sizes.as_slice())?;
            Ok(filled)
        }
    }
}

/// So many sizes that are as equal as can be.
pub fn even_sizes(work: &Work<'_>, count: u64, chunks: u32) -> Result<Items<u64>, End>
    ensures { OrNoMemory (λ sizes. sizes ≡ evens count chunks) result }
{
    match evenly(work.alloc, count, chunks) {
        Ok(sizes) => Ok(sizes),
        Err(_) => Err(End::NoMemory),
    }
}

// the sizes that aren't 0
fn filled(work: &Work<'_>, sizes: &[u64]) -> Result<Items<u64>, End>
    ensures { OrNoMemory (λ filled. filled ≡ without_zeros sizes.now) result }
{
    let mut filled = Items::new(work.alloc);
    let mut k = 0;
    while let Some(size) = size_at(sizes, k) {
        push_filled(&mut filled, size)?;
        k += 1;
    }
    Ok(filled)
}

fn push_filled(filled: &mut Items<u64>, size: u64) -> Result<(), End>
    ensures { OrNoMemory (λ done. filled.new ≡ spec.with_filled filled.old size) result }
{
    if size == 0 {
        return Ok(());
    }
    match filled.push(size) {
        Ok(()) => Ok(()),
        Err(_) => Err(End::NoMemory),
    }
}
