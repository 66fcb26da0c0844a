// The cells that the leases of a construct lend one of its threads, as regions.
ghost use Rattle.std.specs.Prelude.{◌≡◌, ◌<◌, ◌↔◌, ℕ, IfOk, true};
ghost use Rattle.cell_strip.specs.Regions.{covered};
ghost use Rattle.ada_lower.specs.Lending.{IsLent, chunk_at, frame_at};
ghost use Rattle.ada_threads.specs.Shares.{share_of};
ghost use Rattle.ada_threads.specs.Areas.{AddsCells, AddsLease, Inside, IsFirst, IsRegion, IsSpan, SameRows};

use crate::combs::{Comb, after_steps, further};
use crate::iterations::Iterations;
use cell_memory::Region;
use stack_code::{Asked, CodeSite, Lease, SiteKind};
use std::alloc::{AllocError, Global};

/// A fork: its construct, what it took, where the frames begin that its path sees, and how many cells the memory has.
#[derive(Clone, Copy)]
pub(crate) struct Lender<'a> {
    pub alloc: Global,
    pub site: &'a CodeSite,
    pub asked: Asked,
    pub sees: &'a [u64],
    pub many: u64,
}

// So many iterations from the first on.
#[derive(Clone, Copy)]
struct Span {
    first: u64,
    count: u64,
}

// So many rows, each so far behind the one before.
#[derive(Clone, Copy)]
struct Rows {
    count: u64,
    stride: u64,
}

fn base_of(sees: &[u64], frame: Option<u32>) -> Option<u64>
    ensures { result ≡ frame_at sees.now frame }
{
    match frame {
        None => Some(0),
        Some(number) => sees.get(number as usize).copied(),
    }
}

fn chunk_of(kind: SiteKind, asked: Asked, number: u32) -> i128
    ensures { result ≡ chunk_at kind asked number }
{
    match kind {
        SiteKind::Loop => i128::from(number),
        SiteKind::ChunkLoop => i128::from(asked.chunk) + i128::from(number),
        SiteKind::Block(_) => i128::from(number),
        SiteKind::Reduction(_) => i128::from(number),
        SiteKind::ChunkReduction(_) => i128::from(asked.chunk) + i128::from(number),
    }
}

fn whole(part: Iterations) -> Span
    ensures { result ≡ record { first = part.first; count = part.size } }
{
    Span {
        first: part.first,
        count: part.size,
    }
}

// In a block the arm is an iteration.
fn of_arm(arm: u32, part: Iterations) -> Span
    ensures { (arms : ℕ) → IsSpan (SiteKind.Block arms) arm (share_of part) result }
{
    let arm = u64::from(arm);
    if arm < part.first || arm - part.first >= part.size {
        return Span { first: 0, count: 0 };
    }
    Span {
        first: arm,
        count: 1,
    }
}

// Those iterations of a thread in which it has the lease of an arm.
fn span_of(kind: SiteKind, arm: u32, part: Iterations) -> Span
    ensures { IsSpan kind arm (share_of part) result }
{
    match kind {
        SiteKind::Loop => whole(part),
        SiteKind::ChunkLoop => whole(part),
        SiteKind::Block(_) => of_arm(arm, part),
        SiteKind::Reduction(_) => whole(part),
        SiteKind::ChunkReduction(_) => whole(part),
    }
}

// One row, where all are the same.
fn rows_of(comb: Comb) -> Rows
    requires { 0 < comb.count }
    ensures { SameRows comb result }
{
    if comb.count == 1 || comb.stride == 0 {
        return Rows {
            count: 1,
            stride: 0,
        };
    }
    Rows {
        count: comb.count,
        stride: comb.stride,
    }
}

// The region of so many cells from each place of a comb on. An Err is a cell that the memory doesn't have.
fn region_of(comb: Comb, run: u32, many: u64) -> Result<Region, AllocError>
    ensures { IfOk result (λ region. IsRegion comb run many region) }
{
    if comb.count == 0 || run == 0 {
        return Ok(Region::none());
    }
    let rows = rows_of(comb);
    let last = further(comb.at, rows.count - 1, rows.stride)?;
    let end = further(last, 1, u64::from(run))?;
    if end > many {
        return Err(AllocError);
    }
    let Ok(count) = u32::try_from(rows.count) else {
        return Err(AllocError);
    };
    let Ok(stride) = u32::try_from(rows.stride) else {
        return Err(AllocError);
    };
    Ok(Region {
        base: comb.at,
        count,
        stride,
        run,
    })
}

fn add_regions(
    combs: &[Comb],
    run: u32,
    many: u64,
    regions: &mut Vec<Region>,
) -> Result<(), AllocError>
    ensures { IfOk result (λ _. AddsCells run many combs.now regions.old.items regions.new.items) }
{
    for comb in combs {
        let region = region_of(*comb, run, many)?;
        regions.push(region)?;
    }
    Ok(())
}

fn comb_of(asked: Asked, lease: &Lease, span: Span, base: u64) -> Result<Comb, AllocError>
    ensures { IfOk result (λ comb. IsFirst asked lease.now span base comb) }
{
    let at = further(base, 1, u64::from(lease.base))?;
    Ok(Comb {
        value: i128::from(asked.first) + i128::from(span.first),
        count: span.count,
        at,
        stride: 0,
    })
}

#[tactic(auto, using(crate::proofs::LeaseCells::lease_out))]
fn add_lease(
    lender: &Lender<'_>,
    lease: &Lease,
    part: Iterations,
    regions: &mut Vec<Region>,
) -> Result<(), AllocError>
    ensures { IfOk result (λ _. AddsLease lender.now.site.now lender.now.asked lender.now.sees.now lender.now.many (share_of part) lease.now regions.old.items regions.new.items) }
{
    // Most leases of a block are of other threads' arms.
    let span = span_of(lender.site.kind, lease.arm, part);
    if span.count == 0 {
        return Ok(());
    }
    let Some(base) = base_of(lender.sees, lease.frame) else {
        return Ok(());
    };
    let comb = comb_of(lender.asked, lease, span, base)?;
    let chunk = chunk_of(lender.site.kind, lender.asked, part.number);
    let combs = after_steps(lender.alloc, comb, lease.steps.as_slice(), chunk)?;
    add_regions(combs.as_slice(), lease.run, lender.many, regions)
}

/// The cells that a thread of a construct is lent, exactly. An Err is want of memory, or a lease of a cell that the memory
/// doesn't have, of which lowered code has none.
pub(crate) fn regions_of(lender: &Lender<'_>, part: Iterations) -> Result<Vec<Region>, AllocError>
    ensures exact { IfOk result (λ regions. (x : ℕ) → (covered regions.items x ≡ true) ↔ IsLent lender.now.site.now lender.now.asked lender.now.sees.now (share_of part) x) }
    ensures inside { IfOk result (λ regions. Inside lender.now.many regions.items) }
{
    let mut regions = Vec::new(lender.alloc);
    for lease in lender.site.leases.as_slice() {
        add_lease(lender, lease, part, &mut regions)?;
    }
    Ok(regions)
}
