use ada_base::Items;
use run_plan::{Plan, cuts, even, evenly};
use std::alloc::{AllocError, Global};

const GREATEST: u64 = 1 << 62;

// Three times this is 1 less than GREATEST.
const THIRD: u64 = 1_537_228_672_809_129_301;

// A plan as a row holds it.
#[derive(Clone, Copy)]
enum Given {
    One,
    Even(u32),
    Sized(u32),
    Listed(&'static [u32]),
}

// The plan, the number of iterations, the most chunks, and the chunks' sizes. More rows stand in proofs/CutRows.antt.
const CUTS: &[(Given, u64, u32, &[u64])] = &[
    (Given::Sized(3), 10, 4, &[3, 3, 3, 1]),
    (Given::Sized(3), 10, 2, &[3, 7]),
    (Given::Even(3), 10, 4096, &[4, 3, 3]),
    (Given::Listed(&[1, 2]), 10, 4096, &[1, 2, 7]),
    (Given::Listed(&[5, 9]), 10, 4096, &[5, 5]),
    (Given::Listed(&[4, 6, 1]), 10, 4096, &[4, 6]),
    (Given::One, 0, 4096, &[]),
    (Given::One, GREATEST, 4096, &[GREATEST]),
    (Given::Even(3), GREATEST, 4096, &[THIRD + 1, THIRD, THIRD]),
    (Given::Sized(1), GREATEST, 2, &[1, GREATEST - 1]),
    (Given::Listed(&[7]), GREATEST, 4096, &[7, GREATEST - 7]),
];

fn plan(alloc: Global, given: Given) -> Result<Plan, AllocError> {
    Ok(match given {
        Given::One => Plan::One,
        Given::Even(chunks) => Plan::Even(chunks),
        Given::Sized(size) => Plan::Sized(size),
        Given::Listed(sizes) => listed(alloc, sizes)?,
    })
}

fn listed(alloc: Global, sizes: &[u32]) -> Result<Plan, AllocError> {
    Ok(Plan::Listed(Items::from_vec(Vec::from_slice(alloc, sizes)?)))
}

// Whether the plan divides so many iterations, in at most so many chunks, as is wanted.
fn is_cut(
    alloc: Global,
    plan: &Plan,
    (n, most): (u64, u32),
    want: &[u64],
) -> Result<bool, AllocError> {
    if most == 0 || !plan.has_no_zero() {
        return Ok(false);
    }
    let cuts = cuts(alloc, plan, n, most)?;
    Ok(*cuts.sizes.as_slice() == *want)
}

#[test]
fn plans_are_cut(rt: HostRuntime) -> Result<(), AllocError> {
    let alloc = rt.alloc();
    for &(given, n, most, want) in CUTS {
        let plan = plan(alloc, given)?;
        assert!(rt;
            is_cut(alloc, &plan, (n, most), want)?,
            "{n} in {most}: {want:?}"
        );
    }
    Ok(())
}

#[test]
fn parts_may_be_empty(rt: HostRuntime) -> Result<(), AllocError> {
    let sizes = evenly(rt.alloc(), 2, 4)?;
    assert!(rt; sizes.as_slice() == [1, 1, 0, 0].as_slice());
    Ok(())
}

#[test]
fn plans_with_a_zero_are_told(rt: HostRuntime) -> Result<(), AllocError> {
    let list = listed(rt.alloc(), &[1, 0, 2])?;
    let others = Plan::Even(0).has_no_zero() || Plan::Sized(0).has_no_zero();
    assert!(rt; !list.has_no_zero() && !others);
    Ok(())
}

fn has_part((n, parts, number): (u64, u32, u32), first: u64, len: u64) -> bool {
    if number >= parts {
        return false;
    }
    let range = even(n, parts, number);
    range.first == first && range.len == len
}

#[test]
fn the_last_of_many_parts(rt: HostRuntime) {
    let last = (u64::MAX, u32::MAX, u32::MAX - 1);
    assert!(rt; has_part(last, 18_446_744_069_414_584_318, 4_294_967_297));
}
