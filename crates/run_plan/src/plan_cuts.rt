ghost use Rattle.std.specs.Prelude.{◌≡◌, ◌<◌, ◌≤◌, ◌++◌, min, IfOk};
ghost use Rattle.ada_base.specs.Cuts.{chunked, cuts_of, evens, listed, rest_of};
ghost use Rattle.run_plan.specs.Plans.{IsCut, HasNoZero, plan_of};

use crate::even_division::even;
use crate::plan::{Cuts, Plan};
use ada_base::Items;
use std::alloc::{AllocError, Global};

/// The chunks into which a plan divides `n` iterations: no more than `most`, which is at least 1 (5.5,
/// 5.6.1). None of them is empty, and together they have all iterations; where there is no iteration,
/// there is no chunk. A size above the rest takes the rest, and chunk number `most` takes all that
/// remains. It takes time and memory for each chunk and not for each iteration; an Err is want of memory.
pub fn cuts(alloc: Global, plan: &Plan, n: u64, most: u32) -> Result<Cuts, AllocError>
    requires some { 1 ≤ most }
    requires no_zero { HasNoZero plan.now }
    ensures is { IfOk result (λ cuts. cuts.sizes ≡ cuts_of (plan_of plan.now) most n) }
    ensures sound { IfOk result (λ cuts. IsCut cuts.sizes n most) }
{
    let sizes = match plan {
        Plan::One => with_rest(Items::new(alloc), n)?,
        Plan::Even(chunks) => evenly(alloc, n, even_chunks(*chunks, n, most))?,
        Plan::Sized(size) => by_size(alloc, *size, n, most)?,
        Plan::Listed(sizes) => by_list(alloc, sizes.as_slice(), n, most)?,
    };
    Ok(Cuts { sizes })
}

// So many that none of them is empty, and no more than there may be.
fn even_chunks(chunks: u32, n: u64, most: u32) -> u32
    ensures { result ≡ min chunks (min n most) }
{
    chunks.min(n.min(u64::from(most)) as u32)
}

// One more chunk for what is left, where anything is.
fn with_rest(mut sizes: Items<u64>, rest: u64) -> Result<Items<u64>, AllocError>
    ensures { IfOk result (λ whole. whole ≡ sizes ++ rest_of rest) }
{
    if rest > 0 {
        sizes.push(rest)?;
    }
    Ok(sizes)
}

/// The sizes of so many parts that are as equal as can be, the greater ones first (5.5). A part is empty where there are
/// fewer iterations than parts; of 0 parts there is no size. An Err is want of memory.
pub fn evenly(alloc: Global, n: u64, chunks: u32) -> Result<Items<u64>, AllocError>
    ensures { IfOk result (λ sizes. sizes ≡ evens n chunks) }
{
    let mut sizes = Items::new(alloc);
    for i in 0..chunks {
        sizes.push(even(n, chunks, i).len)?;
    }
    Ok(sizes)
}

// The last chunk takes the rest, which is greater than the size only where there may be no further chunk.
fn by_size(alloc: Global, size: u32, n: u64, most: u32) -> Result<Items<u64>, AllocError>
    requires { 1 ≤ most }
    ensures { IfOk result (λ sizes. sizes ≡ chunked size most n) }
{
    let size = u64::from(size);
    let mut sizes = Items::new(alloc);
    let mut rest = n;
    let mut left = most;
    while left > 1 && rest > size {
        sizes.push(size)?;
        rest -= size;
        left -= 1;
    }
    with_rest(sizes, rest)
}

// A size that is no less than the rest ends the list, and so does the last chunk that there may be.
fn by_list(alloc: Global, given: &[u32], n: u64, most: u32) -> Result<Items<u64>, AllocError>
    requires { 1 ≤ most }
    ensures { IfOk result (λ sizes. sizes ≡ listed given.now most n) }
{
    let mut sizes = Items::new(alloc);
    let mut rest = n;
    let mut left = most;
    for size in given {
        let size = u64::from(*size);
        if left == 1 || rest <= size {
            break;
        }
        sizes.push(size)?;
        rest -= size;
        left -= 1;
    }
    with_rest(sizes, rest)
}
