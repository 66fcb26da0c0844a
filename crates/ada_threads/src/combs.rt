// Cells at regular distances, one for each of consecutive iterations.
ghost use Rattle.std.specs.Prelude.{◌≡◌, ◌≤ℤ◌, ◌+◌, ◌*◌, ℤ, IfOk};
ghost use Rattle.stack_code.specs.declared.code.Step.{Step as StepOf};
ghost use Rattle.ada_threads.specs.Reaching.{AddsTo, GoesOn, IsApart, LedTo, Onward, with_some};

use ada_base::Items;
use stack_code::Step;
use std::alloc::{AllocError, Global};

/// The first of the iterations by its loop value or position, how many they are, the cell of the first, and how far behind
/// it that of the next one is.
#[derive(Clone, Copy)]
pub(crate) struct Comb {
    pub value: i128,
    pub count: u64,
    pub at: u64,
    pub stride: u64,
}

// How far the second number is behind the first, or the greatest u64.
fn distance(from: i128, to: i128) -> u64
    requires { from ≤ℤ to }
    ensures { IsApart from to result }
{
    to.abs_diff(from).min(u128::from(u64::MAX)) as u64
}

/// The cell so many sizes further. An Err is a number that 64 bits don't hold: no memory has that cell.
pub(crate) fn further(at: u64, by: u64, size: u64) -> Result<u64, AllocError>
    ensures { IfOk result (λ cell. cell ≡ at + by * size) }
{
    let Some(more) = by.checked_mul(size) else {
        return Err(AllocError);
    };
    match at.checked_add(more) {
        Some(cell) => Ok(cell),
        None => Err(AllocError),
    }
}

// The iterations whose loop value is one of so many from the least on, each at the place of its own.
fn by_loop(comb: Comb, low: i128, count: u32, size: u32) -> Result<Option<Comb>, AllocError>
    ensures { IfOk result (λ more. (chunk : ℤ) → GoesOn chunk (StepOf.Loop low count size) comb more) }
{
    let value = comb.value.max(low);
    let skipped = distance(comb.value, value);
    let place = distance(low, value);
    if skipped >= comb.count || place >= u64::from(count) {
        return Ok(None);
    }
    let near = further(comb.at, skipped, comb.stride)?;
    let at = further(near, place, u64::from(size))?;
    let Some(stride) = comb.stride.checked_add(u64::from(size)) else {
        return Err(AllocError);
    };
    let count = (comb.count - skipped).min(u64::from(count) - place);
    Ok(Some(Comb {
        value,
        count,
        at,
        stride,
    }))
}

// The same iterations, at the place of the chunk value, which is one of so many from the least on.
fn by_chunk(
    comb: Comb,
    chunk: i128,
    low: i128,
    count: u32,
    size: u32,
) -> Result<Option<Comb>, AllocError>
    ensures { IfOk result (λ more. GoesOn chunk (StepOf.Chunk low count size) comb more) }
{
    if chunk < low {
        return Ok(None);
    }
    let place = distance(low, chunk);
    if place >= u64::from(count) {
        return Ok(None);
    }
    let at = further(comb.at, place, u64::from(size))?;
    Ok(Some(Comb { at, ..comb }))
}

// The same iterations, at each of so many places.
fn add_places(comb: Comb, count: u32, size: u32, combs: &mut Items<Comb>) -> Result<(), AllocError>
    ensures { IfOk result (λ _. (chunk : ℤ) → AddsTo chunk (StepOf.All count size) comb combs.old combs.new) }
{
    for place in 0..count {
        let at = further(comb.at, u64::from(place), u64::from(size))?;
        combs.push(Comb { at, ..comb })?;
    }
    Ok(())
}

fn add_some(more: Option<Comb>, combs: &mut Items<Comb>) -> Result<(), AllocError>
    ensures { IfOk result (λ _. combs.new ≡ with_some combs.old more) }
{
    match more {
        Some(comb) => combs.push(comb),
        None => Ok(()),
    }
}

// What a step makes of one comb.
fn add_step(comb: Comb, step: Step, chunk: i128, combs: &mut Items<Comb>) -> Result<(), AllocError>
    ensures { IfOk result (λ _. AddsTo chunk step comb combs.old combs.new) }
{
    match step {
        Step::All { count, size } => add_places(comb, count, size, combs),
        Step::Loop { low, count, size } => {
            let more = by_loop(comb, low, count, size)?;
            add_some(more, combs)
        }
        Step::Chunk { low, count, size } => {
            let more = by_chunk(comb, chunk, low, count, size)?;
            add_some(more, combs)
        }
    }
}

fn after_step(
    alloc: Global,
    before: &[Comb],
    step: Step,
    chunk: i128,
) -> Result<Items<Comb>, AllocError>
    ensures { IfOk result (λ combs. Onward chunk step before.now combs) }
{
    let mut combs = Items::new(alloc);
    for comb in before {
        add_step(*comb, step, chunk, &mut combs)?;
    }
    Ok(combs)
}

/// Where steps lead in these iterations, by the chunk value. An Err is want of memory, or a cell that no memory has.
pub(crate) fn after_steps(
    alloc: Global,
    comb: Comb,
    steps: &[Step],
    chunk: i128,
) -> Result<Items<Comb>, AllocError>
    ensures { IfOk result (λ combs. LedTo chunk steps.now comb combs) }
{
    let mut combs = Items::new(alloc);
    combs.push(comb)?;
    for step in steps {
        combs = after_step(alloc, combs.as_slice(), *step, chunk)?;
    }
    Ok(combs)
}
