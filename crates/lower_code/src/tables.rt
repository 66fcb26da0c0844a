//! The tables of the code of a program that go by its instructions alone: these, the spots of each, and its unwind entries.

ghost use Rattle.std.specs.Prelude.{◌≡◌, ◌+◌, ◌<◌, ◌++◌, ◌∷◌, [], None, Some, cond, drop, slice_get, is_some, IfOk, OnOk, IfSome};
ghost use Rattle.lower_emission.specs.Tables as spec;
ghost use Rattle.lower_values.specs.Words.{is_narrow};

use ada_base::Items;
use lower_emission::types::Placed;
use stack_code::{Instr, Spot, Unwind};
use std::alloc::{AllocError, Global};

/// Where a landmark leads.
fn landmark(code: &[Placed], at: u32) -> u32
    ensures { result ≡ spec.landmark (slice_get code.now at) at }
{
    match code.get(at as usize) {
        None => at,
        Some(placed) => match placed.instr {
            Instr::Jump(to) => to,
            _ => at,
        },
    }
}

fn resolved(code: &[Placed], at: usize, instr: Instr) -> Instr
    ensures { result ≡ spec.resolved code.now at instr }
{
    match instr {
        Instr::Jump(to) => {
            if (to as usize) < at {
                Instr::Jump(landmark(code, to))
            } else {
                Instr::Jump(to)
            }
        }
        other => other,
    }
}

/// The instructions. A jump back to another jump goes where that leads.
fn instrs_of(code: &[Placed], alloc: Global) -> Result<Items<Instr>, AllocError>
    ensures { IfOk result (λ all. all ≡ spec.instrs_from code.now 0 code.now) }
{
    let mut all = Items::new(alloc);
    let mut at = 0;
    while let Some(placed) = code.get(at) {
        all.push(resolved(code, at, placed.instr))?;
        at += 1;
    }
    Ok(all)
}

fn is_entry(label: u32, entry: Option<u32>) -> bool
    ensures { result ≡ spec.is_entry label entry }
{
    match entry {
        None => false,
        Some(other) => other == label,
    }
}

fn begins(before: Option<u32>, here: Option<u32>) -> bool
    ensures { result ≡ spec.begins before here }
{
    match here {
        None => false,
        Some(label) => !is_entry(label, before),
    }
}

/// How many stretches have begun, with that which begins here.
fn begun_by(before: Option<u32>, here: Option<u32>, begun: u32) -> Option<u32>
    ensures is { IfSome result (λ k. k ≡ spec.begun_by before here begun) }
    ensures fits { is_some result ≡ is_narrow (spec.begun_by before here begun) }
{
    if begins(before, here) {
        begun.checked_add(1)
    } else {
        Some(begun)
    }
}

/// The spots.
fn spots_of(code: &[Placed], alloc: Global) -> Result<Items<Spot>, AllocError>
    ensures { IfOk result (λ all. all ≡ spec.spots_from None 0 code.now) }
{
    let mut all = Items::new(alloc);
    let mut begun: u32 = 0;
    let mut before = None;
    for placed in code {
        begun = begun_by(before, placed.entry, begun).ok_or(AllocError)?;
        all.push(spot_of(*placed, begun))?;
        before = placed.entry;
    }
    Ok(all)
}

fn spot_of(placed: Placed, begun: u32) -> Spot
    ensures { result ≡ spec.spot_of placed begun }
{
    let held = match placed.entry {
        None => None,
        Some(_) => Some(begun.saturating_sub(1)),
    };
    Spot {
        body: placed.body,
        stack: placed.height,
        nest: placed.nest,
        held,
    }
}

/// Where a stretch of instructions with a handler ends.
fn end_of(code: &[Placed], from: u32, label: u32) -> Option<u32>
    ensures { IfSome result (λ to. to ≡ from + spec.stretch label (drop from code.now)) }
{
    let mut to = from;
    while let Some(placed) = code.get(to as usize) {
        if !is_entry(label, placed.entry) {
            return Some(to);
        }
        to = to.checked_add(1)?;
    }
    Some(to)
}

/// The unwind entry of a stretch that begins at an instruction.
fn push_unwind(
    code: &[Placed],
    at: u32,
    label: u32,
    all: &mut Items<Unwind>,
) -> Result<(), AllocError>
    ensures { OnOk result (all.new ≡ all.old ++ spec.unwind_at code.now at (Some label) (drop (at + 1) code.now)) }
{
    let next = at.checked_add(1).ok_or(AllocError)?;
    let to = end_of(code, next, label).ok_or(AllocError)?;
    all.push(Unwind {
        from: at,
        to,
        handler: landmark(code, label),
        depth: 0,
        nest: 0,
    })
}

/// The unwind entry of a stretch, if one begins at an instruction.
#[tactic(auto, using(crate::proofs::TableSteps::none_more))]
fn push_begun(
    code: &[Placed],
    at: u32,
    before: Option<u32>,
    here: Option<u32>,
    all: &mut Items<Unwind>,
) -> Result<(), AllocError>
    ensures { OnOk result (all.new ≡ all.old ++ cond (spec.begins before here) (spec.unwind_at code.now at here (drop (at + 1) code.now)) []) }
{
    match here {
        None => Ok(()),
        Some(label) => {
            if is_entry(label, before) {
                Ok(())
            } else {
                push_unwind(code, at, label, all)
            }
        }
    }
}

/// The unwind entries: one for each stretch of instructions with the same handler.
fn unwinds_of(code: &[Placed], alloc: Global) -> Result<Items<Unwind>, AllocError>
    ensures { IfOk result (λ all. all ≡ spec.unwinds_from code.now None 0 code.now) }
{
    let mut all = Items::new(alloc);
    let mut at: u32 = 0;
    let mut before = None;
    while let Some(placed) = code.get(at as usize) {
        push_begun(code, at, before, placed.entry, &mut all)?;
        before = placed.entry;
        at = at.checked_add(1).ok_or(AllocError)?;
    }
    Ok(all)
}

/// The tables of code that go by its instructions alone.
pub struct Tables {
    pub instrs: Items<Instr>,
    pub spots: Items<Spot>,
    pub unwind: Items<Unwind>,
}

/// These tables. An Err is want of memory, also where there are more than 2^32 - 1 instructions.
pub fn tables_of(code: &[Placed], alloc: Global) -> Result<Tables, AllocError>
    ensures { IfOk result (λ tables. tables ≡ record { instrs = spec.instrs_from code.now 0 code.now; spots = spec.spots_from None 0 code.now; unwind = spec.unwinds_from code.now None 0 code.now }) }
{
    let instrs = instrs_of(code, alloc)?;
    let spots = spots_of(code, alloc)?;
    let unwind = unwinds_of(code, alloc)?;
    Ok(Tables {
        instrs,
        spots,
        unwind,
    })
}
