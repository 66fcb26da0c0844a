// Addresses: cells of frames outward, and a record's fields.
ghost use Rattle.std.specs.Prelude.{◌≡◌, ◌+◌, ◌-◌, ◌^◌, ◌<◌, ◌≤◌, ◌+ℤ◌, ◌∷◌, reverse, length, vec_len, vec_capacity, Some, pos, slice_get, slice_index, EachIndex};
ghost use Rattle.stack_code.specs.Deeds.{cell_of_frame, load_of_frame, store_of_frame, on_one, Points, GoesOn};
ghost use Rattle.ada_machine.specs.Places.{Stays};
ghost use Rattle.ada_machine.specs.Played.{IsClear, Computes, Plays};

use crate::cells::Cells;
use crate::memory::{load_cell, store_cell};
use crate::operands::{Computed, push_local, put, take};

#[inline(always)]
#[tactic(auto, using(crate::proofs::Frames::frame_there, crate::proofs::Frames::frame_near))]
fn frame_at(outward: &[u64], steps: u32) -> u64
    requires positive { 0 < steps }
    requires there { steps ≤ length outward.now }
    requires near { EachIndex outward.now (λ k. slice_index outward.now k ≤ 2 ^ 62) }
    ensures at { slice_get outward.now (steps - 1) ≡ Some result }
    ensures near { result ≤ 2 ^ 62 }
{
    outward[steps as usize - 1]
}

#[inline(always)]
#[tactic(auto, using(crate::proofs::Frames::push_by))]
pub(crate) fn push_outer(
    stack: &mut Vec<i64>,
    pc: usize,
    outward: &[u64],
    steps: u32,
    cell: u32,
) -> Computed
    requires positive { 0 < steps }
    requires there { steps ≤ length outward.now }
    requires near { EachIndex outward.now (λ k. slice_index outward.now k ≤ 2 ^ 62) }
    requires room { vec_len stack.old < vec_capacity stack.old }
    requires next { pc < usize.MAX }
    ensures deed { Computes (cell_of_frame pc (reverse stack.old.items) (slice_get outward.now (steps - 1)) cell) result stack.new.items }
    ensures room { vec_capacity stack.new ≡ vec_capacity stack.old }
{
    push_local(stack, pc, frame_at(outward, steps), cell)
}

#[inline(always)]
#[tactic(auto, using(crate::proofs::Frames::load_by, crate::proofs::Frames::load_clear_by))]
pub(crate) fn load_outer<C: Cells>(
    stack: &mut Vec<i64>,
    pc: usize,
    view: &C,
    outward: &[u64],
    steps: u32,
    cell: u32,
) -> Computed
    requires positive { 0 < steps }
    requires there { steps ≤ length outward.now }
    requires near { EachIndex outward.now (λ k. slice_index outward.now k ≤ 2 ^ 62) }
    requires room { vec_len stack.old < vec_capacity stack.old }
    requires clear { IsClear (load_of_frame pc (reverse stack.old.items) (slice_get outward.now (steps - 1)) cell) (C.cells view.now) }
    requires next { pc < usize.MAX }
    ensures deed { Plays (load_of_frame pc (reverse stack.old.items) (slice_get outward.now (steps - 1)) cell) result stack.new.items (C.cells view.now) (C.cells view.now) }
    ensures room { vec_capacity stack.new ≡ vec_capacity stack.old }
{
    let base = frame_at(outward, steps);
    load_cell(stack, pc, view, base + u64::from(cell))
}

#[inline(always)]
#[tactic(auto, using(crate::proofs::Frames::store_by, crate::proofs::Frames::store_clear_by))]
pub(crate) fn store_outer<C: Cells>(
    stack: &mut Vec<i64>,
    pc: usize,
    view: &mut C,
    outward: &[u64],
    steps: u32,
    cell: u32,
) -> Computed
    requires positive { 0 < steps }
    requires there { steps ≤ length outward.now }
    requires near { EachIndex outward.now (λ k. slice_index outward.now k ≤ 2 ^ 62) }
    requires one { 1 ≤ vec_len stack.old }
    requires clear { IsClear (store_of_frame pc (reverse stack.old.items) (slice_get outward.now (steps - 1)) cell) (C.cells view.old) }
    requires next { pc < usize.MAX }
    ensures deed { Plays (store_of_frame pc (reverse stack.old.items) (slice_get outward.now (steps - 1)) cell) result stack.new.items (C.cells view.old) (C.cells view.new) }
    ensures room { vec_capacity stack.new ≡ vec_capacity stack.old }
    ensures stays { Stays C.floor C.whole C.place view.old view.new }
{
    let base = frame_at(outward, steps);
    store_cell(stack, pc, view, base + u64::from(cell))
}

#[inline(always)]
#[tactic(auto, using(crate::proofs::Memories::field_near, crate::proofs::Memories::field_plays))]
pub(crate) fn select<C: Cells>(stack: &mut Vec<i64>, pc: usize, view: &C, field: u32) -> Computed
    requires one { 1 ≤ vec_len stack.old }
    requires clear { IsClear (on_one (reverse stack.old.items) (λ a st. Points a (GoesOn (pc + 1) ((a +ℤ pos field) ∷ st)))) (C.cells view.now) }
    requires next { pc < usize.MAX }
    ensures deed { Plays (on_one (reverse stack.old.items) (λ a st. Points a (GoesOn (pc + 1) ((a +ℤ pos field) ∷ st)))) result stack.new.items (C.cells view.now) (C.cells view.now) }
    ensures room { vec_capacity stack.new ≡ vec_capacity stack.old }
{
    let _cells = view.len();
    let address = take(stack);
    put(stack, address + i64::from(field));
    Computed::To(pc + 1)
}
