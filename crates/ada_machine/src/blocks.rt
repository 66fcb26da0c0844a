// Blocks of cells: filled, and copied.
ghost use Rattle.std.specs.Prelude.{◌≡◌, ◌+◌, ◌-◌, ◌^◌, ◌<◌, ◌≤◌, reverse, replicate, length, vec_len, vec_capacity, pos, ℤ};
ghost use Rattle.stack_code.specs.Deeds.{Deed, Lacks, GoesOn, on_one, on_two, loads_all, stores_all};
ghost use Rattle.ada_machine.specs.Places.{Stays};
ghost use Rattle.ada_machine.specs.Played.{IsClear, Plays, plays};

use crate::cells::Cells;
use crate::memory::cell_of;
use crate::operands::{Computed, take};

#[tactic(auto, using(crate::proofs::Stretches::fill_clear))]
fn fill_cells<C: Cells>(view: &mut C, start: u64, count: u64, value: i64)
    requires near { start + count < 2 ^ 64 }
    requires clear { IsClear (stores_all (replicate count value) (pos start) Lacks) (C.cells view.old) }
    ensures done { (d : Deed) → plays (stores_all (replicate count value) (pos start) d) (C.cells view.old) ≡ plays d (C.cells view.new) }
    ensures stays { Stays C.floor C.whole C.place view.old view.new }
{
    let mut done = 0;
    while done < count {
        view.set(start + done, value);
        done += 1;
    }
}

// From the first cell up, where the target begins no higher than the source.
fn copy_up<C: Cells>(view: &mut C, target: u64, source: u64, count: u64)
    requires near { target + count < 2 ^ 64 }
    requires near_source { source + count < 2 ^ 64 }
    requires below { target ≤ source }
    requires clear { IsClear (loads_all count (pos source) (λ vs. stores_all vs (pos target) Lacks)) (C.cells view.old) }
    ensures done { (d : Deed) → plays (loads_all count (pos source) (λ vs. stores_all vs (pos target) d)) (C.cells view.old) ≡ plays d (C.cells view.new) }
    ensures stays { Stays C.floor C.whole C.place view.old view.new }
{
    let mut done = 0;
    while done < count {
        let value = view.get(source + done);
        view.set(target + done, value);
        done += 1;
    }
}

// From the last cell down, where it begins no lower.
fn copy_down<C: Cells>(view: &mut C, target: u64, source: u64, count: u64)
    requires near { target + count < 2 ^ 64 }
    requires near_source { source + count < 2 ^ 64 }
    requires above { source ≤ target }
    requires clear { IsClear (loads_all count (pos source) (λ vs. stores_all vs (pos target) Lacks)) (C.cells view.old) }
    ensures done { (d : Deed) → plays (loads_all count (pos source) (λ vs. stores_all vs (pos target) d)) (C.cells view.old) ≡ plays d (C.cells view.new) }
    ensures stays { Stays C.floor C.whole C.place view.old view.new }
{
    let mut left = count;
    while 0 < left {
        left -= 1;
        let value = view.get(source + left);
        view.set(target + left, value);
    }
}

fn fill_at<C: Cells>(view: &mut C, at: i64, count: u64, value: i64)
    requires few { count < 2 ^ 32 }
    requires clear { IsClear (stores_all (replicate count value) at Lacks) (C.cells view.old) }
    ensures done { (d : Deed) → plays (stores_all (replicate count value) at d) (C.cells view.old) ≡ plays d (C.cells view.new) }
    ensures stays { Stays C.floor C.whole C.place view.old view.new }
{
    if count == 0 {
        return;
    }
    fill_cells(view, cell_of(at), count, value);
}

// What is still to be read is never written over.
fn copy_at<C: Cells>(view: &mut C, target: i64, source: i64, count: u64)
    requires few { count < 2 ^ 32 }
    requires clear { IsClear (loads_all count source (λ vs. stores_all vs target Lacks)) (C.cells view.old) }
    ensures done { (d : Deed) → plays (loads_all count source (λ vs. stores_all vs target d)) (C.cells view.old) ≡ plays d (C.cells view.new) }
    ensures stays { Stays C.floor C.whole C.place view.old view.new }
{
    if count == 0 {
        return;
    }
    let to = cell_of(target);
    let from = cell_of(source);
    if to <= from {
        copy_up(view, to, from, count);
    } else {
        copy_down(view, to, from, count);
    }
}

#[tactic(auto, using(crate::proofs::Stretches::filled, crate::proofs::Stretches::filled_clear))]
pub(crate) fn fill<C: Cells>(
    stack: &mut Vec<i64>,
    pc: usize,
    view: &mut C,
    count: u32,
    value: i64,
) -> Computed
    requires one { 1 ≤ vec_len stack.old }
    requires clear { IsClear (on_one (reverse stack.old.items) (λ a st. stores_all (replicate count value) a (GoesOn (pc + 1) st))) (C.cells view.old) }
    requires next { pc < usize.MAX }
    ensures deed { Plays (on_one (reverse stack.old.items) (λ a st. stores_all (replicate count value) a (GoesOn (pc + 1) st))) result stack.new.items (C.cells view.old) (C.cells view.new) }
    ensures room { vec_capacity stack.new ≡ vec_capacity stack.old }
    ensures stays { Stays C.floor C.whole C.place view.old view.new }
{
    let at = take(stack);
    fill_at(view, at, u64::from(count), value);
    Computed::To(pc + 1)
}

#[tactic(auto, using(crate::proofs::Stretches::copied, crate::proofs::Stretches::copied_clear))]
pub(crate) fn copy<C: Cells>(stack: &mut Vec<i64>, pc: usize, view: &mut C, count: u32) -> Computed
    requires two { 2 ≤ vec_len stack.old }
    requires clear { IsClear (on_two (reverse stack.old.items) (λ t s st. loads_all count s (λ vs. stores_all vs t (GoesOn (pc + 1) st)))) (C.cells view.old) }
    requires next { pc < usize.MAX }
    ensures deed { Plays (on_two (reverse stack.old.items) (λ t s st. loads_all count s (λ vs. stores_all vs t (GoesOn (pc + 1) st)))) result stack.new.items (C.cells view.old) (C.cells view.new) }
    ensures room { vec_capacity stack.new ≡ vec_capacity stack.old }
    ensures stays { Stays C.floor C.whole C.place view.old view.new }
{
    let source = take(stack);
    let target = take(stack);
    copy_at(view, target, source, u64::from(count));
    Computed::To(pc + 1)
}
