// The instructions that read and write cells, by class.
ghost use Rattle.std.specs.Prelude.{◌≡◌, ◌+◌, ◌-◌, ◌*◌, ◌^◌, ◌<◌, ◌≤◌, ◌-ℤ◌, ◌+ℤ◌, ◌*ℤ◌, ◌≤ℤ◌, ◌∷◌, reverse, length, vec_len, vec_capacity, Option, Some, None, SomeIff, FitsSigned, IsSome, IsSomeAnd, pos, ℤ, int_lt, List, replicate, slice_get, slice_index, EachIndex};
ghost use Rattle.std.specs.Int.{w64};
ghost use Rattle.ada_base.specs.Cells.{seen, written};
ghost use Rattle.stack_code.specs.Deeds.{on_one, on_two, load_from, store_to, item_at, pointed, stored, stepped, indexed, if_among, if_between, loads_all, stores_all, Loads, Stores, GoesOn};
ghost use Rattle.ada_machine.specs.Places.{Stays};
ghost use Rattle.ada_machine.specs.Played.{cell_of, IsClear, IsNear, IsPlaced, IsThere, Plays};

use crate::cells::Cells;
use crate::operands::{Computed, is_among, is_between, put, set_top, take, top};
use ada_base::Reason;
use leave_board::Halt;

#[inline(always)]
pub(crate) fn cell_of(at: i64) -> u64
    ensures { result ≡ cell_of at }
{
    at.cast_unsigned()
}

#[inline(always)]
#[tactic(auto, using(crate::proofs::Memories::seen_at))]
fn read_at<C: Cells>(view: &C, at: i64) -> i64
    requires { IsSome (seen (C.cells view.now) at) }
    ensures { seen (C.cells view.now) at ≡ Some result }
{
    view.get(cell_of(at))
}

#[inline(always)]
#[tactic(auto, using(crate::proofs::Memories::written_at))]
fn write_at<C: Cells>(view: &mut C, at: i64, value: i64)
    requires { IsSome (written (C.cells view.old) at value) }
    ensures done { written (C.cells view.old) at value ≡ Some (C.cells view.new) }
    ensures stays { Stays C.floor C.whole C.place view.old view.new }
{
    view.set(cell_of(at), value);
}

#[inline(always)]
#[tactic(auto, using(crate::proofs::Memories::load_clear, crate::proofs::Memories::load_plays))]
pub(crate) fn load<C: Cells>(stack: &mut Vec<i64>, pc: usize, view: &C) -> Computed
    requires one { 1 ≤ vec_len stack.old }
    requires room { vec_len stack.old ≤ vec_capacity stack.old }
    requires clear { IsClear (on_one (reverse stack.old.items) (λ a st. load_from pc st a)) (C.cells view.now) }
    requires next { pc < usize.MAX }
    ensures deed { Plays (on_one (reverse stack.old.items) (λ a st. load_from pc st a)) result stack.new.items (C.cells view.now) (C.cells view.now) }
    ensures room { vec_capacity stack.new ≡ vec_capacity stack.old }
{
    let at = take(stack);
    let value = read_at(view, at);
    put(stack, value);
    Computed::To(pc + 1)
}

#[inline(always)]
#[tactic(auto, using(crate::proofs::Memories::cell_clear, crate::proofs::Memories::load_cell_plays))]
pub(crate) fn load_cell<C: Cells>(stack: &mut Vec<i64>, pc: usize, view: &C, at: u64) -> Computed
    requires room { vec_len stack.old < vec_capacity stack.old }
    requires clear { IsClear (load_from pc (reverse stack.old.items) (pos at)) (C.cells view.now) }
    requires next { pc < usize.MAX }
    ensures deed { Plays (load_from pc (reverse stack.old.items) (pos at)) result stack.new.items (C.cells view.now) (C.cells view.now) }
    ensures room { vec_capacity stack.new ≡ vec_capacity stack.old }
{
    let value = view.get(at);
    put(stack, value);
    Computed::To(pc + 1)
}

#[inline(always)]
#[tactic(auto, using(crate::proofs::Memories::store_clear, crate::proofs::Memories::store_plays))]
pub(crate) fn store<C: Cells>(stack: &mut Vec<i64>, pc: usize, view: &mut C) -> Computed
    requires two { 2 ≤ vec_len stack.old }
    requires clear { IsClear (on_two (reverse stack.old.items) (λ a v st. Stores a v (GoesOn (pc + 1) st))) (C.cells view.old) }
    requires next { pc < usize.MAX }
    ensures deed { Plays (on_two (reverse stack.old.items) (λ a v st. Stores a v (GoesOn (pc + 1) st))) result stack.new.items (C.cells view.old) (C.cells view.new) }
    ensures room { vec_capacity stack.new ≡ vec_capacity stack.old }
    ensures stays { Stays C.floor C.whole C.place view.old view.new }
{
    let value = take(stack);
    let at = take(stack);
    write_at(view, at, value);
    Computed::To(pc + 1)
}

#[inline(always)]
#[tactic(auto, using(crate::proofs::Memories::store_cell_clear, crate::proofs::Memories::store_cell_plays))]
pub(crate) fn store_cell<C: Cells>(
    stack: &mut Vec<i64>,
    pc: usize,
    view: &mut C,
    at: u64,
) -> Computed
    requires one { 1 ≤ vec_len stack.old }
    requires clear { IsClear (store_to pc (reverse stack.old.items) (pos at)) (C.cells view.old) }
    requires next { pc < usize.MAX }
    ensures deed { Plays (store_to pc (reverse stack.old.items) (pos at)) result stack.new.items (C.cells view.old) (C.cells view.new) }
    ensures room { vec_capacity stack.new ≡ vec_capacity stack.old }
    ensures stays { Stays C.floor C.whole C.place view.old view.new }
{
    let value = take(stack);
    view.set(at, value);
    Computed::To(pc + 1)
}

#[inline(always)]
#[tactic(auto, using(crate::proofs::Memories::set_cell_clear, crate::proofs::Memories::set_cell_in, crate::proofs::Memories::set_cell_out))]
pub(crate) fn set_cell<C: Cells>(
    stack: &mut Vec<i64>,
    pc: usize,
    view: &mut C,
    at: u64,
    low: i64,
    high: i64,
) -> Computed
    requires one { 1 ≤ vec_len stack.old }
    requires clear { IsClear (on_one (reverse stack.old.items) (λ v st. stored pc (pos at) (if_between low high v) st)) (C.cells view.old) }
    requires next { pc < usize.MAX }
    ensures deed { Plays (on_one (reverse stack.old.items) (λ v st. stored pc (pos at) (if_between low high v) st)) result stack.new.items (C.cells view.old) (C.cells view.new) }
    ensures room { vec_capacity stack.new ≡ vec_capacity stack.old }
    ensures stays { Stays C.floor C.whole C.place view.old view.new }
{
    let value = take(stack);
    if is_between(low, value, high) {
        view.set(at, value);
        Computed::To(pc + 1)
    } else {
        Computed::Failed(Reason::ConstraintError)
    }
}

#[inline(always)]
#[tactic(auto, using(crate::proofs::Memories::set_number_clear, crate::proofs::Memories::set_number_in, crate::proofs::Memories::set_number_out))]
pub(crate) fn set_number<C: Cells>(
    stack: &mut Vec<i64>,
    pc: usize,
    view: &mut C,
    at: u64,
    low: i64,
    high: i64,
) -> Computed
    requires one { 1 ≤ vec_len stack.old }
    requires clear { IsClear (on_one (reverse stack.old.items) (λ v st. stored pc (pos at) (if_among low high v) st)) (C.cells view.old) }
    requires next { pc < usize.MAX }
    ensures deed { Plays (on_one (reverse stack.old.items) (λ v st. stored pc (pos at) (if_among low high v) st)) result stack.new.items (C.cells view.old) (C.cells view.new) }
    ensures room { vec_capacity stack.new ≡ vec_capacity stack.old }
    ensures stays { Stays C.floor C.whole C.place view.old view.new }
{
    let value = take(stack);
    if is_among(low, value, high) {
        view.set(at, value);
        Computed::To(pc + 1)
    } else {
        Computed::Failed(Reason::ConstraintError)
    }
}

// ---- addresses of components

// An address moved to a component. Where that is an address of 63 bits nothing is tested: what is above 64 bits in between
// is dropped.
#[inline(always)]
fn component(address: i64, low: i64, index: i64, size: u32) -> i64
    requires order { low ≤ℤ index }
    requires near { IsNear (address +ℤ ((index -ℤ low) *ℤ pos size)) }
    ensures { result ≡ address +ℤ ((index -ℤ low) *ℤ pos size) }
{
    let cells = index.abs_diff(low).wrapping_mul(u64::from(size));
    cell_of(address).wrapping_add(cells) as i64
}

/// A dimension of an array: its least index, its greatest, and the cells of one component (4.1.1).
#[derive(Clone, Copy)]
pub struct Dimension {
    /// The least index.
    pub low: i64,
    /// The greatest.
    pub high: i64,
    /// The cells of a component.
    pub size: u32,
}

// Where the component with an index stands; or the index is outside.
#[derive(Clone, Copy)]
pub enum Placed {
    /// There.
    At(i64),
    /// The index isn't between the least and the greatest.
    Outside,
}

#[inline(always)]
fn place<C: Cells>(view: &C, address: i64, dimension: Dimension, index: i64) -> Placed
    requires there { IsThere (C.cells view.now) (indexed dimension.low dimension.high dimension.size address index) }
    ensures { IsPlaced (indexed dimension.low dimension.high dimension.size address index) result }
{
    let _cells = view.len();
    if is_between(dimension.low, index, dimension.high) {
        Placed::At(component(address, dimension.low, index, dimension.size))
    } else {
        Placed::Outside
    }
}

#[inline(always)]
pub(crate) fn index<C: Cells, H: Halt>(
    stack: &mut Vec<i64>,
    pc: usize,
    view: &C,
    dimension: Dimension,
) -> Computed
    requires two { 2 ≤ vec_len stack.old }
    requires clear { IsClear (on_two (reverse stack.old.items) (λ a i st. pointed pc (indexed dimension.low dimension.high dimension.size a i) st)) (C.cells view.now) }
    requires next { pc < usize.MAX }
    ensures deed { Plays (on_two (reverse stack.old.items) (λ a i st. pointed pc (indexed dimension.low dimension.high dimension.size a i) st)) result stack.new.items (C.cells view.now) (C.cells view.now) }
    ensures room { vec_capacity stack.new ≡ vec_capacity stack.old }
{
    let number = take(stack);
    let address = take(stack);
    match place(view, address, dimension, number) {
        Placed::At(to) => {
            put(stack, to);
            Computed::To(pc + 1)
        }
        Placed::Outside => Computed::Failed(Reason::ConstraintError),
    }
}

#[inline(always)]
#[tactic(auto, using(crate::proofs::Memories::cell_clear))]
pub(crate) fn index_cell<C: Cells, H: Halt>(
    stack: &mut Vec<i64>,
    pc: usize,
    view: &C,
    at: u64,
    dimension: Dimension,
) -> Computed
    requires one { 1 ≤ vec_len stack.old }
    requires clear { IsClear (Loads (pos at) (λ i. on_one (reverse stack.old.items) (λ a st. pointed pc (indexed dimension.low dimension.high dimension.size a i) st))) (C.cells view.now) }
    requires next { pc < usize.MAX }
    ensures deed { Plays (Loads (pos at) (λ i. on_one (reverse stack.old.items) (λ a st. pointed pc (indexed dimension.low dimension.high dimension.size a i) st))) result stack.new.items (C.cells view.now) (C.cells view.now) }
    ensures room { vec_capacity stack.new ≡ vec_capacity stack.old }
{
    let number = view.get(at);
    let address = top(stack);
    match place(view, address, dimension, number) {
        Placed::At(to) => {
            set_top(stack, to);
            Computed::To(pc + 1)
        }
        Placed::Outside => {
            let _ = take(stack);
            Computed::Failed(Reason::ConstraintError)
        }
    }
}

#[inline(always)]
pub(crate) fn item<C: Cells, H: Halt>(
    stack: &mut Vec<i64>,
    pc: usize,
    view: &C,
    dimension: Dimension,
) -> Computed
    requires two { 2 ≤ vec_len stack.old }
    requires clear { IsClear (on_two (reverse stack.old.items) (λ a i st. item_at pc (indexed dimension.low dimension.high dimension.size a i) st)) (C.cells view.now) }
    requires next { pc < usize.MAX }
    ensures deed { Plays (on_two (reverse stack.old.items) (λ a i st. item_at pc (indexed dimension.low dimension.high dimension.size a i) st)) result stack.new.items (C.cells view.now) (C.cells view.now) }
    ensures room { vec_capacity stack.new ≡ vec_capacity stack.old }
{
    let number = take(stack);
    let address = take(stack);
    match place(view, address, dimension, number) {
        Placed::At(to) => {
            let value = read_at(view, to);
            put(stack, value);
            Computed::To(pc + 1)
        }
        Placed::Outside => Computed::Failed(Reason::ConstraintError),
    }
}

#[inline(always)]
#[tactic(auto, using(crate::proofs::Memories::cell_clear, crate::proofs::Memories::item_cell_clear, crate::proofs::Memories::item_cell_at, crate::proofs::Memories::item_cell_out))]
pub(crate) fn item_cell<C: Cells, H: Halt>(
    stack: &mut Vec<i64>,
    pc: usize,
    view: &C,
    at: u64,
    dimension: Dimension,
) -> Computed
    requires one { 1 ≤ vec_len stack.old }
    requires clear { IsClear (Loads (pos at) (λ i. on_one (reverse stack.old.items) (λ a st. item_at pc (indexed dimension.low dimension.high dimension.size a i) st))) (C.cells view.now) }
    requires next { pc < usize.MAX }
    ensures deed { Plays (Loads (pos at) (λ i. on_one (reverse stack.old.items) (λ a st. item_at pc (indexed dimension.low dimension.high dimension.size a i) st))) result stack.new.items (C.cells view.now) (C.cells view.now) }
    ensures room { vec_capacity stack.new ≡ vec_capacity stack.old }
{
    let number = view.get(at);
    let address = top(stack);
    match place(view, address, dimension, number) {
        Placed::At(to) => {
            let value = read_at(view, to);
            set_top(stack, value);
            Computed::To(pc + 1)
        }
        Placed::Outside => {
            let _ = take(stack);
            Computed::Failed(Reason::ConstraintError)
        }
    }
}

// ---- components of an object in the main frame, whose address an instruction has

#[inline(always)]
#[tactic(auto, using(crate::proofs::Memories::cell_clear, crate::proofs::Memories::index_main_at, crate::proofs::Memories::index_main_out))]
pub(crate) fn index_main<C: Cells, H: Halt>(
    stack: &mut Vec<i64>,
    pc: usize,
    view: &C,
    object: u32,
    at: u64,
    dimension: Dimension,
) -> Computed
    requires room { vec_len stack.old < vec_capacity stack.old }
    requires clear { IsClear (Loads (pos at) (λ i. pointed pc (indexed dimension.low dimension.high dimension.size (pos object) i) (reverse stack.old.items))) (C.cells view.now) }
    requires next { pc < usize.MAX }
    ensures deed { Plays (Loads (pos at) (λ i. pointed pc (indexed dimension.low dimension.high dimension.size (pos object) i) (reverse stack.old.items))) result stack.new.items (C.cells view.now) (C.cells view.now) }
    ensures room { vec_capacity stack.new ≡ vec_capacity stack.old }
{
    let number = view.get(at);
    match place(view, i64::from(object), dimension, number) {
        Placed::At(to) => {
            put(stack, to);
            Computed::To(pc + 1)
        }
        Placed::Outside => Computed::Failed(Reason::ConstraintError),
    }
}

#[inline(always)]
#[tactic(auto, using(crate::proofs::Memories::cell_clear, crate::proofs::Memories::item_main_clear, crate::proofs::Memories::item_main_at, crate::proofs::Memories::item_main_out))]
pub(crate) fn item_main<C: Cells, H: Halt>(
    stack: &mut Vec<i64>,
    pc: usize,
    view: &C,
    object: u32,
    at: u64,
    dimension: Dimension,
) -> Computed
    requires room { vec_len stack.old < vec_capacity stack.old }
    requires clear { IsClear (Loads (pos at) (λ i. item_at pc (indexed dimension.low dimension.high dimension.size (pos object) i) (reverse stack.old.items))) (C.cells view.now) }
    requires next { pc < usize.MAX }
    ensures deed { Plays (Loads (pos at) (λ i. item_at pc (indexed dimension.low dimension.high dimension.size (pos object) i) (reverse stack.old.items))) result stack.new.items (C.cells view.now) (C.cells view.now) }
    ensures room { vec_capacity stack.new ≡ vec_capacity stack.old }
{
    let number = view.get(at);
    match place(view, i64::from(object), dimension, number) {
        Placed::At(to) => {
            let value = read_at(view, to);
            put(stack, value);
            Computed::To(pc + 1)
        }
        Placed::Outside => Computed::Failed(Reason::ConstraintError),
    }
}

// ---- the ends of turns of counting loops

#[inline(always)]
#[tactic(auto, using(crate::proofs::Memories::step_first, crate::proofs::Memories::step_second, crate::proofs::Memories::next_third, crate::proofs::Memories::next_back, crate::proofs::Memories::next_on))]
pub(crate) fn next<C: Cells, H: Halt>(
    stack: &Vec<i64>,
    pc: usize,
    view: &mut C,
    counter: u64,
    last: u64,
    to: u32,
) -> Computed
    requires clear { IsClear (Loads (pos counter) (λ x. Loads (pos last) (λ y. stepped pc (reverse stack.now.items) (pos counter) (int_lt x y) (x +ℤ pos 1) to))) (C.cells view.old) }
    requires next { pc < usize.MAX }
    ensures done { Plays (Loads (pos counter) (λ x. Loads (pos last) (λ y. stepped pc (reverse stack.now.items) (pos counter) (int_lt x y) (x +ℤ pos 1) to))) result stack.now.items (C.cells view.old) (C.cells view.new) }
    ensures stays { Stays C.floor C.whole C.place view.old view.new }
{
    let _ = stack;
    let x = view.get(counter);
    let y = view.get(last);
    if x < y {
        view.set(counter, x + 1);
        Computed::To(to as usize)
    } else {
        Computed::To(pc + 1)
    }
}

#[inline(always)]
#[tactic(auto, using(crate::proofs::Memories::step_first, crate::proofs::Memories::step_second, crate::proofs::Memories::prior_third, crate::proofs::Memories::prior_back, crate::proofs::Memories::prior_on))]
pub(crate) fn prior<C: Cells, H: Halt>(
    stack: &Vec<i64>,
    pc: usize,
    view: &mut C,
    counter: u64,
    last: u64,
    to: u32,
) -> Computed
    requires clear { IsClear (Loads (pos counter) (λ x. Loads (pos last) (λ y. stepped pc (reverse stack.now.items) (pos counter) (int_lt y x) (x -ℤ pos 1) to))) (C.cells view.old) }
    requires next { pc < usize.MAX }
    ensures done { Plays (Loads (pos counter) (λ x. Loads (pos last) (λ y. stepped pc (reverse stack.now.items) (pos counter) (int_lt y x) (x -ℤ pos 1) to))) result stack.now.items (C.cells view.old) (C.cells view.new) }
    ensures stays { Stays C.floor C.whole C.place view.old view.new }
{
    let _ = stack;
    let x = view.get(counter);
    let y = view.get(last);
    if y < x {
        view.set(counter, x - 1);
        Computed::To(to as usize)
    } else {
        Computed::To(pc + 1)
    }
}
