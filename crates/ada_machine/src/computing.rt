ghost use Rattle.std.specs.Prelude.{◌≡◌, ◌+◌, ◌^◌, ◌<◌, ◌≤◌, reverse, length, vec_len, vec_capacity, EachIndex, slice_index};
ghost use Rattle.stack_code.specs.Deeds.{deed_of};
ghost use Rattle.stack_code.specs.Fits.{Finds};
ghost use Rattle.stack_code.specs.Operands.{takes, pushes};
ghost use Rattle.ada_machine.specs.Places.{Stays};
ghost use Rattle.ada_machine.specs.Played.{IsClear, Outcome};

use crate::addresses::{load_outer, push_outer, select, store_outer};
use crate::blocks::{copy, fill};
use crate::cells::Cells;
use crate::memory::{
    Dimension, index, index_cell, index_main, item, item_cell, item_main, load, load_cell, next,
    prior, set_cell, set_number, store, store_cell,
};
use crate::operands::{
    Computed, add, add_constant, check_numbers, check_range, combine_digits, compare,
    compare_numbers, differ, divide, double, exchange, flip, greater, greater_number, invert,
    jump_if_false, jump_if_true, jump_unless, lesser, lesser_number, make_absolute, measure,
    multiply, multiply_by_constant, negate, pop, push, push_local, push_number, raise_again,
    raise_to, reduce, reduce_by_constant, remain, subtract, subtract_constant, turn_digits,
};
use leave_board::Halt;
use stack_code::{Code, Digits, Instr, Relation};

/// The frames that an instruction finds cells in: where the own one begins, and where those outward from a thread's own do,
/// the innermost first.
#[derive(Clone, Copy)]
pub struct Frames<'a> {
    /// Where the own frame begins.
    pub base: u64,
    /// Where the frames outward begin.
    pub outward: &'a [u64],
}

/// Does an instruction that asks for no more than operands and cells. What computes with cells is made once for each kind of halt,
/// since a compiler puts a function into its caller only where it is called from one place.
#[inline(always)]
pub fn compute<C: Cells, H: Halt>(
    code: &Code,
    instr: &Instr,
    pc: usize,
    stack: &mut Vec<i64>,
    frames: Frames,
    view: &mut C,
) -> Computed
    requires operands { takes code.now instr.now ≤ vec_len stack.old }
    requires room { vec_len stack.old + pushes code.now instr.now ≤ vec_capacity stack.old + takes code.now instr.now }
    requires there { Finds code.now frames.outward.now instr.now }
    requires base { frames.base ≤ 2 ^ 62 }
    requires near { EachIndex frames.outward.now (λ k. slice_index frames.outward.now k ≤ 2 ^ 62) }
    requires next { pc < usize.MAX }
    requires clear { IsClear (deed_of code.now pc (reverse stack.old.items) frames.base frames.outward.now instr.now) (C.cells view.old) }
    ensures deed { Outcome (deed_of code.now pc (reverse stack.old.items) frames.entry.base frames.entry.outward.now instr.now) instr.now result stack.old.items stack.new.items (C.cells view.old) (C.cells view.new) }
    ensures room { vec_capacity stack.new ≡ vec_capacity stack.old }
    ensures stays { Stays C.floor C.whole C.place view.old view.new }
{
    match *instr {
        Instr::Push(value) => push(stack, pc, value),
        Instr::Pop => pop(stack, pc),
        Instr::Dup => double(stack, pc),
        Instr::Swap => exchange(stack, pc),
        Instr::Local(cell) => push_local(stack, pc, frames.base, cell),
        Instr::Outer(steps, cell) => push_outer(stack, pc, frames.outward, steps, cell),
        Instr::Global(cell) => push_number(stack, pc, cell),
        Instr::Index(low, high, size) => {
            index::<C, H>(stack, pc, view, Dimension { low, high, size })
        }
        Instr::Field(field) => select(stack, pc, view, field),
        Instr::Load => load(stack, pc, view),
        Instr::Store => store(stack, pc, view),
        Instr::Copy(count) => copy(stack, pc, view, count),
        Instr::Fill(count, value) => fill(stack, pc, view, count, value),
        Instr::Add(kind) => add(stack, pc, kind),
        Instr::Sub(kind) => subtract(stack, pc, kind),
        Instr::Mul(kind) => multiply(stack, pc, kind),
        Instr::Div(kind) => divide(stack, pc, kind),
        Instr::Mod(kind) => reduce(stack, pc, kind),
        Instr::Rem(kind) => remain(stack, pc, kind),
        Instr::Pow(kind) => raise_to(stack, pc, kind),
        Instr::Neg(kind) => negate(stack, pc, kind),
        Instr::Abs(kind) => make_absolute(stack, pc, kind),
        Instr::Max => greater(stack, pc),
        Instr::Min => lesser(stack, pc),
        Instr::Eq => compare(stack, pc, Relation::Equal),
        Instr::Ne => compare(stack, pc, Relation::Unequal),
        Instr::Lt => compare(stack, pc, Relation::Less),
        Instr::Le => compare(stack, pc, Relation::AtMost),
        Instr::Gt => compare(stack, pc, Relation::Greater),
        Instr::Ge => compare(stack, pc, Relation::AtLeast),
        Instr::Far(distance) => measure(stack, pc, distance),
        Instr::And => combine_digits(stack, pc, Digits::Both),
        Instr::Or => combine_digits(stack, pc, Digits::Either),
        Instr::Xor => combine_digits(stack, pc, Digits::Differ),
        Instr::Not => invert(stack, pc),
        Instr::Range(low, high) => check_range(stack, pc, low, high),
        Instr::Jump(to) => Computed::To(to as usize),
        Instr::JFalse(to) => jump_if_false(stack, pc, to),
        Instr::JTrue(to) => jump_if_true(stack, pc, to),
        Instr::Raise(reason) => Computed::Failed(reason),
        Instr::Reraise => raise_again(stack),
        Instr::LoadL(cell) => load_cell(stack, pc, view, frames.base + u64::from(cell)),
        Instr::LoadO(steps, cell) => load_outer(stack, pc, view, frames.outward, steps, cell),
        Instr::LoadG(cell) => load_cell(stack, pc, view, u64::from(cell)),
        Instr::StoreL(cell) => store_cell(stack, pc, view, frames.base + u64::from(cell)),
        Instr::StoreO(steps, cell) => store_outer(stack, pc, view, frames.outward, steps, cell),
        Instr::StoreG(cell) => store_cell(stack, pc, view, u64::from(cell)),
        Instr::SetL(cell, low, high) => {
            set_cell(stack, pc, view, frames.base + u64::from(cell), low, high)
        }
        Instr::AddI(value, kind) => add_constant(stack, pc, value, kind),
        Instr::SubI(value, kind) => subtract_constant(stack, pc, value, kind),
        Instr::MulI(value, kind) => multiply_by_constant(stack, pc, value, kind),
        Instr::ModI(value, kind) => reduce_by_constant(stack, pc, value, kind),
        Instr::IndexL(cell, low, high, size) => {
            index_cell::<C, H>(
                stack,
                pc,
                view,
                frames.base + u64::from(cell),
                Dimension { low, high, size },
            )
        }
        Instr::Item(low, high, size) => {
            item::<C, H>(stack, pc, view, Dimension { low, high, size })
        }
        Instr::ItemL(cell, low, high, size) => {
            item_cell::<C, H>(
                stack,
                pc,
                view,
                frames.base + u64::from(cell),
                Dimension { low, high, size },
            )
        }
        Instr::IndexG(object, low, high, size, cell) => {
            index_main::<C, H>(
                stack,
                pc,
                view,
                object,
                frames.base + u64::from(cell),
                Dimension { low, high, size },
            )
        }
        Instr::ItemG(object, low, high, size, cell) => {
            item_main::<C, H>(
                stack,
                pc,
                view,
                object,
                frames.base + u64::from(cell),
                Dimension { low, high, size },
            )
        }
        Instr::JfEq(to) => jump_unless(stack, pc, Relation::Equal, to),
        Instr::JfNe(to) => jump_unless(stack, pc, Relation::Unequal, to),
        Instr::JfLt(to) => jump_unless(stack, pc, Relation::Less, to),
        Instr::JfLe(to) => jump_unless(stack, pc, Relation::AtMost, to),
        Instr::JfGt(to) => jump_unless(stack, pc, Relation::Greater, to),
        Instr::JfGe(to) => jump_unless(stack, pc, Relation::AtLeast, to),
        Instr::Next(counter, last, to) => {
            next::<C, H>(
                stack,
                pc,
                view,
                frames.base + u64::from(counter),
                frames.base + u64::from(last),
                to,
            )
        }
        Instr::Prior(counter, last, to) => {
            prior::<C, H>(
                stack,
                pc,
                view,
                frames.base + u64::from(counter),
                frames.base + u64::from(last),
                to,
            )
        }
        Instr::Flip => flip(stack, pc),
        Instr::Differ => differ(stack, pc),
        Instr::BNot(k) => turn_digits(stack, pc, k),
        Instr::ULt => compare_numbers(stack, pc, Relation::Less),
        Instr::ULe => compare_numbers(stack, pc, Relation::AtMost),
        Instr::UGt => compare_numbers(stack, pc, Relation::Greater),
        Instr::UGe => compare_numbers(stack, pc, Relation::AtLeast),
        Instr::UMax => greater_number(stack, pc),
        Instr::UMin => lesser_number(stack, pc),
        Instr::URange(low, high) => check_numbers(stack, pc, low, high),
        Instr::USetL(cell, low, high) => {
            set_number(stack, pc, view, frames.base + u64::from(cell), low, high)
        }
        _ => Computed::Other,
    }
}
