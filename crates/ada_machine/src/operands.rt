// The operand stack: a vector whose last item is the top, with room for the greatest height of its body.
ghost use Rattle.std.specs.Prelude.{◌≡◌, ◌+◌, ◌^◌, ◌<◌, ◌≤◌, ◌-ℤ◌, ◌+ℤ◌, ◌*ℤ◌, ◌≤ℤ◌, ◌∷◌, reverse, drop, length, vec_len, vec_capacity, Option, Some, None, IfSome, pos, nat_abs, ℤ, cond, slice_get, slice_index, not, int_div, int_rem};
ghost use Rattle.std.specs.Int.{int_max, int_min};
ghost use Rattle.ada_base.specs.Operation.{is_in_base, within, aligned, unless_zero, result_of, CanApply, AreOperands, turned, digits, unbounded};
ghost use Rattle.stack_code.specs.Deeds.{applied, is_related, digits_of, is_far, is_between, truth, differ, bit, pushed, unary, binary, unless, cell_of_frame, on_one, on_two, if_between, indexed, unless_divisor_zero, value_or_zero, reason_of, GoesOn, Fails, on_range, negated, unsigned, complemented, if_among};
ghost use Rattle.ada_machine.specs.Played.{Computes, ComputesOr, IsReason};

use ada_base::{Base, Op, Reason, apply, complement, digits, kept, modular, opposite};
use stack_code::{Digits, Relation};

/// What an instruction came to: it goes on there, or raises an exception; or the exception's number isn't in 32 bits, or the
/// instruction asks for more than operands and cells.
#[derive(Clone, Copy)]
pub enum Computed {
    /// It goes on at that instruction.
    To(usize),
    /// It raises that exception.
    Failed(Reason),
    /// It would raise an exception whose number isn't in 32 bits; nothing was changed.
    Beyond,
    /// It asks for more, and nothing was changed.
    Other,
}

#[inline(always)]
pub(crate) fn put(stack: &mut Vec<i64>, value: i64)
    requires { vec_len stack.old < vec_capacity stack.old }
    ensures top { reverse stack.new.items ≡ value ∷ reverse stack.old.items }
    ensures len { vec_len stack.new ≡ vec_len stack.old + 1 }
    ensures room { vec_capacity stack.new ≡ vec_capacity stack.old }
{
    stack.push_reserved(value);
}

#[inline(always)]
pub(crate) fn take(stack: &mut Vec<i64>) -> i64
    requires { 0 < vec_len stack.old }
    ensures top { reverse stack.old.items ≡ result ∷ reverse stack.new.items }
    ensures len { vec_len stack.old ≡ vec_len stack.new + 1 }
    ensures room { vec_capacity stack.new ≡ vec_capacity stack.old }
{
    stack.take_last()
}

// The top, which stays.
#[inline(always)]
#[tactic(auto, using(crate::proofs::Changes::top_of))]
pub(crate) fn top(stack: &Vec<i64>) -> i64
    requires { 0 < vec_len stack.now }
    ensures { slice_get (reverse stack.now.items) 0 ≡ Some result }
{
    let all = stack.as_slice();
    all[all.len() - 1]
}

// Puts a value in the place of the top.
#[inline(always)]
#[tactic(auto, using(crate::proofs::Changes::over_top))]
pub(crate) fn set_top(stack: &mut Vec<i64>, value: i64)
    requires { 0 < vec_len stack.old }
    ensures top { reverse stack.new.items ≡ value ∷ drop 1 (reverse stack.old.items) }
    ensures room { vec_capacity stack.new ≡ vec_capacity stack.old }
{
    let last = stack.len() - 1;
    stack[last] = value;
}

// Puts the value in the place of the top, or takes that off and raises Constraint_Error where there is none.
#[inline(always)]
#[tactic(auto, using(crate::proofs::Classes::settled_on, crate::proofs::Classes::settled_off))]
pub(crate) fn settle(stack: &mut Vec<i64>, pc: usize, value: Option<i64>) -> Computed
    requires one { 1 ≤ vec_len stack.old }
    requires next { pc < usize.MAX }
    ensures deed { Computes (on_one (reverse stack.old.items) (λ x st. pushed pc value st)) result stack.new.items }
    ensures room { vec_capacity stack.new ≡ vec_capacity stack.old }
{
    match value {
        Some(v) => {
            set_top(stack, v);
            Computed::To(pc + 1)
        }
        None => {
            let _ = take(stack);
            Computed::Failed(Reason::ConstraintError)
        }
    }
}

#[inline(always)]
fn is_in_base(base: Base, value: i64) -> bool
    ensures { result ≡ is_in_base base value }
{
    match base {
        Base::Narrow => is_narrow(value),
        Base::Wide => true,
        Base::Modulo(_) => ada_base::is_in_base(base, value),
    }
}

#[inline(always)]
fn is_narrow(value: i64) -> bool
    ensures { result ≡ is_in_base Base.Narrow value }
{
    -2_147_483_648 <= value && value <= 2_147_483_647
}

#[inline(always)]
pub(crate) fn is_between(low: i64, value: i64, high: i64) -> bool
    ensures { result ≡ is_between low value high }
{
    low <= value && value <= high
}

#[inline(always)]
fn within(base: Base, value: Option<i64>) -> Option<i64>
    ensures { result ≡ within base value }
{
    match value {
        Some(v) => { if is_in_base(base, v) { Some(v) } else { None } }
        None => None,
    }
}

#[inline(always)]
fn plain_sum(base: Base, x: i64, y: i64) -> Option<i64>
    ensures { result ≡ on_range Op.Add base x y }
{
    within(base, x.checked_add(y))
}

#[inline(always)]
fn plain_difference(base: Base, x: i64, y: i64) -> Option<i64>
    ensures { result ≡ on_range Op.Sub base x y }
{
    within(base, x.checked_sub(y))
}

// The product of two numbers of 32 bits is one of 64, for which nothing is to be tested.
#[inline(always)]
fn plain_product(base: Base, x: i64, y: i64) -> Option<i64>
    ensures { result ≡ on_range Op.Mul base x y }
{
    if is_narrow(x) && is_narrow(y) {
        let near = x * y;
        within(base, Some(near))
    } else {
        within(base, x.checked_mul(y))
    }
}

fn result_in(op: Op, base: Base, x: i64, y: i64) -> Option<i64>
    requires { AreOperands op Base.Wide x y }
    ensures { result ≡ within base (unbounded op x y) }
{
    let value = apply(op, Base::Wide, x, y)?;
    if is_in_base(base, value) {
        Some(value)
    } else {
        None
    }
}

#[inline(always)]
fn divided(x: i64, y: i64) -> Option<i64>
    ensures { result ≡ within Base.Wide (unless_zero y (int_div x y)) }
{
    x.checked_div(y)
}

#[inline(always)]
#[tactic(auto, using(crate::proofs::Divisions::quotient_is))]
fn plain_quotient(base: Base, x: i64, y: i64) -> Option<i64>
    ensures { result ≡ on_range Op.Div base x y }
{
    within(base, divided(x, y))
}

fn plain_power(base: Base, x: i64, y: i64) -> Option<i64>
    ensures { result ≡ on_range Op.Pow base x y }
{
    result_in(Op::Pow, base, x, y)
}

// The remainder, moved by the divisor where the two have opposite signs.
#[inline(always)]
fn aligned(remainder: i64, divisor: i64) -> i64
    ensures { result ≡ aligned remainder divisor }
{
    if (remainder < 0 && 0 < divisor) || (0 < remainder && divisor < 0) {
        remainder + divisor
    } else {
        remainder
    }
}

// The remainder of a division, where the divisor isn't zero.
#[inline(always)]
fn remainder_unless_zero(x: i64, y: i64) -> Option<i64>
    ensures { result ≡ unless_zero y (int_rem x y) }
{
    if y == 0 {
        None
    } else {
        Some(x.wrapping_rem(y))
    }
}

#[inline(always)]
#[tactic(auto, using(crate::proofs::Divisions::modulus_some, crate::proofs::Divisions::modulus_none))]
fn plain_modulus(base: Base, x: i64, y: i64) -> Option<i64>
    ensures { result ≡ on_range Op.Mod base x y }
{
    match remainder_unless_zero(x, y) {
        Some(r) => Some(value_or_zero(within(base, Some(aligned(r, y))))),
        None => None,
    }
}

#[inline(always)]
#[tactic(auto, using(crate::proofs::Divisions::remainder_some, crate::proofs::Divisions::remainder_none))]
fn plain_remainder(base: Base, x: i64, y: i64) -> Option<i64>
    ensures { result ≡ on_range Op.Rem base x y }
{
    match remainder_unless_zero(x, y) {
        Some(r) => Some(value_or_zero(within(base, Some(r)))),
        None => None,
    }
}

#[inline(always)]
fn value_or_zero(value: Option<i64>) -> i64
    ensures { result ≡ value_or_zero value }
{
    match value {
        Some(v) => v,
        None => 0,
    }
}

// Those of numbers of a modular type are that type's.
#[inline(always)]
fn sum(base: Base, x: i64, y: i64) -> Option<i64>
    ensures { result ≡ applied Op.Add base x y }
{
    match base {
        Base::Modulo(k) => modular(Op::Add, k, x, y),
        Base::Narrow => plain_sum(Base::Narrow, x, y),
        Base::Wide => plain_sum(Base::Wide, x, y),
    }
}

#[inline(always)]
fn difference(base: Base, x: i64, y: i64) -> Option<i64>
    ensures { result ≡ applied Op.Sub base x y }
{
    match base {
        Base::Modulo(k) => modular(Op::Sub, k, x, y),
        Base::Narrow => plain_difference(Base::Narrow, x, y),
        Base::Wide => plain_difference(Base::Wide, x, y),
    }
}

#[inline(always)]
fn product(base: Base, x: i64, y: i64) -> Option<i64>
    ensures { result ≡ applied Op.Mul base x y }
{
    match base {
        Base::Modulo(k) => modular(Op::Mul, k, x, y),
        Base::Narrow => plain_product(Base::Narrow, x, y),
        Base::Wide => plain_product(Base::Wide, x, y),
    }
}

#[inline(always)]
fn quotient(base: Base, x: i64, y: i64) -> Option<i64>
    ensures { result ≡ applied Op.Div base x y }
{
    match base {
        Base::Modulo(k) => modular(Op::Div, k, x, y),
        Base::Narrow => plain_quotient(Base::Narrow, x, y),
        Base::Wide => plain_quotient(Base::Wide, x, y),
    }
}

#[inline(always)]
fn power(base: Base, x: i64, y: i64) -> Option<i64>
    ensures { result ≡ applied Op.Pow base x y }
{
    match base {
        Base::Modulo(k) => modular(Op::Pow, k, x, y),
        Base::Narrow => plain_power(Base::Narrow, x, y),
        Base::Wide => plain_power(Base::Wide, x, y),
    }
}

#[inline(always)]
fn modulus(base: Base, x: i64, y: i64) -> Option<i64>
    ensures { result ≡ applied Op.Mod base x y }
{
    match base {
        Base::Modulo(k) => modular(Op::Mod, k, x, y),
        Base::Narrow => plain_modulus(Base::Narrow, x, y),
        Base::Wide => plain_modulus(Base::Wide, x, y),
    }
}

#[inline(always)]
fn remainder(base: Base, x: i64, y: i64) -> Option<i64>
    ensures { result ≡ applied Op.Rem base x y }
{
    match base {
        Base::Modulo(k) => modular(Op::Rem, k, x, y),
        Base::Narrow => plain_remainder(Base::Narrow, x, y),
        Base::Wide => plain_remainder(Base::Wide, x, y),
    }
}

/// The operation on two numbers of another type than a modular one, or None where it raises Constraint_Error (4.5).
#[inline(always)]
pub fn plain_applied(op: Op, base: Base, x: i64, y: i64) -> Option<i64>
    requires { AreOperands op Base.Wide x y }
    ensures { result ≡ on_range op base x y }
{
    match op {
        Op::Add => plain_sum(base, x, y),
        Op::Sub => plain_difference(base, x, y),
        Op::Mul => plain_product(base, x, y),
        Op::Div => plain_quotient(base, x, y),
        Op::Pow => plain_power(base, x, y),
        Op::Mod => plain_modulus(base, x, y),
        Op::Rem => plain_remainder(base, x, y),
        Op::And => result_in(Op::And, base, x, y),
        Op::Or => result_in(Op::Or, base, x, y),
        Op::Xor => result_in(Op::Xor, base, x, y),
        Op::Min => result_in(Op::Min, base, x, y),
        Op::Max => result_in(Op::Max, base, x, y),
    }
}

/// The operation on any two numbers that it takes, or None where it raises Constraint_Error (4.5).
#[inline(always)]
pub fn applied(op: Op, base: Base, x: i64, y: i64) -> Option<i64>
    requires { AreOperands op base x y }
    ensures { result ≡ applied op base x y }
{
    match base {
        Base::Modulo(k) => modular(op, k, x, y),
        Base::Narrow => plain_applied(op, Base::Narrow, x, y),
        Base::Wide => plain_applied(op, Base::Wide, x, y),
    }
}

#[inline(always)]
pub(crate) fn truth(value: i64) -> bool
    ensures { result ≡ truth value }
{
    value != 0
}

#[inline(always)]
fn is_related(relation: Relation, x: i64, y: i64) -> bool
    ensures { result ≡ is_related relation x y }
{
    match relation {
        Relation::Equal => x <= y && y <= x,
        Relation::Unequal => !(x <= y && y <= x),
        Relation::Less => x < y,
        Relation::AtMost => x <= y,
        Relation::Greater => y < x,
        Relation::AtLeast => y <= x,
    }
}

#[inline(always)]
fn is_far(distance: u32, first: i64, last: i64) -> bool
    ensures { result ≡ is_far distance first last }
{
    first <= last && last.abs_diff(first) >= u64::from(distance)
}

#[inline(always)]
fn digits_of(which: Digits, x: i64, y: i64) -> i64
    ensures { result ≡ digits_of which x y }
{
    match which {
        Digits::Both => kept(digits(x) & digits(y)),
        Digits::Either => kept(digits(x) | digits(y)),
        Digits::Differ => kept(digits(x) ^ digits(y)),
    }
}

#[inline(always)]
fn bit(holds: bool) -> i64
    ensures { result ≡ bit holds }
{
    if holds { 1 } else { 0 }
}

// ---- the instructions, by class

#[inline(always)]
#[tactic(auto, using(crate::proofs::Classes::binary_by))]
pub(crate) fn add(stack: &mut Vec<i64>, pc: usize, base: Base) -> Computed
    requires two { 2 ≤ vec_len stack.old }
    requires next { pc < usize.MAX }
    ensures deed { Computes (binary pc (reverse stack.old.items) (λ x y. applied Op.Add base x y)) result stack.new.items }
    ensures room { vec_capacity stack.new ≡ vec_capacity stack.old }
{
    let y = take(stack);
    let x = top(stack);
    settle(stack, pc, sum(base, x, y))
}

#[inline(always)]
#[tactic(auto, using(crate::proofs::Classes::binary_by))]
pub(crate) fn subtract(stack: &mut Vec<i64>, pc: usize, base: Base) -> Computed
    requires two { 2 ≤ vec_len stack.old }
    requires next { pc < usize.MAX }
    ensures deed { Computes (binary pc (reverse stack.old.items) (λ x y. applied Op.Sub base x y)) result stack.new.items }
    ensures room { vec_capacity stack.new ≡ vec_capacity stack.old }
{
    let y = take(stack);
    let x = top(stack);
    settle(stack, pc, difference(base, x, y))
}

#[inline(always)]
#[tactic(auto, using(crate::proofs::Classes::binary_by))]
pub(crate) fn multiply(stack: &mut Vec<i64>, pc: usize, base: Base) -> Computed
    requires two { 2 ≤ vec_len stack.old }
    requires next { pc < usize.MAX }
    ensures deed { Computes (binary pc (reverse stack.old.items) (λ x y. applied Op.Mul base x y)) result stack.new.items }
    ensures room { vec_capacity stack.new ≡ vec_capacity stack.old }
{
    let y = take(stack);
    let x = top(stack);
    settle(stack, pc, product(base, x, y))
}

#[inline(always)]
#[tactic(auto, using(crate::proofs::Classes::binary_by))]
pub(crate) fn divide(stack: &mut Vec<i64>, pc: usize, base: Base) -> Computed
    requires two { 2 ≤ vec_len stack.old }
    requires next { pc < usize.MAX }
    ensures deed { Computes (binary pc (reverse stack.old.items) (λ x y. applied Op.Div base x y)) result stack.new.items }
    ensures room { vec_capacity stack.new ≡ vec_capacity stack.old }
{
    let y = take(stack);
    let x = top(stack);
    settle(stack, pc, quotient(base, x, y))
}

#[inline(always)]
#[tactic(auto, using(crate::proofs::Classes::binary_by))]
pub(crate) fn raise_to(stack: &mut Vec<i64>, pc: usize, base: Base) -> Computed
    requires two { 2 ≤ vec_len stack.old }
    requires next { pc < usize.MAX }
    ensures deed { Computes (binary pc (reverse stack.old.items) (λ x y. applied Op.Pow base x y)) result stack.new.items }
    ensures room { vec_capacity stack.new ≡ vec_capacity stack.old }
{
    let y = take(stack);
    let x = top(stack);
    settle(stack, pc, power(base, x, y))
}

#[inline(always)]
#[tactic(auto, using(crate::proofs::Classes::binary_by))]
pub(crate) fn reduce(stack: &mut Vec<i64>, pc: usize, base: Base) -> Computed
    requires two { 2 ≤ vec_len stack.old }
    requires next { pc < usize.MAX }
    ensures deed { Computes (binary pc (reverse stack.old.items) (λ x y. applied Op.Mod base x y)) result stack.new.items }
    ensures room { vec_capacity stack.new ≡ vec_capacity stack.old }
{
    let y = take(stack);
    let x = top(stack);
    settle(stack, pc, modulus(base, x, y))
}

#[inline(always)]
#[tactic(auto, using(crate::proofs::Classes::binary_by))]
pub(crate) fn remain(stack: &mut Vec<i64>, pc: usize, base: Base) -> Computed
    requires two { 2 ≤ vec_len stack.old }
    requires next { pc < usize.MAX }
    ensures deed { Computes (binary pc (reverse stack.old.items) (λ x y. applied Op.Rem base x y)) result stack.new.items }
    ensures room { vec_capacity stack.new ≡ vec_capacity stack.old }
{
    let y = take(stack);
    let x = top(stack);
    settle(stack, pc, remainder(base, x, y))
}

#[inline(always)]
#[tactic(auto, using(crate::proofs::Classes::unary_by))]
pub(crate) fn add_constant(stack: &mut Vec<i64>, pc: usize, value: i64, base: Base) -> Computed
    requires one { 1 ≤ vec_len stack.old }
    requires next { pc < usize.MAX }
    ensures deed { Computes (unary pc (reverse stack.old.items) (λ x. applied Op.Add base x value)) result stack.new.items }
    ensures room { vec_capacity stack.new ≡ vec_capacity stack.old }
{
    let x = top(stack);
    settle(stack, pc, sum(base, x, value))
}

#[inline(always)]
#[tactic(auto, using(crate::proofs::Classes::unary_by))]
pub(crate) fn subtract_constant(stack: &mut Vec<i64>, pc: usize, value: i64, base: Base) -> Computed
    requires one { 1 ≤ vec_len stack.old }
    requires next { pc < usize.MAX }
    ensures deed { Computes (unary pc (reverse stack.old.items) (λ x. applied Op.Sub base x value)) result stack.new.items }
    ensures room { vec_capacity stack.new ≡ vec_capacity stack.old }
{
    let x = top(stack);
    settle(stack, pc, difference(base, x, value))
}

#[inline(always)]
#[tactic(auto, using(crate::proofs::Classes::unary_by))]
pub(crate) fn multiply_by_constant(
    stack: &mut Vec<i64>,
    pc: usize,
    value: i64,
    base: Base,
) -> Computed
    requires one { 1 ≤ vec_len stack.old }
    requires next { pc < usize.MAX }
    ensures deed { Computes (unary pc (reverse stack.old.items) (λ x. applied Op.Mul base x value)) result stack.new.items }
    ensures room { vec_capacity stack.new ≡ vec_capacity stack.old }
{
    let x = top(stack);
    settle(stack, pc, product(base, x, value))
}

#[inline(always)]
#[tactic(auto, using(crate::proofs::Classes::unary_by))]
pub(crate) fn reduce_by_constant(
    stack: &mut Vec<i64>,
    pc: usize,
    value: i64,
    base: Base,
) -> Computed
    requires one { 1 ≤ vec_len stack.old }
    requires next { pc < usize.MAX }
    ensures deed { Computes (unary pc (reverse stack.old.items) (λ x. applied Op.Mod base x value)) result stack.new.items }
    ensures room { vec_capacity stack.new ≡ vec_capacity stack.old }
{
    let x = top(stack);
    settle(stack, pc, modulus(base, x, value))
}

#[inline(always)]
pub(crate) fn compare(stack: &mut Vec<i64>, pc: usize, relation: Relation) -> Computed
    requires two { 2 ≤ vec_len stack.old }
    requires next { pc < usize.MAX }
    ensures deed { Computes (binary pc (reverse stack.old.items) (λ x y. Some (bit (is_related relation x y)))) result stack.new.items }
    ensures room { vec_capacity stack.new ≡ vec_capacity stack.old }
{
    let y = take(stack);
    let x = take(stack);
    put(stack, bit(is_related(relation, x, y)));
    Computed::To(pc + 1)
}

#[inline(always)]
pub(crate) fn measure(stack: &mut Vec<i64>, pc: usize, distance: u32) -> Computed
    requires two { 2 ≤ vec_len stack.old }
    requires next { pc < usize.MAX }
    ensures deed { Computes (binary pc (reverse stack.old.items) (λ x y. Some (bit (is_far distance x y)))) result stack.new.items }
    ensures room { vec_capacity stack.new ≡ vec_capacity stack.old }
{
    let y = take(stack);
    let x = take(stack);
    put(stack, bit(is_far(distance, x, y)));
    Computed::To(pc + 1)
}

#[inline(always)]
pub(crate) fn combine_digits(stack: &mut Vec<i64>, pc: usize, which: Digits) -> Computed
    requires two { 2 ≤ vec_len stack.old }
    requires next { pc < usize.MAX }
    ensures deed { Computes (binary pc (reverse stack.old.items) (λ x y. Some (digits_of which x y))) result stack.new.items }
    ensures room { vec_capacity stack.new ≡ vec_capacity stack.old }
{
    let y = take(stack);
    let x = take(stack);
    put(stack, digits_of(which, x, y));
    Computed::To(pc + 1)
}

#[inline(always)]
pub(crate) fn greater(stack: &mut Vec<i64>, pc: usize) -> Computed
    requires two { 2 ≤ vec_len stack.old }
    requires next { pc < usize.MAX }
    ensures deed { Computes (binary pc (reverse stack.old.items) (λ x y. Some (int_max x y))) result stack.new.items }
    ensures room { vec_capacity stack.new ≡ vec_capacity stack.old }
{
    let y = take(stack);
    let x = take(stack);
    put(stack, x.max(y));
    Computed::To(pc + 1)
}

#[inline(always)]
pub(crate) fn lesser(stack: &mut Vec<i64>, pc: usize) -> Computed
    requires two { 2 ≤ vec_len stack.old }
    requires next { pc < usize.MAX }
    ensures deed { Computes (binary pc (reverse stack.old.items) (λ x y. Some (int_min x y))) result stack.new.items }
    ensures room { vec_capacity stack.new ≡ vec_capacity stack.old }
{
    let y = take(stack);
    let x = take(stack);
    put(stack, x.min(y));
    Computed::To(pc + 1)
}

#[inline(always)]
pub(crate) fn differ(stack: &mut Vec<i64>, pc: usize) -> Computed
    requires two { 2 ≤ vec_len stack.old }
    requires next { pc < usize.MAX }
    ensures deed { Computes (binary pc (reverse stack.old.items) (λ x y. Some (bit (differ (truth x) (truth y))))) result stack.new.items }
    ensures room { vec_capacity stack.new ≡ vec_capacity stack.old }
{
    let y = take(stack);
    let x = take(stack);
    put(stack, bit(truth(x) != truth(y)));
    Computed::To(pc + 1)
}

#[inline(always)]
#[tactic(auto, using(crate::proofs::Classes::unary_by))]
pub(crate) fn negate(stack: &mut Vec<i64>, pc: usize, base: Base) -> Computed
    requires one { 1 ≤ vec_len stack.old }
    requires next { pc < usize.MAX }
    ensures deed { Computes (unary pc (reverse stack.old.items) (λ x. negated base x)) result stack.new.items }
    ensures room { vec_capacity stack.new ≡ vec_capacity stack.old }
{
    let x = top(stack);
    settle(stack, pc, negated(base, x))
}

#[inline(always)]
fn plain_negated(base: Base, x: i64) -> Option<i64>
    ensures { result ≡ within base (Some (pos 0 -ℤ x)) }
{
    within(base, 0i64.checked_sub(x))
}

#[inline(always)]
fn negated(base: Base, x: i64) -> Option<i64>
    ensures { result ≡ negated base x }
{
    match base {
        Base::Modulo(k) => Some(opposite(k, x)),
        Base::Narrow => plain_negated(Base::Narrow, x),
        Base::Wide => plain_negated(Base::Wide, x),
    }
}

#[inline(always)]
fn absolute(base: Base, x: i64) -> Option<i64>
    ensures { result ≡ unsigned base x }
{
    match base {
        Base::Modulo(_) => Some(x),
        Base::Narrow => plain_absolute(Base::Narrow, x),
        Base::Wide => plain_absolute(Base::Wide, x),
    }
}

#[inline(always)]
fn plain_absolute(base: Base, x: i64) -> Option<i64>
    ensures { result ≡ within base (Some (pos (nat_abs x))) }
{
    if x < 0 {
        within(base, 0i64.checked_sub(x))
    } else {
        within(base, Some(x))
    }
}

#[inline(always)]
#[tactic(auto, using(crate::proofs::Classes::unary_by))]
pub(crate) fn make_absolute(stack: &mut Vec<i64>, pc: usize, base: Base) -> Computed
    requires one { 1 ≤ vec_len stack.old }
    requires next { pc < usize.MAX }
    ensures deed { Computes (unary pc (reverse stack.old.items) (λ x. unsigned base x)) result stack.new.items }
    ensures room { vec_capacity stack.new ≡ vec_capacity stack.old }
{
    let x = top(stack);
    settle(stack, pc, absolute(base, x))
}

#[inline(always)]
pub(crate) fn invert(stack: &mut Vec<i64>, pc: usize) -> Computed
    requires one { 1 ≤ vec_len stack.old }
    requires next { pc < usize.MAX }
    ensures deed { Computes (unary pc (reverse stack.old.items) (λ x. Some (bit (not (truth x))))) result stack.new.items }
    ensures room { vec_capacity stack.new ≡ vec_capacity stack.old }
{
    let x = take(stack);
    put(stack, bit(!truth(x)));
    Computed::To(pc + 1)
}

#[inline(always)]
fn if_between(low: i64, high: i64, x: i64) -> Option<i64>
    ensures { result ≡ if_between low high x }
{
    if is_between(low, x, high) {
        Some(x)
    } else {
        None
    }
}

#[inline(always)]
#[tactic(auto, using(crate::proofs::Classes::unary_by))]
pub(crate) fn check_range(stack: &mut Vec<i64>, pc: usize, low: i64, high: i64) -> Computed
    requires one { 1 ≤ vec_len stack.old }
    requires next { pc < usize.MAX }
    ensures deed { Computes (unary pc (reverse stack.old.items) (λ x. if_between low high x)) result stack.new.items }
    ensures room { vec_capacity stack.new ≡ vec_capacity stack.old }
{
    let x = top(stack);
    settle(stack, pc, if_between(low, high, x))
}

#[inline(always)]
pub(crate) fn push(stack: &mut Vec<i64>, pc: usize, value: i64) -> Computed
    requires room { vec_len stack.old < vec_capacity stack.old }
    requires next { pc < usize.MAX }
    ensures deed { Computes (GoesOn (pc + 1) (value ∷ reverse stack.old.items)) result stack.new.items }
    ensures room { vec_capacity stack.new ≡ vec_capacity stack.old }
{
    put(stack, value);
    Computed::To(pc + 1)
}

#[inline(always)]
pub(crate) fn push_number(stack: &mut Vec<i64>, pc: usize, value: u32) -> Computed
    requires room { vec_len stack.old < vec_capacity stack.old }
    requires next { pc < usize.MAX }
    ensures deed { Computes (GoesOn (pc + 1) (pos value ∷ reverse stack.old.items)) result stack.new.items }
    ensures room { vec_capacity stack.new ≡ vec_capacity stack.old }
{
    put(stack, i64::from(value));
    Computed::To(pc + 1)
}

#[inline(always)]
pub(crate) fn push_local(stack: &mut Vec<i64>, pc: usize, base: u64, cell: u32) -> Computed
    requires near { base ≤ 2 ^ 62 }
    requires room { vec_len stack.old < vec_capacity stack.old }
    requires next { pc < usize.MAX }
    ensures deed { Computes (GoesOn (pc + 1) (pos (base + cell) ∷ reverse stack.old.items)) result stack.new.items }
    ensures room { vec_capacity stack.new ≡ vec_capacity stack.old }
{
    put(stack, (base + u64::from(cell)) as i64);
    Computed::To(pc + 1)
}

#[inline(always)]
pub(crate) fn pop(stack: &mut Vec<i64>, pc: usize) -> Computed
    requires one { 1 ≤ vec_len stack.old }
    requires next { pc < usize.MAX }
    ensures deed { Computes (on_one (reverse stack.old.items) (λ x st. GoesOn (pc + 1) st)) result stack.new.items }
    ensures room { vec_capacity stack.new ≡ vec_capacity stack.old }
{
    let _ = take(stack);
    Computed::To(pc + 1)
}

#[inline(always)]
pub(crate) fn double(stack: &mut Vec<i64>, pc: usize) -> Computed
    requires one { 1 ≤ vec_len stack.old }
    requires room { vec_len stack.old < vec_capacity stack.old }
    requires next { pc < usize.MAX }
    ensures deed { Computes (on_one (reverse stack.old.items) (λ x st. GoesOn (pc + 1) (x ∷ x ∷ st))) result stack.new.items }
    ensures room { vec_capacity stack.new ≡ vec_capacity stack.old }
{
    let x = take(stack);
    put(stack, x);
    put(stack, x);
    Computed::To(pc + 1)
}

#[inline(always)]
pub(crate) fn exchange(stack: &mut Vec<i64>, pc: usize) -> Computed
    requires two { 2 ≤ vec_len stack.old }
    requires next { pc < usize.MAX }
    ensures deed { Computes (on_two (reverse stack.old.items) (λ x y st. GoesOn (pc + 1) (x ∷ y ∷ st))) result stack.new.items }
    ensures room { vec_capacity stack.new ≡ vec_capacity stack.old }
{
    let y = take(stack);
    let x = take(stack);
    put(stack, y);
    put(stack, x);
    Computed::To(pc + 1)
}

#[inline(always)]
pub(crate) fn jump_if_false(stack: &mut Vec<i64>, pc: usize, to: u32) -> Computed
    requires one { 1 ≤ vec_len stack.old }
    requires next { pc < usize.MAX }
    ensures deed { Computes (on_one (reverse stack.old.items) (λ x st. GoesOn (cond (truth x) (pc + 1) to) st)) result stack.new.items }
    ensures room { vec_capacity stack.new ≡ vec_capacity stack.old }
{
    let x = take(stack);
    if truth(x) {
        Computed::To(pc + 1)
    } else {
        Computed::To(to as usize)
    }
}

#[inline(always)]
pub(crate) fn jump_if_true(stack: &mut Vec<i64>, pc: usize, to: u32) -> Computed
    requires one { 1 ≤ vec_len stack.old }
    requires next { pc < usize.MAX }
    ensures deed { Computes (on_one (reverse stack.old.items) (λ x st. GoesOn (cond (truth x) to (pc + 1)) st)) result stack.new.items }
    ensures room { vec_capacity stack.new ≡ vec_capacity stack.old }
{
    let x = take(stack);
    if truth(x) {
        Computed::To(to as usize)
    } else {
        Computed::To(pc + 1)
    }
}

#[inline(always)]
pub(crate) fn jump_unless(stack: &mut Vec<i64>, pc: usize, relation: Relation, to: u32) -> Computed
    requires two { 2 ≤ vec_len stack.old }
    requires next { pc < usize.MAX }
    ensures deed { Computes (unless pc (reverse stack.old.items) relation to) result stack.new.items }
    ensures room { vec_capacity stack.new ≡ vec_capacity stack.old }
{
    let y = take(stack);
    let x = take(stack);
    if is_related(relation, x, y) {
        Computed::To(pc + 1)
    } else {
        Computed::To(to as usize)
    }
}

/// The exception with that number, where it is one of 32 bits.
pub(crate) fn reason_of(number: i64) -> Option<Reason>
    ensures { IsReason (reason_of number) result }
{
    match number {
        0 => Some(Reason::ConstraintError),
        1 => Some(Reason::ProgramError),
        2 => Some(Reason::StorageError),
        3 => Some(Reason::DataError),
        4 => Some(Reason::EndError),
        _ => {
            if number < 0 {
                Some(Reason::ProgramError)
            } else {
                match u32::try_from(number - 5) {
                    Ok(declared) => Some(Reason::Declared(declared)),
                    Err(_) => None,
                }
            }
        }
    }
}

#[inline(always)]
#[tactic(auto, using(crate::proofs::Memories::reason_far))]
pub(crate) fn raise_again(stack: &mut Vec<i64>) -> Computed
    requires { 1 ≤ vec_len stack.old }
    ensures deed { ComputesOr (on_one (reverse stack.old.items) (λ n st. Fails (reason_of n) st)) result stack.old.items stack.new.items }
    ensures room { vec_capacity stack.new ≡ vec_capacity stack.old }
{
    let number = take(stack);
    match reason_of(number) {
        Some(reason) => Computed::Failed(reason),
        None => {
            put(stack, number);
            Computed::Beyond
        }
    }
}

#[inline(always)]
pub(crate) fn flip(stack: &mut Vec<i64>, pc: usize) -> Computed
    requires one { 1 ≤ vec_len stack.old }
    requires next { pc < usize.MAX }
    ensures deed { Computes (unary pc (reverse stack.old.items) (λ x. Some (bit (not (truth x))))) result stack.new.items }
    ensures room { vec_capacity stack.new ≡ vec_capacity stack.old }
{
    invert(stack, pc)
}

// ---- numbers of modular types

#[inline(always)]
fn compares(relation: Relation, x: u64, y: u64) -> bool
    ensures { result ≡ is_related relation (pos x) (pos y) }
{
    match relation {
        Relation::Equal => x <= y && y <= x,
        Relation::Unequal => !(x <= y && y <= x),
        Relation::Less => x < y,
        Relation::AtMost => x <= y,
        Relation::Greater => y < x,
        Relation::AtLeast => y <= x,
    }
}

// Whether two that are kept are so related as numbers.
#[inline(always)]
#[tactic(auto, using(crate::proofs::Numbers::related_as))]
fn are_related(relation: Relation, x: i64, y: i64) -> bool
    ensures { result ≡ is_related relation (turned x) (turned y) }
{
    compares(relation, digits(x), digits(y))
}

#[inline(always)]
pub(crate) fn compare_numbers(stack: &mut Vec<i64>, pc: usize, relation: Relation) -> Computed
    requires two { 2 ≤ vec_len stack.old }
    requires next { pc < usize.MAX }
    ensures deed { Computes (binary pc (reverse stack.old.items) (λ x y. Some (bit (is_related relation (turned x) (turned y))))) result stack.new.items }
    ensures room { vec_capacity stack.new ≡ vec_capacity stack.old }
{
    let y = take(stack);
    let x = take(stack);
    put(stack, bit(are_related(relation, x, y)));
    Computed::To(pc + 1)
}

#[inline(always)]
fn number_of(op: Op, x: i64, y: i64) -> Option<i64>
    ensures { result ≡ result_of op (Base.Modulo 64) x y }
{
    modular(op, 64, x, y)
}

#[inline(always)]
#[tactic(auto, using(crate::proofs::Classes::binary_by))]
pub(crate) fn greater_number(stack: &mut Vec<i64>, pc: usize) -> Computed
    requires two { 2 ≤ vec_len stack.old }
    requires next { pc < usize.MAX }
    ensures deed { Computes (binary pc (reverse stack.old.items) (λ x y. result_of Op.Max (Base.Modulo 64) x y)) result stack.new.items }
    ensures room { vec_capacity stack.new ≡ vec_capacity stack.old }
{
    let y = take(stack);
    let x = top(stack);
    settle(stack, pc, number_of(Op::Max, x, y))
}

#[inline(always)]
#[tactic(auto, using(crate::proofs::Classes::binary_by))]
pub(crate) fn lesser_number(stack: &mut Vec<i64>, pc: usize) -> Computed
    requires two { 2 ≤ vec_len stack.old }
    requires next { pc < usize.MAX }
    ensures deed { Computes (binary pc (reverse stack.old.items) (λ x y. result_of Op.Min (Base.Modulo 64) x y)) result stack.new.items }
    ensures room { vec_capacity stack.new ≡ vec_capacity stack.old }
{
    let y = take(stack);
    let x = top(stack);
    settle(stack, pc, number_of(Op::Min, x, y))
}

#[inline(always)]
fn complemented(k: u8, x: i64) -> i64
    ensures { result ≡ complemented k x }
{
    complement(k, x)
}

#[inline(always)]
pub(crate) fn turn_digits(stack: &mut Vec<i64>, pc: usize, k: u8) -> Computed
    requires one { 1 ≤ vec_len stack.old }
    requires next { pc < usize.MAX }
    ensures deed { Computes (unary pc (reverse stack.old.items) (λ x. Some (complemented k x))) result stack.new.items }
    ensures room { vec_capacity stack.new ≡ vec_capacity stack.old }
{
    let x = take(stack);
    put(stack, complemented(k, x));
    Computed::To(pc + 1)
}

#[inline(always)]
pub(crate) fn is_among(low: i64, value: i64, high: i64) -> bool
    ensures { result ≡ is_between (turned low) (turned value) (turned high) }
{
    are_related(Relation::AtMost, low, value) && are_related(Relation::AtMost, value, high)
}

#[inline(always)]
fn if_among(low: i64, high: i64, x: i64) -> Option<i64>
    ensures { result ≡ if_among low high x }
{
    if is_among(low, x, high) {
        Some(x)
    } else {
        None
    }
}

#[inline(always)]
#[tactic(auto, using(crate::proofs::Classes::unary_by))]
pub(crate) fn check_numbers(stack: &mut Vec<i64>, pc: usize, low: i64, high: i64) -> Computed
    requires one { 1 ≤ vec_len stack.old }
    requires next { pc < usize.MAX }
    ensures deed { Computes (unary pc (reverse stack.old.items) (λ x. if_among low high x)) result stack.new.items }
    ensures room { vec_capacity stack.new ≡ vec_capacity stack.old }
{
    let x = top(stack);
    settle(stack, pc, if_among(low, high, x))
}
