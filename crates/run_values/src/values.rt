//! Values, and what is computed from them alone.

ghost use Rattle.std.specs.Prelude.{◌≡◌, ◌<◌, ◌+◌, ◌+ℤ◌, ◌-ℤ◌, ℕ, pos, neg_ℤ, nat_abs, IfSome, MatchOption, Some};
ghost use Rattle.ada_base.specs.Operation as operation;
ghost use Rattle.ada_meaning.specs.Values as spec;
ghost use Rattle.ada_meaning.specs.Operations as meaning;
ghost use Rattle.ada_meaning.specs.Stored as stored;
ghost use Rattle.run_values.specs.Values.{ComesTo, OrNoMemory, plain_then, unary_then};

use crate::ends::End;
use ada_base::{Base, Comparison, Op, apply, complement, digits, is_in_base, modular, opposite};
use typed_tree::{Class, Scalar, Sign};

/// Whether a truth value is True.
pub fn is_true(value: i64) -> bool
    ensures { result ≡ spec.truth value }
{
    value != 0
}

/// A truth value as a number.
pub fn bit(value: bool) -> i64
    ensures { result ≡ spec.bit value }
{
    if value { 1 } else { 0 }
}

/// Whether a class is a modular one, with so many binary digits: 1 to 64, and any other number counts as the nearest.
pub fn digits_in(class: Class) -> Option<u8>
    ensures { result ≡ spec.modular_digits class }
{
    match class {
        Class::Integer(Base::Modulo(k)) => Some(k.min(64).max(1)),
        Class::Integer(Base::Narrow | Base::Wide) | Class::Boolean | Class::Universal => None,
    }
}

fn is_modular(class: Class) -> bool
    ensures { result ≡ spec.is_modular class }
{
    digits_in(class).is_some()
}

/// A relation of two values of a class (4.5.2).
pub fn compares(comparison: Comparison, class: Class, left: i64, right: i64) -> bool
    ensures { result ≡ spec.compares comparison (spec.number_in class left) (spec.number_in class right) }
{
    if is_modular(class) {
        compares_numbers(comparison, digits(left), digits(right))
    } else {
        compares_values(comparison, left, right)
    }
}

fn compares_numbers(comparison: Comparison, left: u64, right: u64) -> bool
    ensures { result ≡ spec.compares comparison (pos left) (pos right) }
{
    match comparison {
        Comparison::Equal => left == right,
        Comparison::Unequal => left != right,
        Comparison::Less => left < right,
        Comparison::AtMost => left <= right,
        Comparison::Greater => left > right,
        Comparison::AtLeast => left >= right,
    }
}

fn compares_values(comparison: Comparison, left: i64, right: i64) -> bool
    ensures { result ≡ spec.compares comparison left right }
{
    match comparison {
        Comparison::Equal => left == right,
        Comparison::Unequal => left != right,
        Comparison::Less => left < right,
        Comparison::AtMost => left <= right,
        Comparison::Greater => left > right,
        Comparison::AtLeast => left >= right,
    }
}

/// Whether a value stands between two others, which count.
pub fn between(low: i64, value: i64, high: i64) -> bool
    ensures { result ≡ spec.between low value high }
{
    low <= value && value <= high
}

/// Whether a value of a class stands between two others, which count.
pub fn is_member(class: Class, low: i64, value: i64, high: i64) -> bool
    ensures { result ≡ spec.is_member class low value high }
{
    if is_modular(class) {
        stands_between(digits(low), digits(value), digits(high))
    } else {
        between(low, value, high)
    }
}

fn stands_between(low: u64, value: u64, high: u64) -> bool
    ensures { result ≡ spec.between (pos low) (pos value) (pos high) }
{
    low <= value && value <= high
}

/// Whether a value is one of a subtype.
pub fn is_in(scalar: Scalar, value: i64) -> bool
    ensures { result ≡ spec.is_in scalar value }
{
    is_member(scalar.class, scalar.low, value, scalar.high)
}

/// A range of numbers.
#[derive(Clone, Copy)]
pub struct Range {
    pub low: i64,
    pub high: i64,
}

/// How many numbers a range has, where 64 bits hold that.
pub fn count(range: Range) -> Result<u64, End>
    ensures { OrNoMemory (λ n. n ≡ spec.count range.low range.high) result }
{
    if range.high < range.low {
        return Ok(0);
    }
    match u64::try_from(i128::from(range.high) - i128::from(range.low) + 1) {
        Ok(n) => Ok(n),
        Err(_) => Err(End::NoMemory),
    }
}

/// The last number of a range, counted from 0 at the lower end; None where it has none.
pub fn last_of(range: Range) -> Option<u64>
    ensures { MatchOption result (spec.count range.low range.high ≡ 0) (λ last. spec.count range.low range.high ≡ last + 1) }
{
    if range.high < range.low {
        None
    } else {
        Some((i128::from(range.high) - i128::from(range.low)) as u64)
    }
}

/// The base range of a class of types.
pub fn base_of(class: Class) -> Base
    ensures { result ≡ spec.base_of class }
{
    match class {
        Class::Boolean => Base::Narrow,
        Class::Integer(Base::Narrow) => Base::Narrow,
        Class::Integer(Base::Wide) => Base::Wide,
        Class::Integer(Base::Modulo(k)) => Base::Modulo(k.min(64).max(1)),
        Class::Universal => Base::Wide,
    }
}

/// Whether an operator divides, so that its right operand must not be 0 (4.5.5).
pub fn divides(op: Op) -> bool
    ensures { result ≡ spec.divides op }
{
    matches!(op, Op::Div | Op::Mod | Op::Rem)
}

/// Whether an operator is checked for overflow (3.5.4, 4.5).
pub fn overflows(op: Op) -> bool
    ensures { result ≡ spec.overflows op }
{
    matches!(op, Op::Add | Op::Sub | Op::Mul | Op::Div | Op::Pow)
}

/// The result of an operator (4.5), or None where a check fails.
pub fn result_of(op: Op, class: Class, x: i64, y: i64) -> Option<i64>
    ensures { result ≡ spec.result op class x y }
{
    match digits_in(class) {
        Some(k) => modular(op, k, x, y),
        None => plain_result(op, class, x, y),
    }
}

fn plain_result(op: Op, class: Class, x: i64, y: i64) -> Option<i64>
    ensures { result ≡ spec.plain_result op class x y }
{
    match op {
        Op::And | Op::Min => Some(x.min(y)),
        Op::Or | Op::Max => Some(x.max(y)),
        Op::Xor => Some(bit(is_true(x) != is_true(y))),
        _ => in_base(base_of(class), op, x, y),
    }
}

// an operator of integers, whose operands may be any
fn in_base(base: Base, op: Op, x: i64, y: i64) -> Option<i64>
    requires { operation.AreOperands op Base.Wide x y }
    ensures { result ≡ operation.within base (operation.unbounded op x y) }
{
    let value = apply(op, Base::Wide, x, y)?;
    if is_in_base(base, value) {
        Some(value)
    } else {
        None
    }
}

/// The result of an operator (4.5), where all its checks hold.
#[tactic(auto, unfolding(ada_meaning::specs::Stored::bind, ada_meaning::specs::Stored::ret, ada_meaning::specs::Stored::leaves))]
pub fn operated(op: Op, class: Class, x: i64, y: i64) -> Option<i64>
    ensures { IfSome result (λ v. (at : ℕ) → ComesTo (meaning.operate stored.doings stored.checks op at class x y) v) }
{
    if divides(op) && !is_true(y) {
        None
    } else {
        result_of(op, class, x, y)
    }
}

/// The result of a unary operator (4.5.4, 4.5.6), where its check holds.
#[tactic(auto, unfolding(ada_meaning::specs::Stored::bind, ada_meaning::specs::Stored::ret, ada_meaning::specs::Stored::leaves))]
pub fn unary_result(sign: Sign, class: Class, value: i64) -> Option<i64>
    ensures { IfSome result (λ v. (at : ℕ) → ComesTo (unary_then sign at class value) v) }
{
    match digits_in(class) {
        Some(k) => Some(modular_unary(sign, k, value)),
        None => plain_unary(sign, class, value),
    }
}

/// A sign before a value of a modular type with so many binary digits, which raises nothing (4.5.4, 4.5.6).
pub fn modular_unary(sign: Sign, k: u8, value: i64) -> i64
    ensures { result ≡ operation.turned (spec.modular_unary k sign (operation.turned value)) }
{
    match sign {
        Sign::Not => complement(k, value),
        Sign::Minus => opposite(k, value),
        Sign::Abs => value,
    }
}

#[tactic(auto, unfolding(ada_meaning::specs::Stored::bind, ada_meaning::specs::Stored::ret, ada_meaning::specs::Stored::leaves))]
fn plain_unary(sign: Sign, class: Class, value: i64) -> Option<i64>
    ensures { IfSome result (λ v. (at : ℕ) → ComesTo (plain_then sign at class value) v) }
{
    match sign {
        Sign::Not => Some(bit(!is_true(value))),
        Sign::Minus => negated(base_of(class), value),
        Sign::Abs => magnitude(base_of(class), value),
    }
}

/// A number with the other sign, where it is in the base range.
pub fn negated(base: Base, value: i64) -> Option<i64>
    ensures { result ≡ operation.within base (Some (neg_ℤ value)) }
{
    let other = 0_i64.checked_sub(value)?;
    if is_in_base(base, other) {
        Some(other)
    } else {
        None
    }
}

/// A number without its sign, where it is in the base range.
pub fn magnitude(base: Base, value: i64) -> Option<i64>
    ensures { result ≡ operation.within base (Some (pos (nat_abs value))) }
{
    let other = value.checked_abs()?;
    if is_in_base(base, other) {
        Some(other)
    } else {
        None
    }
}
