//! The rules of operators on numbers (4.5.3 to 4.5.6): the operands' parts are the latest, and the result's part comes
//! in their place. A wrong operand is blamed at the operator.

ghost use Rattle.std.specs.Prelude.{◌≡◌, ◌∷◌, OnOk};
ghost use Rattle.typed_tree.specs.Decoded as part;
ghost use Rattle.typed_tree.specs.Latest.{pop, second, top};
ghost use Rattle.name_rules.specs.Judges.{Opens, found, found_of};
ghost use Rattle.name_values.specs.Judged.{JudgesOn, JudgesOne, JudgesTwo};
ghost use Rattle.name_rules.specs.Judging.{pure};
ghost use Rattle.name_rules.specs.Operators as spec;
ghost use Rattle.name_rules.specs.Values as values;
ghost use Rattle.typed_parts.specs.Stack.{parts};

use crate::exact::{exact, signed};
use crate::judge::{Finding, Judge};
use crate::logs::{also_all, no_part, no_parts, none_of_two};
use crate::types::{class_of, in_base, same};
use crate::values::{
    asked, asked_before, first_of, fitting, is_number, kind_of, literal, mentions, suits, value_of,
};
use ada_base::Op;
use name_rules::found::{Found, Limits};
use name_rules::log::Rule;
use name_rules::types::Kind;
use std::alloc::AllocError;
use typed_parts::Parts;
use typed_tree::{Class, Sign};

/// A static value of a type, with what is mentioned as the latest part: StaticRange where there is none in the type's
/// base range.
#[tactic(auto, unfolding(name_rules::specs::Operators::static_of))]
fn static_of(judge: &mut Judge, first: u32, kind: Kind, value: Option<i128>) -> Finding
    ensures { JudgesOn (pop (parts judge.old.out)) (spec.static_of first kind (top (parts judge.old.out)) value) judge.old result judge.new }
{
    let Some(value) = value else {
        return no_part(judge, first, Rule::StaticRange);
    };
    if !in_base(kind, value) {
        return no_part(judge, first, Rule::StaticRange);
    }
    Ok(Some(Found::Static { first, kind, value }))
}

/// A universal static value, with what is mentioned as the latest part: StaticRange where there is none in 128 bits.
#[tactic(auto, unfolding(name_rules::specs::Operators::static_universal))]
fn static_universal(judge: &mut Judge, first: u32, value: Option<i128>) -> Finding
    ensures { JudgesOn (pop (parts judge.old.out)) (spec.static_universal first (top (parts judge.old.out)) value) judge.old result judge.new }
{
    let Some(value) = value else {
        return no_part(judge, first, Rule::StaticRange);
    };
    Ok(Some(Found::Universal {
        first,
        value,
        literal: false,
    }))
}

/// What two static operands mention, in place of their parts.
pub fn both_mentions(out: &mut Parts, left: Found, right: Found) -> Result<(), AllocError>
    ensures { OnOk result (parts out.new ≡ spec.both_mentions (found left (second (parts out.old))) (found right (top (parts out.old))) ∷ pop (pop (parts out.old))) }
{
    attempt!(mentions(out, right));
    attempt!(out.swap());
    attempt!(mentions(out, left));
    attempt!(out.swap());
    also_all(out)
}

/// Two static operands give a static value.
#[tactic(auto, unfolding(name_rules::specs::Operators::static_operation))]
fn static_operation(
    judge: &mut Judge,
    op: Op,
    left_kind: Kind,
    right_kind: Kind,
    left: Found,
    left_value: i128,
    right: Found,
    right_value: i128,
) -> Finding
    ensures { JudgesTwo (λ x y. spec.static_operation op left_kind right_kind x left_value y right_value) (found left) (found right) judge.old result judge.new }
{
    attempt!(both_mentions(&mut judge.out, left, right));
    let fits = attempt!(fitting(&mut judge.log, left_kind, first_of(left), left_value));
    let also = attempt!(fitting(&mut judge.log, right_kind, first_of(right), right_value));
    if fits && also {
        static_of(
            judge,
            first_of(left),
            left_kind,
            exact(op, left_value, right_value),
        )
    } else {
        Ok(None)
    }
}

/// An operation on two operands that take these types, the first of which its result has.
#[tactic(auto, unfolding(name_rules::specs::Operators::operation_on))]
pub fn operation_on(
    judge: &mut Judge,
    op: Op,
    at: u32,
    left_kind: Kind,
    right_kind: Kind,
    left: Found,
    right: Found,
) -> Finding
    ensures { JudgesTwo (spec.operation_on op at left_kind right_kind) (found left) (found right) judge.old result judge.new }
{
    let x = attempt!(asked_before(judge, left_kind, left));
    let y = attempt!(asked(judge, right_kind, right));
    if !x || !y {
        return none_of_two(judge);
    }
    attempt!(judge.out.binary(at, op, class_of(left_kind)));
    Ok(Some(Found::Scalar {
        first: first_of(left),
        kind: left_kind,
        nominal: None,
    }))
}

/// The right operand has a type of its own in a power alone.
#[tactic(auto, unfolding(name_rules::specs::Operators::typed_operation))]
fn typed_operation(
    judge: &mut Judge,
    op: Op,
    at: u32,
    left_kind: Kind,
    right_kind: Kind,
    left: Found,
    right: Found,
) -> Finding
    ensures { JudgesTwo (spec.typed_operation op at left_kind right_kind) (found left) (found right) judge.old result judge.new }
{
    if let (Some(u), Some(v)) = (value_of(left), value_of(right)) {
        return static_operation(judge, op, left_kind, right_kind, left, u, right, v);
    }
    operation_on(judge, op, at, left_kind, right_kind, left, right)
}

/// Whether a number has no more than 64 binary digits and no sign.
fn is_digits(value: i128) -> bool
    ensures { result ≡ spec.is_digits value }
{
    0 <= value && value <= 18_446_744_073_709_551_615
}

fn leaf_limits(first: u32, value: i128) -> Limits
    ensures { result ≡ spec.leaf_limits first value }
{
    Limits {
        narrow: if in_base(Kind::Integer, value) {
            None
        } else {
            Some(first)
        },
        wide: if in_base(Kind::Own(0), value) {
            None
        } else {
            Some(first)
        },
        word: if is_digits(value) { None } else { Some(first) },
    }
}

/// A static part of a universal expression: one that no type has is a fault wherever it takes a type.
fn leaf(out: &mut Parts, first: u32, value: i128) -> Result<(), AllocError>
    ensures { OnOk result (parts out.new ≡ part.AnExpr (spec.leaf first value (top (parts out.old))) ∷ pop (parts out.old)) }
{
    literal(out, first, leaf_kept(value), false)
}

/// What a static part of a universal expression keeps: a number of 64 bits as it is, one of 64 binary digits as a cell of
/// a modular type does.
fn leaf_kept(value: i128) -> i64
    ensures { result ≡ spec.leaf_kept value }
{
    if in_base(Kind::Own(0), value) {
        value as i64
    } else if is_digits(value) {
        ada_base::kept(value as u64)
    } else {
        -1
    }
}

fn sooner(a: Option<u32>, b: Option<u32>) -> Option<u32>
    ensures { result ≡ values.sooner a b }
{
    match a {
        None => b,
        Some(a) => Some(a),
    }
}

/// The first parts of two universal expressions that are out of range, the left one first.
pub fn joint(a: Limits, b: Limits) -> Limits
    ensures { result ≡ values.joint a b }
{
    Limits {
        narrow: sooner(a.narrow, b.narrow),
        wide: sooner(a.wide, b.wide),
        word: sooner(a.word, b.word),
    }
}

/// A universal expression, in place of the latest part.
#[tactic(auto, unfolding(name_rules::specs::Operators::open_of))]
pub fn open_of(out: &mut Parts, given: Found) -> Result<Option<Limits>, AllocError>
    ensures { Opens (spec.open_of (found given (top (parts out.old)))) (pop (parts out.old)) result (parts out.new) }
{
    match given {
        Found::Universal { first, value, .. } => {
            attempt!(leaf(out, first, value));
            Ok(Some(leaf_limits(first, value)))
        }
        Found::Open { limits, .. } => Ok(Some(limits)),
        _ => Ok(None),
    }
}

/// A universal expression, in place of the part before the latest, which stays.
pub fn open_before(out: &mut Parts, given: Found) -> Result<Option<Limits>, AllocError>
    ensures opens { Opens (spec.open_of (found given (second (parts out.old)))) (pop (pop (parts out.old))) result (pop (parts out.new)) }
    ensures stays { OnOk result (top (parts out.new) ≡ top (parts out.old)) }
{
    attempt!(out.swap());
    let limits = attempt!(open_of(out, given));
    attempt!(out.swap());
    Ok(limits)
}

#[tactic(auto, unfolding(name_rules::specs::Operators::open_binary))]
fn open_binary(judge: &mut Judge, op: Op, at: u32, left: Found, right: Found) -> Finding
    ensures { JudgesTwo (λ x y. pure (spec.open_binary op at x y)) (found left) (found right) judge.old result judge.new }
{
    let x = attempt!(open_before(&mut judge.out, left));
    let y = attempt!(open_of(&mut judge.out, right));
    let (Some(x), Some(y)) = (x, y) else {
        return none_of_two(judge);
    };
    attempt!(judge.out.binary(at, op, Class::Universal));
    Ok(Some(Found::Open {
        first: first_of(left),
        limits: joint(x, y),
    }))
}

#[tactic(auto, unfolding(name_rules::specs::Operators::universal_operation))]
fn universal_operation(judge: &mut Judge, op: Op, at: u32, left: Found, right: Found) -> Finding
    ensures { JudgesTwo (spec.universal_operation op at) (found left) (found right) judge.old result judge.new }
{
    if let (Some(u), Some(v)) = (value_of(left), value_of(right)) {
        attempt!(both_mentions(&mut judge.out, left, right));
        return static_universal(judge, first_of(left), exact(op, u, v));
    }
    open_binary(judge, op, at, left, right)
}

/// A string before a number's operator is blamed at its first token.
fn operand_blamed(left: Found, at: u32) -> u32
    ensures { result ≡ spec.operand_blamed left at }
{
    match left {
        Found::Text { first } => first,
        _ => at,
    }
}

#[tactic(auto, unfolding(name_rules::specs::Operators::operation))]
fn operation(judge: &mut Judge, op: Op, at: u32, left: Found, right: Found) -> Finding
    ensures { JudgesTwo (spec.operation op at) (found left) (found right) judge.old result judge.new }
{
    if !is_number(left) || !is_number(right) {
        return no_parts(judge, operand_blamed(left, at), Rule::WrongType);
    }
    match (kind_of(left), kind_of(right)) {
        (None, None) => universal_operation(judge, op, at, left, right),
        (None, Some(kind)) => typed_operation(judge, op, at, kind, kind, left, right),
        (Some(kind), None) => typed_operation(judge, op, at, kind, kind, left, right),
        (Some(own), Some(kind)) => {
            if same(own, kind) {
                typed_operation(judge, op, at, kind, kind, left, right)
            } else {
                no_parts(judge, at, Rule::WrongType)
            }
        }
    }
}

/// An operator on two numbers (4.5.3, 4.5.5), either of which may have a fault: WrongType at the operator, or at a string
/// that stands before it.
#[tactic(auto, unfolding(name_rules::specs::Operators::binary))]
pub fn binary(
    judge: &mut Judge,
    op: Op,
    at: u32,
    left: Option<Found>,
    right: Option<Found>,
) -> Finding
    ensures { JudgesTwo (spec.binary op at) (found_of left) (found_of right) judge.old result judge.new }
{
    let (Some(left), Some(right)) = (left, right) else {
        return none_of_two(judge);
    };
    operation(judge, op, at, left, right)
}

#[tactic(auto, unfolding(name_rules::specs::Operators::universal_power))]
fn universal_power(judge: &mut Judge, at: u32, base: Found, exponent: Found) -> Finding
    ensures { JudgesTwo (spec.universal_power at) (found base) (found exponent) judge.old result judge.new }
{
    if !attempt!(asked(judge, Kind::Integer, exponent)) {
        return none_of_two(judge);
    }
    let Some(limits) = attempt!(open_before(&mut judge.out, base)) else {
        return none_of_two(judge);
    };
    attempt!(judge.out.binary(at, Op::Pow, Class::Universal));
    Ok(Some(Found::Open {
        first: first_of(base),
        limits,
    }))
}

#[tactic(auto, unfolding(name_rules::specs::Operators::static_power))]
fn static_power(
    judge: &mut Judge,
    base: Found,
    base_value: i128,
    exponent: Found,
    exponent_value: i128,
) -> Finding
    ensures { JudgesTwo (λ x y. spec.static_power x base_value y exponent_value) (found base) (found exponent) judge.old result judge.new }
{
    attempt!(both_mentions(&mut judge.out, base, exponent));
    if attempt!(fitting(
        &mut judge.log,
        Kind::Integer,
        first_of(exponent),
        exponent_value,
    )) {
        static_universal(
            judge,
            first_of(base),
            exact(Op::Pow, base_value, exponent_value),
        )
    } else {
        Ok(None)
    }
}

fn power_to(judge: &mut Judge, at: u32, base: Found, exponent: Found) -> Finding
    ensures { JudgesTwo (λ x y. spec.power_to at x y (values.kind_of base)) (found base) (found exponent) judge.old result judge.new }
{
    if let Some(kind) = kind_of(base) {
        return typed_operation(judge, Op::Pow, at, kind, Kind::Integer, base, exponent);
    }
    if let (Some(u), Some(v)) = (value_of(base), value_of(exponent)) {
        return static_power(judge, base, u, exponent, v);
    }
    universal_power(judge, at, base, exponent)
}

/// `**` (4.5.6), of a number and an Integer, either of which may have a fault: WrongType at the operator.
#[tactic(auto, unfolding(name_rules::specs::Operators::power))]
pub fn power(judge: &mut Judge, at: u32, base: Option<Found>, exponent: Option<Found>) -> Finding
    ensures { JudgesTwo (spec.power at) (found_of base) (found_of exponent) judge.old result judge.new }
{
    let (Some(base), Some(exponent)) = (base, exponent) else {
        return none_of_two(judge);
    };
    if is_number(base) && suits(Kind::Integer, exponent) {
        power_to(judge, at, base, exponent)
    } else {
        no_parts(judge, at, Rule::WrongType)
    }
}

fn unary_open(judge: &mut Judge, sign: Sign, at: u32, operand: Found) -> Finding
    ensures { JudgesOne (λ x. spec.unary_open sign at x (values.value_of operand)) (found operand) judge.old result judge.new }
{
    if let Some(value) = value_of(operand) {
        return static_universal(judge, at, signed(sign, value));
    }
    let Some(limits) = attempt!(open_of(&mut judge.out, operand)) else {
        return Ok(None);
    };
    attempt!(judge.out.unary(at, sign, Class::Universal));
    Ok(Some(Found::Open { first: at, limits }))
}

fn unary_typed(judge: &mut Judge, sign: Sign, at: u32, kind: Kind, operand: Found) -> Finding
    ensures { JudgesOne (λ x. spec.unary_typed sign at kind x (values.value_of operand)) (found operand) judge.old result judge.new }
{
    if let Some(value) = value_of(operand) {
        if attempt!(fitting(&mut judge.log, kind, first_of(operand), value)) {
            return static_of(judge, at, kind, signed(sign, value));
        }
        return Ok(None);
    }
    if !attempt!(asked(judge, kind, operand)) {
        return Ok(None);
    }
    attempt!(judge.out.unary(at, sign, class_of(kind)));
    Ok(Some(Found::Scalar {
        first: at,
        kind,
        nominal: None,
    }))
}

/// `-` and `abs`.
#[tactic(auto, unfolding(name_rules::specs::Operators::unary))]
pub fn unary(judge: &mut Judge, sign: Sign, at: u32, operand: Option<Found>) -> Finding
    ensures { JudgesOne (spec.unary sign at) (found_of operand) judge.old result judge.new }
{
    let Some(operand) = operand else {
        return Ok(None);
    };
    if !is_number(operand) {
        return no_part(judge, at, Rule::WrongType);
    }
    match kind_of(operand) {
        Some(kind) => unary_typed(judge, sign, at, kind, operand),
        None => unary_open(judge, sign, at, operand),
    }
}

fn plain_open(judge: &mut Judge, at: u32, operand: Found) -> Finding
    ensures { JudgesOne (λ x. spec.plain_open at x (values.value_of operand)) (found operand) judge.old result judge.new }
{
    if let Some(value) = value_of(operand) {
        return Ok(Some(Found::Universal {
            first: at,
            value,
            literal: false,
        }));
    }
    let Some(limits) = attempt!(open_of(&mut judge.out, operand)) else {
        return Ok(None);
    };
    attempt!(judge.out.group());
    Ok(Some(Found::Open { first: at, limits }))
}

fn plain_typed(judge: &mut Judge, at: u32, kind: Kind, operand: Found) -> Finding
    ensures { JudgesOne (λ x. spec.plain_typed at kind x (values.value_of operand)) (found operand) judge.old result judge.new }
{
    if let Some(value) = value_of(operand) {
        return static_of(judge, at, kind, Some(value));
    }
    if !attempt!(asked(judge, kind, operand)) {
        return Ok(None);
    }
    attempt!(judge.out.group());
    Ok(Some(Found::Scalar {
        first: at,
        kind,
        nominal: None,
    }))
}

/// `+`, behind which what isn't static is a group, as in brackets.
#[tactic(auto, unfolding(name_rules::specs::Operators::plain))]
pub fn plain(judge: &mut Judge, at: u32, operand: Option<Found>) -> Finding
    ensures { JudgesOne (spec.plain at) (found_of operand) judge.old result judge.new }
{
    let Some(operand) = operand else {
        return Ok(None);
    };
    if !is_number(operand) {
        return no_part(judge, at, Rule::WrongType);
    }
    match kind_of(operand) {
        Some(kind) => plain_typed(judge, at, kind, operand),
        None => plain_open(judge, at, operand),
    }
}
