//! The rules of relations (4.5.2), of logical operators (4.5.1), and of operators on strings (4.5.3): the operands'
//! parts are the latest, and the result's part comes in their place. A wrong operand is blamed at the operator.

ghost use Rattle.std.specs.Prelude.{◌≡◌, Some};
ghost use Rattle.name_rules.specs.Judges.{found, found_of};
ghost use Rattle.name_values.specs.Judged.{JudgesOn, JudgesOne, JudgesThree, JudgesTwo};
ghost use Rattle.name_rules.specs.Judging.{fault};
ghost use Rattle.name_rules.specs.Operators as spec;
ghost use Rattle.typed_tree.specs.Latest.{pop, second};
ghost use Rattle.typed_parts.specs.Stack.{parts};

use crate::judge::{Finding, Judge};
use crate::logs::{also_all, no_part, no_parts, none_of_two};
use crate::operators::operation_on;
use crate::types::{class_of, is_modular};
use crate::values::{asked, asked_before, first_of, is_scalar, kind_of, suits};
use ada_base::{Comparison, Op};
use name_rules::found::Found;
use name_rules::log::Rule;
use name_rules::types::{Kind, Scalar};
use typed_tree::Sign;

/// Whether logical operators take values of a type.
fn is_logical_kind(kind: Kind) -> bool
    ensures { result ≡ spec.is_logical_kind kind }
{
    match kind {
        Kind::Boolean => true,
        _ => is_modular(kind),
    }
}

/// `not` of an operand that takes a type.
fn complement(judge: &mut Judge, at: u32, operand: Found, kind: Kind) -> Finding
    ensures { JudgesOne (λ x. spec.complement at x kind) (found operand) judge.old result judge.new }
{
    if !attempt!(asked(judge, kind, operand)) {
        return Ok(None);
    }
    attempt!(judge.out.unary(at, Sign::Not, class_of(kind)));
    Ok(Some(Found::Scalar {
        first: at,
        kind,
        nominal: None,
    }))
}

/// `not` of an operand of a type.
fn not_kind(judge: &mut Judge, at: u32, operand: Found, kind: Kind) -> Finding
    ensures { JudgesOne (λ x. spec.not_by at x (Some kind)) (found operand) judge.old result judge.new }
{
    if is_logical_kind(kind) {
        complement(judge, at, operand, kind)
    } else {
        no_part(judge, at, Rule::WrongType)
    }
}

/// `not`, which takes a Boolean or a number of a modular type: WrongType at the operator.
#[tactic(auto, unfolding(name_rules::specs::Operators::not_of))]
pub fn not_of(judge: &mut Judge, at: u32, operand: Option<Found>) -> Finding
    ensures { JudgesOne (spec.not_of at) (found_of operand) judge.old result judge.new }
{
    let Some(operand) = operand else {
        return Ok(None);
    };
    match kind_of(operand) {
        None => no_part(judge, at, Rule::WrongType),
        Some(kind) => not_kind(judge, at, operand, kind),
    }
}

/// `&`, which joins strings: WrongType at the operator.
#[tactic(auto, unfolding(name_rules::specs::Operators::joined_text))]
pub fn joined_text(judge: &mut Judge, at: u32, left: Option<Found>, right: Option<Found>) -> Finding
    ensures { JudgesTwo (spec.joined_text at) (found_of left) (found_of right) judge.old result judge.new }
{
    let (Some(left), Some(right)) = (left, right) else {
        return none_of_two(judge);
    };
    match (left, right) {
        (Found::Text { first }, Found::Text { .. }) => {
            attempt!(also_all(&mut judge.out));
            Ok(Some(Found::Text { first }))
        }
        _ => no_parts(judge, at, Rule::WrongType),
    }
}

/// `and`, `or` and `xor`, which take Booleans or numbers of one modular type: WrongType at the operator.
#[tactic(auto, unfolding(name_rules::specs::Operators::logical))]
pub fn logical(
    judge: &mut Judge,
    op: Op,
    at: u32,
    left: Option<Found>,
    right: Option<Found>,
) -> Finding
    ensures { JudgesTwo (spec.logical op at) (found_of left) (found_of right) judge.old result judge.new }
{
    let (Some(left), Some(right)) = (left, right) else {
        return none_of_two(judge);
    };
    let kind = common_kind(kind_of(left), kind_of(right));
    if is_logical_kind(kind) && suits(kind, left) && suits(kind, right) {
        operation_on(judge, op, at, kind, kind, left, right)
    } else {
        no_parts(judge, at, Rule::WrongType)
    }
}

#[tactic(auto, unfolding(name_rules::specs::Operators::compared_at))]
fn compared_at(
    judge: &mut Judge,
    kind: Kind,
    comparison: Comparison,
    left: Found,
    right: Found,
) -> Finding
    ensures { JudgesTwo (spec.compared_at kind comparison) (found left) (found right) judge.old result judge.new }
{
    let x = attempt!(asked_before(judge, kind, left));
    let y = attempt!(asked(judge, kind, right));
    if !x || !y {
        return none_of_two(judge);
    }
    attempt!(judge.out.relation(class_of(kind), comparison));
    Ok(Some(Found::Scalar {
        first: first_of(left),
        kind: Kind::Boolean,
        nominal: None,
    }))
}

/// The type of two operands: that of the first that has one; two universal ones are Integer.
pub fn common_kind(left: Option<Kind>, right: Option<Kind>) -> Kind
    ensures { result ≡ spec.common_kind left right }
{
    match left {
        Some(kind) => kind,
        None => match right {
            Some(kind) => kind,
            None => Kind::Integer,
        },
    }
}

/// Relations, which take scalars of one type: WrongType at the operator.
#[tactic(auto, unfolding(name_rules::specs::Operators::compared))]
pub fn compared(
    judge: &mut Judge,
    comparison: Comparison,
    at: u32,
    left: Option<Found>,
    right: Option<Found>,
) -> Finding
    ensures { JudgesTwo (spec.compared comparison at) (found_of left) (found_of right) judge.old result judge.new }
{
    let (Some(left), Some(right)) = (left, right) else {
        return none_of_two(judge);
    };
    let kind = common_kind(kind_of(left), kind_of(right));
    if suits(kind, left) && suits(kind, right) {
        compared_at(judge, kind, comparison, left, right)
    } else {
        no_parts(judge, at, Rule::WrongType)
    }
}

/// Writes that a rule is broken, in place of the three latest parts.
fn no_three_parts(judge: &mut Judge, at: u32, rule: Rule) -> Finding
    ensures { JudgesOn (pop (pop (pop (parts judge.old.out)))) (fault at rule) judge.old result judge.new }
{
    judge.out.leave_out();
    no_parts(judge, at, rule)
}

fn within_bounds(
    judge: &mut Judge,
    at: u32,
    negated: bool,
    kind: Kind,
    value: Found,
    low: Found,
    high: Found,
) -> Finding
    ensures { JudgesThree (spec.within_bounds at negated kind) (found value) (found low) (found high) judge.old result judge.new }
{
    if !suits(kind, value) {
        return no_three_parts(judge, at, Rule::WrongType);
    }
    attempt!(judge.out.rotate());
    let x = attempt!(asked(judge, kind, value));
    attempt!(judge.out.rotate());
    let l = attempt!(asked(judge, kind, low));
    attempt!(judge.out.rotate());
    let h = attempt!(asked(judge, kind, high));
    if !x || !l || !h {
        judge.out.leave_out();
        return none_of_two(judge);
    }
    attempt!(judge.out.membership(class_of(kind), negated));
    Ok(Some(Found::Scalar {
        first: first_of(value),
        kind: Kind::Boolean,
        nominal: None,
    }))
}

fn first_kind(first: Option<Kind>, second: Option<Kind>) -> Option<Kind>
    ensures { result ≡ spec.first_kind first second }
{
    match first {
        Some(kind) => Some(kind),
        None => second,
    }
}

fn member_of(
    judge: &mut Judge,
    at: u32,
    negated: bool,
    value: Found,
    low: Found,
    high: Found,
) -> Finding
    ensures { JudgesThree (spec.member_of at negated) (found value) (found low) (found high) judge.old result judge.new }
{
    if !is_scalar(value) {
        return no_three_parts(judge, at, Rule::WrongType);
    }
    if !is_scalar(low) {
        return no_three_parts(judge, first_of(low), Rule::WrongType);
    }
    if !is_scalar(high) {
        return no_three_parts(judge, first_of(high), Rule::WrongType);
    }
    let kind = common_kind(first_kind(kind_of(value), kind_of(low)), kind_of(high));
    within_bounds(judge, at, negated, kind, value, low, high)
}

/// `X [not] in L .. H`, whose type is that of the first of the three that has one: WrongType at the operator, or at the
/// first token of a bound.
#[tactic(auto, unfolding(name_rules::specs::Operators::membership))]
pub fn membership(
    judge: &mut Judge,
    at: u32,
    negated: bool,
    value: Option<Found>,
    low: Option<Found>,
    high: Option<Found>,
) -> Finding
    ensures { JudgesThree (spec.membership at negated) (found_of value) (found_of low) (found_of high) judge.old result judge.new }
{
    let (Some(value), Some(low), Some(high)) = (value, low, high) else {
        judge.out.leave_out();
        return none_of_two(judge);
    };
    member_of(judge, at, negated, value, low, high)
}

/// `X [not] in S`, by the token of the subtype's name: WrongType at the operator.
#[tactic(auto, unfolding(name_rules::specs::Operators::of_subtype))]
pub fn of_subtype(
    judge: &mut Judge,
    at: u32,
    negated: bool,
    mark: u32,
    value: Option<Found>,
    subtype: Option<Scalar>,
) -> Finding
    ensures { JudgesOne (λ x. spec.of_subtype at negated mark x subtype) (found_of value) judge.old result judge.new }
{
    let (Some(value), Some(scalar)) = (value, subtype) else {
        return Ok(None);
    };
    if !suits(scalar.kind, value) {
        return no_part(judge, at, Rule::WrongType);
    }
    if !attempt!(asked(judge, scalar.kind, value)) {
        return Ok(None);
    }
    attempt!(judge.out.nothing());
    attempt!(judge.out.static_value(mark, scalar.low, false));
    attempt!(judge.out.nothing());
    attempt!(judge.out.static_value(mark, scalar.high, false));
    attempt!(judge.out.membership(class_of(scalar.kind), negated));
    Ok(Some(Found::Scalar {
        first: first_of(value),
        kind: Kind::Boolean,
        nominal: None,
    }))
}
