//! Static ranges (3.6, 4.3.3) and the values of choices (3.8.1): what they mention is their part.

ghost use Rattle.std.specs.Prelude.{◌≡◌, ◌&&◌, OnOk};
ghost use Rattle.name_rules.specs.Judges.{Says, found, found_of};
ghost use Rattle.name_values.specs.Judged.{JudgesOn, JudgesTwo};
ghost use Rattle.name_rules.specs.Judging.{fault};
ghost use Rattle.name_rules.specs.Ranges as spec;
ghost use Rattle.name_rules.specs.Types as types;
ghost use Rattle.name_rules.specs.Values as values;
ghost use Rattle.name_values.specs.Statics as statics;
ghost use Rattle.typed_tree.specs.Latest.{pop, second, top};
ghost use Rattle.typed_parts.specs.Stack.{parts};

use crate::judge::Judge;
use crate::logs::{breaks, none_of_two};
use crate::names::denoted_first;
use crate::operators::both_mentions;
use crate::relations::common_kind;
use crate::types::{in_base, is_integer, is_modular, kept, lies_in, same};
use crate::values::{beyond, first_of, is_number, kind_of, mentions, suits, value_of};
use name_rules::found::{Denoted, Found, Limits, ObjectName};
use name_rules::log::{Dimension, Log, Rule};
use name_rules::types::{Kind, Scalar, Subtype};
use std::alloc::AllocError;
use typed_tree::Span;

/// The values of a choice, from the first to the last as cells keep them, with its first token.
#[derive(Clone, Copy)]
pub struct Chosen {
    pub at: u32,
    pub low: i64,
    pub high: i64,
}

/// Whether a test holds: else a rule is broken.
fn or_breaks(log: &mut Log, holds: bool, at: u32, rule: Rule) -> Result<bool, AllocError>
    ensures { Says (statics.or_breaks holds at rule log.old) result log.new }
{
    if holds {
        return Ok(true);
    }
    attempt!(breaks(log, at, rule));
    Ok(false)
}

fn place_takes(log: &mut Log, kind: Kind, place: ObjectName) -> Result<bool, AllocError>
    ensures { Says (statics.place_takes kind place place.subtype log.old) result log.new }
{
    match place.subtype {
        Subtype::Scalar(scalar) => {
            if same(scalar.kind, kind) {
                value_takes(log, kind, place.first, place.value)
            } else {
                or_breaks(log, false, place.first, Rule::WrongType)
            }
        }
        Subtype::Composite(_) => or_breaks(log, false, place.first, Rule::WrongType),
    }
}

fn value_takes(
    log: &mut Log,
    kind: Kind,
    first: u32,
    value: Option<i64>,
) -> Result<bool, AllocError>
    ensures { Says (statics.value_takes kind first value log.old) result log.new }
{
    match value {
        None => Ok(true),
        Some(value) => or_breaks(
            log,
            in_base(kind, i128::from(value)),
            first,
            Rule::StaticRange,
        ),
    }
}

fn within(log: &mut Log, at: Option<u32>) -> Result<bool, AllocError>
    ensures { Says (statics.within at log.old) result log.new }
{
    match at {
        None => Ok(true),
        Some(at) => or_breaks(log, false, at, Rule::StaticRange),
    }
}

/// Whether an expression, the latest part, takes the type that its place asks for: WrongType, StaticRange. The part stays
/// as it is.
#[tactic(auto, unfolding(crate::specs::Statics::takes))]
fn takes(judge: &mut Judge, kind: Kind, given: Found) -> Result<bool, AllocError>
    ensures { Says (statics.takes kind given (top (parts judge.old.out)) judge.old.log) result judge.new.log × OnOk result ((top (parts judge.new.out) ≡ top (parts judge.old.out)) × (pop (parts judge.new.out) ≡ pop (parts judge.old.out))) }
{
    if let Found::Open { first, limits } = given {
        return open_takes(judge, kind, first, limits);
    }
    closed_takes(&mut judge.log, kind, given)
}

/// The same of a universal expression that isn't static.
fn open_takes(judge: &mut Judge, kind: Kind, first: u32, limits: Limits) -> Result<bool, AllocError>
    ensures { Says (statics.open_takes kind first limits (top (parts judge.old.out)) judge.old.log) result judge.new.log × OnOk result ((top (parts judge.new.out) ≡ top (parts judge.old.out)) × (pop (parts judge.new.out) ≡ pop (parts judge.old.out))) }
{
    if !is_integer(kind) {
        return or_breaks(&mut judge.log, false, first, Rule::WrongType);
    }
    let at = attempt!(beyond(&mut judge.out, kind, limits));
    within(&mut judge.log, at)
}

/// The same of another one.
fn closed_takes(log: &mut Log, kind: Kind, given: Found) -> Result<bool, AllocError>
    ensures { Says (statics.closed_takes kind given log.old) result log.new }
{
    match given {
        Found::Universal { first, value, .. } => {
            if is_integer(kind) {
                or_breaks(log, in_base(kind, value), first, Rule::StaticRange)
            } else {
                or_breaks(log, false, first, Rule::WrongType)
            }
        }
        Found::Static {
            first,
            kind: own,
            value,
        } => {
            if same(own, kind) {
                or_breaks(log, in_base(kind, value), first, Rule::StaticRange)
            } else {
                or_breaks(log, false, first, Rule::WrongType)
            }
        }
        Found::Object(place) => place_takes(log, kind, place),
        Found::Scalar {
            first,
            kind: own,
            ..
        } => or_breaks(log, same(own, kind), first, Rule::WrongType),
        _ => or_breaks(log, false, first_of(given), Rule::WrongType),
    }
}

/// The static value of an expression in the base range of a type, as a cell keeps it.
fn value_in(kind: Kind, given: Found) -> Option<i64>
    ensures { result ≡ statics.value_in kind given }
{
    match value_of(given) {
        None => None,
        Some(value) => {
            if in_base(kind, value) {
                Some(kept(kind, value))
            } else {
                None
            }
        }
    }
}

/// A value that has to be static: NotStatic where there is none.
fn has_value(log: &mut Log, first: u32, value: Option<i64>) -> Result<Option<i64>, AllocError>
    ensures { Says (values.static_value first value log.old) result log.new }
{
    match value {
        Some(value) => Ok(Some(value)),
        None => {
            attempt!(breaks(log, first, Rule::NotStatic));
            Ok(None)
        }
    }
}

/// The value of a static expression, the latest part, whose place asks for a type: WrongType, StaticRange, NotStatic. The
/// part stays as it is.
#[tactic(auto, unfolding(crate::specs::Statics::value_taken))]
fn value_taken(judge: &mut Judge, kind: Kind, given: Found) -> Result<Option<i64>, AllocError>
    ensures { Says (statics.value_taken kind given (top (parts judge.old.out)) judge.old.log) result judge.new.log × OnOk result ((top (parts judge.new.out) ≡ top (parts judge.old.out)) × (pop (parts judge.new.out) ≡ pop (parts judge.old.out))) }
{
    if attempt!(takes(judge, kind, given)) {
        has_value(&mut judge.log, first_of(given), value_in(kind, given))
    } else {
        Ok(None)
    }
}

fn both_values(
    log: &mut Log,
    kind: Kind,
    low: Found,
    high: Found,
) -> Result<Option<Span>, AllocError>
    ensures { Says (statics.both_values kind low high log.old) result log.new }
{
    let u = attempt!(has_value(log, first_of(low), value_in(kind, low)));
    let v = attempt!(has_value(log, first_of(high), value_in(kind, high)));
    match (u, v) {
        (Some(low), Some(high)) => Ok(Some(Span { low, high })),
        _ => Ok(None),
    }
}

/// Two static bounds of a type, the latest parts, which stay as they are: WrongType, StaticRange, and NotStatic at one
/// that isn't static.
#[tactic(auto, unfolding(crate::specs::Statics::span_taken))]
pub fn span_taken(
    judge: &mut Judge,
    kind: Kind,
    low: Found,
    high: Found,
) -> Result<Option<Span>, AllocError>
    ensures { Says (statics.span_taken kind (found low (second (parts judge.old.out))) (found high (top (parts judge.old.out))) judge.old.log) result judge.new.log × OnOk result (statics.StayTwo (parts judge.old.out) (parts judge.new.out)) }
{
    attempt!(judge.out.swap());
    let x = attempt!(takes(judge, kind, low));
    attempt!(judge.out.swap());
    let y = attempt!(takes(judge, kind, high));
    if x && y {
        both_values(&mut judge.log, kind, low, high)
    } else {
        Ok(None)
    }
}

/// Writes that a rule is broken by a static range, in place of the two latest parts.
fn no_span(judge: &mut Judge, at: u32, rule: Rule) -> Result<Option<Dimension>, AllocError>
    ensures { JudgesOn (pop (pop (parts judge.old.out))) (fault at rule) judge.old result judge.new }
{
    judge.out.leave_out();
    attempt!(breaks(&mut judge.log, at, rule));
    Ok(None)
}

/// A dimension of these bounds, the latest parts: StaticRange where it must have a value and has none.
fn spanned(
    judge: &mut Judge,
    first: u32,
    must_hold: bool,
    kind: Kind,
    low: Found,
    high: Found,
    span: Span,
) -> Result<Option<Dimension>, AllocError>
    ensures { JudgesTwo (λ x y. spec.spanned first must_hold kind x y (span.low, span.high)) (found low) (found high) judge.old result judge.new }
{
    if must_hold && !(span.low <= span.high) {
        return no_span(judge, first, Rule::StaticRange);
    }
    attempt!(both_mentions(&mut judge.out, low, high));
    Ok(Some(Dimension {
        kind,
        low: span.low,
        high: span.high,
    }))
}

/// StaticRange where a bound isn't a value of a subtype.
fn inside_subtype(log: &mut Log, scalar: Scalar, bound: Found, value: i64) -> Result<(), AllocError>
    ensures { Says (statics.inside_subtype scalar bound value log.old) result log.new }
{
    if lies_in(scalar, i128::from(value)) {
        return Ok(());
    }
    breaks(log, first_of(bound), Rule::StaticRange)
}

/// Whether both bounds are values of a subtype.
fn holds_both(scalar: Scalar, span: Span) -> bool
    ensures { result ≡ (types.lies_in scalar span.low && types.lies_in scalar span.high) }
{
    lies_in(scalar, i128::from(span.low)) && lies_in(scalar, i128::from(span.high))
}

/// A dimension of bounds that are checked against a subtype, the latest parts: StaticRange at one that is outside of it.
fn inside_span(
    judge: &mut Judge,
    first: u32,
    must_hold: bool,
    scalar: Scalar,
    low: Found,
    high: Found,
    span: Span,
) -> Result<Option<Dimension>, AllocError>
    ensures { JudgesTwo (λ x y. statics.inside_span first must_hold scalar x y (span.low, span.high)) (found low) (found high) judge.old result judge.new }
{
    attempt!(inside_subtype(&mut judge.log, scalar, low, span.low));
    attempt!(inside_subtype(&mut judge.log, scalar, high, span.high));
    if holds_both(scalar, span) {
        return spanned(judge, first, must_hold, scalar.kind, low, high, span);
    }
    none_of_two(judge)
}

/// A dimension of bounds of a subtype, the latest parts: StaticRange where it must have a value and has none, and else at
/// a bound that is outside of the subtype.
fn checked_span(
    judge: &mut Judge,
    first: u32,
    must_hold: bool,
    scalar: Scalar,
    low: Found,
    high: Found,
    span: Span,
) -> Result<Option<Dimension>, AllocError>
    ensures { JudgesTwo (λ x y. spec.checked_span first must_hold scalar x y (span.low, span.high)) (found low) (found high) judge.old result judge.new }
{
    if !(span.low <= span.high) {
        return spanned(judge, first, must_hold, scalar.kind, low, high, span);
    }
    inside_span(judge, first, must_hold, scalar, low, high, span)
}

/// The type of two static bounds: their own, or the one that is preferred, where neither has one.
fn preferred(want: Option<Kind>, low: Found, high: Found) -> Kind
    ensures { result ≡ spec.preferred want low high }
{
    let own = kind_of(low);
    let other = kind_of(high);
    match want {
        None => common_kind(own, other),
        Some(kind) => match (own, other) {
            (None, None) => kind,
            _ => common_kind(own, other),
        },
    }
}

/// A static range of two bounds, the latest parts, which are of one integer type: WrongType at a bound that isn't,
/// NotStatic, StaticRange.
#[tactic(auto, using(crate::proofs::Taken::bounds_taken))]
pub fn static_bounds(
    judge: &mut Judge,
    first: u32,
    must_hold: bool,
    want: Option<Kind>,
    low: Found,
    high: Found,
) -> Result<Option<Dimension>, AllocError>
    ensures { JudgesTwo (spec.static_bounds first must_hold want) (found low) (found high) judge.old result judge.new }
{
    let kind = preferred(want, low, high);
    if !is_number(low) || is_modular(kind) {
        return no_span(judge, first_of(low), Rule::WrongType);
    }
    if !(suits(kind, low) && suits(kind, high)) {
        return no_span(judge, first_of(high), Rule::WrongType);
    }
    match attempt!(span_taken(judge, kind, low, high)) {
        None => {
            judge.out.leave_out();
            Ok(None)
        }
        Some(span) => spanned(judge, first, must_hold, kind, low, high, span),
    }
}

/// Whether a type may be that of an index: an integer type that isn't modular.
fn is_index(kind: Kind) -> bool
    ensures { result ≡ spec.is_index kind }
{
    is_integer(kind) && !is_modular(kind)
}

/// The dimension of a scalar subtype, which mentions nothing: WrongType where it is no integer one, or a modular one.
fn static_scalar(
    judge: &mut Judge,
    first: u32,
    scalar: Scalar,
) -> Result<Option<Dimension>, AllocError>
    ensures { JudgesOn (pop (parts judge.old.out)) (spec.static_scalar first scalar) judge.old result judge.new }
{
    judge.out.leave_out();
    attempt!(judge.out.nothing());
    if is_index(scalar.kind) {
        return Ok(Some(Dimension {
            kind: scalar.kind,
            low: scalar.low,
            high: scalar.high,
        }));
    }
    attempt!(breaks(&mut judge.log, first, Rule::WrongType));
    Ok(None)
}

/// The dimension that a name is, the latest part: WrongType where it is no range and no integer subtype.
pub fn static_name(
    judge: &mut Judge,
    first: u32,
    denoted: Denoted,
) -> Result<Option<Dimension>, AllocError>
    ensures { JudgesOn (pop (parts judge.old.out)) (spec.static_name first denoted (top (parts judge.old.out))) judge.old result judge.new }
{
    match denoted {
        Denoted::Range { dimension, .. } => Ok(Some(dimension)),
        Denoted::Type {
            subtype: Subtype::Scalar(scalar),
            ..
        } => static_scalar(judge, first, scalar),
        _ => {
            attempt!(breaks(&mut judge.log, denoted_first(denoted), Rule::WrongType));
            Ok(None)
        }
    }
}

/// A static range of a subtype, whose bounds are the latest parts: WrongType, NotStatic, StaticRange.
#[tactic(auto, using(crate::proofs::Taken::checked_taken))]
pub fn static_checked(
    judge: &mut Judge,
    first: u32,
    must_hold: bool,
    scalar: Scalar,
    low: Found,
    high: Found,
) -> Result<Option<Dimension>, AllocError>
    ensures { JudgesTwo (spec.static_checked first must_hold scalar) (found low) (found high) judge.old result judge.new }
{
    if !is_index(scalar.kind) {
        return no_span(judge, first, Rule::WrongType);
    }
    match attempt!(span_taken(judge, scalar.kind, low, high)) {
        None => {
            judge.out.leave_out();
            Ok(None)
        }
        Some(span) => checked_span(judge, first, must_hold, scalar, low, high, span),
    }
}

/// The value of a choice, the latest part.
#[tactic(auto, using(crate::proofs::Taken::one_taken))]
fn one_value(judge: &mut Judge, kind: Kind, given: Found) -> Result<Option<Chosen>, AllocError>
    ensures { statics.Chooses (spec.one_value kind (found given (top (parts judge.old.out))) judge.old.log) (pop (parts judge.old.out)) result judge.new.log (parts judge.new.out) }
{
    match attempt!(value_taken(judge, kind, given)) {
        None => Ok(None),
        Some(value) => {
            attempt!(mentions(&mut judge.out, given));
            Ok(Some(Chosen {
                at: first_of(given),
                low: value,
                high: value,
            }))
        }
    }
}

/// The values of a choice from a bound to another, the latest parts.
#[tactic(auto, using(crate::proofs::Taken::two_taken))]
fn two_values(
    judge: &mut Judge,
    kind: Kind,
    low: Found,
    high: Found,
) -> Result<Option<Chosen>, AllocError>
    ensures { statics.Chooses (spec.two_values kind (found low (second (parts judge.old.out))) (found high (top (parts judge.old.out))) judge.old.log) (pop (pop (parts judge.old.out))) result judge.new.log (parts judge.new.out) }
{
    attempt!(judge.out.swap());
    let u = attempt!(value_taken(judge, kind, low));
    attempt!(judge.out.swap());
    let v = attempt!(value_taken(judge, kind, high));
    let (Some(u), Some(v)) = (u, v) else {
        judge.out.leave_out();
        return Ok(None);
    };
    attempt!(both_mentions(&mut judge.out, low, high));
    Ok(Some(Chosen {
        at: first_of(low),
        low: u,
        high: v,
    }))
}

/// The value of a choice, the latest part, where its type is known: WrongType, StaticRange, NotStatic.
pub fn values_of(
    judge: &mut Judge,
    kind: Option<Kind>,
    given: Option<Found>,
) -> Result<Option<Chosen>, AllocError>
    ensures { statics.Chooses (spec.values_of kind (found_of given (top (parts judge.old.out))) judge.old.log) (pop (parts judge.old.out)) result judge.new.log (parts judge.new.out) }
{
    match kind {
        None => Ok(None),
        Some(kind) => match given {
            None => Ok(None),
            Some(given) => one_value(judge, kind, given),
        },
    }
}

/// The values of a choice from a bound to another, the latest parts, where their type is known.
pub fn range_values(
    judge: &mut Judge,
    kind: Option<Kind>,
    low: Option<Found>,
    high: Option<Found>,
) -> Result<Option<Chosen>, AllocError>
    ensures { statics.Chooses (spec.range_values kind (found_of low (second (parts judge.old.out)), found_of high (top (parts judge.old.out))) judge.old.log) (pop (pop (parts judge.old.out))) result judge.new.log (parts judge.new.out) }
{
    let (Some(kind), Some(low), Some(high)) = (kind, low, high) else {
        judge.out.leave_out();
        return Ok(None);
    };
    two_values(judge, kind, low, high)
}
