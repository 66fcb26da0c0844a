//! What an expression was found to be, static values (4.9), and how an expression takes the type of its place.

ghost use Rattle.std.specs.Prelude.{◌≡◌, ◌∷◌, IfOk, OnOk};
ghost use Rattle.typed_tree.specs.Decoded.{AnExpr, as_expr};
ghost use Rattle.typed_tree.specs.Latest.{pop, second, top};
ghost use Rattle.name_rules.specs.Judges.{Says, found};
ghost use Rattle.name_values.specs.Judged.{GivesBefore, GivesOn, GivesOne};
ghost use Rattle.name_rules.specs.TypedParts.{selections_of};
ghost use Rattle.name_rules.specs.Values as spec;
ghost use Rattle.typed_parts.specs.Stack.{parts};

use crate::judge::{Giving, Judge};
use crate::logs::{breaks, cleared, not_given};
use crate::types::{
    check_at, class_of, in_base, is_integer, is_modular, is_word, kept, same, typed_scalar,
};
use name_rules::found::{Found, Limits, ObjectName};
use name_rules::log::{Log, Rule};
use name_rules::types::{Kind, Scalar, Subtype};
use std::alloc::AllocError;
use typed_parts::Parts;

/// The first token of an expression.
pub fn first_of(found: Found) -> u32
    ensures { result ≡ spec.first_of found }
{
    match found {
        Found::Universal { first, .. } => first,
        Found::Open { first, .. } => first,
        Found::Static { first, .. } => first,
        Found::Object(place) => place.first,
        Found::Scalar { first, .. } => first,
        Found::Composite { first, .. } => first,
        Found::Rest { first } => first,
        Found::Text { first } => first,
    }
}

/// Whether an expression is of universal parts alone.
pub fn is_universal(found: Found) -> bool
    ensures { result ≡ spec.is_universal found }
{
    match found {
        Found::Universal { .. } | Found::Open { .. } => true,
        _ => false,
    }
}

/// Its scalar type, where it has one.
pub fn kind_of(found: Found) -> Option<Kind>
    ensures { result ≡ spec.kind_of found }
{
    match found {
        Found::Static { kind, .. } => Some(kind),
        Found::Object(place) => match place.subtype {
            Subtype::Scalar(scalar) => Some(scalar.kind),
            Subtype::Composite(_) => None,
        },
        Found::Scalar { kind, .. } => Some(kind),
        _ => None,
    }
}

/// Its static value, where it has one.
pub fn value_of(found: Found) -> Option<i128>
    ensures { result ≡ spec.value_of found }
{
    match found {
        Found::Universal { value, .. } => Some(value),
        Found::Static { value, .. } => Some(value),
        Found::Object(place) => match place.value {
            Some(value) => Some(i128::from(value)),
            None => None,
        },
        _ => None,
    }
}

/// The nominal subtype of a name (3.5), which brackets hide.
pub fn nominal_of(found: Found) -> Option<Scalar>
    ensures { result ≡ spec.nominal_of found }
{
    match found {
        Found::Object(place) => match place.subtype {
            Subtype::Scalar(scalar) => Some(scalar),
            Subtype::Composite(_) => None,
        },
        Found::Scalar { nominal, .. } => nominal,
        _ => None,
    }
}

/// Whether an expression is of an integer type or universal.
pub fn is_number(found: Found) -> bool
    ensures { result ≡ spec.is_number found }
{
    if is_universal(found) {
        return true;
    }
    match kind_of(found) {
        None => false,
        Some(kind) => is_integer(kind),
    }
}

/// Whether an expression is of a scalar type or universal.
pub fn is_scalar(found: Found) -> bool
    ensures { result ≡ spec.is_scalar found }
{
    is_universal(found) || kind_of(found).is_some()
}

/// Whether an expression has a type of its own, which is this one.
pub fn is_kind(kind: Kind, own: Option<Kind>) -> bool
    ensures { result ≡ spec.is_kind kind own }
{
    match own {
        None => false,
        Some(own) => same(own, kind),
    }
}

/// Whether an expression is of this type, or a universal one that can take it.
pub fn suits(kind: Kind, found: Found) -> bool
    ensures { result ≡ spec.suits kind found }
{
    if is_universal(found) && is_integer(kind) {
        return true;
    }
    is_kind(kind, kind_of(found))
}

/// The type that an expression has where none is asked: a universal one is Integer.
pub fn own_kind(found: Found) -> Kind
    ensures { result ≡ spec.own_kind found }
{
    match kind_of(found) {
        None => Kind::Integer,
        Some(kind) => kind,
    }
}

/// What a static expression mentions, in place of its part.
pub fn mentions(out: &mut Parts, given: Found) -> Result<(), AllocError>
    ensures { OnOk result ((top (parts out.new) ≡ spec.mentions_of (found given (top (parts out.old)))) × (pop (parts out.new) ≡ pop (parts out.old))) }
{
    match given {
        Found::Object(_) => cleared(out),
        _ => Ok(()),
    }
}

/// A static value, of the list of what it mentions.
pub fn literal(out: &mut Parts, first: u32, value: i64, alone: bool) -> Result<(), AllocError>
    ensures { OnOk result (parts out.new ≡ spec.literal first value alone (top (parts out.old)) ∷ pop (parts out.old)) }
{
    attempt!(out.turn());
    out.static_value(first, value, alone)
}

/// Whether a static value is in its type's base range: StaticRange where it isn't.
#[tactic(auto, unfolding(name_rules::specs::Values::fitting))]
pub fn fitting(log: &mut Log, kind: Kind, first: u32, value: i128) -> Result<bool, AllocError>
    ensures { Says (spec.fitting kind first value log.old) result log.new }
{
    if in_base(kind, value) {
        return Ok(true);
    }
    attempt!(breaks(log, first, Rule::StaticRange));
    Ok(false)
}

#[tactic(auto, unfolding(name_rules::specs::Values::valued))]
fn valued(judge: &mut Judge, kind: Kind, first: u32, value: i128, alone: bool) -> Giving
    ensures { GivesOn (pop (parts judge.old.out)) (spec.valued kind first value alone (top (parts judge.old.out))) judge.old result judge.new }
{
    if !in_base(kind, value) {
        return not_given(judge, first, Rule::StaticRange);
    }
    attempt!(literal(&mut judge.out, first, kept(kind, value), alone));
    Ok(true)
}

/// The first static part of a universal expression, the latest part, that isn't in a type's base range. The part stays as
/// it is.
pub fn beyond(out: &mut Parts, kind: Kind, limits: Limits) -> Result<Option<u32>, AllocError>
    ensures { IfOk result (λ at. (at ≡ spec.beyond kind limits (as_expr (top (parts out.old)))) × (top (parts out.new) ≡ top (parts out.old)) × (pop (parts out.new) ≡ pop (parts out.old))) }
{
    match kind {
        Kind::Modular(_, digits) if digits < 64 => out.beyond_digits(digits),
        Kind::Modular(_, _) => Ok(limits.word),
        _ => Ok(beyond_range(kind, limits)),
    }
}

/// The same of a type that isn't modular.
fn beyond_range(kind: Kind, limits: Limits) -> Option<u32>
    ensures { result ≡ spec.beyond_range kind limits }
{
    match kind {
        Kind::Own(_) => limits.wide,
        _ => limits.narrow,
    }
}

#[tactic(auto, unfolding(name_rules::specs::Values::settled))]
fn settled(judge: &mut Judge, kind: Kind, limits: Limits) -> Giving
    ensures { GivesOn (pop (parts judge.old.out)) (spec.settled kind limits (as_expr (top (parts judge.old.out)))) judge.old result judge.new }
{
    match attempt!(beyond(&mut judge.out, kind, limits)) {
        Some(at) => not_given(judge, at, Rule::StaticRange),
        None => {
            attempt!(judge.out.settle(class_of(kind)));
            Ok(true)
        }
    }
}

fn object_expr(out: &mut Parts, place: ObjectName, scalar: Scalar) -> Result<(), AllocError>
    ensures { OnOk result (parts out.new ≡ AnExpr (spec.object_expr place (selections_of (top (parts out.old))) scalar place.variable) ∷ pop (parts out.old)) }
{
    attempt!(out.turn());
    if place.variable {
        out.variable(place.first, place.root, typed_scalar(scalar))
    } else {
        out.constant(place.first, place.root, typed_scalar(scalar))
    }
}

fn object_value(judge: &mut Judge, kind: Kind, place: ObjectName, scalar: Scalar) -> Giving
    ensures { GivesOn (pop (parts judge.old.out)) (spec.object_value kind place (selections_of (top (parts judge.old.out))) scalar place.value) judge.old result judge.new }
{
    if let Some(value) = place.value {
        attempt!(cleared(&mut judge.out));
        return valued(judge, kind, place.first, i128::from(value), false);
    }
    attempt!(object_expr(&mut judge.out, place, scalar));
    Ok(true)
}

fn place_asked(judge: &mut Judge, kind: Kind, place: ObjectName) -> Giving
    ensures { GivesOn (pop (parts judge.old.out)) (spec.place_asked kind place (selections_of (top (parts judge.old.out))) place.subtype) judge.old result judge.new }
{
    match place.subtype {
        Subtype::Scalar(scalar) => {
            if same(scalar.kind, kind) {
                object_value(judge, kind, place, scalar)
            } else {
                not_given(judge, place.first, Rule::WrongType)
            }
        }
        Subtype::Composite(_) => not_given(judge, place.first, Rule::WrongType),
    }
}

/// An expression whose place asks for a type (8.6), in place of the latest part: WrongType where it has another one,
/// StaticRange where a static part of a universal one isn't in the type's base range.
#[tactic(auto, unfolding(name_rules::specs::Values::asked))]
pub fn asked(judge: &mut Judge, kind: Kind, given: Found) -> Giving
    ensures { GivesOne (spec.asked kind) (found given) judge.old result judge.new }
{
    match given {
        Found::Universal {
            first,
            value,
            literal,
        } => {
            if is_integer(kind) {
                valued(judge, kind, first, value, literal)
            } else {
                not_given(judge, first, Rule::WrongType)
            }
        }
        Found::Open { first, limits } => {
            if is_integer(kind) {
                settled(judge, kind, limits)
            } else {
                not_given(judge, first, Rule::WrongType)
            }
        }
        Found::Static {
            first,
            kind: own,
            value,
        } => {
            if same(own, kind) {
                valued(judge, kind, first, value, false)
            } else {
                not_given(judge, first, Rule::WrongType)
            }
        }
        Found::Object(place) => place_asked(judge, kind, place),
        Found::Scalar {
            first,
            kind: own,
            ..
        } => {
            if same(own, kind) {
                Ok(true)
            } else {
                not_given(judge, first, Rule::WrongType)
            }
        }
        Found::Composite { first, .. } => not_given(judge, first, Rule::WrongType),
        Found::Rest { first } => not_given(judge, first, Rule::WrongType),
        Found::Text { first } => not_given(judge, first, Rule::WrongType),
    }
}

/// An expression whose place asks for a type, in place of the part before the latest, which stays; as `asked`.
pub fn asked_before(judge: &mut Judge, kind: Kind, given: Found) -> Giving
    ensures { GivesBefore (spec.asked kind (found given (second (parts judge.old.out)))) judge.old result judge.new }
{
    attempt!(judge.out.swap());
    let given = attempt!(asked(judge, kind, given));
    attempt!(judge.out.swap());
    Ok(given)
}

/// An expression whose place asks for no type takes its own.
#[tactic(auto, unfolding(name_rules::specs::Values::settled_found))]
pub fn settled_found(judge: &mut Judge, given: Found) -> Giving
    ensures { GivesOne spec.settled_found (found given) judge.old result judge.new }
{
    asked(judge, own_kind(given), given)
}

/// Whether it is a modular type with 64 binary digits.
fn is_word_kind(kind: Option<Kind>) -> bool
    ensures { result ≡ spec.is_word_kind kind }
{
    match kind {
        None => false,
        Some(kind) => is_word(kind),
    }
}

/// Whether it is a modular type.
pub fn is_modular_kind(kind: Option<Kind>) -> bool
    ensures { result ≡ spec.is_modular_kind kind }
{
    match kind {
        None => false,
        Some(kind) => is_modular(kind),
    }
}

/// An expression whose place asks for some integer type, but none of 64 binary digits: WrongType where it has another one.
#[tactic(auto, unfolding(name_rules::specs::Values::any_integer))]
pub fn any_integer(judge: &mut Judge, given: Found) -> Giving
    ensures { GivesOne spec.any_integer (found given) judge.old result judge.new }
{
    if is_number(given) && !is_word_kind(kind_of(given)) {
        settled_found(judge, given)
    } else {
        not_given(judge, first_of(given), Rule::WrongType)
    }
}

/// An expression whose place asks for some scalar type: WrongType where it has another one.
#[tactic(auto, unfolding(name_rules::specs::Values::any_scalar))]
pub fn any_scalar(judge: &mut Judge, given: Found) -> Giving
    ensures { GivesOne spec.any_scalar (found given) judge.old result judge.new }
{
    if is_scalar(given) {
        settled_found(judge, given)
    } else {
        not_given(judge, first_of(given), Rule::WrongType)
    }
}

/// The value of an expression that has to be static (4.9): NotStatic where it has none.
pub fn static_value(
    log: &mut Log,
    first: u32,
    value: Option<i128>,
) -> Result<Option<i128>, AllocError>
    ensures { Says (spec.static_value first value log.old) result log.new }
{
    match value {
        Some(value) => Ok(Some(value)),
        None => {
            attempt!(breaks(log, first, Rule::NotStatic));
            Ok(None)
        }
    }
}

/// The value of a static expression of any integer type, or a universal one: WrongType, NotStatic.
#[tactic(auto, unfolding(name_rules::specs::Values::static_integer))]
pub fn static_integer(log: &mut Log, given: Found) -> Result<Option<i128>, AllocError>
    ensures { Says (spec.static_integer given log.old) result log.new }
{
    if is_number(given) {
        static_value(log, first_of(given), value_of(given))
    } else {
        attempt!(breaks(log, first_of(given), Rule::WrongType));
        Ok(None)
    }
}

fn whole_of(judge: &mut Judge, number: u32, place: ObjectName) -> Giving
    ensures { GivesOn (pop (parts judge.old.out)) (spec.whole_of number place (selections_of (top (parts judge.old.out))) place.subtype) judge.old result judge.new }
{
    match place.subtype {
        Subtype::Scalar(_) => not_given(judge, place.first, Rule::WrongType),
        Subtype::Composite(own) => {
            if number != own {
                return not_given(judge, place.first, Rule::WrongType);
            }
            attempt!(judge.out.turn());
            if place.variable {
                attempt!(judge.out.whole_variable(place.first, place.root, own));
            } else {
                attempt!(judge.out.whole_constant(place.first, place.root, own));
            }
            Ok(true)
        }
    }
}

/// An expression whose place asks for an array or record type, by its number in the table of subtypes: WrongType
/// where it has another one. Two are the same only if they come from one declaration.
#[tactic(auto, unfolding(name_rules::specs::Values::composite_asked))]
pub fn composite_asked(judge: &mut Judge, number: u32, given: Found) -> Giving
    ensures { GivesOne (spec.composite_asked number) (found given) judge.old result judge.new }
{
    match given {
        Found::Composite { first, number: own } => {
            if number == own {
                Ok(true)
            } else {
                not_given(judge, first, Rule::WrongType)
            }
        }
        Found::Object(place) => whole_of(judge, number, place),
        _ => not_given(judge, first_of(given), Rule::WrongType),
    }
}

/// A value that is stored in a place of a subtype, with a check at a token where it is a scalar.
#[tactic(auto, unfolding(name_rules::specs::Values::stored))]
pub fn stored(judge: &mut Judge, subtype: Subtype, at: u32, given: Found) -> Giving
    ensures { GivesOne (spec.stored subtype at) (found given) judge.old result judge.new }
{
    match subtype {
        Subtype::Scalar(scalar) => {
            if !attempt!(asked(judge, scalar.kind, given)) {
                return Ok(false);
            }
            attempt!(judge.out.number(check_at(at, scalar)));
            Ok(true)
        }
        Subtype::Composite(number) => {
            if !attempt!(composite_asked(judge, number, given)) {
                return Ok(false);
            }
            attempt!(judge.out.cells());
            Ok(true)
        }
    }
}
