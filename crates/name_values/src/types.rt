//! Scalar types and subtypes (3.5).

ghost use Rattle.std.specs.Prelude.{◌≡◌, ◌-◌, pos, true};
ghost use Rattle.ada_base.specs.Operation.{modulus};
ghost use Rattle.name_rules.specs.Judges.{Says};
ghost use Rattle.name_rules.specs.Types as spec;

use ada_base::Base;
use name_rules::log::{Log, Shape};
use name_rules::types::{Kind, Scalar, Subtype, Wanted};
use std::alloc::AllocError;
use typed_tree::{Check, Class};

/// Whether two types are the same: each declaration makes a type of its own (3.2.1).
pub fn same(a: Kind, b: Kind) -> bool
    ensures { result ≡ spec.same a b }
{
    match (a, b) {
        (Kind::Boolean, Kind::Boolean) => true,
        (Kind::Integer, Kind::Integer) => true,
        (Kind::Own(m), Kind::Own(n)) => m == n,
        (Kind::Modular(m, j), Kind::Modular(n, k)) => m == n && j == k,
        _ => false,
    }
}

/// Whether a scalar type is an integer type.
pub fn is_integer(kind: Kind) -> bool
    ensures { result ≡ spec.is_integer kind }
{
    match kind {
        Kind::Boolean => false,
        _ => true,
    }
}

/// The class of a type's values.
pub fn class_of(kind: Kind) -> Class
    ensures { result ≡ spec.class_of kind }
{
    match kind {
        Kind::Boolean => Class::Boolean,
        Kind::Integer => Class::Integer(Base::Narrow),
        Kind::Own(_) => Class::Integer(Base::Wide),
        Kind::Modular(_, k) => Class::Integer(Base::Modulo(k)),
    }
}

/// Whether a value is in a type's base range.
pub fn in_base(kind: Kind, z: i128) -> bool
    ensures { result ≡ spec.in_base kind z }
{
    match kind {
        Kind::Boolean => 0 <= z && z <= 1,
        Kind::Integer => -2_147_483_648 <= z && z <= 2_147_483_647,
        Kind::Own(_) => -9_223_372_036_854_775_808 <= z && z <= 9_223_372_036_854_775_807,
        Kind::Modular(_, k) => 0 <= z && z <= greatest(k),
    }
}

/// Whether a type is a modular one.
pub fn is_modular(kind: Kind) -> bool
    ensures { result ≡ spec.is_modular kind }
{
    matches!(kind, Kind::Modular(_, _))
}

/// The greatest number of so many binary digits.
fn greatest(digits: u8) -> i128
    ensures { result ≡ pos (modulus digits - 1) }
{
    if digits < 64 {
        (1_i128 << digits) - 1
    } else {
        18_446_744_073_709_551_615
    }
}

/// What a cell keeps of a number of a type's base range.
pub fn kept(kind: Kind, z: i128) -> i64
    requires { spec.in_base kind z ≡ true }
    ensures { result ≡ spec.kept kind z }
{
    match kind {
        Kind::Modular(_, _) => ada_base::kept(z as u64),
        _ => z as i64,
    }
}

/// The number that a cell of a type keeps.
pub fn number(kind: Kind, value: i64) -> i128
    ensures { result ≡ spec.kept kind value }
{
    match kind {
        Kind::Modular(_, k) => i128::from(ada_base::digits(value)),
        _ => i128::from(value),
    }
}

/// Whether numbers of a type have 64 binary digits, so that cells keep some of them as negative ones.
pub fn is_word(kind: Kind) -> bool
    ensures { result ≡ spec.is_word kind }
{
    matches!(kind, Kind::Modular(_, 64))
}

fn from_word(scalar: Scalar) -> typed_tree::Scalar
    ensures { result ≡ spec.from_word scalar }
{
    if is_modular(scalar.kind) {
        return typed_scalar(scalar);
    }
    typed_tree::Scalar {
        class: class_of(scalar.kind),
        low: scalar.low.max(0),
        high: scalar.high,
    }
}

fn to_word(scalar: Scalar) -> typed_tree::Scalar
    ensures { result ≡ spec.to_word scalar }
{
    let class = Class::Integer(Base::Wide);
    if scalar.low < 0 {
        return typed_tree::Scalar {
            class,
            low: 1,
            high: 0,
        };
    }
    typed_tree::Scalar {
        class,
        low: scalar.low,
        high: if scalar.high < 0 {
            9_223_372_036_854_775_807
        } else {
            scalar.high
        },
    }
}

/// The subtype that is asked of what a value of another type keeps, for its number to be one of a subtype (4.6).
pub fn converted_from(kind: Kind, scalar: Scalar) -> typed_tree::Scalar
    ensures { result ≡ spec.converted_from kind scalar }
{
    match (is_word(kind), is_word(scalar.kind)) {
        (true, false) => from_word(scalar),
        (false, true) => to_word(scalar),
        _ => typed_scalar(scalar),
    }
}

/// The subtype of all values of a type's base range.
pub fn base_of(kind: Kind) -> Scalar
    ensures { result ≡ spec.base_of kind }
{
    match kind {
        Kind::Boolean => Scalar {
            kind,
            low: 0,
            high: 1,
        },
        Kind::Integer => Scalar {
            kind,
            low: -2_147_483_648,
            high: 2_147_483_647,
        },
        Kind::Own(_) => Scalar {
            kind,
            low: -9_223_372_036_854_775_808,
            high: 9_223_372_036_854_775_807,
        },
        Kind::Modular(_, k) => Scalar {
            kind,
            low: 0,
            high: kept(kind, greatest(k)),
        },
    }
}

/// Whether a value is one of a subtype.
pub fn lies_in(scalar: Scalar, z: i128) -> bool
    ensures { result ≡ spec.lies_in scalar z }
{
    number(scalar.kind, scalar.low) <= z && z <= number(scalar.kind, scalar.high)
}

/// A subtype as the typed program has it.
pub fn typed_scalar(scalar: Scalar) -> typed_tree::Scalar
    ensures { result ≡ spec.typed_scalar scalar }
{
    typed_tree::Scalar {
        class: class_of(scalar.kind),
        low: scalar.low,
        high: scalar.high,
    }
}

/// A check at a token that a value is one of a subtype.
pub fn check_at(at: u32, scalar: Scalar) -> Check
    ensures { result ≡ spec.check_at at scalar }
{
    Check {
        at,
        scalar: typed_scalar(scalar),
    }
}

/// What a place of a subtype asks of an expression.
pub fn wanted_of(subtype: Subtype) -> Wanted
    ensures { result ≡ spec.wanted_of subtype }
{
    match subtype {
        Subtype::Scalar(_) => Wanted::Other,
        Subtype::Composite(number) => Wanted::Composite(number),
    }
}

/// One more subtype in the table of subtypes, by its number. A table of 2^32 subtypes is beyond memory.
pub fn written_shape(log: &mut Log, shape: Shape) -> Result<u32, AllocError>
    ensures { Says (spec.written_shape shape log.old) result log.new }
{
    let number = log.shapes.len();
    if number > 4_294_967_295 {
        return Err(AllocError);
    }
    attempt!(log.shapes.push(shape));
    Ok(number as u32)
}

/// The number of a subtype; a scalar one is written where it is used.
#[tactic(auto, unfolding(name_rules::specs::Types::number_of))]
pub fn number_of(log: &mut Log, subtype: Subtype) -> Result<u32, AllocError>
    ensures { Says (spec.number_of subtype log.old) result log.new }
{
    match subtype {
        Subtype::Scalar(scalar) => written_shape(log, Shape::Scalar(scalar)),
        Subtype::Composite(number) => Ok(number),
    }
}
