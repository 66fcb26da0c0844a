//! Attributes (3.5, 3.6.2, 4.10), as far as no bracket is in them.

ghost use Rattle.std.specs.Prelude.{◌≡◌, ◌∷◌, [], IfOk, None, OnOk, pos, slice_get};
ghost use Rattle.typed_tree.specs.Decoded.{as_expr};
ghost use Rattle.typed_tree.specs.Latest.{pop, second, top};
ghost use Rattle.name_rules.specs.Attributes as spec;
ghost use Rattle.name_rules.specs.Found.{parameter_found, value_denoted};
ghost use Rattle.name_rules.specs.Judges.{found};
ghost use Rattle.name_rules.specs.Judging.{some};
ghost use Rattle.name_values.specs.Judged.{JudgesOn, JudgesOne};
ghost use Rattle.name_rules.specs.Types as types;
ghost use Rattle.name_expressions.specs.Attributes.{bound_of, one_made, other_alone};
ghost use Rattle.name_values.specs.Operands.{founds};
ghost use Rattle.typed_parts.specs.Stack.{parts};

use ada_base::{Items, Op};
use name_rules::found::{Attribute, Denoted, Found, ObjectName, Prefix};
use name_rules::log::{Dimension, Log, Rule};
use name_rules::types::{Kind, Scalar, Subtype};
use name_values::arrays::dimensions_of;
use name_values::attempt;
use name_values::judge::Judge;
use name_values::logs::{also_all, cleared, none_of_two};
use name_values::names::{denoted_first, dimension_at, wrong_name};
use name_values::putting::static_of_kind;
use name_values::symbols::{
    FIRST, IMAGE, LAST, LENGTH, MAX, MIN, PARALLEL_REDUCE, PRED, REDUCE, SUCC,
};
use name_values::types::{class_of, is_modular};
use name_values::values::{asked, first_of, is_number, mentions, own_kind};
use std::alloc::AllocError;
use typed_parts::Parts;

/// The attribute of a name.
pub fn attribute_at(name: u32) -> Option<Attribute>
    ensures { result ≡ spec.attribute_at name }
{
    if name == FIRST {
        Some(Attribute::First)
    } else if name == LAST {
        Some(Attribute::Last)
    } else if name == LENGTH {
        Some(Attribute::Length)
    } else if name == IMAGE {
        Some(Attribute::Image)
    } else if name == MAX {
        Some(Attribute::Max)
    } else if name == MIN {
        Some(Attribute::Min)
    } else if name == SUCC {
        Some(Attribute::Succ)
    } else if name == PRED {
        Some(Attribute::Pred)
    } else if name == REDUCE {
        Some(Attribute::Reduce)
    } else if name == PARALLEL_REDUCE {
        Some(Attribute::ParallelReduce)
    } else {
        None
    }
}

fn prefix_of(denoted: Denoted) -> Prefix
    ensures { result ≡ spec.prefix_of denoted }
{
    match denoted {
        Denoted::Value(Found::Object(place)) => Prefix::Object(place),
        Denoted::Parameter { scalar, .. } => Prefix::Parameter(scalar),
        Denoted::Type { subtype, .. } => Prefix::Type(subtype),
        Denoted::Sub { number, .. } => Prefix::Function(number),
        _ => Prefix::Other,
    }
}

fn is_step(attribute: Attribute) -> bool
    ensures { result ≡ spec.is_step attribute }
{
    match attribute {
        Attribute::Succ => true,
        Attribute::Pred => true,
        _ => false,
    }
}

/// Whether the language leaves an attribute of a prefix out: Succ and Pred of a modular type.
fn is_left_out(prefix: Prefix, attribute: Attribute) -> bool
    ensures { result ≡ spec.is_left_out prefix attribute }
{
    match prefix {
        Prefix::Type(Subtype::Scalar(scalar)) => is_modular(scalar.kind) && is_step(attribute),
        _ => false,
    }
}

/// An attribute of a name, whose part stays: Unknown at the attribute's identifier where the language has none so.
pub fn attribute_found(
    judge: &mut Judge,
    denoted: Denoted,
    at: u32,
    attribute: Option<Attribute>,
) -> Result<Option<Denoted>, AllocError>
    ensures { JudgesOne (λ x. spec.attribute_found x at attribute) (found denoted) judge.old result judge.new }
{
    match attribute {
        None => wrong_name(judge, at, Rule::Unknown),
        Some(attribute) => {
            let prefix = prefix_of(denoted);
            if is_left_out(prefix, attribute) {
                return wrong_name(judge, at, Rule::Unknown);
            }
            Ok(Some(Denoted::Attribute {
                first: denoted_first(denoted),
                prefix,
                at,
                attribute,
            }))
        }
    }
}

/// A bound of a scalar subtype, in place of the latest part: that of a modular type isn't static.
fn bound_found(
    judge: &mut Judge,
    first: u32,
    kind: Kind,
    value: i64,
) -> Result<Option<Denoted>, AllocError>
    ensures { JudgesOn (pop (parts judge.old.out)) (some (value_denoted (spec.bound_found first kind value))) judge.old result judge.new }
{
    attempt!(cleared(&mut judge.out));
    if is_modular(kind) {
        attempt!(judge.out.static_value(first, value, false));
        return Ok(Some(Denoted::Value(Found::Scalar {
            first,
            kind,
            nominal: None,
        })));
    }
    Ok(Some(Denoted::Value(Found::Static {
        first,
        kind,
        value: i128::from(value),
    })))
}

/// `First` and `Last` of a scalar subtype, in place of the latest part: another attribute is WrongType.
pub fn scalar_bound(
    judge: &mut Judge,
    first: u32,
    scalar: Scalar,
    attribute: Attribute,
) -> Result<Option<Denoted>, AllocError>
    ensures { JudgesOn (pop (parts judge.old.out)) (spec.scalar_bound first scalar attribute) judge.old result judge.new }
{
    match attribute {
        Attribute::First => bound_found(judge, first, scalar.kind, scalar.low),
        Attribute::Last => bound_found(judge, first, scalar.kind, scalar.high),
        _ => wrong_name(judge, first, Rule::WrongType),
    }
}

/// How many indexes a dimension has.
fn extent(dimension: Dimension) -> i128
    ensures { result ≡ pos (types.extent dimension) }
{
    let last = (i128::from(dimension.high) - i128::from(dimension.low)).unsigned_abs();
    (last + 1) as i128
}

/// An attribute of a dimension, with what is mentioned as the latest part.
fn dimension_bound(
    judge: &mut Judge,
    first: u32,
    attribute: Attribute,
    dimension: Dimension,
) -> Result<Option<Denoted>, AllocError>
    ensures { JudgesOn (pop (parts judge.old.out)) (spec.dimension_bound first (top (parts judge.old.out)) attribute dimension) judge.old result judge.new }
{
    let kind = dimension.kind;
    match attribute {
        Attribute::First => Ok(Some(Denoted::Value(Found::Static {
            first,
            kind,
            value: i128::from(dimension.low),
        }))),
        Attribute::Last => Ok(Some(Denoted::Value(Found::Static {
            first,
            kind,
            value: i128::from(dimension.high),
        }))),
        Attribute::Length => Ok(Some(Denoted::Value(Found::Universal {
            first,
            value: extent(dimension),
            literal: false,
        }))),
        Attribute::Range => Ok(Some(Denoted::Range { first, dimension })),
        _ => wrong_name(judge, first, Rule::WrongType),
    }
}

/// The indexes in an array's name, which aren't evaluated, in place of its selections.
pub fn mentioned(out: &mut Parts, prefix: Prefix) -> Result<(), AllocError>
    ensures { OnOk result (parts out.new ≡ spec.mentioned prefix (top (parts out.old)) ∷ pop (parts out.old)) }
{
    match prefix {
        Prefix::Object(_) => {
            attempt!(out.turn());
            out.indexes()
        }
        _ => cleared(out),
    }
}

/// The subtype of an attribute's prefix, where it has one.
pub fn prefix_subtype(prefix: Prefix) -> Option<Subtype>
    ensures { result ≡ spec.prefix_subtype prefix }
{
    match prefix {
        Prefix::Object(place) => Some(place.subtype),
        Prefix::Type(subtype) => Some(subtype),
        _ => None,
    }
}

/// The dimensions of a subtype, which has none where it is no array.
pub fn dimensions_in(
    log: &Log,
    out: &Parts,
    subtype: Option<Subtype>,
) -> Result<Items<Dimension>, AllocError>
    ensures { IfOk result (λ dimensions. dimensions ≡ spec.dimensions_in log.now subtype) }
{
    match subtype {
        Some(Subtype::Composite(number)) => dimensions_of(log, out, number),
        _ => Ok(Items::new(out.alloc())),
    }
}

fn first_dimension(log: &Log, subtype: Option<Subtype>) -> Option<Dimension>
    ensures { result ≡ slice_get (spec.dimensions_in log.now subtype) 0 }
{
    match subtype {
        Some(Subtype::Composite(number)) => dimension_at(log, number, 0),
        _ => None,
    }
}

fn bound_in(
    judge: &mut Judge,
    first: u32,
    attribute: Attribute,
    dimension: Option<Dimension>,
) -> Result<Option<Denoted>, AllocError>
    ensures { JudgesOn (pop (parts judge.old.out)) (spec.bound_in first (top (parts judge.old.out)) attribute dimension) judge.old result judge.new }
{
    match dimension {
        None => wrong_name(judge, first, Rule::WrongType),
        Some(dimension) => dimension_bound(judge, first, attribute, dimension),
    }
}

/// An attribute of an array's first dimension, in place of the prefix's part.
fn bound_of(
    judge: &mut Judge,
    first: u32,
    prefix: Prefix,
    attribute: Attribute,
) -> Result<Option<Denoted>, AllocError>
    ensures { JudgesOn (pop (parts judge.old.out)) (bound_of first prefix (top (parts judge.old.out)) attribute) judge.old result judge.new }
{
    let dimension = first_dimension(&judge.log, prefix_subtype(prefix));
    attempt!(mentioned(&mut judge.out, prefix));
    bound_in(judge, first, attribute, dimension)
}

/// An attribute of a scalar subtype's bounds, or of an array's first dimension, in place of the prefix's part.
fn bound_alone(
    judge: &mut Judge,
    first: u32,
    prefix: Prefix,
    attribute: Attribute,
) -> Result<Option<Denoted>, AllocError>
    ensures { JudgesOn (pop (parts judge.old.out)) (spec.bound_alone first prefix (top (parts judge.old.out)) attribute) judge.old result judge.new }
{
    match prefix {
        Prefix::Type(Subtype::Scalar(scalar)) => scalar_bound(judge, first, scalar, attribute),
        _ => bound_of(judge, first, prefix, attribute),
    }
}

fn nth(dimensions: &Items<Dimension>, place: usize) -> Option<Dimension>
    ensures { result ≡ slice_get dimensions.now place }
{
    match dimensions.get(place) {
        Some(dimension) => Some(*dimension),
        None => None,
    }
}

/// The dimension of a number, from 1 on, of which there are so many: StaticRange at the number where it is another.
fn numbered_dimension(
    judge: &mut Judge,
    first: u32,
    attribute: Attribute,
    dimensions: &Items<Dimension>,
    at: u32,
    number: i128,
) -> Result<Option<Denoted>, AllocError>
    ensures { JudgesOn (pop (parts judge.old.out)) (spec.dimension_at first (top (parts judge.old.out)) attribute dimensions.now at number) judge.old result judge.new }
{
    if 1 <= number && number <= dimensions.len() as i128 {
        let dimension = nth(dimensions, number.unsigned_abs() as usize - 1);
        bound_in(judge, first, attribute, dimension)
    } else {
        wrong_name(judge, at, Rule::StaticRange)
    }
}

/// The dimension that an operand gives, of which the latest part is the operand's and the one before what is mentioned.
fn dimension_given(
    judge: &mut Judge,
    first: u32,
    attribute: Attribute,
    dimensions: &Items<Dimension>,
    given: Found,
) -> Result<Option<Denoted>, AllocError>
    ensures { JudgesOn (pop (pop (parts judge.old.out))) (spec.dimension_given first (second (parts judge.old.out)) attribute dimensions.now (found given (top (parts judge.old.out)))) judge.old result judge.new }
{
    if !is_number(given) {
        judge.out.leave_out();
        return wrong_name(judge, first_of(given), Rule::WrongType);
    }
    let value = attempt!(static_of_kind(judge, own_kind(given), given));
    attempt!(mentions(&mut judge.out, given));
    attempt!(also_all(&mut judge.out));
    match value {
        None => Ok(None),
        Some(value) => {
            numbered_dimension(judge, first, attribute, dimensions, first_of(given), value)
        }
    }
}

/// An attribute of the dimension that the one operand gives; the list of operands is the latest part, and what is
/// mentioned the one before. WrongType at the bracket where there are more.
#[tactic(auto, using(name_values::proofs::Founds::one_found, crate::proofs::Arguments::not_one_dimension))]
pub fn one_dimension(
    judge: &mut Judge,
    first: u32,
    bracket: u32,
    attribute: Attribute,
    dimensions: &Items<Dimension>,
    operands: &Items<Found>,
) -> Result<Option<Denoted>, AllocError>
    ensures { JudgesOn (pop (pop (parts judge.old.out))) (spec.one_dimension first bracket (second (parts judge.old.out)) attribute dimensions.now (None ∷ []) (founds operands.now (top (parts judge.old.out)))) judge.old result judge.new }
{
    match operands.as_slice() {
        [given] => {
            attempt!(judge.out.apart());
            judge.out.leave_out();
            dimension_given(judge, first, attribute, dimensions, *given)
        }
        _ => {
            judge.out.leave_out();
            wrong_name(judge, bracket, Rule::WrongType)
        }
    }
}

/// What an attribute makes of one argument: its image, or a sum with 1.
#[derive(Clone, Copy)]
pub enum One {
    Image,
    Step(Op),
}

/// What an attribute makes of an argument of a type, which is the latest part.
fn made_of_one(out: &mut Parts, first: u32, kind: Kind, one: One) -> Result<Denoted, AllocError>
    ensures { IfOk result (λ denoted. (found denoted (top (parts out.new)) ≡ one_made one first kind (as_expr (top (parts out.old)))) × (pop (parts out.new) ≡ pop (parts out.old))) }
{
    match one {
        One::Image => {
            attempt!(out.piece_image(class_of(kind)));
            attempt!(out.nothing());
            attempt!(out.before());
            Ok(Denoted::Value(Found::Text { first }))
        }
        One::Step(op) => {
            attempt!(out.nothing());
            attempt!(out.static_value(first, 1, false));
            attempt!(out.binary(first, op, class_of(kind)));
            Ok(Denoted::Value(Found::Scalar {
                first,
                kind,
                nominal: None,
            }))
        }
    }
}

fn one_given(
    judge: &mut Judge,
    first: u32,
    kind: Kind,
    one: One,
    given: Found,
) -> Result<Option<Denoted>, AllocError>
    ensures { JudgesOne (spec.one_given kind (one_made one first kind)) (found given) judge.old result judge.new }
{
    if !attempt!(asked(judge, kind, given)) {
        return Ok(None);
    }
    let denoted = attempt!(made_of_one(&mut judge.out, first, kind, one));
    Ok(Some(denoted))
}

/// What an attribute makes of its one argument, where none has a name, of the list of arguments that is the latest part:
/// Unknown at a name, WrongType at the bracket where there is another number of arguments.
#[tactic(auto, using(name_values::proofs::Founds::one_found, crate::proofs::Arguments::not_one_named))]
pub fn one_named(
    judge: &mut Judge,
    bracket: u32,
    first: u32,
    kind: Kind,
    one: One,
    name: Option<u32>,
    operands: &Items<Found>,
) -> Result<Option<Denoted>, AllocError>
    ensures { JudgesOn (pop (parts judge.old.out)) (spec.one_named bracket kind (one_made one first kind) name (founds operands.now (top (parts judge.old.out)))) judge.old result judge.new }
{
    match name {
        Some(name) => wrong_name(judge, name, Rule::Unknown),
        None => match operands.as_slice() {
            [given] => {
                attempt!(judge.out.apart());
                judge.out.leave_out();
                one_given(judge, first, kind, one, *given)
            }
            _ => wrong_name(judge, bracket, Rule::WrongType),
        },
    }
}

/// The greater or the smaller of two arguments, which are the latest parts.
fn two_given(
    judge: &mut Judge,
    first: u32,
    kind: Kind,
    op: Op,
    left: Found,
    right: Found,
) -> Result<Option<Denoted>, AllocError>
    ensures { JudgesOn (pop (pop (parts judge.old.out))) (spec.two_given kind (spec.extreme first kind op) (found left (top (parts judge.old.out))) (found right (second (parts judge.old.out)))) judge.old result judge.new }
{
    let x = attempt!(asked(judge, kind, left));
    attempt!(judge.out.swap());
    let y = attempt!(asked(judge, kind, right));
    if !x || !y {
        return none_of_two(judge);
    }
    attempt!(judge.out.binary(first, op, class_of(kind)));
    Ok(Some(Denoted::Value(Found::Scalar {
        first,
        kind,
        nominal: None,
    })))
}

/// The greater or the smaller of the two arguments, where none has a name, of the list of arguments that is the latest
/// part: Unknown at a name, WrongType at the bracket where there is another number of arguments.
#[tactic(auto, using(crate::proofs::Arguments::two_found, crate::proofs::Arguments::not_two_named))]
pub fn two_named(
    judge: &mut Judge,
    bracket: u32,
    first: u32,
    kind: Kind,
    op: Op,
    name: Option<u32>,
    operands: &Items<Found>,
) -> Result<Option<Denoted>, AllocError>
    ensures { JudgesOn (pop (parts judge.old.out)) (spec.two_named bracket kind (spec.extreme first kind op) name (founds operands.now (top (parts judge.old.out)))) judge.old result judge.new }
{
    match name {
        Some(name) => wrong_name(judge, name, Rule::Unknown),
        None => match operands.as_slice() {
            [left, right] => {
                attempt!(judge.out.apart());
                attempt!(judge.out.apart());
                judge.out.leave_out();
                two_given(judge, first, kind, op, *left, *right)
            }
            _ => wrong_name(judge, bracket, Rule::WrongType),
        },
    }
}

fn object_image(
    judge: &mut Judge,
    first: u32,
    place: ObjectName,
) -> Result<Option<Denoted>, AllocError>
    ensures { JudgesOn (pop (parts judge.old.out)) (spec.object_image first place (top (parts judge.old.out)) place.subtype) judge.old result judge.new }
{
    match place.subtype {
        Subtype::Scalar(scalar) => {
            one_given(judge, first, scalar.kind, One::Image, Found::Object(place))
        }
        Subtype::Composite(_) => wrong_name(judge, first, Rule::WrongType),
    }
}

/// The image of a parameter's value, which is the latest part.
fn parameter_image(
    judge: &mut Judge,
    first: u32,
    scalar: Scalar,
) -> Result<Option<Denoted>, AllocError>
    ensures { JudgesOn (pop (parts judge.old.out)) (spec.one_given scalar.kind (spec.image_text first scalar.kind) (parameter_found first scalar (top (parts judge.old.out)))) judge.old result judge.new }
{
    let kind = scalar.kind;
    let given = Found::Scalar {
        first,
        kind,
        nominal: Some(scalar),
    };
    one_given(judge, first, kind, One::Image, given)
}

/// Whether an attribute is of a range.
pub fn is_bound(attribute: Attribute) -> bool
    ensures { result ≡ spec.is_bound attribute }
{
    match attribute {
        Attribute::First => true,
        Attribute::Last => true,
        Attribute::Length => true,
        Attribute::Range => true,
        _ => false,
    }
}

/// Whether an attribute is a reduction.
pub fn is_reduction(attribute: Attribute) -> bool
    ensures { result ≡ spec.is_reduction attribute }
{
    match attribute {
        Attribute::Reduce => true,
        Attribute::ParallelReduce => true,
        _ => false,
    }
}

/// Whether a prefix is an array object.
#[tactic(auto, using(crate::proofs::Arguments::has_first))]
pub fn is_array_object(log: &Log, prefix: Prefix) -> bool
    ensures { result ≡ spec.is_array_object log.now prefix }
{
    match prefix {
        Prefix::Object(place) => first_dimension(log, Some(place.subtype)).is_some(),
        _ => false,
    }
}

fn reduced_alone(
    judge: &mut Judge,
    first: u32,
    at: u32,
    is_array: bool,
) -> Result<Option<Denoted>, AllocError>
    ensures { JudgesOn (pop (parts judge.old.out)) (spec.reduced_alone first at is_array) judge.old result judge.new }
{
    if is_array {
        wrong_name(judge, first, Rule::WrongType)
    } else {
        wrong_name(judge, at, Rule::ReduceRule)
    }
}

fn other_alone(
    judge: &mut Judge,
    first: u32,
    prefix: Prefix,
    at: u32,
    attribute: Attribute,
) -> Result<Option<Denoted>, AllocError>
    ensures { JudgesOn (pop (parts judge.old.out)) (other_alone first prefix (top (parts judge.old.out)) at attribute) judge.old result judge.new }
{
    if is_bound(attribute) {
        return bound_alone(judge, first, prefix, attribute);
    }
    if is_reduction(attribute) {
        let is_array = is_array_object(&judge.log, prefix);
        return reduced_alone(judge, first, at, is_array);
    }
    wrong_name(judge, first, Rule::WrongType)
}

fn alone(
    judge: &mut Judge,
    first: u32,
    prefix: Prefix,
    at: u32,
    attribute: Attribute,
) -> Result<Option<Denoted>, AllocError>
    ensures { JudgesOn (pop (parts judge.old.out)) (spec.alone first prefix (top (parts judge.old.out)) at attribute) judge.old result judge.new }
{
    match prefix {
        Prefix::Object(place) => match attribute {
            Attribute::Image => object_image(judge, first, place),
            _ => other_alone(judge, first, prefix, at, attribute),
        },
        Prefix::Parameter(scalar) => match attribute {
            Attribute::Image => parameter_image(judge, first, scalar),
            _ => other_alone(judge, first, prefix, at, attribute),
        },
        _ => other_alone(judge, first, prefix, at, attribute),
    }
}

/// A name that ends with an attribute, or before what stands behind that: the attribute without arguments, in place of the
/// latest part. WrongType at the name's first token where it needs arguments or its prefix has none such; ReduceRule at
/// the attribute where a reduction's prefix is no array object.
#[tactic(auto, unfolding(name_rules::specs::Attributes::settled_attribute))]
pub fn settled_attribute(judge: &mut Judge, denoted: Denoted) -> Result<Option<Denoted>, AllocError>
    ensures { JudgesOne spec.settled_attribute (found denoted) judge.old result judge.new }
{
    match denoted {
        Denoted::Attribute {
            first,
            prefix,
            at,
            attribute,
        } => alone(judge, first, prefix, at, attribute),
        _ => Ok(Some(denoted)),
    }
}
