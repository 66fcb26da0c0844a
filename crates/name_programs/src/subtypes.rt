//! Subtype indications (3.2.2) and integer types (3.5.4). What bounds mention is their part.

ghost use Rattle.std.specs.Prelude.{◌≡◌, OnOk, pos};
ghost use Rattle.name_programs.specs.DeclarationSteps as step;
ghost use Rattle.name_rules.specs.Declarations as spec;
ghost use Rattle.name_rules.specs.Judges.{Says, found, found_of};
ghost use Rattle.name_rules.specs.Judging as judging;
ghost use Rattle.syntax_nodes.specs.Parts.{the_indic};
ghost use Rattle.typed_tree.specs.Latest.{pop, second, top};
ghost use Rattle.typed_parts.specs.Stack.{parts};
ghost use Rattle.name_values.specs.Bounds.{ends};
ghost use Rattle.name_values.specs.Judged.{Judges, JudgesOn, JudgesOne, JudgesTwo};
ghost use Rattle.name_expressions.specs.Scenes.{named_at, node_at};

use crate::rules::unless;
use name_expressions::expressions::simple;
use name_expressions::scene::Scene;
use name_rules::found::Found;
use name_rules::log::{Log, Rule};
use name_rules::types::{Kind, Scalar, Subtype, Wanted};
use name_values::attempt;
use name_values::bounds::both_static;
use name_values::judge::Judge;
use name_values::logs::{also_all, breaks, cleared};
use name_values::operators::both_mentions;
use name_values::scope::{scalar_named, subtype_named};
use name_values::types::{base_of, in_base, lies_in, number};
use name_values::values::{first_of, mentions, static_integer};
use std::alloc::AllocError;
use syntax_nodes::Indic;
use typed_parts::Parts;
use typed_tree::Span;

/// Whether a range, whose bounds are as cells keep them, is one of a subtype and isn't empty.
fn is_within(scalar: Scalar, span: Span) -> bool
    ensures { result ≡ step.is_within scalar (ends scalar.kind span) }
{
    let low = number(scalar.kind, span.low);
    let high = number(scalar.kind, span.high);
    if !lies_in(scalar, low) {
        return false;
    }
    if !lies_in(scalar, high) {
        return false;
    }
    low <= high
}

/// The subtype of a range, whose bounds are as cells keep them.
#[tactic(auto, using(crate::proofs::KeptTwice::kept_twice))]
fn scalar_of(kind: Kind, span: Span) -> Scalar
    ensures { result ≡ step.scalar_of kind (ends kind span) }
{
    Scalar {
        kind,
        low: span.low,
        high: span.high,
    }
}

/// The subtype of a range, whose bounds are as cells keep them, if it is one of another subtype and isn't empty.
fn range_within(log: &Log, scalar: Scalar, span: Span) -> Result<Option<Subtype>, AllocError>
    ensures { Says (step.range_within scalar (ends scalar.kind span) log.now) result log.now }
{
    let _log = log;
    if is_within(scalar, span) {
        Ok(Some(Subtype::Scalar(scalar_of(scalar.kind, span))))
    } else {
        Ok(None)
    }
}

/// The subtype of a range that narrows another one: StaticRange at a bound that isn't in that one, and at the first where
/// the range is empty. The bounds are as cells keep them.
fn indic_range(
    log: &mut Log,
    scalar: Scalar,
    first: u32,
    last: u32,
    span: Span,
) -> Result<Option<Subtype>, AllocError>
    ensures { Says (spec.indic_range scalar first last (ends scalar.kind span) log.old) result log.new }
{
    let low = number(scalar.kind, span.low);
    let high = number(scalar.kind, span.high);
    attempt!(unless(log, lies_in(scalar, low), first, Rule::StaticRange));
    attempt!(unless(log, lies_in(scalar, high), last, Rule::StaticRange));
    attempt!(unless(log, low <= high, first, Rule::StaticRange));
    let found = attempt!(range_within(log, scalar, span));
    Ok(found)
}

/// The subtype of two bounds, the latest parts, in another one.
#[tactic(auto, using(crate::proofs::Options::indicated_found))]
fn indic_bounds(
    judge: &mut Judge,
    scalar: Scalar,
    low: Found,
    high: Found,
) -> Result<Option<Subtype>, AllocError>
    ensures { JudgesTwo (spec.indic_bounds scalar) (found low) (found high) judge.old result judge.new }
{
    let bounds = attempt!(both_static(judge, scalar.kind, low, high));
    attempt!(both_mentions(&mut judge.out, low, high));
    match bounds {
        None => Ok(None),
        Some(span) => indic_range(&mut judge.log, scalar, first_of(low), first_of(high), span),
    }
}

/// The subtype of an indication: WrongType where a range narrows one that isn't scalar; NotStatic, StaticRange at its
/// bounds.
#[tactic(auto, unfolding(name_rules::specs::Declarations::indic, name_rules::specs::Ranges::two_bounds, name_rules::specs::Scope::scalar_named), using(crate::proofs::Options::indicated_found))]
pub fn indic(judge: &mut Judge, scene: Scene<'_>, id: u32) -> Result<Option<Subtype>, AllocError>
    ensures { Judges (named_at scene.entry spec.indic (the_indic (node_at scene.entry id))) judge.old result judge.new }
{
    match scene.tree.indic(id) {
        Indic::Mark(mark) => {
            let subtype = attempt!(subtype_named(scene.names, scene.here, judge, mark));
            attempt!(judge.out.nothing());
            Ok(subtype)
        }
        Indic::RangeMark { mark, low, high } => {
            let scalar = attempt!(scalar_named(scene.names, scene.here, judge, mark));
            let x = attempt!(simple(judge, scene, Wanted::Other, low));
            let y = attempt!(simple(judge, scene, Wanted::Other, high));
            let (Some(scalar), Some(x), Some(y)) = (scalar, x, y) else {
                judge.out.leave_out();
                return Ok(None);
            };
            indic_bounds(judge, scalar, x, y)
        }
    }
}

/// The type of a range (3.5.4), which the token of its name tells from others: StaticRange at a bound outside 64 bits,
/// and at the first where the range is empty.
fn own_type(
    log: &mut Log,
    token: u32,
    first: u32,
    last: u32,
    low: i128,
    high: i128,
) -> Result<Option<Subtype>, AllocError>
    ensures { Says (spec.own_type token first last low high log.old) result log.new }
{
    let kind = Kind::Own(token);
    let has_low = in_base(kind, low);
    let has_high = in_base(kind, high);
    let holds = low <= high;
    attempt!(unless(log, has_low, first, Rule::StaticRange));
    attempt!(unless(log, has_high, last, Rule::StaticRange));
    attempt!(unless(log, holds, first, Rule::StaticRange));
    if has_low && has_high && holds {
        Ok(Some(Subtype::Scalar(Scalar {
            kind,
            low: low as i64,
            high: high as i64,
        })))
    } else {
        Ok(None)
    }
}

/// The first token of an expression, the latest part, or 0 where it has a fault.
fn first_or(out: &Parts, given: Option<Found>) -> u32
    ensures { result ≡ spec.first_or (found_of given (top (parts out.now))) }
{
    let _out = out;
    match given {
        None => 0,
        Some(found) => first_of(found),
    }
}

/// The value of an integer that has to be static, where it has no fault; what it mentions is left in its place.
/// WrongType, NotStatic.
pub fn static_bound(judge: &mut Judge, given: Option<Found>) -> Result<Option<i128>, AllocError>
    ensures { Says (judging.given (found_of given (top (parts judge.old.out))) spec.static_number judge.old.log) result judge.new.log × OnOk result ((top (parts judge.new.out) ≡ spec.found_mentions (found_of given (top (parts judge.old.out)))) × (pop (parts judge.new.out) ≡ pop (parts judge.old.out))) }
{
    match given {
        None => {
            attempt!(cleared(&mut judge.out));
            Ok(None)
        }
        Some(found) => {
            attempt!(mentions(&mut judge.out, found));
            let value = attempt!(static_integer(&mut judge.log, found));
            Ok(value)
        }
    }
}

/// The type of two bounds, the latest parts.
#[tactic(auto, using(crate::proofs::Options::indicated_found))]
pub fn own_type_of(
    judge: &mut Judge,
    token: u32,
    low: Option<Found>,
    high: Option<Found>,
) -> Result<Option<Subtype>, AllocError>
    ensures { JudgesOn (pop (pop (parts judge.old.out))) (spec.own_type_of token (found_of low (second (parts judge.old.out)), found_of high (top (parts judge.old.out)))) judge.old result judge.new }
{
    attempt!(judge.out.swap());
    let first = first_or(&judge.out, low);
    let a = attempt!(static_bound(judge, low));
    attempt!(judge.out.swap());
    let last = first_or(&judge.out, high);
    let z = attempt!(static_bound(judge, high));
    attempt!(also_all(&mut judge.out));
    let (Some(a), Some(z)) = (a, z) else {
        return Ok(None);
    };
    own_type(&mut judge.log, token, first, last, a, z)
}

/// The exponent of a power of two, from 2 to 2^64.
fn exponent_of(modulus: u128) -> Option<u8>
    ensures { result ≡ step.exponent (pos modulus) }
{
    let mut k: u8 = 1;
    let mut power: u128 = 2;
    'exponents: while k < 65 {
        if modulus == power {
            return Some(k);
        }
        power += power;
        k += 1;
    }
    None
}

/// The same of any number: a negative one is no power of two.
fn exponent(modulus: i128) -> Option<u8>
    ensures { result ≡ step.exponent modulus }
{
    if modulus < 0 {
        return None;
    }
    exponent_of(modulus.unsigned_abs())
}

/// The type of a modulus, which the token of its name tells from others: StaticRange where it is no power of two from 2 to
/// 2^64.
fn modular_by(
    log: &mut Log,
    token: u32,
    first: u32,
    digits: Option<u8>,
) -> Result<Option<Subtype>, AllocError>
    ensures { Says (spec.modular_by token first digits log.old) result log.new }
{
    match digits {
        Some(digits) => Ok(Some(Subtype::Scalar(base_of(Kind::Modular(token, digits))))),
        None => {
            attempt!(breaks(log, first, Rule::StaticRange));
            Ok(None)
        }
    }
}

/// The type of a modulus, the latest part: WrongType, NotStatic.
#[tactic(auto, using(crate::proofs::Options::indicated_found))]
fn modular_found(
    judge: &mut Judge,
    token: u32,
    modulus: Found,
) -> Result<Option<Subtype>, AllocError>
    ensures { JudgesOne (step.modular_type token) (found modulus) judge.old result judge.new }
{
    attempt!(mentions(&mut judge.out, modulus));
    match attempt!(static_integer(&mut judge.log, modulus)) {
        None => Ok(None),
        Some(value) => modular_by(&mut judge.log, token, first_of(modulus), exponent(value)),
    }
}

/// The type of a modulus (3.5.4), the latest part, where that has no fault.
pub fn modular_type(
    judge: &mut Judge,
    token: u32,
    modulus: Option<Found>,
) -> Result<Option<Subtype>, AllocError>
    ensures { JudgesOne (λ x. judging.given x (spec.modular_type token)) (found_of modulus) judge.old result judge.new }
{
    match modulus {
        None => Ok(None),
        Some(modulus) => modular_found(judge, token, modulus),
    }
}
