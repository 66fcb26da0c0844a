//! Ranges (3.5): their bounds are a pair of parts.
#![tactic(auto, unfolding(crate::specs::Opened::ranges))]

ghost use Rattle.std.specs.Prelude.{◌≡◌, false};
ghost use Rattle.name_rules.specs.Judges.{Says, found};
ghost use Rattle.name_values.specs.Judged.{GivesTwo, Judges, JudgesOn, JudgesTwo};
ghost use Rattle.name_expressions.specs.Scenes.{node_at, said_at};
ghost use Rattle.name_rules.specs.Judging.{fault, some};
ghost use Rattle.name_rules.specs.Ranges as spec;
ghost use Rattle.name_rules.specs.Types as types;
ghost use Rattle.syntax_nodes.specs.Parts.{the_range};
ghost use Rattle.typed_tree.specs.Latest.{pop, top};
ghost use Rattle.typed_parts.specs.Stack.{parts};

use crate::expressions::simple;
use crate::primaries::name_inside;
use crate::scene::Scene;
use name_rules::found::{Bounded, Denoted, Found};
use name_rules::log::{Log, Rule};
use name_rules::types::{Kind, Scalar, Subtype, Wanted};
use name_values::attempt;
use name_values::judge::{Giving, Judge};
use name_values::logs::{breaks, cleared, none_of_two};
use name_values::names::denoted_first;
use name_values::relations::common_kind;
use name_values::types::{base_of, is_modular, lies_in};
use name_values::values::{
    asked, asked_before, first_of, is_scalar, kind_of, literal, suits, value_of,
};
use std::alloc::AllocError;
use syntax_nodes::Range;

/// Writes that a rule is broken by a range, in place of the latest part.
fn no_range(judge: &mut Judge, at: u32, rule: Rule) -> Result<Option<Bounded>, AllocError>
    ensures { JudgesOn (pop (parts judge.old.out)) (fault at rule) judge.old result judge.new }
{
    attempt!(breaks(&mut judge.log, at, rule));
    Ok(None)
}

/// Two bounds, the latest parts, take a type, and are a pair then.
pub fn bounds_of(judge: &mut Judge, kind: Kind, low: Found, high: Found) -> Giving
    ensures { GivesTwo (spec.bounds_of kind) (found low) (found high) judge.old result judge.new }
{
    let x = attempt!(asked_before(judge, kind, low));
    let y = attempt!(asked(judge, kind, high));
    if !x || !y {
        judge.out.leave_out();
        return Ok(false);
    }
    attempt!(judge.out.before());
    Ok(true)
}

/// The subtype of a parameter that goes through a range, which is of no modular type: static bounds that aren't an empty
/// range, or the subtype around.
#[tactic(auto, using(crate::proofs::Plain::plain_kept))]
fn narrowed(scalar: Scalar, low: Option<i128>, high: Option<i128>) -> Scalar
    requires { types.is_modular scalar.kind ≡ false }
    ensures { result ≡ spec.narrowed scalar low high }
{
    match low {
        None => scalar,
        Some(low) => match high {
            None => scalar,
            Some(high) => {
                if low <= high && lies_in(scalar, low) && lies_in(scalar, high) {
                    Scalar {
                        kind: scalar.kind,
                        low: low as i64,
                        high: high as i64,
                    }
                } else {
                    scalar
                }
            }
        },
    }
}

/// Two bounds of their own type: WrongType at the first token of one that is no scalar, or of another type than the
/// first.
pub fn own_bounds(
    judge: &mut Judge,
    first: u32,
    low: Found,
    high: Found,
) -> Result<Option<Bounded>, AllocError>
    ensures { JudgesTwo (spec.own_bounds first) (found low) (found high) judge.old result judge.new }
{
    let kind = common_kind(kind_of(low), kind_of(high));
    if !is_scalar(low) {
        judge.out.leave_out();
        return no_range(judge, first_of(low), Rule::WrongType);
    }
    if !suits(kind, low) {
        judge.out.leave_out();
        return no_range(judge, first_of(high), Rule::WrongType);
    }
    if is_modular(kind) {
        judge.out.leave_out();
        return no_range(judge, first_of(low), Rule::WrongType);
    }
    if !attempt!(bounds_of(judge, kind, low, high)) {
        return Ok(None);
    }
    Ok(Some(Bounded {
        scalar: narrowed(base_of(kind), value_of(low), value_of(high)),
        check: None,
        at: first,
    }))
}

/// Two bounds of a subtype, which are checked against it.
pub fn checked_range(
    judge: &mut Judge,
    first: u32,
    scalar: Scalar,
    low: Found,
    high: Found,
) -> Result<Option<Bounded>, AllocError>
    ensures { JudgesTwo (spec.checked_range first scalar) (found low) (found high) judge.old result judge.new }
{
    if is_modular(scalar.kind) {
        judge.out.leave_out();
        return no_range(judge, first, Rule::WrongType);
    }
    if !attempt!(bounds_of(judge, scalar.kind, low, high)) {
        return Ok(None);
    }
    Ok(Some(Bounded {
        scalar: narrowed(scalar, value_of(low), value_of(high)),
        check: Some(scalar),
        at: first,
    }))
}

/// The range of a name, the latest part of which is what it mentions.
fn whole_range(judge: &mut Judge, first: u32, scalar: Scalar) -> Result<Option<Bounded>, AllocError>
    ensures { JudgesOn (pop (parts judge.old.out)) (some (spec.whole_range first scalar.kind scalar.low scalar.high (top (parts judge.old.out)))) judge.old result judge.new }
{
    attempt!(literal(&mut judge.out, first, scalar.low, false));
    attempt!(judge.out.nothing());
    attempt!(literal(&mut judge.out, first, scalar.high, false));
    attempt!(judge.out.before());
    Ok(Some(Bounded {
        scalar,
        check: None,
        at: first,
    }))
}

/// A name that is a range or a scalar subtype: WrongType at its first token where it is neither.
fn named_range(judge: &mut Judge, denoted: Denoted) -> Result<Option<Bounded>, AllocError>
    ensures { JudgesOn (pop (parts judge.old.out)) (spec.named_range denoted (top (parts judge.old.out))) judge.old result judge.new }
{
    match denoted {
        Denoted::Range { first, dimension } => whole_range(
            judge,
            first,
            Scalar {
                kind: dimension.kind,
                low: dimension.low,
                high: dimension.high,
            },
        ),
        Denoted::Type {
            first,
            subtype: Subtype::Scalar(scalar),
        } => {
            if is_modular(scalar.kind) {
                return no_range(judge, first, Rule::WrongType);
            }
            attempt!(cleared(&mut judge.out));
            whole_range(judge, first, scalar)
        }
        _ => no_range(judge, denoted_first(denoted), Rule::WrongType),
    }
}

/// The scalar subtype that a name is: WrongType at its first token where it is none.
pub fn scalar_type(log: &mut Log, denoted: Denoted) -> Result<Option<Scalar>, AllocError>
    ensures { Says (spec.scalar_type denoted log.old) result log.new }
{
    match denoted {
        Denoted::Type {
            subtype: Subtype::Scalar(scalar),
            ..
        } => Ok(Some(scalar)),
        _ => {
            attempt!(breaks(log, denoted_first(denoted), Rule::WrongType));
            Ok(None)
        }
    }
}

/// A range (3.5).
#[cycle(levels)]
#[tactic(auto, unfolding(name_rules::specs::Ranges::range, name_rules::specs::Ranges::two_bounds))]
pub fn range(judge: &mut Judge, scene: Scene<'_>, id: u32) -> Result<Option<Bounded>, AllocError>
    ensures { Judges (said_at scene.entry spec.range (the_range (node_at scene.entry id))) judge.old result judge.new }
{
    match scene.tree.range(id) {
        Range::Bounded { low, high } => {
            let x = attempt!(simple(judge, scene, Wanted::Other, low));
            let y = attempt!(simple(judge, scene, Wanted::Other, high));
            let (Some(x), Some(y)) = (x, y) else {
                return none_of_two(judge);
            };
            own_bounds(judge, syntax_first_tokens::of_simple(scene.tree, low), x, y)
        }
        Range::Whole(name) => {
            match attempt!(name_inside(judge, scene, name)) {
                None => Ok(None),
                Some(denoted) => named_range(judge, denoted),
            }
        }
        Range::Constrained { name, low, high } => {
            let denoted = attempt!(name_inside(judge, scene, name));
            judge.out.leave_out();
            let scalar = match denoted {
                None => None,
                Some(denoted) => attempt!(scalar_type(&mut judge.log, denoted)),
            };
            let x = attempt!(simple(judge, scene, Wanted::Other, low));
            let y = attempt!(simple(judge, scene, Wanted::Other, high));
            let (Some(scalar), Some(x), Some(y)) = (scalar, x, y) else {
                return none_of_two(judge);
            };
            checked_range(
                judge,
                syntax_first_tokens::of_name(scene.tree, name),
                scalar,
                x,
                y,
            )
        }
    }
}
