//! Operands that have no parameter, of conversions (4.6) and attributes (3.5), in the order of the text.

ghost use Rattle.std.specs.Prelude.{◌≡◌, ◌∷◌, [], IfOk, None};
ghost use Rattle.name_rules.specs.Calls as spec;
ghost use Rattle.name_rules.specs.Judges.{found, found_of};
ghost use Rattle.name_values.specs.Judged.{JudgesOn, JudgesOne};
ghost use Rattle.name_values.specs.Operands.{founds, operands_of};
ghost use Rattle.typed_tree.specs.Latest.{pop, second, top};
ghost use Rattle.typed_parts.specs.Stack.{parts};

use crate::judge::Judge;
use crate::names::wrong_name;
use crate::types::converted_from;
use crate::values::{first_of, is_number, own_kind, settled_found};
use ada_base::Items;
use name_rules::found::{Denoted, Found};
use name_rules::log::Rule;
use name_rules::types::Scalar;
use std::alloc::AllocError;
use typed_parts::Parts;
use typed_tree::Check;

/// One more operand, which is the latest part, joins those before it, whose list is the part before; whether each could
/// be judged.
#[tactic(auto, using(crate::proofs::Founds::founds_more))]
pub fn with_operand(
    out: &mut Parts,
    operands: &mut Items<Found>,
    good: bool,
    given: Option<Found>,
) -> Result<bool, AllocError>
    ensures { IfOk result (λ all. (operands_of all operands.new (top (parts out.new)) ≡ spec.with_operand (operands_of good operands.old (second (parts out.old))) (found_of given (top (parts out.old)))) × (pop (parts out.new) ≡ pop (pop (parts out.old)))) }
{
    let Some(given) = given else {
        out.leave_out();
        return Ok(false);
    };
    if !good {
        out.leave_out();
        return Ok(false);
    }
    attempt!(operands.push(given));
    attempt!(out.also());
    Ok(true)
}

/// The conversion (4.6) of an operand, which is the latest part, to an integer type: WrongType at its first token where
/// it is no number.
fn converted(
    judge: &mut Judge,
    first: u32,
    scalar: Scalar,
    given: Found,
) -> Result<Option<Denoted>, AllocError>
    ensures { JudgesOne (spec.converted first scalar) (found given) judge.old result judge.new }
{
    if !is_number(given) {
        return wrong_name(judge, first_of(given), Rule::WrongType);
    }
    if !attempt!(settled_found(judge, given)) {
        return Ok(None);
    }
    attempt!(
        judge.out.convert(Check {
            at: first,
            scalar: converted_from(own_kind(given), scalar),
        })
    );
    Ok(Some(Denoted::Value(Found::Scalar {
        first,
        kind: scalar.kind,
        nominal: Some(scalar),
    })))
}

/// The conversion of the operand, of a list of operands that is the latest part: WrongType at the bracket where there is
/// another number of them.
#[tactic(auto, using(crate::proofs::Founds::one_found, crate::proofs::Founds::not_one))]
pub fn one_operand(
    judge: &mut Judge,
    bracket: u32,
    first: u32,
    scalar: Scalar,
    operands: &Items<Found>,
) -> Result<Option<Denoted>, AllocError>
    ensures { JudgesOn (pop (parts judge.old.out)) (spec.one_operand bracket first scalar (None ∷ []) (founds operands.now (top (parts judge.old.out)))) judge.old result judge.new }
{
    match operands.as_slice() {
        [given] => {
            attempt!(judge.out.apart());
            judge.out.leave_out();
            converted(judge, first, scalar, *given)
        }
        _ => wrong_name(judge, bracket, Rule::WrongType),
    }
}
