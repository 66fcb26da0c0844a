//! The rules of what a reduction folds by, its values and its initial value (4.5.10).

ghost use Rattle.std.specs.Prelude.{◌≡◌, ◌∷◌, ◌&&◌, ◌||◌, OnOk, is_some, not};
ghost use Rattle.typed_tree.specs.Decoded as part;
ghost use Rattle.typed_tree.specs.Latest.{fourth, pop, second, third, top};
ghost use Rattle.name_rules.specs.Calls as calls;
ghost use Rattle.name_rules.specs.Judges.{Says, found};
ghost use Rattle.name_values.specs.Judged.{JudgesOn};
ghost use Rattle.name_rules.specs.Judging.{fault, joined, pure};
ghost use Rattle.name_rules.specs.Operators as operators;
ghost use Rattle.name_rules.specs.Reducers as spec;
ghost use Rattle.name_rules.specs.Types as types;
ghost use Rattle.name_rules.specs.Values as values;
ghost use Rattle.name_rules.specs.declared.log.Rule.TheVariants.{ReduceRule};
ghost use Rattle.name_values.specs.Reductions.{two_of};
ghost use Rattle.typed_parts.specs.Stack.{parts};

use crate::actuals::gives_in;
use crate::judge::{Finding, Judge};
use crate::logs::{breaks, no_part};
use crate::operators::{joint, open_before, open_of};
use crate::symbols::{MAX, MIN, symbol};
use crate::types::{class_of, is_modular, same, typed_scalar};
use crate::values::{asked, asked_before, is_number, kind_of, suits};
use ada_base::Op;
use name_rules::found::{Denoted, Folding, Found, Going};
use name_rules::log::{Log, Rule, Taken};
use name_rules::scope::Names;
use name_rules::types::{Kind, Scalar, Subtype};
use std::alloc::AllocError;
use typed_parts::Parts;
use typed_tree::{Class, Reducer};

/// Writes that what stands for a reducer is none.
pub fn no_folding(log: &mut Log, at: u32) -> Result<Option<Folding>, AllocError>
    ensures { Says (fault at ReduceRule log.old) result log.new }
{
    attempt!(breaks(log, at, Rule::ReduceRule));
    Ok(None)
}

/// The reducer that a string is, by the operator that it names.
pub fn operator_reducer(
    log: &mut Log,
    at: u32,
    op: Option<Op>,
) -> Result<Option<Folding>, AllocError>
    ensures { Says (spec.operator_reducer at op log.old) result log.new }
{
    match op {
        None => no_folding(log, at),
        Some(op) => Ok(Some(Folding::Operator { at, op })),
    }
}

/// The reducer `S'Max` or `S'Min`, by what S is.
pub fn extreme_of(
    log: &mut Log,
    at: u32,
    op: Op,
    denoted: Denoted,
) -> Result<Option<Folding>, AllocError>
    ensures { Says (spec.extreme_of at op denoted log.old) result log.new }
{
    match denoted {
        Denoted::Type {
            subtype: Subtype::Scalar(scalar),
            ..
        } => Ok(Some(Folding::Extreme { at, op, scalar })),
        _ => no_folding(log, at),
    }
}

/// The reducer that a name is, which is a function's.
pub fn function_of(log: &mut Log, at: u32, denoted: Denoted) -> Result<Option<Folding>, AllocError>
    ensures { Says (spec.function_of at denoted log.old) result log.new }
{
    match denoted {
        Denoted::Sub { number, .. } => match gives_in(log, number) {
            Some(_) => Ok(Some(Folding::Function { at, number })),
            None => no_folding(log, at),
        },
        _ => no_folding(log, at),
    }
}

/// The operation that the identifier of an attribute folds by.
pub fn extreme_name(names: &Names, at: u32) -> Option<Op>
    ensures { result ≡ spec.extreme_name names.now at }
{
    let name = symbol(names, at);
    if name == MAX {
        Some(Op::Max)
    } else if name == MIN {
        Some(Op::Min)
    } else {
        None
    }
}

fn reducer(out: &mut Parts, reducer: Reducer) -> Result<(), AllocError>
    ensures { OnOk result (parts out.new ≡ part.AReducer reducer ∷ parts out.old) }
{
    match reducer {
        Reducer::Operator { at, op, class } => out.fold_operator(at, op, class),
        Reducer::Function {
            at,
            sub,
            accumulator,
            value,
        } => {
            attempt!(out.scalar(accumulator));
            attempt!(out.scalar(value));
            out.fold_function(at, sub)
        }
    }
}

/// A reduction of a chunk specification, an iteration, a value and an initial value, which are the latest parts.
fn reduction(out: &mut Parts, going: Going, by: Reducer) -> Result<(), AllocError>
    ensures { OnOk result (parts out.new ≡ part.AnExpr (spec.reduction going (fourth (parts out.old)) (third (parts out.old)) by (second (parts out.old)) (top (parts out.old))) ∷ pop (pop (pop (pop (parts out.old))))) }
{
    attempt!(reducer(out, by));
    attempt!(out.swap());
    out.reduction(going.at, going.attribute, going.site)
}

/// Nothing is the reduction of four parts.
fn not_reduced(out: &mut Parts)
    ensures { parts out.new ≡ pop (pop (pop (parts out.old))) }
{
    out.leave_out();
    out.leave_out();
    out.leave_out();
}

/// Writes that a reducer doesn't fit, in place of the four latest parts.
fn no_reduction(judge: &mut Judge, at: u32) -> Finding
    ensures { JudgesOn (pop (pop (pop (pop (parts judge.old.out))))) (fault at ReduceRule) judge.old result judge.new }
{
    not_reduced(&mut judge.out);
    no_part(judge, at, Rule::ReduceRule)
}

/// The reduction of a value of a type and an initial value of its own, which are the latest parts.
#[tactic(auto, unfolding(name_rules::specs::Reducers::reduced))]
fn reduced(
    judge: &mut Judge,
    going: Going,
    kind: Kind,
    own: Kind,
    by: Reducer,
    value: Found,
    initial: Found,
) -> Finding
    ensures { JudgesOn (pop (pop (pop (pop (parts judge.old.out))))) (spec.reduced going (fourth (parts judge.old.out)) (third (parts judge.old.out)) kind own by (found value (second (parts judge.old.out))) (found initial (top (parts judge.old.out)))) judge.old result judge.new }
{
    let x = attempt!(asked_before(judge, kind, value));
    let v = attempt!(asked(judge, own, initial));
    if !x || !v {
        not_reduced(&mut judge.out);
        return Ok(None);
    }
    attempt!(reduction(&mut judge.out, going, by));
    Ok(Some(Found::Scalar {
        first: going.at,
        kind: own,
        nominal: None,
    }))
}

fn open_reduction(
    judge: &mut Judge,
    going: Going,
    at: u32,
    op: Op,
    value: Found,
    initial: Found,
) -> Finding
    ensures { JudgesOn (pop (pop (pop (pop (parts judge.old.out))))) (pure (joined (spec.open_reduction going (fourth (parts judge.old.out)) (third (parts judge.old.out)) at op) (operators.open_of (found value (second (parts judge.old.out)))) (operators.open_of (found initial (top (parts judge.old.out)))))) judge.old result judge.new }
{
    let x = attempt!(open_before(&mut judge.out, value));
    let v = attempt!(open_of(&mut judge.out, initial));
    let (Some(x), Some(v)) = (x, v) else {
        not_reduced(&mut judge.out);
        return Ok(None);
    };
    attempt!(reduction(
        &mut judge.out,
        going,
        Reducer::Operator {
            at,
            op,
            class: Class::Universal,
        },
    ));
    Ok(Some(Found::Open {
        first: going.at,
        limits: joint(x, v),
    }))
}

fn is_logical(op: Op) -> bool
    ensures { result ≡ spec.is_logical op }
{
    match op {
        Op::And => true,
        Op::Or => true,
        Op::Xor => true,
        _ => false,
    }
}

/// Operators, Max and Min take values and an initial value of one type.
fn of_kind(
    judge: &mut Judge,
    going: Going,
    at: u32,
    op: Op,
    kind: Kind,
    value: Found,
    initial: Found,
) -> Finding
    ensures { JudgesOn (pop (pop (pop (pop (parts judge.old.out))))) (spec.of_kind going (fourth (parts judge.old.out)) (third (parts judge.old.out)) at op kind (found value (second (parts judge.old.out))) (found initial (top (parts judge.old.out)))) judge.old result judge.new }
{
    if !(suits(kind, value) && suits(kind, initial)) {
        return no_reduction(judge, at);
    }
    let by = Reducer::Operator {
        at,
        op,
        class: class_of(kind),
    };
    reduced(judge, going, kind, kind, by, value, initial)
}

fn numeric(
    judge: &mut Judge,
    going: Going,
    at: u32,
    op: Op,
    value: Found,
    initial: Found,
) -> Finding
    ensures { JudgesOn (pop (pop (pop (pop (parts judge.old.out))))) (spec.numeric going (fourth (parts judge.old.out)) (third (parts judge.old.out)) at op (found value (second (parts judge.old.out))) (found initial (top (parts judge.old.out))) (values.kind_of value) (values.kind_of initial)) judge.old result judge.new }
{
    match kind_of(value) {
        Some(kind) => of_kind(judge, going, at, op, kind, value, initial),
        None => match kind_of(initial) {
            Some(kind) => of_kind(judge, going, at, op, kind, value, initial),
            None => open_reduction(judge, going, at, op, value, initial),
        },
    }
}

fn modular_or(kind: Option<Kind>, other: Kind) -> Kind
    ensures { result ≡ spec.modular_or kind other }
{
    match kind {
        None => other,
        Some(kind) => { if is_modular(kind) { kind } else { other } }
    }
}

/// The type that a logical operator folds values of: Boolean, unless one of the two is of a modular type.
fn logical_kind(value: Option<Kind>, initial: Option<Kind>) -> Kind
    ensures { result ≡ spec.logical_kind value initial }
{
    modular_or(value, modular_or(initial, Kind::Boolean))
}

fn by_operator(
    judge: &mut Judge,
    going: Going,
    at: u32,
    op: Op,
    value: Found,
    initial: Found,
) -> Finding
    ensures { JudgesOn (pop (pop (pop (pop (parts judge.old.out))))) (spec.by_operator going (fourth (parts judge.old.out)) (third (parts judge.old.out)) at op (found value (second (parts judge.old.out))) (found initial (top (parts judge.old.out)))) judge.old result judge.new }
{
    if is_logical(op) {
        let kind = logical_kind(kind_of(value), kind_of(initial));
        return of_kind(judge, going, at, op, kind, value, initial);
    }
    if is_number(value) && is_number(initial) {
        numeric(judge, going, at, op, value, initial)
    } else {
        no_reduction(judge, at)
    }
}

/// Whether the parameters of a function fit its result, the values and the initial value: those of a parallel reduction
/// are of one type.
fn fits(
    going: Going,
    result_kind: Kind,
    accumulator: Scalar,
    item: Scalar,
    value: Found,
    initial: Found,
) -> bool
    ensures { result ≡ (types.same result_kind accumulator.kind && values.suits item.kind value && values.suits accumulator.kind initial && (not (is_some going.site) || types.same accumulator.kind item.kind)) }
{
    same(result_kind, accumulator.kind)
        && suits(item.kind, value)
        && suits(accumulator.kind, initial)
        && (going.site.is_none() || same(accumulator.kind, item.kind))
}

fn by_subtypes(
    judge: &mut Judge,
    going: Going,
    at: u32,
    number: u32,
    result_kind: Kind,
    accumulator: Subtype,
    item: Subtype,
    value: Found,
    initial: Found,
) -> Finding
    ensures { JudgesOn (pop (pop (pop (pop (parts judge.old.out))))) (spec.by_subtypes going (fourth (parts judge.old.out)) (third (parts judge.old.out)) at number result_kind accumulator item (found value (second (parts judge.old.out))) (found initial (top (parts judge.old.out)))) judge.old result judge.new }
{
    let (Subtype::Scalar(a), Subtype::Scalar(b)) = (accumulator, item) else {
        return no_reduction(judge, at);
    };
    if !fits(going, result_kind, a, b, value, initial) {
        return no_reduction(judge, at);
    }
    let by = Reducer::Function {
        at,
        sub: number,
        accumulator: typed_scalar(a),
        value: typed_scalar(b),
    };
    reduced(judge, going, b.kind, a.kind, by, value, initial)
}

/// The two parameters of a subprogram by its number, where it has so many.
fn two_taken(log: &Log, number: u32) -> Option<(Taken, Taken)>
    ensures { result ≡ two_of (calls.takes_in (calls.profile_in log.now number)) }
{
    match log.profiles.get(number as usize) {
        None => None,
        Some(profile) => match profile.takes.as_slice() {
            [accumulator, item] => Some((*accumulator, *item)),
            _ => None,
        },
    }
}

fn by_function(
    judge: &mut Judge,
    going: Going,
    at: u32,
    number: u32,
    value: Found,
    initial: Found,
) -> Finding
    ensures { JudgesOn (pop (pop (pop (pop (parts judge.old.out))))) (spec.by_function going (fourth (parts judge.old.out)) (third (parts judge.old.out)) at number (calls.takes_in (calls.profile_in judge.old.log number)) (calls.gives_in (calls.profile_in judge.old.log number)) (found value (second (parts judge.old.out))) (found initial (top (parts judge.old.out)))) judge.old result judge.new }
{
    match (two_taken(&judge.log, number), gives_in(&judge.log, number)) {
        (Some((accumulator, item)), Some(scalar)) => by_subtypes(
            judge,
            going,
            at,
            number,
            scalar.kind,
            accumulator.subtype,
            item.subtype,
            value,
            initial,
        ),
        _ => no_reduction(judge, at),
    }
}

/// A reduction (4.5.10) of a chunk specification, an iteration, a value and an initial value, which are the latest
/// parts: ReduceRule at the reducer's first token, where its parameters or its result don't fit.
#[tactic(auto, unfolding(name_rules::specs::Reducers::folded_by))]
pub fn folded_by(
    judge: &mut Judge,
    going: Going,
    by: Folding,
    value: Found,
    initial: Found,
) -> Finding
    ensures { JudgesOn (pop (pop (pop (pop (parts judge.old.out))))) (spec.folded_by going (fourth (parts judge.old.out)) (third (parts judge.old.out)) by (found value (second (parts judge.old.out))) (found initial (top (parts judge.old.out)))) judge.old result judge.new }
{
    match by {
        Folding::Operator { at, op } => by_operator(judge, going, at, op, value, initial),
        Folding::Extreme { at, op, scalar } => {
            of_kind(judge, going, at, op, scalar.kind, value, initial)
        }
        Folding::Function { at, number } => {
            by_function(judge, going, at, number, value, initial)
        }
    }
}
