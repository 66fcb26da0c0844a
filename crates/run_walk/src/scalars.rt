//! Calls whose actual parameters are a few scalars of mode `in` without calls in them (6.4): nothing is held of them in
//! memory, and nothing is copied back.

ghost use Rattle.std.specs.Prelude.{◌≡◌, ◌<◌, ◌++◌, ◌∷◌, [], List, IfSome};
ghost use Rattle.typed_tree.specs.Decoded.{actuals_at, as_actual, part_at};
ghost use Rattle.typed_tree.specs.Programs.{sub_of};
ghost use Rattle.typed_tree.specs.Syntax.{Actuals};
ghost use Rattle.ada_meaning.specs.Meaning as meaning;
ghost use Rattle.ada_meaning.specs.Stored.{ret};
ghost use Rattle.run_store.specs.Environment.{env_of};
ghost use Rattle.run_store.specs.Shows.{ShowsAs};
ghost use Rattle.run_parts.specs.declared.scalars.InScalar.{InScalar};
ghost use Rattle.run_parts.specs.Given.{in_passed, in_list, value_returned};
ghost use Rattle.run_parts.specs.Words as words;
ghost use Rattle.run_parts.specs.Words.{nodes_of};
ghost use Rattle.run_walk.specs.Quick.{GivesAs, SameAs};
ghost use Rattle.run_walk.specs.Walk as spec;

use crate::calls::function_value;
use crate::quick::{LEVELS, quick_operand};
use ada_base::Reason;
use run_outside::Port;
use run_parts::{InScalar, InScalars, Work, find_sub, turned};
use run_store::{Env, Object, Region, Store};
use run_values::{End, Leave, is_in};
use typed_tree::{Actual, Sub, Value};

/// Actual parameters, where they are at most four scalars of mode `in` that have values without a call.
#[inline(never)]
pub fn pass_scalars<P: Port + Drop>(
    work: &Work<'_>,
    calls: u32,
    id: u32,
    env: &Env<'_>,
    store: &Store<P>,
) -> Option<InScalars>
    ensures { GivesAs in_list P.Tells (spec.pass work.now calls (actuals_at (nodes_of work.now) id) (env_of env.now) []) store.now result }
{
    let mut given = InScalars::new();
    let mut at = id;
    while let Some(cell) = work.typed.nodes.actuals(at) {
        match scalar(work, calls, cell.first, env, store) {
            None => return None,
            Some(one) => {
                if !given.push(one) {
                    return None;
                }
            }
        }
        at = cell.rest;
    }
    Some(given)
}

// an actual parameter that is a scalar of mode `in` and has a value without a call
#[inline(always)]
fn scalar<P: Port + Drop>(
    work: &Work<'_>,
    calls: u32,
    id: u32,
    env: &Env<'_>,
    store: &Store<P>,
) -> Option<InScalar>
    ensures { IfSome result (λ one. (rest : Actuals) (so_far : List meaning.Passed) → SameAs P.Tells (spec.pass work.now calls (as_actual (part_at (nodes_of work.now) id) rest) (env_of env.now) so_far) (spec.pass work.now calls rest (env_of env.now) (so_far ++ in_passed one ∷ [])) store.now) }
{
    match work.typed.nodes.actual(id) {
        Some(Actual::In { formal, value }) => match work.typed.nodes.value(value) {
            Some(Value::Number { check, value }) => {
                match quick_operand(work, calls, LEVELS, value, env, store) {
                    None => None,
                    Some(x) => {
                        if is_in(check.scalar, x) {
                            Some(InScalar { formal, value: x })
                        } else {
                            None
                        }
                    }
                }
            }
            _ => None,
        },
        _ => None,
    }
}

/// A call that is given such parameters, where so many more may be active.
#[cycle(walk)]
#[inline(never)]
#[tactic(auto, unfolding(ada_meaning::specs::Stored::bind, ada_meaning::specs::Stored::ret, ada_meaning::specs::Stored::leaves, ada_meaning::specs::Stored::spent, ada_meaning::specs::Stored::handles, run_parts::specs::Words::calls_of))]
pub fn call_scalars<P: Port + Drop>(
    work: &Work<'_>,
    calls: u32,
    nested: u32,
    sub: u32,
    given: &[InScalar],
    store: &mut Store<P>,
) -> Result<i64, End>
    ensures { ShowsAs (value_returned given.now) P.Tells (words.calls_of work.now calls nested sub (ret tt) (in_list given.now)) result store.old store.new }
{
    turned(work, store)?;
    if calls == 0 {
        Err(End::Left(Leave::Raises(Reason::StorageError)))
    } else {
        let value = called(work, calls - 1, nested, sub, given, store)?;
        Ok(value)
    }
}

#[cycle(walk)]
#[inline(always)]
fn called<P: Port + Drop>(
    work: &Work<'_>,
    calls: u32,
    nested: u32,
    number: u32,
    given: &[InScalar],
    store: &mut Store<P>,
) -> Result<i64, End>
    ensures { ShowsAs (value_returned given.now) P.Tells (spec.called work.now calls number nested (in_list given.now)) result store.old store.new }
{
    match find_sub(work, number) {
        None => Err(End::Left(Leave::Raises(Reason::ProgramError))),
        Some(sub) => {
            let before = store.enter()?;
            let result = with_scalars(work, calls, nested, sub, given, store);
            store.leave(before);
            result
        }
    }
}

// the formals of a call with their values, and then the body
#[cycle(walk)]
#[inline(never)]
#[tactic(auto, unfolding(ada_meaning::specs::Stored::bind, ada_meaning::specs::Stored::ret, ada_meaning::specs::Stored::leaves, ada_meaning::specs::Stored::spent, ada_meaning::specs::Stored::handles, crate::specs::Walk::with_formals))]
fn with_scalars<P: Port + Drop>(
    work: &Work<'_>,
    calls: u32,
    nested: u32,
    sub: Sub,
    rest: &[InScalar],
    store: &mut Store<P>,
) -> Result<i64, End>
    ensures { (all : List InScalar) → ShowsAs (value_returned all) P.Tells (spec.with_formals work.now calls (sub_of work.now.typed.now.nodes sub) nested (in_list all) (in_list rest.now)) result store.old store.new }
{
    match rest.split_first() {
        None => function_value(work, calls, nested, sub, store),
        Some((first, others)) => {
            let formal = Object::Constant(first.formal);
            let mark = store.begin(Region::Here, formal, &[first.value])?;
            let result = with_scalars(work, calls, nested, sub, others, store);
            store.end(Region::Here, formal, mark);
            result
        }
    }
}
