//! Calls of subprograms (6.4).

ghost use Rattle.std.specs.Prelude.{◌≡◌, ◌<◌, ◌++◌, ◌∷◌, [], map, option_map};
ghost use Rattle.typed_tree.specs.Decoded.{body_at};
ghost use Rattle.typed_tree.specs.Programs.{program, sub_of};
ghost use Rattle.ada_meaning.specs.Meaning as meaning;
ghost use Rattle.ada_meaning.specs.Stored.{ret};
ghost use Rattle.run_store.specs.Shows.{Shows, ShowsAs, entity_of};
ghost use Rattle.run_values.specs.Values.{OrNoMemory};
ghost use Rattle.run_parts.specs.Passing.{passed_of, passed_list, back_option, returned_of, shape_of};
ghost use Rattle.run_parts.specs.Words as words;
ghost use Rattle.run_parts.specs.Reducing.{both_checked};
ghost use Rattle.run_walk.specs.Walk as spec;

use crate::bodies::body;
use ada_base::Reason;
use run_outside::Port;
use run_parts::{BackCells, Both, Passed, Returned, Work, back_cells, find_sub, turned};
use run_store::{Env, Region, Store};
use run_values::{End, Leave};
use typed_tree::Sub;

/// A call, where so many more may be active.
#[cycle(walk)]
#[inline(never)]
#[tactic(auto, unfolding(ada_meaning::specs::Stored::bind, ada_meaning::specs::Stored::ret, ada_meaning::specs::Stored::leaves, ada_meaning::specs::Stored::spent, ada_meaning::specs::Stored::handles, run_parts::specs::Words::calls_of))]
pub fn call<P: Port + Drop>(
    work: &Work<'_>,
    calls: u32,
    nested: u32,
    sub: u32,
    passed: &[Passed],
    store: &mut Store<P>,
) -> Result<Returned, End>
    ensures { ShowsAs returned_of P.Tells (words.calls_of work.now calls nested sub (ret tt) (passed_list work.now passed.now)) result store.old store.new }
{
    turned(work, store)?;
    if calls == 0 {
        Err(End::Left(Leave::Raises(Reason::StorageError)))
    } else {
        let returned = called(work, calls - 1, nested, sub, passed, store)?;
        Ok(returned)
    }
}

/// A call of a function that combines accumulators, where so many more may be active: its parameters are checked after
/// its turn.
#[cycle(walk)]
#[inline(never)]
#[tactic(auto, unfolding(ada_meaning::specs::Stored::bind, ada_meaning::specs::Stored::ret, ada_meaning::specs::Stored::leaves, ada_meaning::specs::Stored::spent, ada_meaning::specs::Stored::handles, run_parts::specs::Words::calls_of))]
pub fn call_checked<P: Port + Drop>(
    work: &Work<'_>,
    calls: u32,
    nested: u32,
    sub: u32,
    both: Both,
    passed: &[Passed],
    store: &mut Store<P>,
) -> Result<Returned, End>
    ensures { ShowsAs returned_of P.Tells (words.calls_of work.now calls nested sub (both_checked work.now both) (passed_list work.now passed.now)) result store.old store.new }
{
    turned(work, store)?;
    if calls == 0 {
        Err(End::Left(Leave::Raises(Reason::StorageError)))
    } else if both.hold() {
        let returned = called(work, calls - 1, nested, sub, passed, store)?;
        Ok(returned)
    } else {
        Err(End::Left(Leave::Raises(Reason::ConstraintError)))
    }
}

#[cycle(walk)]
#[inline(always)]
fn called<P: Port + Drop>(
    work: &Work<'_>,
    calls: u32,
    nested: u32,
    number: u32,
    passed: &[Passed],
    store: &mut Store<P>,
) -> Result<Returned, End>
    ensures { ShowsAs returned_of P.Tells (spec.called work.now calls number nested (passed_list work.now passed.now)) result store.old store.new }
{
    match find_sub(work, number) {
        None => Err(End::Left(Leave::Raises(Reason::ProgramError))),
        Some(sub) => {
            let before = store.enter()?;
            let result = with_formals(work, calls, nested, sub, passed, passed, store);
            store.leave(before);
            result
        }
    }
}

// the formals of a call with their first cells, and then the body
#[cycle(walk)]
#[inline(never)]
#[tactic(auto, unfolding(ada_meaning::specs::Stored::bind, ada_meaning::specs::Stored::ret, ada_meaning::specs::Stored::leaves, ada_meaning::specs::Stored::spent, ada_meaning::specs::Stored::handles, crate::specs::Walk::with_formals))]
fn with_formals<P: Port + Drop>(
    work: &Work<'_>,
    calls: u32,
    nested: u32,
    sub: Sub,
    rest: &[Passed],
    all: &[Passed],
    store: &mut Store<P>,
) -> Result<Returned, End>
    ensures { ShowsAs returned_of P.Tells (spec.with_formals work.now calls (sub_of work.now.typed.now.nodes sub) nested (passed_list work.now all.now) (passed_list work.now rest.now)) result store.old store.new }
{
    match rest.split_first() {
        None => {
            let returned = carried_out(work, calls, nested, sub, all, store)?;
            Ok(returned)
        }
        Some((first, others)) => {
            let mark = store.begin(Region::Here, first.formal, first.cells.as_slice())?;
            let result = with_formals(work, calls, nested, sub, others, all, store);
            store.end(Region::Here, first.formal, mark);
            result
        }
    }
}

#[cycle(walk)]
#[inline(always)]
fn carried_out<P: Port + Drop>(
    work: &Work<'_>,
    calls: u32,
    nested: u32,
    sub: Sub,
    all: &[Passed],
    store: &mut Store<P>,
) -> Result<Returned, End>
    ensures { ShowsAs returned_of P.Tells (spec.carried_out work.now calls (sub_of work.now.typed.now.nodes sub) nested (passed_list work.now all.now)) result store.old store.new }
{
    let value = function_value(work, calls, nested, sub, store)?;
    let cells = back_cells(work, all, BackCells::new(work.alloc), store)?;
    Ok(Returned { value, cells })
}

/// What the body of a subprogram gives, 0 where it is a procedure's.
#[cycle(walk)]
#[inline(always)]
pub fn function_value<P: Port + Drop>(
    work: &Work<'_>,
    calls: u32,
    nested: u32,
    sub: Sub,
    store: &mut Store<P>,
) -> Result<i64, End>
    ensures { Shows P.Tells (spec.function_value work.now calls (sub_of work.now.typed.now.nodes sub) nested) result store.old store.new }
{
    let env = Env::Outset { nested };
    match body(work, calls, sub.body, Region::Here, &env, store) {
        Ok(()) => match sub.result {
            Some(_) => Err(End::Left(Leave::Raises(Reason::ProgramError))),
            None => Ok(0),
        },
        Err(End::Left(Leave::Returns(Some(value)))) => Ok(value),
        Err(End::Left(Leave::Returns(None))) => Ok(0),
        Err(end) => Err(end),
    }
}
