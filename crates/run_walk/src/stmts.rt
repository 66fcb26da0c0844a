//! Statements (5.1).

ghost use Rattle.std.specs.Prelude.{◌≡◌, ◌<◌, IfSome, option_map};
ghost use Rattle.typed_tree.specs.Decoded.{actuals_at, alternatives_at, expr_at, leaves_at, optional_at, spans_in, stmt_at, stmts_at, value_at};
ghost use Rattle.ada_meaning.specs.Values.{is_chosen};
ghost use Rattle.run_store.specs.Environment.{env_of};
ghost use Rattle.run_store.specs.Shows.{Shows};
ghost use Rattle.run_parts.specs.Found.{found_alternative};
ghost use Rattle.run_walk.specs.Walk as spec;
ghost use Rattle.run_parts.specs.Words.{nodes_of};

use crate::actuals::pass;
use crate::bodies::block;
use crate::calls::call;
use crate::constructs::{parallel_block, parallel_for};
use crate::exprs::{eval, holds};
use crate::loops::{for_stmt, while_stmt};
use crate::scalars::{call_scalars, pass_scalars};
use crate::texts::{get, put};
use crate::values::{assign, cells};
use ada_base::{Items, Reason};
use run_outside::Port;
use run_parts::{Work, all_copied_back, find_alternative};
use run_store::{Env, Region, Store};
use run_values::{End, Leave, is_in, is_true};
use typed_tree::{Stmt, Value};

/// A statement.
#[cycle(walk)]
#[inline(always)]
#[tactic(auto, unfolding(ada_meaning::specs::Stored::bind, ada_meaning::specs::Stored::ret, ada_meaning::specs::Stored::leaves, ada_meaning::specs::Stored::spent, ada_meaning::specs::Stored::handles, crate::specs::Walk::exec, crate::specs::Walk::exec_all, crate::specs::Walk::eval, crate::specs::Walk::select, crate::specs::Walk::cells, crate::specs::Walk::holds, crate::specs::Walk::pass, crate::specs::Walk::course, crate::specs::Walk::exec_chosen, run_parts::specs::Words::write_all, run_parts::specs::Words::all_copied_back, crate::specs::Walk::written, crate::specs::Walk::while_loop, crate::specs::Walk::for_loop, crate::specs::Walk::block, crate::specs::Walk::exec_handler, crate::specs::Walk::filtered, crate::specs::Walk::chunking, crate::specs::Walk::threads_of, crate::specs::Walk::exec_arm))]
pub fn exec<P: Port + Drop>(
    work: &Work<'_>,
    calls: u32,
    id: u32,
    env: &Env<'_>,
    store: &mut Store<P>,
) -> Result<(), End>
    ensures { Shows P.Tells (spec.exec work.now calls (stmt_at (nodes_of work.now) id) (env_of env.now)) result store.old store.new }
{
    match work.typed.nodes.stmt(id) {
        Stmt::Null => Ok(()),
        Stmt::Assign {
            root,
            selections,
            value,
            ..
        } => assign(work, calls, root, selections, value, env, store),
        Stmt::Call { sub, actuals, .. } => call_procedure(work, calls, sub, actuals, env, store),
        Stmt::Exit { from, condition } => exit_when(work, calls, from, condition, env, store),
        Stmt::Return => Err(End::Left(Leave::Returns(None))),
        Stmt::ReturnValue { value } => return_value(work, calls, value, env, store),
        Stmt::Raise { reason } => Err(End::Left(Leave::Raises(reason))),
        Stmt::Reraise => Err(End::Left(Leave::Raises(env.handled()))),
        Stmt::If {
            condition,
            stmts,
            otherwise,
        } => branch(work, calls, condition, stmts, otherwise, env, store),
        Stmt::Case {
            value,
            alternatives,
            ..
        } => chosen(work, calls, value, alternatives, env, store),
        Stmt::Loop {
            number,
            condition,
            stmts,
        } => while_stmt(work, calls, number, condition, stmts, env, store),
        Stmt::For {
            number,
            iteration,
            stmts,
        } => for_stmt(work, calls, number, iteration, stmts, env, store),
        Stmt::Block {
            decls,
            stmts,
            handlers,
        } => block(
            work,
            calls,
            decls,
            Region::Here,
            stmts,
            handlers,
            env,
            store,
        ),
        Stmt::Put { pieces, line, .. } => put(work, calls, pieces, line, env, store),
        Stmt::Get {
            first,
            root,
            selections,
            scalar,
            ..
        } => get(work, calls, first, root, selections, scalar, env, store),
        Stmt::ParallelFor {
            number,
            chunk,
            iteration,
            stmts,
            ..
        } => parallel_for(work, calls, number, chunk, iteration, stmts, env, store),
        Stmt::Parallel { count, arms, .. } => parallel_block(work, calls, count, arms, env, store),
    }
}

/// Statements one after the other.
#[cycle(walk)]
#[inline(never)]
pub fn exec_all<P: Port + Drop>(
    work: &Work<'_>,
    calls: u32,
    id: u32,
    env: &Env<'_>,
    store: &mut Store<P>,
) -> Result<(), End>
    ensures { Shows P.Tells (spec.exec_all work.now calls (stmts_at (nodes_of work.now) id) (env_of env.now)) result store.old store.new }
{
    let mut at = id;
    while let Some(cell) = work.typed.nodes.stmts(at) {
        exec(work, calls, cell.first, env, store)?;
        at = cell.rest;
    }
    Ok(())
}

#[cycle(walk)]
#[inline(never)]
fn call_procedure<P: Port + Drop>(
    work: &Work<'_>,
    calls: u32,
    sub: u32,
    actuals: u32,
    env: &Env<'_>,
    store: &mut Store<P>,
) -> Result<(), End>
    ensures { Shows P.Tells (spec.call_procedure work.now calls sub (actuals_at (nodes_of work.now) actuals) (env_of env.now)) result store.old store.new }
{
    match pass_scalars(work, calls, actuals, env, &*store) {
        Some(given) => {
            call_scalars(work, calls, env.nested(), sub, given.as_slice(), store)?;
            Ok(())
        }
        None => {
            let passed = pass(work, calls, actuals, env, Items::new(work.alloc), store)?;
            let returned = call(work, calls, env.nested(), sub, passed.as_slice(), store)?;
            all_copied_back(work, calls, passed.as_slice(), &returned.cells, store)?;
            Ok(())
        }
    }
}

#[cycle(walk)]
#[inline(never)]
fn exit_when<P: Port + Drop>(
    work: &Work<'_>,
    calls: u32,
    from: u32,
    condition: u32,
    env: &Env<'_>,
    store: &mut Store<P>,
) -> Result<(), End>
    ensures { Shows P.Tells (spec.exit_when work.now calls from (optional_at (nodes_of work.now) condition) (env_of env.now)) result store.old store.new }
{
    let goes = holds(work, calls, condition, env, store)?;
    if goes {
        Err(End::Left(Leave::Exits(from)))
    } else {
        Ok(())
    }
}

#[cycle(walk)]
#[inline(never)]
#[tactic(auto, unfolding(ada_meaning::specs::Stored::bind, ada_meaning::specs::Stored::ret, ada_meaning::specs::Stored::leaves, ada_meaning::specs::Stored::spent, ada_meaning::specs::Stored::handles, crate::specs::Walk::cells, crate::specs::Walk::eval))]
fn return_value<P: Port + Drop>(
    work: &Work<'_>,
    calls: u32,
    value: u32,
    env: &Env<'_>,
    store: &mut Store<P>,
) -> Result<(), End>
    ensures { Shows P.Tells (spec.return_value work.now calls (value_at (nodes_of work.now) value) (env_of env.now)) result store.old store.new }
{
    match work.typed.nodes.value(value) {
        Some(Value::Number { check, value }) => {
            let x = eval(work, calls, value, env, store)?;
            if is_in(check.scalar, x) {
                Err(End::Left(Leave::Returns(Some(x))))
            } else {
                Err(End::Left(Leave::Raises(Reason::ConstraintError)))
            }
        }
        _ => {
            let values = cells(work, calls, value, env, store)?;
            Err(End::Left(Leave::Returns(values.first())))
        }
    }
}

#[cycle(walk)]
#[inline(never)]
fn branch<P: Port + Drop>(
    work: &Work<'_>,
    calls: u32,
    condition: u32,
    stmts: u32,
    otherwise: u32,
    env: &Env<'_>,
    store: &mut Store<P>,
) -> Result<(), End>
    ensures { Shows P.Tells (spec.branch work.now calls (expr_at (nodes_of work.now) condition) (stmts_at (nodes_of work.now) stmts) (stmts_at (nodes_of work.now) otherwise) (env_of env.now)) result store.old store.new }
{
    let c = eval(work, calls, condition, env, store)?;
    if is_true(c) {
        exec_all(work, calls, stmts, env, store)?;
        Ok(())
    } else {
        exec_else(work, calls, otherwise, env, store)?;
        Ok(())
    }
}

// the statements behind `else` or `elsif`, one frame deeper
#[cycle(walk)]
fn exec_else<P: Port + Drop>(
    work: &Work<'_>,
    calls: u32,
    id: u32,
    env: &Env<'_>,
    store: &mut Store<P>,
) -> Result<(), End>
    ensures { Shows P.Tells (spec.exec_all work.now calls (stmts_at (nodes_of work.now) id) (env_of env.now)) result store.old store.new }
{
    store.take_room()?;
    let result = exec_all(work, calls, id, env, store);
    store.give_room();
    result
}

#[cycle(walk)]
#[inline(never)]
fn chosen<P: Port + Drop>(
    work: &Work<'_>,
    calls: u32,
    value: u32,
    alternatives: u32,
    env: &Env<'_>,
    store: &mut Store<P>,
) -> Result<(), End>
    ensures { Shows P.Tells (spec.chosen work.now calls (expr_at (nodes_of work.now) value) (alternatives_at (nodes_of work.now) alternatives) (env_of env.now)) result store.old store.new }
{
    let v = eval(work, calls, value, env, store)?;
    match find_alternative(work, alternatives, v) {
        None => Err(End::Left(Leave::Raises(Reason::ConstraintError))),
        Some(stmts) => {
            exec_all(work, calls, stmts, env, store)?;
            Ok(())
        }
    }
}
