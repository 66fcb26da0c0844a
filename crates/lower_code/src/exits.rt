//! Behind the fork of a parallel construct: where the code goes that left it (5.5, 5.6.1, 5.7).

ghost use Rattle.std.specs.Prelude.{◌≡◌, ◌<◌, ◌+◌};
ghost use Rattle.typed_tree.specs.Decoded.{alternatives_at, arms_at, handlers_at, stmt_at, stmts_at};
ghost use Rattle.lower_emission.specs.Statements as spec;
ghost use Rattle.lower_values.specs.Words.{env_of, nodes, Emits};

use crate::simple::{exiting, returning, returning_value};
use lower_values::types::{Emitter, Env};
use stack_code::Instr;
use typed_tree::{Handler, Stmt};

/// The cell of how a construct was left, and the number of a parallel loop (5.5); a block has none (5.6.1).
#[derive(Clone, Copy)]
pub struct Left {
    pub cell: u32,
    pub number: Option<u32>,
}

/// Whether a construct was left in a way.
pub fn left_by(env: &Env<'_>, d: u32, way: u32, out: &mut Emitter)
    ensures { Emits (spec.left_by (env_of env.now) d way) out.old out.new }
{
    out.operate(
        env,
        0,
        Instr::LoadL(d),
        Instr::Push(i64::from(way)),
        Instr::Eq,
    );
}

fn is_own(number: Option<u32>, n: u32) -> bool
    ensures { result ≡ spec.is_own number n }
{
    match number {
        None => false,
        Some(own) => own == n,
    }
}

fn of_loop(env: &Env<'_>, left: Left, n: u32, out: &mut Emitter)
    ensures { Emits (spec.exit_code (env_of env.now) left.cell left.number n) out.old out.new }
{
    if !is_own(left.number, n) {
        let way = out.sum(n, 3);
        left_by(env, left.cell, way, out);
        let over = out.gap(env, 0);
        exiting(env, n, out);
        out.aim_false(env, 0, over);
    }
}

#[cycle(exits)]
#[tactic(auto, using(crate::proofs::Leavings::exits_both))]
fn of_stmt(env: &Env<'_>, left: Left, id: u32, out: &mut Emitter)
    ensures { Emits (spec.exits_code (env_of env.now) left.cell left.number (spec.stmt_exits (stmt_at (nodes env.now) id))) out.old out.new }
{
    match env.typed.nodes.stmt(id) {
        Stmt::Exit { from, .. } => of_loop(env, left, from, out),
        Stmt::If {
            stmts,
            otherwise,
            ..
        } => {
            of_stmts(env, left, stmts, out);
            of_stmts(env, left, otherwise, out);
        }
        Stmt::Case { alternatives, .. } => of_alternatives(env, left, alternatives, out),
        Stmt::Loop { stmts, .. } | Stmt::For { stmts, .. } | Stmt::ParallelFor { stmts, .. } => {
            of_stmts(env, left, stmts, out);
        }
        Stmt::Parallel { arms, .. } => of_arms(env, left, arms, out),
        Stmt::Block {
            stmts,
            handlers,
            ..
        } => {
            of_stmts(env, left, stmts, out);
            of_handlers(env, left, handlers, out);
        }
        _ => {}
    }
}

/// The exits in statements.
#[cycle(exits)]
#[tactic(auto, using(crate::proofs::Leavings::exits_both))]
pub fn of_stmts(env: &Env<'_>, left: Left, id: u32, out: &mut Emitter)
    ensures { Emits (spec.exits_code (env_of env.now) left.cell left.number (spec.exits_of (stmts_at (nodes env.now) id))) out.old out.new }
{
    if let Some(cell) = env.typed.nodes.stmts(id) {
        of_stmt(env, left, cell.first, out);
        of_stmts(env, left, cell.rest, out);
    }
}

#[cycle(exits)]
#[tactic(auto, using(crate::proofs::Leavings::exits_both))]
fn of_alternatives(env: &Env<'_>, left: Left, id: u32, out: &mut Emitter)
    ensures { Emits (spec.exits_code (env_of env.now) left.cell left.number (spec.case_exits (alternatives_at (nodes env.now) id))) out.old out.new }
{
    if let Some(cell) = env.typed.nodes.alternatives(id) {
        match env.typed.nodes.alternative(cell.first) {
            None => of_alternatives(env, left, cell.rest, out),
            Some(alternative) => {
                of_stmts(env, left, alternative.stmts, out);
                of_alternatives(env, left, cell.rest, out);
            }
        }
    }
}

/// The exits in the arms of a parallel block.
#[cycle(exits)]
#[tactic(auto, using(crate::proofs::Leavings::exits_both))]
pub fn of_arms(env: &Env<'_>, left: Left, id: u32, out: &mut Emitter)
    ensures { Emits (spec.exits_code (env_of env.now) left.cell left.number (spec.arm_exits (arms_at (nodes env.now) id))) out.old out.new }
{
    if let Some(cell) = env.typed.nodes.arms(id) {
        of_stmts(env, left, cell.first, out);
        of_arms(env, left, cell.rest, out);
    }
}

#[cycle(exits)]
#[tactic(auto, using(crate::proofs::Leavings::exits_both))]
fn of_handlers(env: &Env<'_>, left: Left, id: u32, out: &mut Emitter)
    ensures { Emits (spec.exits_code (env_of env.now) left.cell left.number (spec.handler_exits (handlers_at (nodes env.now) id))) out.old out.new }
{
    if let Some(cell) = env.typed.nodes.handlers(id) {
        match env.typed.nodes.handler(cell.first) {
            None => of_handlers(env, left, cell.rest, out),
            Some(Handler::Others { stmts } | Handler::Reasons { stmts, .. }) => {
                of_stmts(env, left, stmts, out);
                of_handlers(env, left, cell.rest, out);
            }
        }
    }
}

/// Returns behind a fork, whose value is in the cell behind that of the way.
pub fn left_returns(env: &Env<'_>, out: &mut Emitter)
    ensures { Emits (spec.left_returns (env_of env.now)) out.old out.new }
{
    let value = out.sum(env.free, 1);
    left_by(env, env.free, 1, out);
    let first = out.gap(env, 0);
    returning(env, 0, out);
    out.aim_false(env, 0, first);
    left_by(env, env.free, 2, out);
    let second = out.gap(env, 0);
    out.put(env, 0, Instr::LoadL(value));
    returning_value(env, out);
    out.aim_false(env, 0, second);
}
