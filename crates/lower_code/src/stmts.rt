//! Statements (5.1).

ghost use Rattle.std.specs.Prelude.{◌≡◌, ◌<◌, ◌+◌, false};
ghost use Rattle.typed_tree.specs.Decoded.{alternatives_at, expr_at, optional_at, stmt_at, stmts_at};
ghost use Rattle.typed_tree.specs.Syntax.{Case, IfThen, Loop};
ghost use Rattle.lower_emission.specs.Statements as spec;
ghost use Rattle.lower_emission.specs.Emission as value;
ghost use Rattle.lower_emission.specs.Scope.{◌⨟◌, looped, one, with_exit};
ghost use Rattle.lower_values.specs.Words.{env_of, nodes, tables, Emits};
ghost use Rattle.stack_code.specs.declared.instr.Instr.TheVariants as i;

use crate::blocks::{block, cases};
use crate::loops::for_loop;
use crate::output::put_line;
use crate::parallel::{Forked, parallel_block, parallel_for};
use crate::simple::{
    assign_cells, assign_number, exit, get, is_end, procedure, reraise, return_value, returning,
};
use lower_values::exprs::emit;
use lower_values::types::{Emitter, Env};
use stack_code::Instr;
use typed_tree::{Stmt, Value};

/// The code of a statement.
#[cycle(stmt)]
#[tactic(auto, unfolding(lower_emission::specs::Statements::stmt))]
pub fn stmt(env: &Env<'_>, id: u32, out: &mut Emitter)
    ensures { Emits (spec.stmt (tables env.now) (env_of env.now) (stmt_at (nodes env.now) id)) out.old out.new }
{
    match env.typed.nodes.stmt(id) {
        Stmt::Null => {}
        Stmt::Assign {
            root,
            selections,
            value,
            ..
        } => match env.typed.nodes.value(value) {
            Some(Value::Number { check, value }) => {
                let found = env.root(false, root, out);
                assign_number(env, found, selections, check, value, out);
            }
            Some(Value::Cells { composite }) => {
                let found = env.root(false, root, out);
                assign_cells(env, found, selections, composite, out);
            }
            None => {
                out.whole = false;
            }
        },
        Stmt::Call { sub, actuals, .. } => procedure(env, sub, actuals, out),
        Stmt::Exit { from, condition } => exit(env, from, condition, out),
        Stmt::Return => returning(env, 0, out),
        Stmt::ReturnValue { value } => return_value(env, value, out),
        Stmt::Raise { reason } => out.put(env, 0, Instr::Raise(reason)),
        Stmt::Reraise => {
            let found = env.names.handled(out);
            reraise(env, found, out);
        }
        Stmt::If {
            condition,
            stmts,
            otherwise,
        } => if_then(env, condition, stmts, otherwise, out),
        Stmt::Loop {
            number,
            condition,
            stmts,
        } => repeat(env, number, condition, stmts, out),
        Stmt::For {
            number,
            iteration,
            stmts,
        } => for_loop(env, number, iteration, stmts, out),
        Stmt::Block {
            decls,
            stmts,
            handlers,
        } => block(env, decls, stmts, handlers, out),
        Stmt::Case {
            value,
            alternatives,
        } => case(env, value, alternatives, out),
        Stmt::Put { pieces, line, .. } => put_line(env, pieces, line, out),
        Stmt::Get {
            root,
            selections,
            scalar,
            ..
        } => {
            let found = env.root(false, root, out);
            get(env, found, selections, scalar, out);
        }
        Stmt::ParallelFor {
            number,
            site,
            chunk,
            iteration,
            stmts,
        } => {
            let forked = Forked {
                site,
                chunk,
                iteration,
            };
            parallel_for(env, number, forked, stmts, out);
        }
        Stmt::Parallel { site, count, arms } => parallel_block(env, site, count, arms, out),
    }
}

#[cycle(stmt)]
#[inline(never)]
#[tactic(auto, unfolding(lower_emission::specs::Statements::stmt))]
fn case(env: &Env<'_>, value: u32, alternatives: u32, out: &mut Emitter)
    ensures { Emits (spec.stmt (tables env.now) (env_of env.now) (Case (expr_at (nodes env.now) value) (alternatives_at (nodes env.now) alternatives))) out.old out.new }
{
    emit(env, 0, value, out);
    out.keep(env, 0, env.free);
    let free = out.sum(env.free, 1);
    cases(&env.with_free(free), alternatives, env.free, out);
}

/// The code of statements.
#[cycle(stmt)]
#[inline(never)]
#[tactic(auto, unfolding(lower_emission::specs::Statements::all))]
pub fn all(env: &Env<'_>, id: u32, out: &mut Emitter)
    ensures { Emits (spec.all (tables env.now) (env_of env.now) (stmts_at (nodes env.now) id)) out.old out.new }
{
    if let Some(cell) = env.typed.nodes.stmts(id) {
        stmt(env, cell.first, out);
        all(env, cell.rest, out);
    }
}

#[cycle(stmt)]
#[inline(never)]
#[tactic(auto, unfolding(lower_emission::specs::Statements::stmt))]
fn if_then(env: &Env<'_>, condition: u32, stmts: u32, otherwise: u32, out: &mut Emitter)
    ensures { Emits (spec.stmt (tables env.now) (env_of env.now) (IfThen (expr_at (nodes env.now) condition) (stmts_at (nodes env.now) stmts) (stmts_at (nodes env.now) otherwise))) out.old out.new }
{
    emit(env, 0, condition, out);
    let first = out.gap(env, 0);
    all(env, stmts, out);
    if is_end(env, otherwise) {
        out.aim_false(env, 0, first);
    } else {
        let second = out.gap(env, 0);
        out.aim_false(env, 0, first);
        all(env, otherwise, out);
        out.aim(env, 0, second);
    }
}

#[cycle(stmt)]
#[inline(never)]
#[tactic(auto, using(crate::proofs::Reading::present_is), unfolding(lower_emission::specs::Statements::stmt))]
fn repeat(env: &Env<'_>, number: u32, condition: u32, stmts: u32, out: &mut Emitter)
    ensures { Emits (spec.stmt (tables env.now) (env_of env.now) (Loop number (optional_at (nodes env.now) condition) (stmts_at (nodes env.now) stmts))) out.old out.new }
{
    match env.typed.nodes.optional(condition) {
        None => forever(env, number, stmts, out),
        Some(_) => while_loop(env, number, condition, stmts, out),
    }
}

#[cycle(stmt)]
#[inline(never)]
fn forever(env: &Env<'_>, number: u32, stmts: u32, out: &mut Emitter)
    ensures { Emits (looped (env_of env.now) 0 false (λ exit. one (env_of env.now) 0 i.Turn ⨟ spec.all (tables env.now) (with_exit number exit (env_of env.now)) (stmts_at (nodes env.now) stmts)) (λ head. one (env_of env.now) 0 (i.Jump head))) out.old out.new }
{
    let begun = out.begin(env, 0);
    all(&env.with_exit(number, begun.leave), stmts, out);
    let test = out.here();
    out.aim_at(env, 0, begun.enter, test);
    out.put(env, 0, Instr::Jump(begun.head));
    out.aim(env, 0, begun.leave);
}

#[cycle(stmt)]
#[inline(never)]
fn while_loop(env: &Env<'_>, number: u32, condition: u32, stmts: u32, out: &mut Emitter)
    ensures { Emits (looped (env_of env.now) 0 false (λ exit. one (env_of env.now) 0 i.Turn ⨟ spec.all (tables env.now) (with_exit number exit (env_of env.now)) (stmts_at (nodes env.now) stmts)) (λ head. value.emit (tables env.now) (env_of env.now) 0 (expr_at (nodes env.now) condition) ⨟ one (env_of env.now) 1 (i.JTrue head))) out.old out.new }
{
    let begun = out.begin(env, 0);
    all(&env.with_exit(number, begun.leave), stmts, out);
    let test = out.here();
    out.aim_at(env, 0, begun.enter, test);
    emit(env, 0, condition, out);
    out.put(env, 1, Instr::JTrue(begun.head));
    out.aim(env, 0, begun.leave);
}
