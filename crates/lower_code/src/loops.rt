//! Loops (5.5).

ghost use Rattle.std.specs.Prelude.{◌≡◌, ◌<◌, ◌+◌, Some, true};
ghost use Rattle.typed_tree.specs.Decoded.{check_at, expr_at, iteration_at, optional_at, stmts_at};
ghost use Rattle.lower_emission.specs.Emission.{counting, filtered, item_scope, iterated, range_scope, stepping};
ghost use Rattle.lower_emission.specs.Statements.{all};
ghost use Rattle.lower_emission.specs.Scope.{◌⨟◌, looped, one};
ghost use Rattle.lower_values.specs.Words.{env_of, nodes, tables, Emits};
ghost use Rattle.stack_code.specs.declared.instr.Instr.TheVariants as i;

use crate::stmts::all;
use lower_values::aggregates::{Steps, own, reached, stepping};
use lower_values::exprs::emit;
use lower_values::iterations::{
    Array, Counted, array_address, ascending, bounds, bounds_code, counting, first_parameter,
    positions,
};
use lower_values::types::{Emitter, Env};
use typed_tree::Iteration;

/// What is done in each turn.
#[derive(Clone, Copy)]
pub struct Turns {
    pub filter: u32,
    pub stmts: u32,
}

/// Statements are done where the filter passes.
#[cycle(stmt)]
#[inline(never)]
#[tactic(auto, using(crate::proofs::Reading::present_is), unfolding(lower_emission::specs::Emission::filtered))]
pub fn turn(env: &Env<'_>, turns: Turns, out: &mut Emitter)
    ensures { Emits (filtered (tables env.now) (env_of env.now) 0 (optional_at (nodes env.now) turns.filter) (all (tables env.now) (env_of env.now) (stmts_at (nodes env.now) turns.stmts))) out.old out.new }
{
    match env.typed.nodes.optional(turns.filter) {
        None => all(env, turns.stmts, out),
        Some(_) => {
            emit(env, 0, turns.filter, out);
            let over = out.gap(env, 0);
            all(env, turns.stmts, out);
            out.aim_false(env, 0, over);
        }
    }
}

/// A loop over a range or an array.
#[cycle(stmt)]
#[inline(never)]
#[tactic(auto, unfolding(lower_emission::specs::Emission::iterated))]
pub fn for_loop(env: &Env<'_>, number: u32, iteration: u32, stmts: u32, out: &mut Emitter)
    ensures { Emits (iterated (tables env.now) (env_of env.now) 0 (Some number) (iteration_at (nodes env.now) iteration) (λ t. all (tables env.now) t (stmts_at (nodes env.now) stmts))) out.old out.new }
{
    match env.typed.nodes.iteration(iteration) {
        Some(
            Iteration::Range {
                parameter,
                reverse,
                low,
                high,
                check,
                filter,
            },
        ) => {
            bounds(env, 0, low, high, out);
            ascending(env, 0, env.free, out);
            let over = out.gap(env, 0);
            bounds_code(env, 0, env.free, check, out);
            let turns = Turns { filter, stmts };
            range_turns(env, number, parameter, reverse, turns, out);
            out.aim_false(env, 0, over);
        }
        Some(
            Iteration::Components {
                item,
                constant,
                root,
                selections,
                count,
                stride,
                filter,
                ..
            },
        ) => {
            let array = Array {
                constant,
                root,
                selections,
            };
            array_address(env, 0, array, out);
            if count != 0 {
                positions(env, 0, count, out);
                let turns = Turns { filter, stmts };
                let through = Through {
                    item,
                    constant,
                    stride,
                };
                item_turns(env, number, through, turns, out);
            }
        }
        None => {
            out.whole = false;
        }
    }
}

#[cycle(stmt)]
#[inline(never)]
fn range_turns(
    env: &Env<'_>,
    number: u32,
    parameter: u32,
    reverse: bool,
    turns: Turns,
    out: &mut Emitter,
)
    ensures { Emits (looped (env_of env.now) 0 true (λ exit. one (env_of env.now) 0 i.Turn ⨟ filtered (tables env.now) (range_scope (env_of env.now) (Some number) parameter reverse exit) 0 (optional_at (nodes env.now) turns.filter) (all (tables env.now) (range_scope (env_of env.now) (Some number) parameter reverse exit) (stmts_at (nodes env.now) turns.stmts))) (λ head. one (env_of env.now) 0 (counting reverse env.now.free head))) out.old out.new }
{
    let counted = Counted {
        reverse,
        first: env.free,
    };
    let begun = out.begin(env, 0);
    let cell = first_parameter(counted, out);
    let free = out.sum(env.free, 2);
    let inside = env.with_parameter(parameter, own(cell), free);
    turn(&inside.with_exit(number, begun.leave), turns, out);
    out.aim_at(env, 0, begun.enter, begun.head);
    counting(env, 0, counted, begun.head, out);
    out.aim(env, 0, begun.leave);
}

/// What a loop goes through: its item, and how far the next is.
#[derive(Clone, Copy)]
pub struct Through {
    pub item: u32,
    pub constant: bool,
    pub stride: u32,
}

#[cycle(stmt)]
#[inline(never)]
fn item_turns(env: &Env<'_>, number: u32, through: Through, turns: Turns, out: &mut Emitter)
    ensures { Emits (looped (env_of env.now) 0 true (λ exit. one (env_of env.now) 0 i.Turn ⨟ filtered (tables env.now) (item_scope (env_of env.now) (Some number) through.constant through.item through.stride exit) 0 (optional_at (nodes env.now) turns.filter) (all (tables env.now) (item_scope (env_of env.now) (Some number) through.constant through.item through.stride exit) (stmts_at (nodes env.now) turns.stmts))) (λ head. stepping (env_of env.now) 0 env.now.free through.stride (env.now.free + 1) head)) out.old out.new }
{
    let first = out.sum(env.free, 1);
    let free = out.sum(env.free, 3);
    let begun = out.begin(env, 0);
    let reached = reached(env.free, through.stride);
    let inside = env.with_item(through.constant, through.item, reached, free);
    turn(&inside.with_exit(number, begun.leave), turns, out);
    out.aim_at(env, 0, begun.enter, begun.head);
    let steps = Steps {
        address: env.free,
        stride: through.stride,
        first,
    };
    stepping(env, 0, steps, begun.head, out);
    out.aim(env, 0, begun.leave);
}
