//! Parallel loops (5.5) and parallel blocks (5.6.1).

ghost use Rattle.std.specs.Prelude.{◌≡◌, ◌<◌, ◌+◌, ◌-◌, None, Some, true, false, pos};
ghost use Rattle.ada_meaning.specs.Meaning.{arms_of};
ghost use Rattle.typed_tree.specs.Decoded.{arms_at, chunk_at, expr_at, iteration_at, optional_at, stmts_at};
ghost use Rattle.lower_emission.specs.Emission.{chunk_code, chunk_scope, filtered, items_code, loop_kind, range_scope, stepping, threaded, turn_item, turns_code};
ghost use Rattle.typed_tree.specs.Syntax.{Parallel, ParallelFor};
ghost use Rattle.lower_code.specs.Parts as parts;
ghost use Rattle.lower_emission.specs.Statements as spec;
ghost use Rattle.lower_emission.specs.Statements.{all};
ghost use Rattle.lower_emission.specs.Scope.{◌⨟◌, forks, keep, looped, one, taking, thread_scope};
ghost use Rattle.lower_values.specs.Words.{env_of, nodes, tables, Emits, Finds};
ghost use Rattle.stack_code.specs.declared.code.SiteKind.TheVariants as site_kind;
ghost use Rattle.stack_code.specs.declared.instr.Instr.TheVariants as i;

use crate::exits::{Left, left_returns, of_arms, of_stmts};
use crate::loops::{Through, Turns, turn};
use crate::stmts::all;
use lower_values::aggregates::{Components, Steps, own, reached, stepping};
use lower_values::iterations::{
    Counted, all_threads, ascending, chunk_env, counting, first_item, thread_numbers,
};
use lower_values::kinds::loop_kind;
use lower_values::reductions::{Question, ask, forking};
use lower_values::types::{Emitter, Env};
use stack_code::{Instr, SiteKind};
use typed_tree::Iteration;

/// A parallel loop.
#[derive(Clone, Copy)]
pub struct Forked {
    pub site: u32,
    pub chunk: u32,
    pub iteration: u32,
}

/// A parallel loop.
#[cycle(stmt)]
#[inline(never)]
#[tactic(auto, using(crate::proofs::Parallels::loop_is))]
pub fn parallel_for(env: &Env<'_>, number: u32, forked: Forked, stmts: u32, out: &mut Emitter)
    ensures { Emits (spec.stmt (tables env.now) (env_of env.now) (ParallelFor number forked.site (chunk_at (nodes env.now) forked.chunk) (iteration_at (nodes env.now) forked.iteration) (stmts_at (nodes env.now) stmts))) out.old out.new }
{
    forked_loop(env, forked, stmts, out);
    let free2 = out.sum(env.free, 2);
    let free = out.sum(free2, 2);
    ways_of_loop(&env.with_free(free), number, stmts, out);
}

/// A loop's fork, its threads, and the end of the construct.
#[cycle(stmt)]
#[inline(never)]
#[tactic(auto, unfolding(crate::specs::Parts::forked_loop))]
fn forked_loop(env: &Env<'_>, forked: Forked, stmts: u32, out: &mut Emitter)
    ensures { Emits (parts.forked_loop (tables env.now) (env_of env.now) forked.site (chunk_at (nodes env.now) forked.chunk) (iteration_at (nodes env.now) forked.iteration) (λ u. all (tables env.now) u (stmts_at (nodes env.now) stmts))) out.old out.new }
{
    let nest = out.sum(env.nest, 1);
    out.put(env, 0, Instr::Nest);
    let inside = env.with_nest(nest);
    let question = Question {
        site: forked.site,
        kind: loop_kind(env.typed, forked.chunk),
        initial: Instr::Push(0),
    };
    forking(&inside, 0, forked.chunk, forked.iteration, question, out);
    let over = out.gap(&inside, 2);
    thread(env, forked, stmts, out);
    out.aim(&inside, 2, over);
    out.put(&inside, 2, Instr::Unnest);
}

/// What follows a loop's fork.
#[tactic(auto, unfolding(crate::specs::Parts::ways))]
fn ways_of_loop(env: &Env<'_>, number: u32, stmts: u32, out: &mut Emitter)
    ensures { Emits (parts.ways (env_of env.now) (Some number) (spec.exits_of (stmts_at (nodes env.now) stmts))) out.old out.new }
{
    before_ways(env, out);
    let over = out.gap(env, 0);
    left_returns(env, out);
    let left = Left {
        cell: env.free,
        number: Some(number),
    };
    of_stmts(env, left, stmts, out);
    out.aim_false(env, 0, over);
}

/// What follows a block's fork.
#[tactic(auto, unfolding(crate::specs::Parts::ways))]
fn ways_of_block(env: &Env<'_>, arms: u32, out: &mut Emitter)
    ensures { Emits (parts.ways (env_of env.now) None (spec.arm_exits (arms_at (nodes env.now) arms))) out.old out.new }
{
    before_ways(env, out);
    let over = out.gap(env, 0);
    left_returns(env, out);
    let left = Left {
        cell: env.free,
        number: None,
    };
    of_arms(env, left, arms, out);
    out.aim_false(env, 0, over);
}

/// How a construct was left goes to the first free cell, and the value of a return to the next.
fn before_ways(env: &Env<'_>, out: &mut Emitter)
    ensures { Emits (keep (env_of env.now) 2 env.now.free ⨟ keep (env_of env.now) 1 (env.now.free + 1) ⨟ one (env_of env.now) 0 (i.LoadL env.now.free)) out.old out.new }
{
    let value = out.sum(env.free, 1);
    out.keep(env, 1, env.free);
    out.keep(env, 0, value);
    out.put(env, 0, Instr::LoadL(env.free));
}

/// The threads of a parallel loop.
#[cycle(stmt)]
#[inline(never)]
#[tactic(auto, unfolding(lower_emission::specs::Emission::threaded))]
fn thread(env: &Env<'_>, forked: Forked, stmts: u32, out: &mut Emitter)
    ensures { Emits (threaded (tables env.now) (thread_scope forked.site (env_of env.now)) 0 (chunk_at (nodes env.now) forked.chunk) (env.now.free + 1 + 1) (iteration_at (nodes env.now) forked.iteration) (λ u. all (tables env.now) u (stmts_at (nodes env.now) stmts)) ⨟ one (chunk_scope (chunk_at (nodes env.now) forked.chunk) (taking 2 (thread_scope forked.site (env_of env.now)))) 0 i.End) out.old out.new }
{
    let free1 = out.sum(env.free, 1);
    let around = out.sum(free1, 1);
    let outer = env.in_threads(forked.site, 2);
    let inner = chunk_env(&outer, forked.chunk);
    match env.typed.nodes.iteration(forked.iteration) {
        Some(
            Iteration::Range {
                parameter,
                filter,
                ..
            },
        ) => range_thread(&inner, parameter, Turns { filter, stmts }, out),
        Some(
            Iteration::Components {
                item,
                constant,
                count,
                stride,
                filter,
                ..
            },
        ) => {
            let through = Through {
                item,
                constant,
                stride,
            };
            item_thread(&inner, around, count, through, Turns { filter, stmts }, out);
        }
        None => {
            out.whole = false;
        }
    }
    out.put(&inner, 0, Instr::End);
}

#[cycle(stmt)]
#[inline(never)]
fn range_thread(env: &Env<'_>, parameter: u32, turns: Turns, out: &mut Emitter)
    ensures { Emits (turns_code (env_of env.now) 0 env.now.free (one (env_of env.now) 0 i.Turn ⨟ filtered (tables env.now) (range_scope (env_of env.now) None parameter false 0) 0 (optional_at (nodes env.now) turns.filter) (all (tables env.now) (range_scope (env_of env.now) None parameter false 0) (stmts_at (nodes env.now) turns.stmts)))) out.old out.new }
{
    let free = out.sum(env.free, 2);
    let counted = Counted {
        reverse: false,
        first: env.free,
    };
    ascending(env, 0, env.free, out);
    let over = out.gap(env, 0);
    let begun = out.begin(env, 0);
    turn(
        &env.with_parameter(parameter, own(env.free), free),
        turns,
        out,
    );
    out.aim_at(env, 0, begun.enter, begun.head);
    counting(env, 0, counted, begun.head, out);
    out.aim(env, 0, begun.leave);
    out.aim_false(env, 0, over);
}

#[cycle(stmt)]
#[inline(never)]
fn item_thread(
    env: &Env<'_>,
    around: u32,
    count: u32,
    through: Through,
    turns: Turns,
    out: &mut Emitter,
)
    ensures { Emits (items_code (env_of env.now) 0 env.now.free around through.stride count (one (env_of env.now) 0 i.Turn ⨟ filtered (tables env.now) (turn_item (env_of env.now) through.constant through.item through.stride) 0 (optional_at (nodes env.now) turns.filter) (all (tables env.now) (turn_item (env_of env.now) through.constant through.item through.stride) (stmts_at (nodes env.now) turns.stmts)))) out.old out.new }
{
    ascending(env, 0, env.free, out);
    let over = out.gap(env, 0);
    let components = Components {
        size: through.stride,
        count,
    };
    first_item(env, 0, around, components, out);
    item_turns(env, through, turns, out);
    out.aim_false(env, 0, over);
}

#[cycle(stmt)]
#[inline(never)]
fn item_turns(env: &Env<'_>, through: Through, turns: Turns, out: &mut Emitter)
    ensures { Emits (looped (env_of env.now) 0 true (λ exit. one (env_of env.now) 0 i.Turn ⨟ filtered (tables env.now) (turn_item (env_of env.now) through.constant through.item through.stride) 0 (optional_at (nodes env.now) turns.filter) (all (tables env.now) (turn_item (env_of env.now) through.constant through.item through.stride) (stmts_at (nodes env.now) turns.stmts))) (λ head. stepping (env_of env.now) 0 (env.now.free + 1 + 1) through.stride env.now.free head)) out.old out.new }
{
    let free1 = out.sum(env.free, 1);
    let free2 = out.sum(free1, 1);
    let free = out.sum(env.free, 3);
    let begun = out.begin(env, 0);
    let reached = reached(free2, through.stride);
    let inner = env.with_item(through.constant, through.item, reached, free);
    turn(&inner, turns, out);
    out.aim_at(env, 0, begun.enter, begun.head);
    let steps = Steps {
        address: free2,
        stride: through.stride,
        first: env.free,
    };
    stepping(env, 0, steps, begun.head, out);
    out.aim(env, 0, begun.leave);
}

/// A parallel block.
#[cycle(stmt)]
#[inline(never)]
#[tactic(auto, using(crate::proofs::Parallels::block_is))]
pub fn parallel_block(env: &Env<'_>, site: u32, count: u32, arms: u32, out: &mut Emitter)
    ensures { Emits (spec.stmt (tables env.now) (env_of env.now) (Parallel site (optional_at (nodes env.now) count) (arms_at (nodes env.now) arms))) out.old out.new }
{
    forked_block(env, site, count, arms, out);
    let free = out.sum(env.free, 2);
    ways_of_block(&env.with_free(free), arms, out);
}

/// A block's fork, its threads, and the end of the construct.
#[cycle(stmt)]
#[inline(never)]
#[tactic(auto, unfolding(crate::specs::Parts::forked_block))]
fn forked_block(env: &Env<'_>, site: u32, count: u32, arms: u32, out: &mut Emitter)
    ensures { Emits (parts.forked_block (tables env.now) (env_of env.now) site (optional_at (nodes env.now) count) (arms_of (arms_at (nodes env.now) arms)) (spec.arms_code (tables env.now) (spec.arm_scope (tables env.now) (env_of env.now) site) 0 (spec.arm_codes (tables env.now) (spec.arm_scope (tables env.now) (env_of env.now) site) (arms_at (nodes env.now) arms)))) out.old out.new }
{
    let nest = out.sum(env.nest, 1);
    out.put(env, 0, Instr::Nest);
    let inside = env.with_nest(nest);
    forking_block(&inside, site, count, arms, out);
    let over = out.gap(&inside, 2);
    let thread = env.in_threads(site, 4);
    arms_from(&thread, 0, arms, out);
    out.put(&thread, 0, Instr::End);
    out.aim(&inside, 2, over);
    out.put(&inside, 2, Instr::Unnest);
}

/// The fork of a block, with what it is asked.
fn forking_block(env: &Env<'_>, site: u32, threads: u32, arms: u32, out: &mut Emitter)
    ensures { Emits (chunk_code (tables env.now) (env_of env.now) 0 (spec.chunk_by (tables env.now) (optional_at (nodes env.now) threads)) ⨟ one (env_of env.now) 0 (i.Push (pos 0)) ⨟ one (env_of env.now) 1 (i.Push (pos (arms_of (arms_at (nodes env.now) arms) - 1)))
        ⨟ one (env_of env.now) (0 + 1 + 1) (i.LoadL env.now.free) ⨟ one (env_of env.now) (0 + 1 + 1 + 1) (i.LoadL (env.now.free + 1)) ⨟ one (env_of env.now) (1 + 1 + 1 + 1) (i.Push (pos 0)) ⨟ forks (env_of env.now) (0 + 1 + 1 + 1 + 1 + 1) (site_kind.Block (arms_of (arms_at (nodes env.now) arms))) site) out.old out.new }
{
    block_threads(env, threads, out);
    let count = arms_count(env, arms, out);
    let last = count.saturating_sub(1);
    out.put(env, 0, Instr::Push(0));
    out.put(env, 1, Instr::Push(i64::from(last)));
    let question = Question {
        site,
        kind: SiteKind::Block(count),
        initial: Instr::Push(0),
    };
    ask(env, 0, question, out);
}

#[tactic(auto, using(crate::proofs::Reading::present_is), unfolding(lower_emission::specs::Emission::chunk_code))]
fn block_threads(env: &Env<'_>, count: u32, out: &mut Emitter)
    ensures { Emits (chunk_code (tables env.now) (env_of env.now) 0 (spec.chunk_by (tables env.now) (optional_at (nodes env.now) count))) out.old out.new }
{
    match env.typed.nodes.optional(count) {
        None => all_threads(env, 0, out),
        Some(_) => thread_numbers(env, 0, count, out),
    }
}

fn arms_count(env: &Env<'_>, id: u32, out: &mut Emitter) -> u32
    ensures { Finds (arms_of (arms_at (nodes env.now) id)) out.old result out.new }
{
    match env.typed.nodes.arms(id) {
        None => 0,
        Some(cell) => {
            let rest = arms_count(env, cell.rest, out);
            out.sum(rest, 1)
        }
    }
}

fn in_share(env: &Env<'_>, number: u32, out: &mut Emitter)
    ensures { Emits (spec.in_share (tables env.now) (env_of env.now) number) out.old out.new }
{
    let number = i64::from(number);
    out.operate(env, 0, Instr::LoadL(2), Instr::Push(number), Instr::Le);
    out.operate(env, 1, Instr::Push(number), Instr::LoadL(3), Instr::Le);
    out.put(env, 2, Instr::Min);
}

/// The arms of a share, of those from a number on.
#[cycle(stmt)]
#[inline(never)]
#[tactic(auto, unfolding(lower_emission::specs::Statements::arm_codes))]
fn arms_from(env: &Env<'_>, number: u32, id: u32, out: &mut Emitter)
    ensures { Emits (spec.arms_code (tables env.now) (env_of env.now) number (spec.arm_codes (tables env.now) (env_of env.now) (arms_at (nodes env.now) id))) out.old out.new }
{
    if let Some(cell) = env.typed.nodes.arms(id) {
        let next = out.sum(number, 1);
        in_share(env, number, out);
        let over = out.gap(env, 0);
        all(env, cell.first, out);
        out.aim_false(env, 0, over);
        arms_from(env, next, cell.rest, out);
    }
}
