//! One loop for the components of several runs, with the number of the run on the stack (4.3.3).

ghost use Rattle.std.specs.Prelude.{◌≡◌, ◌<◌, ◌+◌, ◌+ℤ◌, ◌-ℤ◌, pos, true, IfSome};
ghost use Rattle.typed_tree.specs.Decoded.{as_runs, part_at, value_at};
ghost use Rattle.lower_emission.specs.Emission as spec;
ghost use Rattle.lower_emission.specs.Scope.{◌⨟◌, looped, one, when_};
ghost use Rattle.lower_values.specs.Runs.{runs_from};
ghost use Rattle.lower_values.specs.Words.{env_of, is_narrow, nodes, tables, Emits, Finds, Fits};
ghost use Rattle.stack_code.specs.declared.instr.Instr.TheVariants as i;

use crate::aggregates::{
    Steps, Turned, before_turns, last_value, stepping, turned_component, turning,
};
use crate::types::{Emitter, Env};
use stack_code::Instr;
use typed_tree::{Leaf, Nodes, Run};

/// A run, and the number of the list of those behind it.
#[derive(Clone, Copy)]
pub struct Found {
    pub run: Run,
    pub rest: u32,
}

/// The first run of a list.
pub fn first_run(nodes: &Nodes, runs: u32) -> Option<Found>
    ensures is { as_runs (part_at nodes.now runs) ≡ runs_from nodes.now result }
    ensures below { IfSome result (λ found. found.rest < runs) }
{
    let mut at = runs;
    while let Some(cell) = nodes.leaf(at) {
        if let Leaf::Run(run) = cell.leaf {
            return Some(Found {
                run,
                rest: cell.rest,
            });
        }
        at = cell.rest;
    }
    None
}

/// The height at which a component's code stands in the loop through these runs.
#[tactic(auto, using(crate::proofs::Fitting::fits_kept))]
pub fn turn_height(env: &Env<'_>, h: u32, runs: u32, out: &mut Emitter) -> u32
    ensures finds { Finds (spec.turn_height (as_runs (part_at (nodes env.now) runs)) h) out.old result out.new }
    ensures fits { Fits (is_narrow (spec.turn_height (as_runs (part_at (nodes env.now) runs)) h)) out.old out.new }
{
    match first_run(&env.typed.nodes, runs) {
        None => h,
        Some(found) => match first_run(&env.typed.nodes, found.rest) {
            None => h,
            Some(_) => out.sum(h, 1),
        },
    }
}

/// Runs that are left, and the number of the first of them.
#[derive(Clone, Copy)]
pub struct Left {
    pub number: u32,
    pub runs: u32,
}

/// The components of runs whose value takes turns.
#[cycle(emit)]
#[inline(never)]
pub fn turnings(env: &Env<'_>, h: u32, to: u32, turned: Turned, runs: u32, out: &mut Emitter)
    ensures { Emits (spec.turnings (env_of env.now) h to turned.parameter.first (spec.component (tables env.now) (spec.iterated_scope (env_of env.now) turned.parameter.parameter) (spec.turn_height (as_runs (part_at (nodes env.now) runs)) h) (env.now.free + 1 + 1) (value_at (nodes env.now) turned.value)) (as_runs (part_at (nodes env.now) runs))) out.old out.new }
{
    if let Some(found) = first_run(&env.typed.nodes, runs) {
        match first_run(&env.typed.nodes, found.rest) {
            None => {
                if found.run.count != 0 {
                    turning(env, h, to, turned, found.run, out);
                }
            }
            Some(_) => run_turnings(env, h, to, turned, Left { number: 0, runs }, out),
        }
    }
}

#[cycle(emit)]
#[inline(never)]
fn run_turnings(env: &Env<'_>, h: u32, to: u32, turned: Turned, left: Left, out: &mut Emitter)
    ensures { Emits (spec.run_turnings (env_of env.now) h to turned.parameter.first (spec.component (tables env.now) (spec.iterated_scope (env_of env.now) turned.parameter.parameter) (h + 1) (env.now.free + 1 + 1) (value_at (nodes env.now) turned.value)) left.number (as_runs (part_at (nodes env.now) left.runs))) out.old out.new }
{
    if let Some(found) = first_run(&env.typed.nodes, left.runs) {
        if found.run.count == 0 {
            let number = out.sum(left.number, 1);
            let rest = Left {
                number,
                runs: found.rest,
            };
            run_turnings(env, h, to, turned, rest, out);
        } else {
            let h1 = out.sum(h, 1);
            out.put(env, h, Instr::Push(i64::from(left.number)));
            entering(env, h1, to, turned.parameter.first, found.run, out);
            run_loop(env, h, to, turned, left, out);
            out.put(env, h1, Instr::Pop);
        }
    }
}

/// The parameter, its last value and the address of the first component of a run.
fn entering(env: &Env<'_>, h: u32, to: u32, low: i64, run: Run, out: &mut Emitter)
    ensures { Emits (spec.entering (env_of env.now) h to low run.count run.first) out.old out.new }
{
    let first = out.sum(to, run.first);
    let last = last_value(low, run.count, out);
    before_turns(env, h, first, low, last, out);
}

#[cycle(emit)]
#[inline(never)]
fn run_loop(env: &Env<'_>, h: u32, to: u32, turned: Turned, left: Left, out: &mut Emitter)
    ensures { Emits (looped (env_of env.now) (h + 1) true (λ exit. one (env_of env.now) (h + 1) i.Turn ⨟ spec.component (tables env.now) (spec.iterated_scope (env_of env.now) turned.parameter.parameter) (h + 1) (env.now.free + 1 + 1) (value_at (nodes env.now) turned.value)) (λ head. spec.run_steps (env_of env.now) h to turned.parameter.first head left.number (as_runs (part_at (nodes env.now) left.runs)))) out.old out.new }
{
    let h1 = out.sum(h, 1);
    let free1 = out.sum(env.free, 1);
    let free2 = out.sum(free1, 1);
    let begun = out.begin(env, h1);
    turned_component(env, h1, turned, free2, out);
    out.aim_at(env, h1, begun.enter, begun.head);
    let goal = Goal {
        to,
        low: turned.parameter.first,
        head: begun.head,
    };
    run_steps(env, h, goal, left, out);
    out.aim(env, h1, begun.leave);
}

/// Where an aggregate's cells begin, the first value of a parameter, and where the turns of a loop begin.
#[derive(Clone, Copy)]
struct Goal {
    to: u32,
    low: i64,
    head: u32,
}

/// Behind a turn: in the run of each number its next turn, or the first one of the next run.
fn run_steps(env: &Env<'_>, h: u32, goal: Goal, left: Left, out: &mut Emitter)
    ensures { Emits (spec.run_steps (env_of env.now) h goal.to goal.low goal.head left.number (as_runs (part_at (nodes env.now) left.runs))) out.old out.new }
{
    if let Some(found) = first_run(&env.typed.nodes, left.runs) {
        let number = out.sum(left.number, 1);
        let rest = Left {
            number,
            runs: found.rest,
        };
        run_step(
            env,
            h,
            goal,
            left.number,
            Behind {
                stride: found.run.stride,
                rest,
            },
            out,
        );
        run_steps(env, h, goal, rest, out);
    }
}

/// How far the components of a run are apart, and the runs behind it.
#[derive(Clone, Copy)]
struct Behind {
    stride: u32,
    rest: Left,
}

fn run_step(env: &Env<'_>, h: u32, goal: Goal, number: u32, run: Behind, out: &mut Emitter)
    ensures { Emits (one (env_of env.now) (h + 1) i.Dup ⨟ one (env_of env.now) (h + 1 + 1) (i.Push (pos number)) ⨟ one (env_of env.now) (h + 1 + 1 + 1) i.Eq ⨟ when_ (env_of env.now) (h + 1) (spec.stepping (env_of env.now) (h + 1) (env.now.free + 1 + 1) run.stride env.now.free goal.head ⨟ spec.entering_next (env_of env.now) h goal.to goal.low goal.head run.rest.number (as_runs (part_at (nodes env.now) run.rest.runs)))) out.old out.new }
{
    let h1 = out.sum(h, 1);
    let free1 = out.sum(env.free, 1);
    let address = out.sum(free1, 1);
    out.operate(
        env,
        h1,
        Instr::Dup,
        Instr::Push(i64::from(number)),
        Instr::Eq,
    );
    let skip = out.gap(env, h1);
    let steps = Steps {
        address,
        stride: run.stride,
        first: env.free,
    };
    stepping(env, h1, steps, goal.head, out);
    entering_next(env, h, goal, run.rest, out);
    out.aim_false(env, h1, skip);
}

/// The next run that has components is entered.
fn entering_next(env: &Env<'_>, h: u32, goal: Goal, left: Left, out: &mut Emitter)
    ensures { Emits (spec.entering_next (env_of env.now) h goal.to goal.low goal.head left.number (as_runs (part_at (nodes env.now) left.runs))) out.old out.new }
{
    if let Some(found) = first_run(&env.typed.nodes, left.runs) {
        if found.run.count == 0 {
            let number = out.sum(left.number, 1);
            let rest = Left {
                number,
                runs: found.rest,
            };
            entering_next(env, h, goal, rest, out);
        } else {
            let h1 = out.sum(h, 1);
            out.put(env, h1, Instr::Pop);
            out.put(env, h, Instr::Push(i64::from(left.number)));
            entering(env, h1, goal.to, goal.low, found.run, out);
            out.put(env, h1, Instr::Jump(goal.head));
        }
    }
}
