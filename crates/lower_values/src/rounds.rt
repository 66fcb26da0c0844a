//! A value that is computed anew for each of several components, as a part that is repeated (4.3.3).

ghost use Rattle.std.specs.Prelude.{◌≡◌, ◌<◌, ◌+◌, ◌-ℤ◌, nat_lt, pos};
ghost use Rattle.ada_base.specs.declared.operation.Base.TheVariants.{Wide};
ghost use Rattle.typed_tree.specs.Decoded.{as_runs, part_at, value_at};
ghost use Rattle.lower_emission.specs.Emission as spec;
ghost use Rattle.lower_emission.specs.Scope.{◌⨟◌, keep, one, taking};
ghost use Rattle.lower_values.specs.Words.{env_of, is_long, nodes, tables, Emits, Finds, Fits, Learns};
ghost use Rattle.stack_code.specs.declared.instr.Instr.TheVariants as i;

use crate::aggregates::{component, last_value};
use crate::runs::first_run;
use crate::types::{Emitter, Env};
use ada_base::Base;
use stack_code::Instr;
use typed_tree::Run;

/// A sum, if there is room for it.
#[tactic(auto, using(crate::proofs::Fitting::fits_kept, crate::proofs::Fitting::fits_lost))]
fn sum(number: u64, more: u64, out: &mut Emitter) -> u64
    ensures finds { Finds (number + more) out.old result out.new }
    ensures fits { Fits (is_long (number + more)) out.old out.new }
{
    match number.checked_add(more) {
        Some(found) => found,
        None => {
            out.whole = false;
            0
        }
    }
}

/// A number as one of code, if there is room for it.
#[tactic(auto, using(crate::proofs::Fitting::fits_kept, crate::proofs::Fitting::fits_lost))]
fn coded(number: u64, out: &mut Emitter) -> i64
    ensures learns { Learns (pos number) out.old result out.new }
    ensures fits { Fits (nat_lt number 9223372036854775808) out.old out.new }
{
    match i64::try_from(number) {
        Ok(found) => found,
        Err(_) => {
            out.whole = false;
            0
        }
    }
}

/// How many components runs have.
#[tactic(auto, using(crate::proofs::Fitting::fits_kept, crate::proofs::Fitting::fits_total))]
fn components_of(env: &Env<'_>, runs: u32, out: &mut Emitter) -> u64
    ensures finds { Finds (spec.components_of (as_runs (part_at (nodes env.now) runs))) out.old result out.new }
    ensures fits { Fits (is_long (spec.components_of (as_runs (part_at (nodes env.now) runs)))) out.old out.new }
{
    match first_run(&env.typed.nodes, runs) {
        None => 0,
        Some(found) => {
            let rest = components_of(env, found.rest, out);
            sum(u64::from(found.run.count), rest, out)
        }
    }
}

/// Runs that are left, and the number of the first of their components.
#[derive(Clone, Copy)]
struct Left {
    number: u64,
    runs: u32,
}

/// The components of runs, each by its round.
#[cycle(emit)]
#[inline(never)]
pub fn repeating(env: &Env<'_>, h: u32, to: u32, value: u32, runs: u32, out: &mut Emitter)
    ensures { Emits (spec.repeating (env_of env.now) h to (spec.component (tables env.now) (taking 2 (env_of env.now)) h (env.now.free + 1) (value_at (nodes env.now) value)) (as_runs (part_at (nodes env.now) runs))) out.old out.new }
{
    let count = components_of(env, runs, out);
    if count != 0 {
        let free1 = out.sum(env.free, 1);
        let free = out.sum(env.free, 2);
        out.put(env, h, Instr::Push(0));
        out.keep(env, h, env.free);
        out.put(env, h, Instr::Repeat(count));
        let head = out.here();
        locating_in(env, h, to, Left { number: 0, runs }, out);
        component(&env.with_free(free), h, free1, value, out);
        next_round(env, h, head, out);
    }
}

/// The number of the round goes on, and another one begins where it follows.
fn next_round(env: &Env<'_>, h: u32, head: u32, out: &mut Emitter)
    ensures { Emits (one (env_of env.now) h (i.LoadL env.now.free) ⨟ one (env_of env.now) (h + 1) (i.AddI (pos 1) Wide) ⨟ keep (env_of env.now) (h + 1) env.now.free ⨟ one (env_of env.now) h (i.Again head)) out.old out.new }
{
    out.put(env, h, Instr::LoadL(env.free));
    out.put_above(env, h, 1, Instr::AddI(1, Base::Wide));
    out.keep(env, h, env.free);
    out.put(env, h, Instr::Again(head));
}

/// The address of the round's component, in a run of whose components the first has that number; one that has none needs
/// none.
fn locating(env: &Env<'_>, h: u32, to: u32, number: u64, run: Run, out: &mut Emitter)
    ensures { Emits (spec.locating (env_of env.now) h to number run) out.old out.new }
{
    if run.count != 0 {
        let first = out.sum(to, run.first);
        let free1 = out.sum(env.free, 1);
        let low = coded(number, out);
        let high = last_value(low, run.count, out);
        let index = Instr::Index(low, high, run.stride);
        out.operate(env, h, Instr::Local(first), Instr::LoadL(env.free), index);
        out.keep(env, h, free1);
    }
}

/// The same in the run that has it.
fn locating_in(env: &Env<'_>, h: u32, to: u32, left: Left, out: &mut Emitter)
    ensures { Emits (spec.locating_in (env_of env.now) h to left.number (as_runs (part_at (nodes env.now) left.runs))) out.old out.new }
{
    if let Some(found) = first_run(&env.typed.nodes, left.runs) {
        match first_run(&env.typed.nodes, found.rest) {
            None => locating(env, h, to, left.number, found.run, out),
            Some(_) => {
                let number = sum(left.number, u64::from(found.run.count), out);
                let rest = Left {
                    number,
                    runs: found.rest,
                };
                let limit = coded(number, out);
                out.operate(
                    env,
                    h,
                    Instr::LoadL(env.free),
                    Instr::Push(limit),
                    Instr::Lt,
                );
                let first = out.gap(env, h);
                locating(env, h, to, left.number, found.run, out);
                let second = out.gap(env, h);
                out.aim_false(env, h, first);
                locating_in(env, h, to, rest, out);
                out.aim(env, h, second);
            }
        }
    }
}
