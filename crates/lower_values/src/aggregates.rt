//! Arrays and records (4.3).

ghost use Rattle.std.specs.Prelude.{◌≡◌, ◌<◌, ◌+◌, ◌*◌, ◌+ℤ◌, ◌-ℤ◌, ◌-◌, min, nat_eq, nat_lt, ◌&&◌, pos, cond, Option, true, false};
ghost use Rattle.ada_base.specs.Operation.{is_in_base};
ghost use Rattle.ada_base.specs.declared.operation.Base.TheVariants.{Wide};
ghost use Rattle.typed_tree.specs.Decoded.{associations_at, as_runs, composite_at, expr_at, part_at, selections_at, value_at};
ghost use Rattle.lower_emission.specs.Emission as spec;
ghost use Rattle.lower_emission.specs.Scope.{◌⨟◌, keep, looped, one, own, taking};
ghost use Rattle.lower_values.specs.Words.{env_of, nodes, tables, Emits, Fits, Learns};
ghost use Rattle.stack_code.specs.declared.instr.Instr.TheVariants as i;

use crate::cells::{cells_of, composite_width, product, width};
use crate::exprs::{address, checked, emit, put_into, selected};
use crate::repeats::{is_plain, is_repeated};
use crate::rounds::repeating;
use crate::runs::turnings;
use crate::types::{Emitter, Env};
use lower_emission::types::{Level, Named, Where};
use stack_code::Instr;
use typed_tree::{Composite, Iterated, Leaf, Run, Value};

/// An array or record goes to the cells of the frame from one on.
#[cycle(emit)]
#[inline(never)]
#[tactic(auto, unfolding(lower_emission::specs::Emission::composed))]
pub fn composed(env: &Env<'_>, h: u32, to: u32, id: u32, out: &mut Emitter)
    ensures { Emits (spec.composed (tables env.now) (env_of env.now) h to (composite_at (nodes env.now) id)) out.old out.new }
{
    let h1 = out.sum(h, 1);
    match env.typed.nodes.composite(id) {
        Composite::WholeVariable {
            root,
            selections,
            subtype,
            ..
        } => {
            let found = env.root(false, root, out);
            let from = Source {
                found,
                selections,
                subtype,
            };
            copied(env, h, to, from, out);
        }
        Composite::WholeConstant {
            root,
            selections,
            subtype,
            ..
        } => {
            let found = env.root(true, root, out);
            let from = Source {
                found,
                selections,
                subtype,
            };
            copied(env, h, to, from, out);
        }
        Composite::WholeTarget { subtype, .. } => {
            let cells = cells_of(env, subtype, out);
            let found = env.names.target(out);
            out.put(env, h, Instr::Local(to));
            address(env, h1, found, out);
            out.put_above(env, h, 2, Instr::Copy(cells));
        }
        Composite::If {
            condition,
            value,
            otherwise,
        } => {
            emit(env, h, condition, out);
            let first = out.gap(env, h);
            composed(env, h, to, value, out);
            let second = out.gap(env, h);
            out.aim_false(env, h, first);
            composed(env, h, to, otherwise, out);
            out.aim(env, h, second);
        }
        Composite::Aggregate {
            cells,
            associations,
            ..
        } => {
            out.put(env, h, Instr::Local(to));
            out.put(env, h1, Instr::Fill(cells, 0));
            associated(env, h, to, associations, out);
        }
    }
}

/// What is copied: a part of what is named, with its subtype.
#[derive(Clone, Copy)]
struct Source {
    found: Option<Named>,
    selections: u32,
    subtype: u32,
}

#[cycle(emit)]
#[inline(never)]
fn copied(env: &Env<'_>, h: u32, to: u32, from: Source, out: &mut Emitter)
    ensures { Emits (one (env_of env.now) h (i.Local to) ⨟ spec.address (env_of env.now) (h + 1) from.found ⨟ spec.selected (tables env.now) (env_of env.now) (h + 1 + 1) (selections_at (nodes env.now) from.selections) ⨟ one (env_of env.now) (h + 1 + 1) (i.Copy (spec.cells_of (tables env.now) from.subtype))) out.old out.new }
{
    let h1 = out.sum(h, 1);
    let h2 = out.sum(h1, 1);
    let cells = cells_of(env, from.subtype, out);
    out.put(env, h, Instr::Local(to));
    address(env, h1, from.found, out);
    selected(env, h2, from.selections, out);
    out.put(env, h2, Instr::Copy(cells));
}

#[cycle(emit)]
#[inline(never)]
#[tactic(auto, unfolding(lower_emission::specs::Emission::associated))]
fn associated(env: &Env<'_>, h: u32, to: u32, id: u32, out: &mut Emitter)
    ensures { Emits (spec.associated (tables env.now) (env_of env.now) h to (associations_at (nodes env.now) id)) out.old out.new }
{
    if let Some(cell) = env.typed.nodes.associations(id) {
        match env.typed.nodes.association(cell.first) {
            None => associated(env, h, to, cell.rest, out),
            Some(found) => {
                match found.iterated {
                    None => given(env, h, to, found.value, found.runs, out),
                    Some(parameter) => {
                        let turned = Turned {
                            parameter,
                            value: found.value,
                        };
                        turnings(env, h, to, turned, found.runs, out);
                    }
                }
                associated(env, h, to, cell.rest, out);
            }
        }
    }
}

/// The components of an association without a parameter (4.3.3).
#[cycle(emit)]
#[inline(never)]
fn given(env: &Env<'_>, h: u32, to: u32, value: u32, runs: u32, out: &mut Emitter)
    ensures { Emits (cond (spec.is_repeated (as_runs (part_at (nodes env.now) runs)) (value_at (nodes env.now) value)) (spec.repeating (env_of env.now) h to (spec.component (tables env.now) (taking 2 (env_of env.now)) h (env.now.free + 1) (value_at (nodes env.now) value)) (as_runs (part_at (nodes env.now) runs))) (spec.fillings (env_of env.now) h to (spec.width (tables env.now) (value_at (nodes env.now) value)) (spec.is_plain (value_at (nodes env.now) value)) (λ n. spec.put_into (tables env.now) (env_of env.now) h (to + n) (value_at (nodes env.now) value)) (as_runs (part_at (nodes env.now) runs)))) out.old out.new }
{
    if is_repeated(&env.typed.nodes, runs, value) {
        repeating(env, h, to, value, runs, out);
    } else {
        fillings(env, h, to, value, runs, out);
    }
}

#[cycle(emit)]
#[inline(never)]
fn fillings(env: &Env<'_>, h: u32, to: u32, value: u32, runs: u32, out: &mut Emitter)
    ensures { Emits (spec.fillings (env_of env.now) h to (spec.width (tables env.now) (value_at (nodes env.now) value)) (spec.is_plain (value_at (nodes env.now) value)) (λ n. spec.put_into (tables env.now) (env_of env.now) h (to + n) (value_at (nodes env.now) value)) (as_runs (part_at (nodes env.now) runs))) out.old out.new }
{
    if let Some(cell) = env.typed.nodes.leaf(runs) {
        match cell.leaf {
            Leaf::Run(run) => {
                let size = width(env, value, out);
                if is_plain(&env.typed.nodes, value) && 1 < run.count && run.stride == size {
                    let first = out.sum(to, run.first);
                    put_into(env, h, first, value, out);
                    let components = Components {
                        size,
                        count: run.count,
                    };
                    doubled(env, h, first, components, out);
                } else {
                    filling(env, h, to, value, run, out);
                }
                fillings(env, h, to, value, cell.rest, out);
            }
            _ => fillings(env, h, to, value, cell.rest, out),
        }
    }
}

/// Components that follow each other: the cells of each, and how many they are.
#[derive(Clone, Copy)]
pub struct Components {
    pub size: u32,
    pub count: u32,
}

/// The first component, which stands from a cell of the frame on, is copied to those behind it.
#[tactic(auto, using(crate::proofs::Reading::doubled_step, crate::proofs::Reading::doubled_end))]
pub fn doubled(env: &Env<'_>, h: u32, first: u32, all: Components, out: &mut Emitter)
    ensures { Emits (spec.doubled (env_of env.now) h first all.size all.count 1 all.count) out.old out.new }
{
    let mut left = all.count;
    let mut done = 1;
    while 0 < left && done < all.count {
        let more = done.min(all.count - done);
        copies(env, h, first, all.size, Progress { done, more }, out);
        done += more;
        left -= 1;
    }
}

/// How many components have their values, and how many get theirs.
#[derive(Clone, Copy)]
struct Progress {
    done: u32,
    more: u32,
}

fn copies(env: &Env<'_>, h: u32, first: u32, size: u32, progress: Progress, out: &mut Emitter)
    ensures { Emits (one (env_of env.now) h (i.Local (first + progress.done * size)) ⨟ one (env_of env.now) (h + 1) (i.Local first) ⨟ one (env_of env.now) (h + 1 + 1) (i.Copy (progress.more * size))) out.old out.new }
{
    let behind = product(progress.done, size, out);
    let to = out.sum(first, behind);
    let cells = product(progress.more, size, out);
    out.operate(
        env,
        h,
        Instr::Local(to),
        Instr::Local(first),
        Instr::Copy(cells),
    );
}

#[cycle(emit)]
#[inline(never)]
#[tactic(auto, using(crate::proofs::Reading::filling_step))]
fn filling(env: &Env<'_>, h: u32, to: u32, value: u32, run: Run, out: &mut Emitter)
    ensures { Emits (spec.filling (λ n. spec.put_into (tables env.now) (env_of env.now) h (to + n) (value_at (nodes env.now) value)) run.count run.first run.stride) out.old out.new }
{
    let mut left = run.count;
    let mut at = run.first;
    while 0 < left {
        let cell = out.sum(to, at);
        put_into(env, h, cell, value, out);
        at = out.sum(at, run.stride);
        left -= 1;
    }
}

/// The value of an iterated association, and the parameter (4.3.3).
#[derive(Clone, Copy)]
pub struct Turned {
    pub parameter: Iterated,
    pub value: u32,
}

/// A loop through the components of a run.
#[cycle(emit)]
#[inline(never)]
pub fn turning(env: &Env<'_>, h: u32, to: u32, turned: Turned, run: Run, out: &mut Emitter)
    ensures { Emits (spec.turning (env_of env.now) h to turned.parameter.first (spec.component (tables env.now) (spec.iterated_scope (env_of env.now) turned.parameter.parameter) h (env.now.free + 1 + 1) (value_at (nodes env.now) turned.value)) run.count run.first run.stride) out.old out.new }
{
    let first = out.sum(to, run.first);
    let low = turned.parameter.first;
    let last = last_value(low, run.count, out);
    before_turns(env, h, first, low, last, out);
    turns(env, h, turned, run.stride, out);
}

/// The parameter, its last value and the address of the first component go to the first free cells.
pub fn before_turns(env: &Env<'_>, h: u32, first: u32, low: i64, high: i64, out: &mut Emitter)
    ensures { Emits (one (env_of env.now) h (i.Push low) ⨟ keep (env_of env.now) (h + 1) env.now.free ⨟ one (env_of env.now) h (i.Push high) ⨟ keep (env_of env.now) (h + 1) (env.now.free + 1) ⨟ one (env_of env.now) h (i.Local first) ⨟ keep (env_of env.now) (h + 1) (env.now.free + 1 + 1)) out.old out.new }
{
    let free1 = out.sum(env.free, 1);
    let free2 = out.sum(free1, 1);
    out.put(env, h, Instr::Push(low));
    out.keep(env, h, env.free);
    out.put(env, h, Instr::Push(high));
    out.keep(env, h, free1);
    out.put(env, h, Instr::Local(first));
    out.keep(env, h, free2);
}

#[cycle(emit)]
#[inline(never)]
fn turns(env: &Env<'_>, h: u32, turned: Turned, stride: u32, out: &mut Emitter)
    ensures { Emits (looped (env_of env.now) h true (λ exit. one (env_of env.now) h i.Turn ⨟ spec.component (tables env.now) (spec.iterated_scope (env_of env.now) turned.parameter.parameter) h (env.now.free + 1 + 1) (value_at (nodes env.now) turned.value)) (λ head. spec.stepping (env_of env.now) h (env.now.free + 1 + 1) stride env.now.free head)) out.old out.new }
{
    let free1 = out.sum(env.free, 1);
    let free2 = out.sum(free1, 1);
    let begun = out.begin(env, h);
    turned_component(env, h, turned, free2, out);
    out.aim_at(env, h, begun.enter, begun.head);
    let steps = Steps {
        address: free2,
        stride,
        first: env.free,
    };
    stepping(env, h, steps, begun.head, out);
    out.aim(env, h, begun.leave);
}

/// The value goes to where the address in a cell says.
#[cycle(emit)]
#[inline(never)]
pub fn turned_component(env: &Env<'_>, h: u32, turned: Turned, address: u32, out: &mut Emitter)
    ensures { Emits (spec.component (tables env.now) (spec.iterated_scope (env_of env.now) turned.parameter.parameter) h address (value_at (nodes env.now) turned.value)) out.old out.new }
{
    let free = out.sum(env.free, 3);
    let inner = env.with_parameter(turned.parameter.parameter, own(env.free), free);
    component(&inner, h, address, turned.value, out);
}

/// A cell of the own frame.
pub fn own(cell: u32) -> Where
    ensures { result ≡ own cell }
{
    Where {
        level: Level::Own,
        cell,
    }
}

/// What cells of the own frame hold.
pub fn held(first: u32, cells: u32) -> Named
    ensures { result ≡ record { through = false; place = own first; cells = cells } }
{
    Named {
        through: false,
        place: own(first),
        cells,
    }
}

/// What the address in a cell of the own frame leads to.
pub fn reached(cell: u32, cells: u32) -> Named
    ensures { result ≡ record { through = true; place = own cell; cells = cells } }
{
    Named {
        through: true,
        place: own(cell),
        cells,
    }
}

/// The last value of a parameter that has so many.
#[tactic(auto, using(crate::proofs::Fitting::fits_kept, crate::proofs::Fitting::fits_lost))]
pub fn last_value(first: i64, count: u32, out: &mut Emitter) -> i64
    ensures learns { Learns (first +ℤ pos count -ℤ pos 1) out.old result out.new }
    ensures fits { Fits (is_in_base Wide (first +ℤ pos count -ℤ pos 1)) out.old out.new }
{
    let behind = i64::from(count) - 1;
    match first.checked_add(behind) {
        Some(last) => last,
        None => {
            out.whole = false;
            0
        }
    }
}

/// How a loop goes on: the cell of its address, how far the next is, and the first of the two cells of its positions.
#[derive(Clone, Copy)]
pub struct Steps {
    pub address: u32,
    pub stride: u32,
    pub first: u32,
}

/// The address goes on, and the next turn begins.
pub fn stepping(env: &Env<'_>, h: u32, steps: Steps, head: u32, out: &mut Emitter)
    ensures { Emits (spec.stepping (env_of env.now) h steps.address steps.stride steps.first head) out.old out.new }
{
    let last = out.sum(steps.first, 1);
    out.put(env, h, Instr::LoadL(steps.address));
    out.put_above(env, h, 1, Instr::Field(steps.stride));
    out.keep(env, h, steps.address);
    out.put(env, h, Instr::Next(steps.first, last, head));
}

/// A value goes to where the address in a cell says.
#[cycle(emit)]
#[inline(never)]
#[tactic(auto, unfolding(lower_emission::specs::Emission::component))]
pub fn component(env: &Env<'_>, h: u32, at: u32, id: u32, out: &mut Emitter)
    ensures { Emits (spec.component (tables env.now) (env_of env.now) h at (value_at (nodes env.now) id)) out.old out.new }
{
    let h1 = out.sum(h, 1);
    match env.typed.nodes.value(id) {
        Some(Value::Number { check, value }) => {
            out.put(env, h, Instr::LoadL(at));
            emit(env, h1, value, out);
            checked(env, h1, check.scalar, out);
            out.put_above(env, h, 2, Instr::Store);
        }
        Some(Value::Cells { composite }) => component_cells(env, h, at, composite, out),
        None => {
            out.whole = false;
        }
    }
}

/// An array or record goes to where the address in a cell says, by way of cells of its own.
#[cycle(emit)]
#[inline(never)]
fn component_cells(env: &Env<'_>, h: u32, at: u32, id: u32, out: &mut Emitter)
    ensures { Emits (spec.composed (tables env.now) (taking (spec.composite_width (tables env.now) (composite_at (nodes env.now) id)) (env_of env.now)) h env.now.free (composite_at (nodes env.now) id) ⨟ one (env_of env.now) h (i.LoadL at) ⨟ one (taking (spec.composite_width (tables env.now) (composite_at (nodes env.now) id)) (env_of env.now)) (h + 1) (i.Local env.now.free) ⨟ one (env_of env.now) (h + 1 + 1) (i.Copy (spec.composite_width (tables env.now) (composite_at (nodes env.now) id)))) out.old out.new }
{
    let cells = composite_width(env, id, out);
    let free = out.sum(env.free, cells);
    let inner = env.with_free(free);
    composed(&inner, h, env.free, id, out);
    out.put(env, h, Instr::LoadL(at));
    out.put_above(&inner, h, 1, Instr::Local(env.free));
    out.put_above(env, h, 2, Instr::Copy(cells));
}
