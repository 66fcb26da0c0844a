//! Calls (6.4).

ghost use Rattle.std.specs.Prelude.{◌≡◌, ◌<◌, ◌+◌};
ghost use Rattle.behaviours.specs.Paths.{VariableOf};
ghost use Rattle.typed_tree.specs.Decoded.{actuals_at, selections_at};
ghost use Rattle.lower_emission.specs.Emission as spec;
ghost use Rattle.lower_emission.specs.Scope.{◌⨟◌, one, keep, keep_checked, root_of};
ghost use Rattle.lower_values.specs.Words.{env_of, nodes, tables, Emits, Finds};
ghost use Rattle.stack_code.specs.declared.instr.Instr.TheVariants as i;

use crate::cells::{Wanted, cells_of, formal_of, formals_cells};
use crate::exprs::{address, put_into, selected};
use crate::types::{Emitter, Env};
use stack_code::Instr;
use typed_tree::{Actual, Root, Scalar};

/// A call, whose formals begin at the first free cell.
#[cycle(emit)]
#[inline(never)]
pub fn call(env: &Env<'_>, h: u32, sub: u32, actuals: u32, out: &mut Emitter)
    ensures { Emits (spec.passed (tables env.now) (spec.passing (tables env.now) sub (env_of env.now)) h sub env.now.free (actuals_at (nodes env.now) actuals) ⨟ one (env_of env.now) h (i.CallAt (sub + 1) env.now.free)) out.old out.new }
{
    let cells = formals_cells(env, sub, out);
    let free = out.sum(env.free, cells);
    let window = Window {
        sub,
        first: env.free,
    };
    passed(&env.with_free(free), h, window, actuals, out);
    let number = out.sum(sub, 1);
    out.put(env, h, Instr::CallAt(number, env.free));
}

/// Where the formals of a called subprogram stand.
#[derive(Clone, Copy)]
pub struct Window {
    pub sub: u32,
    pub first: u32,
}

/// The target of what is copied back.
#[derive(Clone, Copy)]
struct Target {
    root: Root,
    selections: u32,
    cell: u32,
}

#[cycle(emit)]
#[inline(never)]
#[tactic(auto, unfolding(lower_emission::specs::Emission::passed))]
fn passed(env: &Env<'_>, h: u32, window: Window, id: u32, out: &mut Emitter)
    ensures { Emits (spec.passed (tables env.now) (env_of env.now) h window.sub window.first (actuals_at (nodes env.now) id)) out.old out.new }
{
    if let Some(cell) = env.typed.nodes.actuals(id) {
        match env.typed.nodes.actual(cell.first) {
            None => passed(env, h, window, cell.rest, out),
            Some(Actual::In { formal, value }) => {
                let wanted = Wanted {
                    constant: true,
                    object: formal,
                };
                let to = formal_of(env, window.sub, window.first, wanted, out);
                put_into(env, h, to, value, out);
                passed(env, h, window, cell.rest, out);
            }
            Some(
                Actual::InOut {
                    formal,
                    root,
                    selections,
                    inside,
                    ..
                },
            ) => {
                let cell_of = target_cell(env, window, formal, out);
                let target = Target {
                    root,
                    selections,
                    cell: cell_of,
                };
                number_in(env, h, target, env.typed.nodes.scalar(inside), out);
                passed(env, h, window, cell.rest, out);
            }
            Some(
                Actual::Out {
                    formal,
                    root,
                    selections,
                    inside,
                    ..
                },
            ) => {
                let cell_of = target_cell(env, window, formal, out);
                let target = Target {
                    root,
                    selections,
                    cell: cell_of,
                };
                number_out(env, h, target, env.typed.nodes.scalar(inside), out);
                passed(env, h, window, cell.rest, out);
            }
            Some(
                Actual::CompositeInOut {
                    formal,
                    root,
                    selections,
                    subtype,
                    ..
                }
                | Actual::CompositeOut {
                    formal,
                    root,
                    selections,
                    subtype,
                    ..
                },
            ) => {
                let cell_of = target_cell(env, window, formal, out);
                let target = Target {
                    root,
                    selections,
                    cell: cell_of,
                };
                cells_in(env, h, target, subtype, out);
                passed(env, h, window, cell.rest, out);
            }
        }
    }
}

/// The cell of the address of a formal's target.
pub fn target_cell(env: &Env<'_>, window: Window, formal: u32, out: &mut Emitter) -> u32
    ensures { Finds (spec.formal_of (tables env.now) window.sub window.first (VariableOf formal)) out.old result out.new }
{
    let wanted = Wanted {
        constant: false,
        object: formal,
    };
    formal_of(env, window.sub, window.first, wanted, out)
}

#[cycle(emit)]
#[inline(never)]
fn number_in(env: &Env<'_>, h: u32, target: Target, inside: Scalar, out: &mut Emitter)
    ensures { Emits (spec.address (env_of env.now) h (root_of (env_of env.now) target.root) ⨟ spec.selected (tables env.now) (env_of env.now) (h + 1) (selections_at (nodes env.now) target.selections) ⨟ one (env_of env.now) (h + 1) i.Dup ⨟ keep (env_of env.now) (h + 1 + 1) target.cell ⨟ one (env_of env.now) (h + 1) i.Load ⨟ keep_checked (env_of env.now) (h + 1) inside (target.cell + 1)) out.old out.new }
{
    let h1 = out.sum(h, 1);
    let value = out.sum(target.cell, 1);
    let found = env.root(false, target.root, out);
    address(env, h, found, out);
    selected(env, h1, target.selections, out);
    out.put(env, h1, Instr::Dup);
    out.keep(env, h1, target.cell);
    out.put(env, h1, Instr::Load);
    out.keep_checked(env, h, inside, value);
}

#[cycle(emit)]
#[inline(never)]
fn number_out(env: &Env<'_>, h: u32, target: Target, inside: Scalar, out: &mut Emitter)
    ensures { Emits (spec.address (env_of env.now) h (root_of (env_of env.now) target.root) ⨟ spec.selected (tables env.now) (env_of env.now) (h + 1) (selections_at (nodes env.now) target.selections) ⨟ keep (env_of env.now) (h + 1) target.cell ⨟ one (env_of env.now) h (i.Push inside.low) ⨟ keep (env_of env.now) (h + 1) (target.cell + 1)) out.old out.new }
{
    let h1 = out.sum(h, 1);
    let value = out.sum(target.cell, 1);
    let found = env.root(false, target.root, out);
    address(env, h, found, out);
    selected(env, h1, target.selections, out);
    out.keep(env, h, target.cell);
    out.put(env, h, Instr::Push(inside.low));
    out.keep(env, h, value);
}

#[cycle(emit)]
#[inline(never)]
fn cells_in(env: &Env<'_>, h: u32, target: Target, subtype: u32, out: &mut Emitter)
    ensures { Emits (one (env_of env.now) h (i.Local (target.cell + 1)) ⨟ spec.address (env_of env.now) (h + 1) (root_of (env_of env.now) target.root) ⨟ spec.selected (tables env.now) (env_of env.now) (h + 1 + 1) (selections_at (nodes env.now) target.selections) ⨟ one (env_of env.now) (h + 1 + 1) i.Dup ⨟ keep (env_of env.now) (h + 1 + 1 + 1) target.cell ⨟ one (env_of env.now) (h + 1 + 1) (i.Copy (spec.cells_of (tables env.now) subtype))) out.old out.new }
{
    let h1 = out.sum(h, 1);
    let h2 = out.sum(h1, 1);
    let value = out.sum(target.cell, 1);
    let cells = cells_of(env, subtype, out);
    out.put(env, h, Instr::Local(value));
    let found = env.root(false, target.root, out);
    address(env, h1, found, out);
    selected(env, h2, target.selections, out);
    out.put(env, h2, Instr::Dup);
    out.keep(env, h2, target.cell);
    out.put(env, h2, Instr::Copy(cells));
}
