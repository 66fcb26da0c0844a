//! Parts of arrays whose indexes are parameters of loops: their places and values are found at once, by the paths that were
//! found before the run.

ghost use Rattle.std.specs.Prelude.{◌≡◌, ℕ, IfSome};
ghost use Rattle.typed_tree.specs.Decoded.{selections_at};
ghost use Rattle.typed_tree.specs.Syntax.{Selections};
ghost use Rattle.ada_meaning.specs.Stored.{State};
ghost use Rattle.run_store.specs.Environment.{env_of};
ghost use Rattle.run_values.specs.Values.{ComesTo};
ghost use Rattle.run_parts.specs.Paths.{index_by};
ghost use Rattle.run_parts.specs.Words.{nodes_of};
ghost use Rattle.run_walk.specs.Quick.{Gives, at_offset};
ghost use Rattle.run_walk.specs.Walk as spec;

use run_outside::Port;
use run_parts::{ParameterIndex, Path, Work};
use run_store::{Env, Object, Store};
use typed_tree::Root;

// how many cells come before the component of an index, where the parameter is in its range
#[inline(always)]
#[tactic(auto, unfolding(ada_meaning::specs::Stored::bind, ada_meaning::specs::Stored::ret, crate::specs::Walk::eval, crate::specs::Walk::select))]
fn by_parameter(work: &Work<'_>, index: ParameterIndex, env: &Env<'_>, offset: u64) -> Option<u64>
    ensures { IfSome result (λ inner. (calls object : ℕ) (rest : Selections) (s : State) → (spec.select work.now calls (index_by index rest) (env_of env.now) (at_offset object offset)).does s ≡ (spec.select work.now calls rest (env_of env.now) (at_offset object inner)).does s) }
{
    let _ = work;
    let value = env.parameter(index.parameter);
    if value < index.low {
        return None;
    }
    let place = value.abs_diff(index.low);
    if place > u64::from(index.span) {
        return None;
    }
    offset.checked_add(place * u64::from(index.stride))
}

// how many cells come before the part that selections lead to, where they are a path
#[inline(always)]
fn by_path(work: &Work<'_>, id: u32, env: &Env<'_>, offset: u64) -> Option<u64>
    ensures { IfSome result (λ inner. (calls object : ℕ) → ComesTo (spec.select work.now calls (selections_at (nodes_of work.now) id) (env_of env.now) (at_offset object offset)) (at_offset object inner)) }
{
    match work.paths.path(id) {
        None => None,
        Some(Path::One(index)) => by_parameter(work, *index, env, offset),
        Some(Path::Two(first, second)) => match by_parameter(work, *first, env, offset) {
            None => None,
            Some(inner) => by_parameter(work, *second, env, inner),
        },
    }
}

/// How many cells of an object come before the part that selections lead to; None where they are no path, or an index isn't
/// in its range.
#[inline(never)]
pub fn place_by_path(work: &Work<'_>, id: u32, env: &Env<'_>, offset: u64) -> Option<u64>
    ensures { IfSome result (λ inner. (calls object : ℕ) → ComesTo (spec.select work.now calls (selections_at (nodes_of work.now) id) (env_of env.now) (at_offset object offset)) (at_offset object inner)) }
{
    by_path(work, id, env, offset)
}

/// The value of a part of a variable, where a path leads to it.
#[inline(never)]
pub fn variable_by_path<P: Port + Drop>(
    work: &Work<'_>,
    calls: u32,
    root: Root,
    id: u32,
    env: &Env<'_>,
    store: &Store<P>,
) -> Option<i64>
    ensures { Gives P.Tells (spec.variable work.now calls root (selections_at (nodes_of work.now) id) (env_of env.now)) store.now result }
{
    let part = env.variable_root(root);
    match by_path(work, id, env, part.offset) {
        None => None,
        Some(offset) => store.cell(Object::Variable(part.object), offset),
    }
}

/// The value of a part of a constant, where a path leads to it.
#[inline(never)]
pub fn constant_by_path<P: Port + Drop>(
    work: &Work<'_>,
    calls: u32,
    root: Root,
    id: u32,
    env: &Env<'_>,
    store: &Store<P>,
) -> Option<i64>
    ensures { Gives P.Tells (spec.constant work.now calls root (selections_at (nodes_of work.now) id) (env_of env.now)) store.now result }
{
    let part = env.constant_root(root);
    match by_path(work, id, env, part.offset) {
        None => None,
        Some(offset) => store.cell(Object::Constant(part.object), offset),
    }
}
