//! Objects without an initial value (3.3.1).

ghost use Rattle.std.specs.Prelude.{◌≡◌, ◌<◌, ◌+◌, length, option_map};
ghost use Rattle.typed_tree.specs.Programs.{fields_at, subtype_of};
ghost use Rattle.ada_meaning.specs.Meaning.{object_layout};
ghost use Rattle.ada_meaning.specs.Values as meaning;
ghost use Rattle.typed_tree.specs.Programs.{bounds_at};
ghost use Rattle.lower_emission.specs.Statements as spec;
ghost use Rattle.lower_emission.specs.Scope.{taking};
ghost use Rattle.lower_values.specs.Words.{env_of, nodes, tables, Emits, Finds};

use lower_values::aggregates::{Components, doubled};
use lower_values::cells::{cells_of, object_cells};
use lower_values::types::{Emitter, Env};
use run_values::subtypes;
use stack_code::Instr;
use typed_tree::{Leaf, Subtype};

/// The cells from one on get the first values of an object's cells.
#[tactic(auto, unfolding(lower_values::specs::Words::program_of))]
pub fn defaulted(env: &Env<'_>, t: u32, object: u32, out: &mut Emitter)
    ensures { Emits (spec.defaulted (tables env.now) (env_of env.now) t object) out.old out.new }
{
    if let Some(found) = env.typed.objects.get(object as usize) {
        let cells = object_cells(env, object, out);
        let free = out.sum(env.free, cells);
        within(
            &env.with_free(free),
            env.typed.subtypes.len(),
            t,
            found.subtype,
            out,
        );
    }
}

/// Those of a subtype, whose parts are so many levels deep.
#[cycle(within)]
#[tactic(auto, using(crate::proofs::Levels::within_next), unfolding(lower_values::specs::Words::program_of))]
fn within(env: &Env<'_>, levels: usize, t: u32, number: u32, out: &mut Emitter)
    ensures { Emits (spec.defaults_within (tables env.now) (env_of env.now) levels t number) out.old out.new }
{
    if levels != 0 {
        beside(env, levels - 1, t, env.typed.subtype(number), out);
    }
}

#[cycle(within)]
#[inline(never)]
fn beside(env: &Env<'_>, levels: usize, t: u32, found: Option<Subtype>, out: &mut Emitter)
    ensures { Emits (spec.default_of (tables env.now) (env_of env.now) (spec.defaults_within (tables env.now) (env_of env.now) levels) t (option_map (subtype_of (nodes env.now)) found)) out.old out.new }
{
    match found {
        None => {}
        Some(Subtype::Scalar { scalar }) => {
            out.put(env, 0, Instr::Push(scalar.low));
            out.keep(env, 0, t);
        }
        Some(
            Subtype::Array {
                dimensions,
                component,
            },
        ) => {
            let count = components(env, dimensions, out);
            let size = cells_of(env, component, out);
            within(env, levels, t, component, out);
            doubled(env, 0, t, Components { size, count }, out);
        }
        Some(Subtype::Record { fields }) => fields_of(env, levels, t, fields, out),
    }
}

fn components(env: &Env<'_>, dimensions: u32, out: &mut Emitter) -> u32
    ensures { Finds (meaning.components (bounds_at (nodes env.now) dimensions)) out.old result out.new }
{
    match subtypes::components(env.typed, dimensions) {
        Ok(count) => match u32::try_from(count) {
            Ok(found) => found,
            Err(_) => {
                out.whole = false;
                0
            }
        },
        Err(_) => {
            out.whole = false;
            0
        }
    }
}

#[cycle(within)]
#[inline(never)]
fn fields_of(env: &Env<'_>, levels: usize, t: u32, id: u32, out: &mut Emitter)
    ensures { Emits (spec.field_defaults (tables env.now) (spec.defaults_within (tables env.now) (env_of env.now) levels) t (fields_at (nodes env.now) id)) out.old out.new }
{
    if let Some(cell) = env.typed.nodes.leaf(id) {
        match cell.leaf {
            Leaf::Field(field) => {
                within(env, levels, t, field.subtype, out);
                let size = cells_of(env, field.subtype, out);
                let next = out.sum(t, size);
                fields_of(env, levels, next, cell.rest, out);
            }
            _ => fields_of(env, levels, t, cell.rest, out),
        }
    }
}
