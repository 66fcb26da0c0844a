//! The cells of subtypes, objects and formal parameters.

ghost use Rattle.std.specs.Prelude.{◌≡◌, ◌<◌, ◌+◌, ◌*◌, length};
ghost use Rattle.behaviours.specs.Paths.{entity_eq};
ghost use Rattle.typed_tree.specs.Syntax.{Program};
ghost use Rattle.ada_meaning.specs.Meaning.{object_layout};
ghost use Rattle.typed_tree.specs.Programs.{formals_at};
ghost use Rattle.typed_tree.specs.Decoded.{composite_at, value_at};
ghost use Rattle.lower_emission.specs.Emission as spec;
ghost use Rattle.lower_values.specs.Words.{entity, is_narrow, nodes, tables, Finds, Fits};

use crate::types::{Emitter, Env};
use run_values::subtypes;
use typed_tree::{Composite, Formal, Leaf, Mode, Value};

/// A product, if there is room for it.
#[tactic(auto, using(crate::proofs::Fitting::fits_kept, crate::proofs::Fitting::fits_lost))]
pub fn product(a: u32, b: u32, out: &mut Emitter) -> u32
    ensures finds { Finds (a * b) out.old result out.new }
    ensures fits { Fits (is_narrow (a * b)) out.old out.new }
{
    match a.checked_mul(b) {
        Some(found) => found,
        None => {
            out.whole = false;
            0
        }
    }
}

/// How many cells a subtype has.
#[tactic(auto, unfolding(crate::specs::Words::program_of))]
pub fn cells_of(env: &Env<'_>, subtype: u32, out: &mut Emitter) -> u32
    ensures { Finds (spec.cells_of (tables env.now) subtype) out.old result out.new }
{
    match subtypes::cells_of(env.typed, subtype) {
        Ok(cells) => match u32::try_from(cells) {
            Ok(found) => found,
            Err(_) => {
                out.whole = false;
                0
            }
        },
        Err(_) => {
            out.whole = false;
            0
        }
    }
}

/// How many cells an object has.
#[tactic(auto, unfolding(crate::specs::Words::program_of))]
pub fn object_cells(env: &Env<'_>, object: u32, out: &mut Emitter) -> u32
    ensures { Finds (length (object_layout (tables env.now) object)) out.old result out.new }
{
    match env.typed.objects.get(object as usize) {
        Some(found) => cells_of(env, found.subtype, out),
        None => 0,
    }
}

/// How many cells a formal parameter has in the frame of a call, with that of its target's address.
fn formal_size(env: &Env<'_>, formal: Formal, out: &mut Emitter) -> u32
    ensures { Finds (spec.lead (spec.shape_by (tables env.now) formal.object formal.mode).back + (spec.shape_by (tables env.now) formal.object formal.mode).cells) out.old result out.new }
{
    let cells = object_cells(env, formal.object, out);
    match formal.mode {
        Mode::In => cells,
        Mode::InOut | Mode::Out => out.sum(1, cells),
    }
}

fn is_formal(formal: Formal, wanted: Wanted) -> bool
    ensures { (p : Program) → entity_eq (spec.shape_by p formal.object formal.mode).formal (entity wanted.constant wanted.object) ≡ result }
{
    let is_in = match formal.mode {
        Mode::In => true,
        Mode::InOut | Mode::Out => false,
    };
    formal.object == wanted.object && is_in == wanted.constant
}

/// How many cells a list of formals has.
pub fn cells_from(env: &Env<'_>, id: u32, out: &mut Emitter) -> u32
    ensures { Finds (spec.shapes_cells (spec.shapes (tables env.now) (formals_at (nodes env.now) id))) out.old result out.new }
{
    match env.typed.nodes.leaf(id) {
        None => 0,
        Some(cell) => match cell.leaf {
            Leaf::Formal(formal) => {
                let first = formal_size(env, formal, out);
                let rest = cells_from(env, cell.rest, out);
                out.sum(first, rest)
            }
            _ => cells_from(env, cell.rest, out),
        },
    }
}

/// A formal parameter, by its object.
#[derive(Clone, Copy)]
pub struct Wanted {
    pub constant: bool,
    pub object: u32,
}

fn formal_cell(env: &Env<'_>, id: u32, first: u32, wanted: Wanted, out: &mut Emitter) -> u32
    ensures { Finds (spec.formal_cell (spec.shapes (tables env.now) (formals_at (nodes env.now) id)) first (entity wanted.constant wanted.object)) out.old result out.new }
{
    match env.typed.nodes.leaf(id) {
        None => first,
        Some(cell) => match cell.leaf {
            Leaf::Formal(formal) => {
                if is_formal(formal, wanted) {
                    first
                } else {
                    let size = formal_size(env, formal, out);
                    let next = out.sum(first, size);
                    formal_cell(env, cell.rest, next, wanted, out)
                }
            }
            _ => formal_cell(env, cell.rest, first, wanted, out),
        },
    }
}

/// Where the cells of a formal of a called subprogram begin, in the frame that begins at a cell.
#[tactic(auto, unfolding(crate::specs::Words::program_of))]
pub fn formal_of(env: &Env<'_>, sub: u32, first: u32, wanted: Wanted, out: &mut Emitter) -> u32
    ensures { Finds (spec.formal_of (tables env.now) sub first (entity wanted.constant wanted.object)) out.old result out.new }
{
    match env.typed.sub(sub) {
        None => first,
        Some(found) => formal_cell(env, found.formals, first, wanted, out),
    }
}

/// How many cells the formals of a subprogram have.
#[tactic(auto, unfolding(crate::specs::Words::program_of))]
pub fn formals_cells(env: &Env<'_>, sub: u32, out: &mut Emitter) -> u32
    ensures { Finds (spec.shapes_cells (spec.shapes (tables env.now) (spec.formals_in (tables env.now) sub))) out.old result out.new }
{
    match env.typed.sub(sub) {
        None => 0,
        Some(found) => cells_from(env, found.formals, out),
    }
}

/// How many cells an array or record has.
#[cycle(width)]
pub fn composite_width(env: &Env<'_>, id: u32, out: &mut Emitter) -> u32
    ensures { Finds (spec.composite_width (tables env.now) (composite_at (nodes env.now) id)) out.old result out.new }
{
    match env.typed.nodes.composite(id) {
        Composite::WholeVariable { subtype, .. }
        | Composite::WholeConstant { subtype, .. }
        | Composite::WholeTarget { subtype, .. } => cells_of(env, subtype, out),
        Composite::If { value, .. } => composite_width(env, value, out),
        Composite::Aggregate { cells, .. } => cells,
    }
}

/// How many cells a value has.
pub fn width(env: &Env<'_>, id: u32, out: &mut Emitter) -> u32
    ensures { Finds (spec.width (tables env.now) (value_at (nodes env.now) id)) out.old result out.new }
{
    match env.typed.nodes.value(id) {
        Some(Value::Number { .. }) => 1,
        Some(Value::Cells { composite }) => composite_width(env, composite, out),
        None => 0,
    }
}
