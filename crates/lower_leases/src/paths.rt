//! The ways to what is granted: from an object to the cells of a part, by the selectors of a path.

ghost use Rattle.std.specs.Prelude.{◌≡◌, ◌∷◌, ◌++◌, [], None, Some, cond, map, option_map, pos, ◌-ℤ◌, ◌+◌, ◌*◌, IfOk, IsTrue, List, Ok, Option, length};
ghost use Rattle.ada_meaning.specs.Shapes.{Record, fields_of, size};
ghost use Rattle.ada_meaning.specs.Values as values;
ghost use Rattle.typed_tree.specs.Programs.{fields_at};
ghost use Rattle.check_inference.specs.Exact.{plain};
ghost use Rattle.check_effects.specs.Effects.{At, Fixed, LoopIndex, ChunkIndex, Any};
ghost use Rattle.stack_code.specs.declared.code.Step.{Step as StepOf};
ghost use Rattle.stack_code.specs.declared.code.Step.TheVariants as step;
ghost use Rattle.ada_lower.specs.Leases.{Loop, Way, also, at_any, at_item, field_from, times, way_of};
ghost use Rattle.lower_leases.specs.Paths as spec;

use crate::shapes::{Form, Head, Part, Placed, count, field_at, front, part_size, product, sum};
use ada_base::Items;
use check_clashes::effects::Selector;
use stack_code::Step;
use std::alloc::AllocError;
use typed_tree::Typed;

/// A way: how many cells of the object come before the first place, the steps from there, and the cells of the part.
#[derive(Drop)]
pub struct Path {
    pub base: u32,
    pub steps: Items<Step>,
    pub run: u32,
}

/// A way but for its steps.
#[derive(Clone, Copy)]
pub struct End {
    pub base: u32,
    pub run: u32,
}

/// The steps of a way, if they and all numbers had room.
#[derive(Drop)]
pub struct Walk {
    pub steps: Items<Step>,
    pub whole: bool,
}

/// The program, and whether the construct goes through a range.
#[derive(Clone, Copy)]
pub struct Through<'a> {
    pub typed: &'a Typed,
    pub ranges: bool,
}

/// How far a way has come: a part and the cells before it, and the places of the item's dimensions so far of a construct
/// over an array.
#[derive(Clone, Copy)]
pub struct Reached {
    pub part: Part,
    pub cell: u32,
    pub items: Option<u32>,
}

/// An array's first dimension, and what an index leads to.
#[derive(Clone, Copy)]
pub struct Indexed {
    pub low: i64,
    pub high: i64,
    pub inner: Part,
}

/// How many places a dimension has, and how many cells what an index leads to.
#[derive(Clone, Copy)]
struct Extent {
    places: u32,
    size: u32,
}

/// The fields of a record.
#[derive(Clone, Copy)]
pub struct Fields {
    pub levels: usize,
    pub list: u32,
}

/// A number, if there was room for it.
fn given(number: Result<u32, AllocError>, out: &mut Walk) -> u32
    ensures { IsTrue out.new.whole → IsTrue out.old.whole × ((out.new.steps ≡ out.old.steps) × (number ≡ Ok result)) }
{
    match number {
        Ok(found) => found,
        Err(_) => {
            out.whole = false;
            0
        }
    }
}

fn with_step(step: Step, out: &mut Walk)
    ensures { spec.Walks (out.old.steps ++ step ∷ []) out.old out.new }
{
    if out.steps.push(step).is_err() {
        out.whole = false;
    }
}

/// The step of the item, where there is one, of so many cells.
#[tactic(auto, using(crate::proofs::Ways::none_more))]
fn with_item(items: Option<u32>, size: u32, out: &mut Walk)
    ensures { spec.Walks (out.old.steps ++ spec.item_steps items size) out.old out.new }
{
    match items {
        None => {}
        Some(places) => with_step(
            Step::Loop {
                low: 1,
                count: places,
                size,
            },
            out,
        ),
    }
}

/// The cells of a part.
fn size_of(typed: &Typed, part: Part, out: &mut Walk) -> u32
    ensures { IsTrue out.new.whole → IsTrue out.old.whole × ((out.new.steps ≡ out.old.steps) × (result ≡ size (spec.part_shape typed.now part))) }
{
    given(part_size(typed, part), out)
}

/// A way that ends.
#[tactic(auto, using(crate::proofs::Ways::ended))]
fn ended(typed: &Typed, at: Reached, out: &mut Walk) -> Option<End>
    ensures { IsTrue out.new.whole → IsTrue out.old.whole × (spec.path_found result out.new.steps ≡ spec.path_by out.old.steps (at_item at.items (spec.part_shape typed.now at.part) (spec.here at.cell (spec.part_shape typed.now at.part)))) }
{
    let run = size_of(typed, at.part, out);
    with_item(at.items, run, out);
    Some(End { base: at.cell, run })
}

/// The way from a part on. Where there is none, the path doesn't fit the object, or has a static index outside.
#[cycle(way)]
#[tactic(auto, using(crate::proofs::Ways::of_single, crate::proofs::Ways::of_empty))]
pub fn way(through: Through<'_>, at: Reached, selectors: &[Selector], out: &mut Walk) -> Option<End>
    ensures { IsTrue out.new.whole → IsTrue out.old.whole × (spec.path_found result out.new.steps ≡ spec.path_by out.old.steps (way_of through.entry.ranges at.items (spec.part_shape through.entry.typed.now at.part) (map plain selectors.now) at.cell)) }
{
    match selectors.split_first() {
        None => ended(through.typed, at, out),
        Some((selector, rest)) => match front(through.typed, at.part) {
            Head::Dimension { low, high, inner } => {
                let dimension = Indexed { low, high, inner };
                index(through, at, dimension, *selector, rest, out)
            }
            Head::Record { levels, fields } => {
                let fields = Fields {
                    levels,
                    list: fields,
                };
                field(through, at, fields, *selector, rest, out)
            }
            Head::Single | Head::Empty => None,
        },
    }
}

/// The field of a number of a record that begins at a cell; None where there is none.
fn placed_in(
    typed: &Typed,
    fields: Fields,
    number: u32,
    cell: u32,
    out: &mut Walk,
) -> Option<Placed>
    ensures { IsTrue out.new.whole → IsTrue out.old.whole × ((out.new.steps ≡ out.old.steps) × (option_map (spec.placed_shape typed.now) result ≡ field_from cell (fields_of (spec.shape_in typed.now fields.levels) (fields_at typed.now.nodes fields.list)) number)) }
{
    match field_at(typed, fields.levels, fields.list, number, cell) {
        Ok(found) => found,
        Err(_) => {
            out.whole = false;
            None
        }
    }
}

/// The same where a field is selected.
#[cycle(way)]
fn field(
    through: Through<'_>,
    at: Reached,
    fields: Fields,
    selector: Selector,
    rest: &[Selector],
    out: &mut Walk,
) -> Option<End>
    ensures { IsTrue out.new.whole → IsTrue out.old.whole × (spec.path_found result out.new.steps ≡ spec.path_by out.old.steps (way_of through.entry.ranges at.items (Record (fields_of (spec.shape_in through.entry.typed.now fields.levels) (fields_at through.entry.typed.now.nodes fields.list))) (plain selector ∷ map plain rest.now) at.cell)) }
{
    match selector {
        Selector::Field(number) => selected(through, at, fields, number, rest, out),
        Selector::Fixed(_) | Selector::Loop(_) | Selector::Chunk(_) | Selector::Any => None,
    }
}

/// By the field of a number.
#[cycle(way)]
#[inline(never)]
#[tactic(auto, using(crate::proofs::Ways::no_field, crate::proofs::Ways::a_field))]
fn selected(
    through: Through<'_>,
    at: Reached,
    fields: Fields,
    number: u32,
    rest: &[Selector],
    out: &mut Walk,
) -> Option<End>
    ensures { IsTrue out.new.whole → IsTrue out.old.whole × (spec.path_found result out.new.steps ≡ spec.path_by out.old.steps (way_of through.entry.ranges at.items (Record (fields_of (spec.shape_in through.entry.typed.now fields.levels) (fields_at through.entry.typed.now.nodes fields.list))) (At number ∷ map plain rest.now) at.cell)) }
{
    let levels = fields.levels;
    let form = Form::Record {
        fields: fields.list,
    };
    let size = size_of(through.typed, Part { levels, form }, out);
    with_item(at.items, size, out);
    match placed_in(through.typed, fields, number, at.cell, out) {
        None => None,
        Some(placed) => {
            let inner = Reached {
                part: placed.part,
                cell: placed.cell,
                items: None,
            };
            way(through, inner, rest, out)
        }
    }
}

/// The same where an index is.
#[cycle(way)]
fn index(
    through: Through<'_>,
    at: Reached,
    dimension: Indexed,
    selector: Selector,
    rest: &[Selector],
    out: &mut Walk,
) -> Option<End>
    ensures { IsTrue out.new.whole → IsTrue out.old.whole × (spec.path_found result out.new.steps ≡ spec.path_by out.old.steps (way_of through.entry.ranges at.items (spec.dimension_shape through.entry.typed.now dimension) (plain selector ∷ map plain rest.now) at.cell)) }
{
    match selector {
        Selector::Field(_) => None,
        Selector::Loop(distance) => by_loop(through, at, dimension, distance, rest, out),
        Selector::Fixed(value) => by_static(through, at, dimension, value, rest, out),
        Selector::Chunk(distance) => by_chunk(through, at, dimension, distance, rest, out),
        Selector::Any => by_any(through, at, dimension, rest, out),
    }
}

/// The measures of a dimension.
fn measured(typed: &Typed, dimension: Indexed, out: &mut Walk) -> Extent
    ensures { IsTrue out.new.whole → IsTrue out.old.whole × ((out.new.steps ≡ out.old.steps) × ((result.places ≡ values.count dimension.low dimension.high) × (result.size ≡ size (spec.part_shape typed.now dimension.inner)))) }
{
    let places = given(count(dimension.low, dimension.high), out);
    let size = size_of(typed, dimension.inner, out);
    Extent { places, size }
}

/// The value of a parameter for the first place, at that distance.
fn start(dimension: Indexed, distance: i64) -> i128
    ensures { result ≡ dimension.low -ℤ distance }
{
    i128::from(dimension.low) - i128::from(distance)
}

/// By the loop parameter, or by a dimension of the item.
#[cycle(way)]
fn by_loop(
    through: Through<'_>,
    at: Reached,
    dimension: Indexed,
    distance: i64,
    rest: &[Selector],
    out: &mut Walk,
) -> Option<End>
    ensures { IsTrue out.new.whole → IsTrue out.old.whole × (spec.path_found result out.new.steps ≡ spec.path_by out.old.steps (way_of through.entry.ranges at.items (spec.dimension_shape through.entry.typed.now dimension) (LoopIndex distance ∷ map plain rest.now) at.cell)) }
{
    if through.ranges {
        by_range(through, at, dimension, distance, rest, out)
    } else {
        by_item(through, at, dimension, rest, out)
    }
}

/// By the loop parameter.
#[cycle(way)]
#[inline(never)]
fn by_range(
    through: Through<'_>,
    at: Reached,
    dimension: Indexed,
    distance: i64,
    rest: &[Selector],
    out: &mut Walk,
) -> Option<End>
    ensures { IsTrue out.new.whole → IsTrue out.old.whole × (spec.path_found result out.new.steps ≡ spec.path_by out.old.steps (also (Loop (dimension.low -ℤ distance) (values.count dimension.low dimension.high) (size (spec.part_shape through.entry.typed.now dimension.inner))) (way_of through.entry.ranges None (spec.part_shape through.entry.typed.now dimension.inner) (map plain rest.now) at.cell))) }
{
    let found = measured(through.typed, dimension, out);
    let step = Step::Loop {
        low: start(dimension, distance),
        count: found.places,
        size: found.size,
    };
    with_step(step, out);
    way(through, entered(at, dimension, None), rest, out)
}

/// By a dimension of the item.
#[cycle(way)]
#[inline(never)]
fn by_item(
    through: Through<'_>,
    at: Reached,
    dimension: Indexed,
    rest: &[Selector],
    out: &mut Walk,
) -> Option<End>
    ensures { IsTrue out.new.whole → IsTrue out.old.whole × (spec.path_found result out.new.steps ≡ spec.path_by out.old.steps (way_of through.entry.ranges (times at.items (values.count dimension.low dimension.high)) (spec.part_shape through.entry.typed.now dimension.inner) (map plain rest.now) at.cell)) }
{
    let items = with_dimension(at.items, dimension, out);
    way(through, entered(at, dimension, Some(items)), rest, out)
}

/// What an index leads to.
fn entered(at: Reached, dimension: Indexed, items: Option<u32>) -> Reached
    ensures { (result.part ≡ dimension.inner) × (result.cell ≡ at.cell) × (result.items ≡ items) }
{
    Reached {
        part: dimension.inner,
        cell: at.cell,
        items,
    }
}

/// The places of the item's dimensions, with one more.
fn with_dimension(items: Option<u32>, dimension: Indexed, out: &mut Walk) -> u32
    ensures { IsTrue out.new.whole → IsTrue out.old.whole × ((out.new.steps ≡ out.old.steps) × (Some result ≡ times items (values.count dimension.low dimension.high))) }
{
    let places = given(count(dimension.low, dimension.high), out);
    match items {
        None => places,
        Some(before) => given(product(before, places), out),
    }
}

/// The step of the item of an array.
fn step_of_item(items: Option<u32>, found: Extent, out: &mut Walk)
    ensures { spec.Walks (out.old.steps ++ spec.item_steps items (found.places * found.size)) out.old out.new }
{
    let size = given(product(found.places, found.size), out);
    with_item(items, size, out);
}

/// How far a number lies above the lowest of a dimension.
fn above(dimension: Indexed, value: i64) -> Result<u32, AllocError>
    ensures { IfOk result (λ n. n ≡ values.to_nat (value -ℤ dimension.low)) }
{
    if value < dimension.low {
        return Ok(0);
    }
    match u32::try_from(value.abs_diff(dimension.low)) {
        Ok(n) => Ok(n),
        Err(_) => Err(AllocError),
    }
}

fn between(dimension: Indexed, value: i64) -> bool
    ensures { result ≡ values.between dimension.low value dimension.high }
{
    dimension.low <= value && value <= dimension.high
}

/// The cell of what a number leads to.
fn moved(cell: u32, dimension: Indexed, value: i64, size: u32, out: &mut Walk) -> u32
    ensures { IsTrue out.new.whole → IsTrue out.old.whole × ((out.new.steps ≡ out.old.steps) × (result ≡ cell + values.to_nat (value -ℤ dimension.low) * size)) }
{
    let far = given(above(dimension, value), out);
    let offset = given(product(far, size), out);
    given(sum(cell, offset), out)
}

/// By a static index.
#[cycle(way)]
#[tactic(auto, using(crate::proofs::Ways::item_none))]
fn by_static(
    through: Through<'_>,
    at: Reached,
    dimension: Indexed,
    value: i64,
    rest: &[Selector],
    out: &mut Walk,
) -> Option<End>
    ensures { IsTrue out.new.whole → IsTrue out.old.whole × (spec.path_found result out.new.steps ≡ spec.path_by out.old.steps (way_of through.entry.ranges at.items (spec.dimension_shape through.entry.typed.now dimension) (Fixed value ∷ map plain rest.now) at.cell)) }
{
    if between(dimension, value) {
        inside(through, at, dimension, value, rest, out)
    } else {
        None
    }
}

/// By a static index that the dimension has.
#[cycle(way)]
#[inline(never)]
fn inside(
    through: Through<'_>,
    at: Reached,
    dimension: Indexed,
    value: i64,
    rest: &[Selector],
    out: &mut Walk,
) -> Option<End>
    ensures { IsTrue out.new.whole → IsTrue out.old.whole × (spec.path_found result out.new.steps ≡ spec.path_by out.old.steps (at_item at.items (spec.dimension_shape through.entry.typed.now dimension) (way_of through.entry.ranges None (spec.part_shape through.entry.typed.now dimension.inner) (map plain rest.now) (at.cell + values.to_nat (value -ℤ dimension.low) * size (spec.part_shape through.entry.typed.now dimension.inner))))) }
{
    let found = measured(through.typed, dimension, out);
    step_of_item(at.items, found, out);
    let cell = moved(at.cell, dimension, value, found.size, out);
    let inner = Reached {
        part: dimension.inner,
        cell,
        items: None,
    };
    way(through, inner, rest, out)
}

/// By the chunk parameter.
#[cycle(way)]
fn by_chunk(
    through: Through<'_>,
    at: Reached,
    dimension: Indexed,
    distance: i64,
    rest: &[Selector],
    out: &mut Walk,
) -> Option<End>
    ensures { IsTrue out.new.whole → IsTrue out.old.whole × (spec.path_found result out.new.steps ≡ spec.path_by out.old.steps (way_of through.entry.ranges at.items (spec.dimension_shape through.entry.typed.now dimension) (ChunkIndex distance ∷ map plain rest.now) at.cell)) }
{
    let found = measured(through.typed, dimension, out);
    step_of_item(at.items, found, out);
    let step = Step::Chunk {
        low: start(dimension, distance),
        count: found.places,
        size: found.size,
    };
    with_step(step, out);
    way(through, entered(at, dimension, None), rest, out)
}

/// By any index.
#[cycle(way)]
fn by_any(
    through: Through<'_>,
    at: Reached,
    dimension: Indexed,
    rest: &[Selector],
    out: &mut Walk,
) -> Option<End>
    ensures { IsTrue out.new.whole → IsTrue out.old.whole × (spec.path_found result out.new.steps ≡ spec.path_by out.old.steps (way_of through.entry.ranges at.items (spec.dimension_shape through.entry.typed.now dimension) (Any ∷ map plain rest.now) at.cell)) }
{
    let found = measured(through.typed, dimension, out);
    step_of_item(at.items, found, out);
    let before = out.steps.len();
    let step = Step::All {
        count: found.places,
        size: found.size,
    };
    with_step(step, out);
    match way(through, entered(at, dimension, None), rest, out) {
        None => None,
        Some(end) => Some(joined(found, before, end, out)),
    }
}

/// The end of a way by any index whose step stands behind so many others. Where no step follows and the way ends at all cells
/// of a place, those of all places lie side by side, and the step goes.
#[tactic(auto, using(crate::proofs::Ways::goes_on, crate::proofs::Ways::is_joined))]
fn joined(found: Extent, before: usize, end: End, out: &mut Walk) -> End
    ensures { IsTrue out.new.whole → IsTrue out.old.whole × ((steps : List StepOf) (way : Option Way) → length steps ≡ before → spec.path_found (Some end) out.old.steps ≡ spec.path_by (steps ++ step.All found.places found.size ∷ []) way → spec.path_found (Some result) out.new.steps ≡ spec.path_by steps (at_any found.places found.size way)) }
{
    if out.steps.len().saturating_sub(before) != 1 || end.run != found.size {
        return end;
    }
    out.steps.truncate(before);
    End {
        base: end.base,
        run: given(product(found.places, found.size), out),
    }
}
