//! Shapes of subtypes (3.6, 3.8), as the tables of a program have them.

ghost use Rattle.std.specs.Prelude.{◌≡◌, ◌*◌, ◌+◌, ◌-◌, option_map, IfOk};
ghost use Rattle.typed_tree.specs.declared.typed.Typed.{Typed as Table};
ghost use Rattle.typed_tree.specs.Programs.{bounds_at, fields_at, subtype_of};
ghost use Rattle.ada_meaning.specs.Shapes.{array_of, fields_of, shape_of, size, sizes};
ghost use Rattle.ada_meaning.specs.Values as values;
ghost use Rattle.ada_lower.specs.Leases.{field_from};
ghost use Rattle.lower_leases.specs.Paths as spec;

use std::alloc::AllocError;
use typed_tree::{Leaf, Subtype, Typed};

/// What a part of an object is.
#[derive(Clone, Copy)]
pub enum Form {
    /// Nothing.
    Empty,
    /// A scalar.
    Scalar,
    /// An array with the bounds of a list, whose components have a subtype.
    Array { dimensions: u32, component: u32 },
    /// A record with the fields of a list.
    Record { fields: u32 },
}

/// A part of an object; what it is made of is so many levels deep.
#[derive(Clone, Copy)]
pub struct Part {
    pub levels: usize,
    pub form: Form,
}

/// What a part begins with: the bounds of an array's first dimension, and what an index leads to; the fields of a record; a
/// scalar; or nothing.
#[derive(Clone, Copy)]
pub enum Head {
    Dimension { low: i64, high: i64, inner: Part },
    Record { levels: usize, fields: u32 },
    Single,
    Empty,
}

/// How many numbers a range has. An Err is want of room, as with all numbers here: 32 bits don't hold it.
pub fn count(low: i64, high: i64) -> Result<u32, AllocError>
    ensures { IfOk result (λ n. n ≡ values.count low high) }
{
    if high < low {
        return Ok(0);
    }
    match u32::try_from(high.abs_diff(low)) {
        Ok(more) => sum(more, 1),
        Err(_) => Err(AllocError),
    }
}

/// Their product.
pub fn product(a: u32, b: u32) -> Result<u32, AllocError>
    ensures { IfOk result (λ n. n ≡ a * b) }
{
    a.checked_mul(b).ok_or(AllocError)
}

/// Their sum.
pub fn sum(a: u32, b: u32) -> Result<u32, AllocError>
    ensures { IfOk result (λ n. n ≡ a + b) }
{
    a.checked_add(b).ok_or(AllocError)
}

/// What stands in the table of subtypes.
fn form_of(found: Option<Subtype>, levels: usize) -> Part
    ensures shape { (t : Table) → spec.part_shape t result ≡ shape_of (spec.shape_in t levels) (option_map (subtype_of t.nodes) found) }
    ensures levels { result.levels ≡ levels }
{
    let form = match found {
        None => Form::Empty,
        Some(Subtype::Scalar { .. }) => Form::Scalar,
        Some(
            Subtype::Array {
                dimensions,
                component,
            },
        ) => Form::Array {
            dimensions,
            component,
        },
        Some(Subtype::Record { fields }) => Form::Record { fields },
    };
    Part { levels, form }
}

/// A subtype whose parts are so many levels deep.
#[tactic(auto, using(crate::proofs::Sizes::shape_next))]
pub fn opened(typed: &Typed, levels: usize, number: u32) -> Part
    ensures shape { spec.part_shape typed.now result ≡ spec.shape_in typed.now levels number }
    ensures less { result.levels ≡ levels - 1 }
{
    if levels == 0 {
        Part {
            levels: 0,
            form: Form::Empty,
        }
    } else {
        form_of(typed.subtype(number), levels - 1)
    }
}

/// The cells of a part.
#[cycle(size)]
pub fn part_size(typed: &Typed, part: Part) -> Result<u32, AllocError>
    ensures { IfOk result (λ n. n ≡ size (spec.part_shape typed.now part)) }
{
    match part.form {
        Form::Empty => Ok(0),
        Form::Scalar => Ok(1),
        Form::Array {
            dimensions,
            component,
        } => array_size(typed, part.levels, dimensions, component),
        Form::Record { fields } => fields_size(typed, part.levels, fields),
    }
}

#[cycle(size)]
fn size_within(typed: &Typed, levels: usize, number: u32) -> Result<u32, AllocError>
    ensures { IfOk result (λ n. n ≡ size (spec.shape_in typed.now levels number)) }
{
    if levels == 0 {
        Ok(0)
    } else {
        part_size(typed, opened(typed, levels, number))
    }
}

#[cycle(size)]
fn array_size(typed: &Typed, levels: usize, id: u32, component: u32) -> Result<u32, AllocError>
    ensures { IfOk result (λ n. n ≡ size (array_of (bounds_at typed.now.nodes id) (spec.shape_in typed.now levels component))) }
{
    match typed.nodes.leaf(id) {
        None => size_within(typed, levels, component),
        Some(cell) => match cell.leaf {
            Leaf::Bounds(bounds) => {
                let times = count(bounds.low, bounds.high)?;
                let inner = array_size(typed, levels, cell.rest, component)?;
                product(times, inner)
            }
            _ => array_size(typed, levels, cell.rest, component),
        },
    }
}

#[cycle(size)]
fn fields_size(typed: &Typed, levels: usize, id: u32) -> Result<u32, AllocError>
    ensures { IfOk result (λ n. n ≡ sizes (fields_of (spec.shape_in typed.now levels) (fields_at typed.now.nodes id))) }
{
    match typed.nodes.leaf(id) {
        None => Ok(0),
        Some(cell) => match cell.leaf {
            Leaf::Field(field) => {
                let first = size_within(typed, levels, field.subtype)?;
                let rest = fields_size(typed, levels, cell.rest)?;
                sum(first, rest)
            }
            _ => fields_size(typed, levels, cell.rest),
        },
    }
}

/// What a part begins with.
#[cycle(front)]
pub fn front(typed: &Typed, part: Part) -> Head
    ensures { spec.front_shape typed.now result ≡ spec.part_shape typed.now part }
{
    match part.form {
        Form::Empty => Head::Empty,
        Form::Scalar => Head::Single,
        Form::Array {
            dimensions,
            component,
        } => array_front(typed, part.levels, dimensions, component),
        Form::Record { fields } => Head::Record {
            levels: part.levels,
            fields,
        },
    }
}

#[cycle(front)]
fn front_within(typed: &Typed, levels: usize, number: u32) -> Head
    ensures { spec.front_shape typed.now result ≡ spec.shape_in typed.now levels number }
{
    if levels == 0 {
        Head::Empty
    } else {
        front(typed, opened(typed, levels, number))
    }
}

#[cycle(front)]
fn array_front(typed: &Typed, levels: usize, id: u32, component: u32) -> Head
    ensures { spec.front_shape typed.now result ≡ array_of (bounds_at typed.now.nodes id) (spec.shape_in typed.now levels component) }
{
    match typed.nodes.leaf(id) {
        None => front_within(typed, levels, component),
        Some(cell) => match cell.leaf {
            Leaf::Bounds(bounds) => Head::Dimension {
                low: bounds.low,
                high: bounds.high,
                inner: Part {
                    levels,
                    form: Form::Array {
                        dimensions: cell.rest,
                        component,
                    },
                },
            },
            _ => array_front(typed, levels, cell.rest, component),
        },
    }
}

/// A field of a record: how many cells stand before it, and what it is.
#[derive(Clone, Copy)]
pub struct Placed {
    pub cell: u32,
    pub part: Part,
}

/// The field of a number, of those of a list from a cell on; None where there is none.
#[cycle(field_at)]
pub fn field_at(
    typed: &Typed,
    levels: usize,
    id: u32,
    number: u32,
    cell: u32,
) -> Result<Option<Placed>, AllocError>
    ensures { IfOk result (λ found. option_map (spec.placed_shape typed.now) found ≡ field_from cell (fields_of (spec.shape_in typed.now levels) (fields_at typed.now.nodes id)) number) }
{
    match typed.nodes.leaf(id) {
        None => Ok(None),
        Some(link) => match link.leaf {
            Leaf::Field(field) => {
                if number == 0 {
                    let part = opened(typed, levels, field.subtype);
                    return Ok(Some(Placed { cell, part }));
                }
                let size = size_within(typed, levels, field.subtype)?;
                let next = sum(cell, size)?;
                field_at(typed, levels, link.rest, number - 1, next)
            }
            _ => field_at(typed, levels, link.rest, number, cell),
        },
    }
}
