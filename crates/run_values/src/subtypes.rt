//! Cells of subtypes (3.6, 3.8).

ghost use Rattle.std.specs.Prelude.{◌≡◌, ◌+◌, ◌*◌, ◌++◌, length, option_map};
ghost use Rattle.typed_tree.specs.Programs.{program, bounds_at, fields_at, subtype_of};
ghost use Rattle.ada_meaning.specs.Values as spec;
ghost use Rattle.run_values.specs.Values.{OrNoMemory};

use crate::ends::End;
use crate::values::{Range, count};
use ada_base::Items;
use typed_tree::{Leaf, Subtype, Typed};

/// How many cells a subtype has.
pub fn cells_of(typed: &Typed, number: u32) -> Result<u64, End>
    ensures { OrNoMemory (λ n. n ≡ length (spec.layout (program typed.now).subtypes number)) result }
{
    let n = cells_within(typed, typed.subtypes.len(), number)?;
    Ok(n)
}

#[cycle(cells)]
#[tactic(auto, using(crate::proofs::Layouts::within_next, crate::proofs::Layouts::length_repeated))]
fn cells_within(typed: &Typed, levels: usize, number: u32) -> Result<u64, End>
    ensures { OrNoMemory (λ n. n ≡ length (spec.layout_within (program typed.now).subtypes levels number)) result }
{
    if levels == 0 {
        Ok(0)
    } else {
        let n = cells_beside(typed, levels - 1, typed.subtype(number))?;
        Ok(n)
    }
}

// of what stands in the table, whose parts are so many levels deep
#[cycle(cells)]
#[tactic(auto, using(crate::proofs::Layouts::length_repeated))]
fn cells_beside(typed: &Typed, levels: usize, found: Option<Subtype>) -> Result<u64, End>
    ensures { OrNoMemory (λ n. n ≡ length (spec.layout_of (spec.layout_within (program typed.now).subtypes levels) (option_map (subtype_of typed.now.nodes) found))) result }
{
    match found {
        None => Ok(0),
        Some(Subtype::Scalar { .. }) => Ok(1),
        Some(
            Subtype::Array {
                dimensions,
                component,
            },
        ) => {
            let times = components(typed, dimensions)?;
            let size = cells_within(typed, levels, component)?;
            let cells = product(times, size)?;
            Ok(cells)
        }
        Some(Subtype::Record { fields }) => {
            let cells = fields_within(typed, levels, fields)?;
            Ok(cells)
        }
    }
}

#[cycle(cells)]
#[tactic(auto, using(crate::proofs::Layouts::length_both))]
fn fields_within(typed: &Typed, levels: usize, id: u32) -> Result<u64, End>
    ensures { OrNoMemory (λ n. n ≡ length (spec.fields (spec.layout_within (program typed.now).subtypes levels) (fields_at typed.now.nodes id))) result }
{
    match typed.nodes.leaf(id) {
        None => Ok(0),
        Some(cell) => match cell.leaf {
            Leaf::Field(field) => {
                let first = cells_within(typed, levels, field.subtype)?;
                let rest = fields_within(typed, levels, cell.rest)?;
                let cells = total(first, rest)?;
                Ok(cells)
            }
            _ => {
                let cells = fields_within(typed, levels, cell.rest)?;
                Ok(cells)
            }
        },
    }
}

/// How many components an array with a list of dimensions has.
pub fn components(typed: &Typed, id: u32) -> Result<u64, End>
    ensures { OrNoMemory (λ n. n ≡ spec.components (bounds_at typed.now.nodes id)) result }
{
    match typed.nodes.leaf(id) {
        None => Ok(1),
        Some(cell) => match cell.leaf {
            Leaf::Bounds(bounds) => {
                let range = Range {
                    low: bounds.low,
                    high: bounds.high,
                };
                let first = count(range)?;
                let rest = components(typed, cell.rest)?;
                let all = product(first, rest)?;
                Ok(all)
            }
            _ => {
                let all = components(typed, cell.rest)?;
                Ok(all)
            }
        },
    }
}

fn product(a: u64, b: u64) -> Result<u64, End>
    ensures { OrNoMemory (λ n. n ≡ a * b) result }
{
    match a.checked_mul(b) {
        Some(n) => Ok(n),
        None => Err(End::NoMemory),
    }
}

fn total(a: u64, b: u64) -> Result<u64, End>
    ensures { OrNoMemory (λ n. n ≡ a + b) result }
{
    match a.checked_add(b) {
        Some(n) => Ok(n),
        None => Err(End::NoMemory),
    }
}

/// The cells of a variable of a subtype without an initial value, behind others: the first value of each cell's subtype.
pub fn defaults_of(typed: &Typed, number: u32, out: &mut Items<i64>) -> Result<(), End>
    ensures { OrNoMemory (λ u. out.new ≡ out.old ++ spec.defaults (spec.layout (program typed.now).subtypes number)) result }
{
    defaults_within(typed, typed.subtypes.len(), number, out)?;
    Ok(())
}

#[cycle(defaults)]
fn defaults_within(
    typed: &Typed,
    levels: usize,
    number: u32,
    out: &mut Items<i64>,
) -> Result<(), End>
    ensures { OrNoMemory (λ u. out.new ≡ out.old ++ spec.defaults (spec.layout_within (program typed.now).subtypes levels number)) result }
{
    if levels == 0 {
        Ok(())
    } else {
        defaults_beside(typed, levels - 1, typed.subtype(number), out)?;
        Ok(())
    }
}

#[cycle(defaults)]
fn defaults_beside(
    typed: &Typed,
    levels: usize,
    found: Option<Subtype>,
    out: &mut Items<i64>,
) -> Result<(), End>
    ensures { OrNoMemory (λ u. out.new ≡ out.old ++ spec.defaults (spec.layout_of (spec.layout_within (program typed.now).subtypes levels) (option_map (subtype_of typed.now.nodes) found))) result }
{
    match found {
        None => Ok(()),
        Some(Subtype::Scalar { scalar }) => match out.push(scalar.low) {
            Ok(()) => Ok(()),
            Err(_) => Err(End::NoMemory),
        },
        Some(
            Subtype::Array {
                dimensions,
                component,
            },
        ) => {
            let times = components(typed, dimensions)?;
            repeated_within(typed, levels, component, times, out)?;
            Ok(())
        }
        Some(Subtype::Record { fields }) => {
            field_defaults(typed, levels, fields, out)?;
            Ok(())
        }
    }
}

#[cycle(defaults)]
fn repeated_within(
    typed: &Typed,
    levels: usize,
    component: u32,
    times: u64,
    out: &mut Items<i64>,
) -> Result<(), End>
    ensures { OrNoMemory (λ u. out.new ≡ out.old ++ spec.defaults (spec.repeated times (spec.layout_within (program typed.now).subtypes levels component))) result }
{
    for _k in 0..times {
        defaults_within(typed, levels, component, out)?;
    }
    Ok(())
}

#[cycle(defaults)]
#[tactic(auto, using(crate::proofs::Layouts::defaults_both))]
fn field_defaults(typed: &Typed, levels: usize, id: u32, out: &mut Items<i64>) -> Result<(), End>
    ensures { OrNoMemory (λ u. out.new ≡ out.old ++ spec.defaults (spec.fields (spec.layout_within (program typed.now).subtypes levels) (fields_at typed.now.nodes id))) result }
{
    match typed.nodes.leaf(id) {
        None => Ok(()),
        Some(cell) => match cell.leaf {
            Leaf::Field(field) => {
                defaults_within(typed, levels, field.subtype, out)?;
                field_defaults(typed, levels, cell.rest, out)?;
                Ok(())
            }
            _ => {
                field_defaults(typed, levels, cell.rest, out)?;
                Ok(())
            }
        },
    }
}
