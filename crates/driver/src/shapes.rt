//! What the cells of a subtype keep (3.5).

ghost use Rattle.std.specs.Prelude.{◌≡◌, ◌++◌, IfOk, option_map};
ghost use Rattle.typed_tree.specs.Programs.{program, fields_at, subtype_of};
ghost use Rattle.ada_meaning.specs.Values as spec;
ghost use Rattle.driver.specs.Compiled.{kind_of, kinds_of};

use ada_base::{Base, Items};
use run_reports::CellKind;
use run_values::components;
use std::alloc::AllocError;
use typed_tree::{Class, Leaf, Subtype, Typed};

fn kind_of(class: Class) -> CellKind
    ensures { result ≡ kind_of class }
{
    match class {
        Class::Boolean => CellKind::Truth,
        Class::Integer(Base::Modulo(_)) => CellKind::Digits,
        Class::Integer(Base::Narrow | Base::Wide) | Class::Universal => CellKind::Number,
    }
}

/// What each cell of a subtype keeps, behind others. An Err is want of memory.
pub fn kinds_of(typed: &Typed, number: u32, out: &mut Items<CellKind>) -> Result<(), AllocError>
    ensures { IfOk result (λ u. out.new ≡ out.old ++ kinds_of (spec.layout (program typed.now).subtypes number)) }
{
    kinds_within(typed, typed.subtypes.len(), number, out)?;
    Ok(())
}

#[cycle(kinds)]
fn kinds_within(
    typed: &Typed,
    levels: usize,
    number: u32,
    out: &mut Items<CellKind>,
) -> Result<(), AllocError>
    ensures { IfOk result (λ u. out.new ≡ out.old ++ kinds_of (spec.layout_within (program typed.now).subtypes levels number)) }
{
    if levels == 0 {
        Ok(())
    } else {
        kinds_beside(typed, levels - 1, typed.subtype(number), out)?;
        Ok(())
    }
}

// of what stands in the table, whose parts are so many levels deep
#[cycle(kinds)]
fn kinds_beside(
    typed: &Typed,
    levels: usize,
    found: Option<Subtype>,
    out: &mut Items<CellKind>,
) -> Result<(), AllocError>
    ensures { IfOk result (λ u. out.new ≡ out.old ++ kinds_of (spec.layout_of (spec.layout_within (program typed.now).subtypes levels) (option_map (subtype_of typed.now.nodes) found))) }
{
    match found {
        None => Ok(()),
        Some(Subtype::Scalar { scalar }) => {
            out.push(kind_of(scalar.class))?;
            Ok(())
        }
        Some(
            Subtype::Array {
                dimensions,
                component,
            },
        ) => match components(typed, dimensions) {
            Err(_) => Err(AllocError),
            Ok(times) => {
                repeated_kinds(typed, levels, component, times, out)?;
                Ok(())
            }
        },
        Some(Subtype::Record { fields }) => {
            field_kinds(typed, levels, fields, out)?;
            Ok(())
        }
    }
}

#[cycle(kinds)]
fn repeated_kinds(
    typed: &Typed,
    levels: usize,
    component: u32,
    times: u64,
    out: &mut Items<CellKind>,
) -> Result<(), AllocError>
    ensures { IfOk result (λ u. out.new ≡ out.old ++ kinds_of (spec.repeated times (spec.layout_within (program typed.now).subtypes levels component))) }
{
    for _k in 0..times {
        kinds_within(typed, levels, component, out)?;
    }
    Ok(())
}

#[cycle(kinds)]
#[tactic(auto, using(crate::proofs::CellKinds::kinds_both))]
fn field_kinds(
    typed: &Typed,
    levels: usize,
    id: u32,
    out: &mut Items<CellKind>,
) -> Result<(), AllocError>
    ensures { IfOk result (λ u. out.new ≡ out.old ++ kinds_of (spec.fields (spec.layout_within (program typed.now).subtypes levels) (fields_at typed.now.nodes id))) }
{
    match typed.nodes.leaf(id) {
        None => Ok(()),
        Some(cell) => match cell.leaf {
            Leaf::Field(field) => {
                kinds_within(typed, levels, field.subtype, out)?;
                field_kinds(typed, levels, cell.rest, out)?;
                Ok(())
            }
            _ => {
                field_kinds(typed, levels, cell.rest, out)?;
                Ok(())
            }
        },
    }
}
