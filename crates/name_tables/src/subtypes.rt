//! Subtypes (3.2.2): the lists of bounds and of components are parts, and each subtype has the number of its list.

ghost use Rattle.std.specs.Prelude.{◌≡◌, ◌++◌, IfOk, OnOk, map};
ghost use Rattle.typed_tree.specs.Decoded.{as_bounds, as_fields, part_at};
ghost use Rattle.typed_tree.specs.Programs.{subtype_of};
ghost use Rattle.typed_tree.specs.Latest.{pop, top};
ghost use Rattle.name_rules.specs.Resolved.{dimension_bounds, typed_field, typed_subtype};
ghost use Rattle.name_rules.specs.Types as types;
ghost use Rattle.name_tables.specs.Shapes.{rest_of, with_part, with_parts};
ghost use Rattle.typed_parts.specs.Stack.{parts, parts_in};

use ada_base::{Base, Items};
use name_rules::log::{Dimension, Field, Shape};
use name_rules::types::{Kind, Scalar};
use std::alloc::{AllocError, Global};
use typed_parts::{Finished, Parts};
use typed_tree::{Bounds, Class, Leaf, Nodes, Subtype};

fn class_of(kind: Kind) -> Class
    ensures { result ≡ types.class_of kind }
{
    match kind {
        Kind::Boolean => Class::Boolean,
        Kind::Integer => Class::Integer(Base::Narrow),
        Kind::Own(_) => Class::Integer(Base::Wide),
        Kind::Modular(_, k) => Class::Integer(Base::Modulo(k)),
    }
}

fn typed_scalar(scalar: Scalar) -> typed_tree::Scalar
    ensures { result ≡ types.typed_scalar scalar }
{
    typed_tree::Scalar {
        class: class_of(scalar.kind),
        low: scalar.low,
        high: scalar.high,
    }
}

/// The bounds of an array's dimensions, as a list.
#[tactic(auto, using(crate::proofs::Lists::drop_back, crate::proofs::Lists::drop_all))]
fn bounds_part(out: &mut Parts, dimensions: &Items<Dimension>) -> Result<(), AllocError>
    ensures { OnOk result ((as_bounds (top (parts out.new)) ≡ map dimension_bounds dimensions.now) × (pop (parts out.new) ≡ parts out.old)) }
{
    out.nothing()?;
    let mut i = dimensions.len();
    'bounds: while i > 0 {
        i -= 1;
        let Some(dimension) = dimensions.get(i) else {
            return Err(AllocError);
        };
        out.also_leaf(Leaf::Bounds(Bounds {
            low: dimension.low,
            high: dimension.high,
        }))?;
    }
    Ok(())
}

/// The components of a record, as a list.
#[tactic(auto, using(crate::proofs::Lists::drop_back, crate::proofs::Lists::drop_all))]
fn fields_part(out: &mut Parts, fields: &Items<Field>) -> Result<(), AllocError>
    ensures { OnOk result ((as_fields (top (parts out.new)) ≡ map typed_field fields.now) × (pop (parts out.new) ≡ parts out.old)) }
{
    out.nothing()?;
    let mut i = fields.len();
    'parts: while i > 0 {
        i -= 1;
        let Some(field) = fields.get(i) else {
            return Err(AllocError);
        };
        out.also_leaf(Leaf::Field(typed_tree::Field {
            name: field.name,
            subtype: field.number,
        }))?;
    }
    Ok(())
}

fn shape_part(out: &mut Parts, shape: &Shape) -> Result<(), AllocError>
    ensures { OnOk result ((with_part shape.now (top (parts out.new)) ≡ typed_subtype shape.now) × (pop (parts out.new) ≡ parts out.old)) }
{
    match shape {
        Shape::Scalar(_) => {
            out.nothing()?;
            Ok(())
        }
        Shape::Array { dimensions, .. } => {
            bounds_part(out, dimensions)?;
            Ok(())
        }
        Shape::Record { fields, .. } => {
            fields_part(out, fields)?;
            Ok(())
        }
    }
}

/// The lists of all subtypes, the first of which is the latest part then.
#[tactic(auto, using(crate::proofs::Lists::drop_back, crate::proofs::Lists::drop_all))]
pub fn shape_parts(out: &mut Parts, shapes: &Items<Shape>) -> Result<(), AllocError>
    ensures { OnOk result ((with_parts shapes.now (parts out.new) ≡ map typed_subtype shapes.now) × (rest_of shapes.now (parts out.new) ≡ parts out.old)) }
{
    let mut i = shapes.len();
    'all: while i > 0 {
        i -= 1;
        let Some(shape) = shapes.get(i) else {
            return Err(AllocError);
        };
        shape_part(out, shape)?;
    }
    Ok(())
}

/// A subtype whose list has this number.
fn numbered(nodes: &Nodes, shape: &Shape, list: u32) -> Subtype
    ensures { subtype_of nodes.now result ≡ with_part shape.now (part_at nodes.now list) }
{
    let _nodes = nodes;
    match shape {
        Shape::Scalar(scalar) => Subtype::Scalar {
            scalar: typed_scalar(*scalar),
        },
        Shape::Array { number, .. } => Subtype::Array {
            dimensions: list,
            component: *number,
        },
        Shape::Record { .. } => Subtype::Record { fields: list },
    }
}

/// The subtypes of the latest parts.
#[tactic(auto, using(crate::proofs::Lists::drop_less))]
pub fn subtypes_taken(
    alloc: Global,
    finished: &mut Finished,
    shapes: &Items<Shape>,
) -> Result<Items<Subtype>, AllocError>
    ensures { IfOk result (λ all. (map (subtype_of finished.new.nodes) all ≡ with_parts shapes.now (parts_in finished.old.nodes finished.old.roots)) × (parts_in finished.new.nodes finished.new.roots ≡ rest_of shapes.now (parts_in finished.old.nodes finished.old.roots)) × (finished.new.nodes ≡ finished.old.nodes)) }
{
    let mut all = Items::new(alloc);
    let mut i = 0;
    'all: while let Some(shape) = shapes.get(i) {
        let Some(list) = finished.take() else {
            return Err(AllocError);
        };
        all.push(numbered(&finished.nodes, shape, list))?;
        if i == usize::MAX {
            return Err(AllocError);
        }
        i += 1;
    }
    Ok(all)
}
