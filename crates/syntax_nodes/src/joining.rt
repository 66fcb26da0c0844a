//! Parts are joined from the latest on.

ghost use Rattle.std.specs.Prelude.{◌≡◌, ◌∷◌, []};
ghost use Rattle.syntax_nodes.specs.Parts.{Nothing};
ghost use Rattle.syntax_nodes.specs.Rooted.{top, pop, second, third, fourth};
ghost use Rattle.syntax_nodes.specs.Stack.{parts, Joins};
ghost use Rattle.syntax_nodes.specs.Tables.{also_value, cell_value};
ghost use Rattle.syntax_nodes.specs.Values.{value_leaf, value_one, value_two, value_three, value_four};

use crate::lists::ListKind;
use crate::nodes::{Four, Leaf, Node, One, Three, Two};
use crate::parts::Parts;
use crate::rooting::{hold, put, taken};
use ada_base::Items;
use std::alloc::Global;
use syntax_readers::Failure;

/// A table with no part.
#[tactic(auto, using(crate::proofs::Stacks::fit_none))]
pub fn begin(alloc: Global) -> Parts
    ensures { parts result ≡ [] }
{
    Parts {
        nodes: Items::new(alloc),
        roots: Items::new(alloc),
    }
}

/// A part that is left out, or a list without items.
#[tactic(auto, unfolding(crate::specs::Stack::parts), using(crate::proofs::Reading::part_zero))]
pub fn nothing(out: &mut Parts) -> Result<(), Failure>
    ensures { Joins result (parts out.new) (Nothing ∷ parts out.old) }
{
    hold(&out.nodes, &mut out.roots, 0)?;
    Ok(())
}

/// A part of nothing.
#[tactic(auto, unfolding(crate::specs::Stack::parts))]
pub fn leaf(out: &mut Parts, form: Leaf) -> Result<(), Failure>
    ensures { Joins result (parts out.new) (value_leaf form ∷ parts out.old) }
{
    put(&mut out.nodes, &mut out.roots, Node::Leaf(form))?;
    Ok(())
}

/// A part of the latest one.
#[tactic(auto, unfolding(crate::specs::Stack::parts))]
pub fn one(out: &mut Parts, form: One) -> Result<(), Failure>
    ensures { Joins result (parts out.new) (value_one form (top (parts out.old)) ∷ pop (parts out.old)) }
{
    let last = taken(&out.nodes, &mut out.roots);
    put(&mut out.nodes, &mut out.roots, Node::One(form, last))?;
    Ok(())
}

/// A part of the latest two.
#[tactic(auto, unfolding(crate::specs::Stack::parts))]
pub fn two(out: &mut Parts, form: Two) -> Result<(), Failure>
    ensures { Joins result (parts out.new) (value_two form (second (parts out.old)) (top (parts out.old)) ∷ pop (pop (parts out.old))) }
{
    let last = taken(&out.nodes, &mut out.roots);
    let second = taken(&out.nodes, &mut out.roots);
    put(
        &mut out.nodes,
        &mut out.roots,
        Node::Two(form, second, last),
    )?;
    Ok(())
}

/// A part of the latest three.
#[tactic(auto, unfolding(crate::specs::Stack::parts))]
pub fn three(out: &mut Parts, form: Three) -> Result<(), Failure>
    ensures { Joins result (parts out.new) (value_three form (third (parts out.old)) (second (parts out.old)) (top (parts out.old)) ∷ pop (pop (pop (parts out.old)))) }
{
    let last = taken(&out.nodes, &mut out.roots);
    let second = taken(&out.nodes, &mut out.roots);
    let third = taken(&out.nodes, &mut out.roots);
    put(
        &mut out.nodes,
        &mut out.roots,
        Node::Three(form, third, second, last),
    )?;
    Ok(())
}

/// A part of the latest four.
#[tactic(auto, unfolding(crate::specs::Stack::parts))]
pub fn four(out: &mut Parts, form: Four) -> Result<(), Failure>
    ensures { Joins result (parts out.new) (value_four form (fourth (parts out.old)) (third (parts out.old)) (second (parts out.old)) (top (parts out.old)) ∷ pop (pop (pop (pop (parts out.old))))) }
{
    let last = taken(&out.nodes, &mut out.roots);
    let second = taken(&out.nodes, &mut out.roots);
    let third = taken(&out.nodes, &mut out.roots);
    let fourth = taken(&out.nodes, &mut out.roots);
    put(
        &mut out.nodes,
        &mut out.roots,
        Node::Four(form, fourth, third, second, last),
    )?;
    Ok(())
}

/// The latest part goes behind the list before it.
#[tactic(auto, unfolding(crate::specs::Stack::parts))]
pub fn also(out: &mut Parts, kind: ListKind) -> Result<(), Failure>
    ensures { Joins result (parts out.new) (also_value kind (second (parts out.old)) (top (parts out.old)) ∷ pop (pop (parts out.old))) }
{
    let item = taken(&out.nodes, &mut out.roots);
    let before = taken(&out.nodes, &mut out.roots);
    put(
        &mut out.nodes,
        &mut out.roots,
        Node::Also(kind, before, item),
    )?;
    Ok(())
}

/// The part below the latest one goes before the items of the latest, which is a closed list.
#[tactic(auto, unfolding(crate::specs::Stack::parts))]
pub fn before(out: &mut Parts) -> Result<(), Failure>
    ensures { Joins result (parts out.new) (cell_value (second (parts out.old)) (top (parts out.old)) ∷ pop (pop (parts out.old))) }
{
    let list = taken(&out.nodes, &mut out.roots);
    let item = taken(&out.nodes, &mut out.roots);
    put(&mut out.nodes, &mut out.roots, Node::Cell(item, list))?;
    Ok(())
}

/// Leaves the latest part out.
#[tactic(auto, unfolding(crate::specs::Stack::parts))]
pub fn leave_out(out: &mut Parts)
    ensures { parts out.new ≡ pop (parts out.old) }
{
    let _root = taken(&out.nodes, &mut out.roots);
}

/// The latest two parts change places.
#[tactic(auto, unfolding(crate::specs::Stack::parts))]
pub fn swap(out: &mut Parts) -> Result<(), Failure>
    ensures { Joins result (parts out.new) (second (parts out.old) ∷ top (parts out.old) ∷ pop (pop (parts out.old))) }
{
    let last = taken(&out.nodes, &mut out.roots);
    let before = taken(&out.nodes, &mut out.roots);
    hold(&out.nodes, &mut out.roots, last)?;
    hold(&out.nodes, &mut out.roots, before)?;
    Ok(())
}
