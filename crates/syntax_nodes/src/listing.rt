//! A list that grew is closed: its cells are written from the last item on, so that the first item's is the last.

ghost use Rattle.std.specs.Prelude.{◌≡◌, ◌<◌, ◌≤◌, OnOk, IfOk, MatchOption, length};
ghost use Rattle.syntax_nodes.specs.Parts.{items_of, open_items, onto, IsClosed, NoItem};
ghost use Rattle.syntax_nodes.specs.Rooted.{stack, Fit};
ghost use Rattle.syntax_nodes.specs.Stack.{parts, Closes};
ghost use Rattle.syntax_nodes.specs.Tables.{part_at};

use crate::lists::{ListKind, list_number};
use crate::nodes::Node;
use crate::parts::Parts;
use crate::rooting::{add, hold, node, taken};
use ada_base::Items;
use std::alloc::AllocError;
use syntax_readers::Failure;

/// Where a list is closed: what still grows, and what is closed.
#[derive(Clone, Copy)]
struct Closing {
    grown: u32,
    closed: u32,
}

/// Closes the last item.
fn close_item(
    nodes: &mut Items<Node>,
    roots: &Items<u32>,
    kind: ListKind,
    here: Closing,
) -> Result<Option<Closing>, AllocError>
    requires fit { Fit nodes.old roots.now }
    requires growing { here.grown ≤ length nodes.old }
    requires closed { here.closed ≤ length nodes.old }
    ensures ok { IfOk result (λ o. MatchOption o (onto (open_items kind (part_at nodes.old here.grown)) (items_of (part_at nodes.old here.closed)) ≡ items_of (part_at nodes.new here.closed)) (λ next. (onto (open_items kind (part_at nodes.old here.grown)) (items_of (part_at nodes.old here.closed)) ≡ onto (open_items kind (part_at nodes.new next.grown)) (items_of (part_at nodes.new next.closed))) × (next.grown < here.grown) × (next.grown ≤ length nodes.new) × (next.closed ≤ length nodes.new))) }
    ensures none { IfOk result (λ o. MatchOption o (nodes.new ≡ nodes.old) (λ next. Unit {0})) }
    ensures kept { OnOk result (stack nodes.new roots.now ≡ stack nodes.old roots.now) }
    ensures fit { Fit nodes.new roots.now }
{
    match node(nodes, roots, here.grown) {
        Node::Also(of, before, item) => {
            if list_number(kind) == list_number(of) {
                let closed = add(nodes, roots, Node::Cell(item, here.closed))?;
                Ok(Some(Closing {
                    grown: before,
                    closed,
                }))
            } else {
                Ok(None)
            }
        }
        _ => Ok(None),
    }
}

/// Closes a list.
#[tactic(auto, using(crate::proofs::Reading::part_zero))]
fn closed(
    nodes: &mut Items<Node>,
    roots: &Items<u32>,
    kind: ListKind,
    grown: u32,
) -> Result<u32, AllocError>
    requires fit { Fit nodes.old roots.now }
    requires growing { grown ≤ length nodes.old }
    ensures ok { IfOk result (λ number. (items_of (part_at nodes.new number) ≡ onto (open_items kind (part_at nodes.old grown)) NoItem) × (number ≤ length nodes.new)) }
    ensures kept { OnOk result (stack nodes.new roots.now ≡ stack nodes.old roots.now) }
    ensures fit { Fit nodes.new roots.now }
{
    let mut here = Closing { grown, closed: 0 };
    while let Some(next) = close_item(nodes, roots, kind, here)? {
        here = next;
    }
    Ok(here.closed)
}

/// The latest part is a list of this kind that grew; it is whole.
#[tactic(auto, unfolding(crate::specs::Stack::parts), using(crate::proofs::Items::is_closed))]
pub fn close(out: &mut Parts, kind: ListKind) -> Result<(), Failure>
    ensures { Closes result kind (parts out.new) (parts out.old) }
{
    let grown = taken(&out.nodes, &mut out.roots);
    let number = closed(&mut out.nodes, &out.roots, kind, grown)?;
    hold(&out.nodes, &mut out.roots, number)?;
    Ok(())
}
