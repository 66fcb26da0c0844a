//! A table of nodes, and what is being joined in it.

ghost use Rattle.std.specs.Prelude.{◌≡◌, ◌<◌, ◌∷◌, ◌++◌, [], OnOk, IfOk, length};
ghost use Rattle.typed_tree.specs.Decoded.{Nothing, of_node, part_at};
ghost use Rattle.typed_tree.specs.Ordered.{NodeBelow};
ghost use Rattle.typed_tree.specs.Latest.{pop, top};
ghost use Rattle.typed_parts.specs.Stack.{parts, IsLatest};

mod bodies;
mod digits;
mod expressions;
mod finishing;
mod indexes;
mod iterations;
mod lists;
mod looks;
mod names;
mod output;
mod settling;
mod statements;
mod values;

use ada_base::Items;
pub use finishing::Finished;
use std::alloc::{AllocError, Global};
use std::marker::Model;
use typed_tree::{Node, push};

/// Parts of a typed program that are being joined, as a stack: a function joins the latest parts, and what it makes of
/// them is the latest part then. A part that isn't there or is of another kind counts as what is dullest of its kind,
/// so that no function has a condition. An Err is want of memory, and what the parts are then isn't told.
///
/// An item or a condition that is left out is the part `nothing`, and so is a list without items. Contracts see the
/// table and its roots, and say with `parts` what parts these are, the latest first.
#[derive(Drop)]
pub struct Parts {
    nodes: Items<Node>,
    roots: Items<u32>,
    alloc: Global,
}

impl Model for Parts {
    ghost use Rattle.typed_parts.specs.Stack.{Fit, Table};

    ghost Value = { Table };

    ghost view = { λ p. record { nodes = p.nodes; roots = p.roots } };

    ghost invariant = { λ p. Fit p.nodes p.roots };
}

impl Parts {
    /// No part yet.
    pub fn new(alloc: Global) -> Result<Parts, AllocError>
        ensures { IfOk result (λ out. parts out ≡ []) }
    {
        let mut nodes = Items::new(alloc);
        nodes.push(Node::End)?;
        Ok(Parts {
            nodes,
            roots: Items::new(alloc),
            alloc,
        })
    }

    /// The allocator of the table.
    pub fn alloc(&self) -> Global {
        self.alloc
    }

    /// Takes the latest part, and gives its number.
    fn take(&mut self) -> u32
        ensures { (part_at self.new.nodes result ≡ top (parts self.old)) × (parts self.new ≡ pop (parts self.old)) × (result < length self.new.nodes) × (self.new.nodes ≡ self.old.nodes) }
    {
        latest(&mut self.roots)
    }

    /// The part of a number becomes the latest one.
    fn hold(&mut self, root: u32) -> Result<(), AllocError>
        requires { root < length self.old.nodes }
        ensures { OnOk result ((parts self.new ≡ part_at self.old.nodes root ∷ parts self.old) × (self.new.nodes ≡ self.old.nodes)) }
    {
        self.roots.push(root)?;
        Ok(())
    }

    /// Writes a node, which is then the latest part.
    fn put(&mut self, node: Node) -> Result<(), AllocError>
        requires { NodeBelow (length self.old.nodes) node }
        ensures { OnOk result ((parts self.new ≡ of_node (part_at self.old.nodes) node ∷ parts self.old) × (self.new.nodes ≡ self.old.nodes ++ node ∷ [])) }
    {
        let id = push(&mut self.nodes, node)?;
        self.roots.push(id)?;
        Ok(())
    }

    /// Writes a node, and gives its number. It is no part yet.
    fn add(&mut self, node: Node) -> Result<u32, AllocError>
        requires { NodeBelow (length self.old.nodes) node }
        ensures { IfOk result (λ id. (part_at self.new.nodes id ≡ of_node (part_at self.old.nodes) node) × (id < length self.new.nodes) × (parts self.new ≡ parts self.old) × (self.new.nodes ≡ self.old.nodes ++ node ∷ [])) }
    {
        let id = push(&mut self.nodes, node)?;
        Ok(id)
    }

    /// The number of nothing.
    fn none(&self) -> u32
        ensures { (part_at self.now.nodes result ≡ Nothing) × (result < length self.now.nodes) }
    {
        let _nodes = &self.nodes;
        0
    }

    /// The node of a number.
    fn node(&self, id: u32) -> Node
        ensures { (part_at self.now.nodes id ≡ of_node (part_at self.now.nodes) result) × NodeBelow id result }
    {
        match self.nodes.get(id as usize) {
            Some(node) => *node,
            None => Node::End,
        }
    }
}

/// Takes the last root, or 0 where there is none.
fn latest(roots: &mut Items<u32>) -> u32
    ensures { IsLatest roots.old roots.new result }
{
    match roots.pop() {
        Some(root) => root,
        None => 0,
    }
}
