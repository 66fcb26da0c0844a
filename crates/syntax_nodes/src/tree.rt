//! The syntax tree of a program: a finished table of nodes, and the views of its parts. Any number may be viewed as a part
//! by any rule: what isn't one reads as the least part that there is, so that nothing has to be known of a number.

ghost use Rattle.std.specs.Prelude.{◌≡◌, ◌<◌, ◌≤◌, MatchOption, IfSome};
ghost use Rattle.syntax_nodes.specs.Parts as parts;
ghost use Rattle.syntax_nodes.specs.Parts.{NoItem, AlsoItem, items_of, the_aspect, the_declare, the_expr, the_formals, the_pack, the_parallel, the_policy, the_scheme, the_simple, the_token};
ghost use Rattle.syntax_nodes.specs.Rooted.{top};
ghost use Rattle.syntax_nodes.specs.Stack.{parts as joined};
ghost use Rattle.syntax_nodes.specs.Tables.{part_at, of_node, NodeBelow};
ghost use Rattle.syntax_nodes.specs.Views.{optional, optional_expr, optional_parallel, optional_stmts};

use crate::rooting::taken;
use crate::{Cell, Leaf, Node, One, Parts, Three, Two};
use ada_base::Items;
use std::marker::Model;

/// A syntax tree. Contracts see the list of its nodes, and the number of its root.
#[derive(Drop)]
pub struct Tree {
    nodes: Items<Node>,
    root: u32,
}

impl Model for Tree {
    ghost use Rattle.syntax_nodes.specs.Tables.{IsOrdered};
    ghost use Rattle.syntax_nodes.specs.Trees.{Table};

    ghost Value = { Table };

    ghost view = { λ tree. record { nodes = tree.nodes; root = tree.root } };

    ghost invariant = { λ tree. IsOrdered tree.nodes };
}

/// The tree of the part that was joined last.
#[tactic(auto, unfolding(crate::specs::Stack::parts))]
pub fn finish(out: Parts) -> Tree
    ensures { part_at result.nodes result.root ≡ top (joined out) }
{
    let Parts { nodes, mut roots } = out;
    let root = taken(&nodes, &mut roots);
    Tree { nodes, root }
}

impl Tree {
    /// The number of the root: of the program's node.
    pub fn root(&self) -> u32
        ensures { result ≡ self.now.root }
    {
        self.root
    }

    /// The node of a number.
    pub fn node(&self, number: u32) -> Node
        ensures is { part_at self.now.nodes number ≡ of_node (part_at self.now.nodes) result }
        ensures below { NodeBelow number result }
    {
        if number == 0 {
            return Node::Nothing;
        }
        match self.nodes.get(number as usize - 1) {
            Some(node) => *node,
            None => Node::Nothing,
        }
    }

    /// The first item of a list and the rest of the list, if it has an item.
    pub fn cell(&self, list: u32) -> Option<Cell>
        ensures is { MatchOption result (items_of (part_at self.now.nodes list) ≡ NoItem) (λ c. items_of (part_at self.now.nodes list) ≡ AlsoItem (part_at self.now.nodes c.first) (items_of (part_at self.now.nodes c.rest))) }
        ensures below { IfSome result (λ c. (c.first < list) × (c.rest < list)) }
    {
        match self.node(list) {
            Node::Cell(first, rest) => Some(Cell { first, rest }),
            _ => None,
        }
    }

    /// The token of a number.
    pub fn token(&self, number: u32) -> u32
        ensures { the_token (part_at self.now.nodes number) ≡ result }
    {
        match self.node(number) {
            Node::Leaf(Leaf::Token(at)) => at,
            _ => 0,
        }
    }

    /// The token of a number, if there is one.
    pub fn maybe_token(&self, number: u32) -> Option<u32>
        ensures { parts.maybe_token (part_at self.now.nodes number) ≡ result }
    {
        match self.node(number) {
            Node::Leaf(Leaf::Token(at)) => Some(at),
            _ => None,
        }
    }

    /// The number, if it is that of a part.
    pub fn present(&self, number: u32) -> Option<u32>
        ensures is { (parts.maybe_expr (part_at self.now.nodes number) ≡ optional (part_at self.now.nodes) the_expr result) × (parts.optional_expr (part_at self.now.nodes number) ≡ optional_expr (part_at self.now.nodes) result) × (parts.maybe_simple (part_at self.now.nodes number) ≡ optional (part_at self.now.nodes) the_simple result) }
        ensures below { IfSome result (λ n. n ≤ number) }
    {
        match self.node(number) {
            Node::Nothing => None,
            _ => Some(number),
        }
    }

    /// The number, if it is that of a parallel part.
    pub fn maybe_parallel(&self, number: u32) -> Option<u32>
        ensures is { (parts.maybe_parallel (part_at self.now.nodes number) ≡ optional (part_at self.now.nodes) the_parallel result) × (parts.optional_parallel (part_at self.now.nodes number) ≡ optional_parallel (part_at self.now.nodes) result) }
        ensures below { IfSome result (λ n. n ≤ number) }
    {
        match self.node(number) {
            Node::Leaf(Leaf::Unchunked(_)) => Some(number),
            Node::One(One::Counted(_), _) => Some(number),
            Node::One(One::Chunked(_, _), _) => Some(number),
            _ => None,
        }
    }

    /// The number, if it is that of a sequence of statements.
    pub fn maybe_stmts(&self, number: u32) -> Option<u32>
        ensures is { parts.optional_stmts (part_at self.now.nodes number) ≡ optional_stmts (part_at self.now.nodes) result }
        ensures below { IfSome result (λ n. n ≤ number) }
    {
        match self.node(number) {
            Node::Two(Two::Stmts, _, _) => Some(number),
            _ => None,
        }
    }

    /// The number, if it is that of an iteration scheme.
    pub fn maybe_scheme(&self, number: u32) -> Option<u32>
        ensures is { parts.maybe_scheme (part_at self.now.nodes number) ≡ optional (part_at self.now.nodes) the_scheme result }
        ensures below { IfSome result (λ n. n ≤ number) }
    {
        match self.node(number) {
            Node::One(One::While(_), _) => Some(number),
            Node::Two(Two::For(_), _, _) => Some(number),
            _ => None,
        }
    }

    /// The number, if it is that of an expanded name.
    pub fn maybe_pack(&self, number: u32) -> Option<u32>
        ensures is { parts.maybe_pack (part_at self.now.nodes number) ≡ optional (part_at self.now.nodes) the_pack result }
        ensures below { IfSome result (λ n. n ≤ number) }
    {
        match self.node(number) {
            Node::One(One::Pack(_), _) => Some(number),
            _ => None,
        }
    }

    /// The number, if it is that of a declarative part.
    pub fn maybe_declare(&self, number: u32) -> Option<u32>
        ensures is { parts.maybe_declare (part_at self.now.nodes number) ≡ optional (part_at self.now.nodes) the_declare result }
        ensures below { IfSome result (λ n. n ≤ number) }
    {
        match self.node(number) {
            Node::One(One::Declare(_), _) => Some(number),
            _ => None,
        }
    }

    /// The number, if it is that of a formal part.
    pub fn maybe_formals(&self, number: u32) -> Option<u32>
        ensures is { parts.maybe_formals (part_at self.now.nodes number) ≡ optional (part_at self.now.nodes) the_formals result }
        ensures below { IfSome result (λ n. n ≤ number) }
    {
        match self.node(number) {
            Node::Two(Two::Formals(_), _, _) => Some(number),
            _ => None,
        }
    }

    /// The number, if it is that of an aspect.
    pub fn maybe_aspect(&self, number: u32) -> Option<u32>
        ensures is { parts.maybe_aspect (part_at self.now.nodes number) ≡ optional (part_at self.now.nodes) the_aspect result }
        ensures below { IfSome result (λ n. n ≤ number) }
    {
        match self.node(number) {
            Node::Leaf(Leaf::Aspect(_, _, _)) => Some(number),
            _ => None,
        }
    }

    /// The number, if it is that of a policy.
    pub fn maybe_policy(&self, number: u32) -> Option<u32>
        ensures is { parts.maybe_policy (part_at self.now.nodes number) ≡ optional (part_at self.now.nodes) the_policy result }
        ensures below { IfSome result (λ n. n ≤ number) }
    {
        match self.node(number) {
            Node::Leaf(Leaf::Policy(_, _, _)) => Some(number),
            _ => None,
        }
    }
}
