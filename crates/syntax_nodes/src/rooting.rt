//! Roots and nodes: what each joining of parts is made of.

ghost use Rattle.std.specs.Prelude.{◌≡◌, ◌≤◌, ◌+◌, ◌∷◌, ◌++◌, [], OnOk, IfOk, length};
ghost use Rattle.syntax_nodes.specs.Tables.{part_at, of_node, NodeBelow};
ghost use Rattle.syntax_nodes.specs.Rooted.{stack, top, pop, Fit};

use crate::nodes::Node;
use ada_base::Items;
use std::alloc::AllocError;

/// Takes the latest root.
pub fn taken(nodes: &Items<Node>, roots: &mut Items<u32>) -> u32
    requires { Fit nodes.now roots.old }
    ensures is { part_at nodes.now result ≡ top (stack nodes.now roots.old) }
    ensures rest { stack nodes.now roots.new ≡ pop (stack nodes.now roots.old) }
    ensures fit { Fit nodes.now roots.new }
    ensures below { result ≤ length nodes.now }
{
    match roots.pop() {
        Some(root) => root,
        None => 0,
    }
}

/// Holds a root.
pub fn hold(nodes: &Items<Node>, roots: &mut Items<u32>, root: u32) -> Result<(), AllocError>
    requires fit { Fit nodes.now roots.old }
    requires below { root ≤ length nodes.now }
    ensures ok { OnOk result (stack nodes.now roots.new ≡ part_at nodes.now root ∷ stack nodes.now roots.old) }
    ensures fit { Fit nodes.now roots.new }
{
    roots.push(root)
}

/// Writes a node, and gives its number.
pub fn add(nodes: &mut Items<Node>, roots: &Items<u32>, node: Node) -> Result<u32, AllocError>
    requires fit { Fit nodes.old roots.now }
    requires below { NodeBelow (length nodes.old + 1) node }
    ensures ok { IfOk result (λ number. (part_at nodes.new number ≡ of_node (part_at nodes.old) node) × (number ≤ length nodes.new)) }
    ensures grown { OnOk result (nodes.new ≡ nodes.old ++ node ∷ []) }
    ensures kept { OnOk result (stack nodes.new roots.now ≡ stack nodes.old roots.now) }
    ensures fit { Fit nodes.new roots.now }
{
    let count = nodes.len();
    if count >= 4_294_967_295 {
        return Err(AllocError);
    }
    nodes.push(node)?;
    Ok(count as u32 + 1)
}

/// Writes a node, which is then the latest root.
pub fn put(nodes: &mut Items<Node>, roots: &mut Items<u32>, node: Node) -> Result<(), AllocError>
    requires fit { Fit nodes.old roots.old }
    requires below { NodeBelow (length nodes.old + 1) node }
    ensures ok { OnOk result (stack nodes.new roots.new ≡ of_node (part_at nodes.old) node ∷ stack nodes.old roots.old) }
    ensures fit { Fit nodes.new roots.new }
{
    let number = add(nodes, roots, node)?;
    hold(nodes, roots, number)
}

/// The node of a number.
pub fn node(nodes: &Items<Node>, roots: &Items<u32>, number: u32) -> Node
    requires { Fit nodes.now roots.now }
    ensures is { part_at nodes.now number ≡ of_node (part_at nodes.now) result }
    ensures below { NodeBelow number result }
{
    if number == 0 {
        return Node::Nothing;
    }
    match nodes.get(number as usize - 1) {
        Some(node) => *node,
        None => Node::Nothing,
    }
}
