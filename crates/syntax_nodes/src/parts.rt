//! A table of nodes, and what is being joined in it.

ghost use Rattle.syntax_nodes.specs.Props.{fit_props};
ghost use Rattle.syntax_nodes.specs.Rooted.{Fit};

use crate::nodes::Node;
use ada_base::Items;

/// A table of nodes, and the roots of the parts that are being joined, the latest last. Contracts see the parts
/// themselves, the latest first.
#[derive(Drop)]
pub struct Parts {
    pub nodes: Items<Node>,
    pub roots: Items<u32>,
    pub ghost fit: { Fit nodes roots } by { Prim.hlevel fit_props },
}
