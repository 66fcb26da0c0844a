//! Writing nodes into a table.

ghost use Rattle.std.specs.Prelude.{◌≡◌, IfOk, OnErr};
ghost use Rattle.typed_tree.specs.Written.{put, last};

use crate::node::Node;
use ada_base::Items;
use std::alloc::AllocError;

/// Puts a node at the end of a table, and gives its number. An Err is want of memory, and leaves the table as it was.
pub fn push(nodes: &mut Items<Node>, node: Node) -> Result<u32, AllocError>
    ensures ok { IfOk result (λ id. (nodes.new ≡ put node nodes.old) × (id ≡ last nodes.new)) }
    ensures err { OnErr result (nodes.new ≡ nodes.old) }
{
    let Ok(id) = u32::try_from(nodes.len()) else {
        return Err(AllocError);
    };
    nodes.push(node)?;
    Ok(id)
}
