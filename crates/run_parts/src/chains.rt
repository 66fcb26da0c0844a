//! Operators with two operands, of which those of one level are nested to the left (4.5).

ghost use Rattle.std.specs.Prelude.{◌≡◌, ◌≤◌};
ghost use Rattle.typed_tree.specs.Chained.{linked, AreBelow};
ghost use Rattle.typed_tree.specs.Decoded.{expr_at, part_at};
ghost use Rattle.run_values.specs.Values.{OrNoMemory};
ghost use Rattle.run_parts.specs.Words.{nodes_of};

use crate::work::Work;
use ada_base::Items;
use run_values::End;
use typed_tree::Link;

/// An expression as operators over its first operand; the operator that is applied first stands last.
#[derive(Drop)]
pub struct Chain {
    pub links: Items<Link>,
    pub first: u32,
}

/// Takes an expression apart.
pub fn operands(work: &Work<'_>, id: u32) -> Result<Chain, End>
    ensures { OrNoMemory (λ chain. (expr_at (nodes_of work.now) id ≡ linked (part_at (nodes_of work.now)) chain.links (expr_at (nodes_of work.now) chain.first)) × (chain.first ≤ id) × AreBelow id chain.links) result }
{
    let mut links = Items::new(work.alloc);
    match work.typed.nodes.operands(id, &mut links) {
        Ok(first) => Ok(Chain { links, first }),
        Err(_) => Err(End::NoMemory),
    }
}
