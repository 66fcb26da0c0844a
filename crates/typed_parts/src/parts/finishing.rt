//! The table for readers.

ghost use Rattle.std.specs.Prelude.{◌≡◌, ◌∷◌, [], MatchOption};
ghost use Rattle.typed_tree.specs.Decoded.{part_at};
ghost use Rattle.typed_parts.specs.Stack.{parts_in, parts};

use crate::parts::Parts;
use ada_base::Items;
use typed_tree::Nodes;

/// A table for readers, and the numbers of the parts that were joined in it, the latest last.
#[derive(Drop)]
pub struct Finished {
    pub nodes: Nodes,
    pub roots: Items<u32>,
}

impl Parts {
    /// Gives the table for readers, with all parts.
    pub fn finish(self) -> Finished
        ensures { parts_in result.nodes result.roots ≡ parts self }
    {
        let Parts { nodes, roots, .. } = self;
        Finished {
            nodes: Nodes::new(nodes),
            roots,
        }
    }
}

impl Finished {
    /// Takes the latest part, and gives its number; None where there is none.
    pub fn take(&mut self) -> Option<u32>
        ensures { (self.new.nodes ≡ self.old.nodes) × MatchOption result (parts_in self.old.nodes self.old.roots ≡ []) (λ root. parts_in self.old.nodes self.old.roots ≡ part_at self.old.nodes root ∷ parts_in self.new.nodes self.new.roots) }
    {
        self.roots.pop()
    }
}
