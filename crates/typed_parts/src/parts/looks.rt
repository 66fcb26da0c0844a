//! What the latest part is.

ghost use Rattle.std.specs.Prelude.{◌≡◌, IfOk};
ghost use Rattle.typed_tree.specs.Decoded.{part_at};
ghost use Rattle.typed_tree.specs.Latest.{pop, top};
ghost use Rattle.typed_parts.specs.Looks.{is_nothing};
ghost use Rattle.typed_parts.specs.Stack.{parts};

use crate::parts::Parts;
use std::alloc::AllocError;
use typed_tree::Node;

impl Parts {
    /// Whether the part of a number is nothing.
    fn is_end(&self, id: u32) -> bool
        ensures { result ≡ is_nothing (part_at self.now.nodes id) }
    {
        match self.node(id) {
            Node::End => true,
            _ => false,
        }
    }

    /// Whether the latest part is nothing, or a list without items.
    pub fn is_nothing(&mut self) -> Result<bool, AllocError>
        ensures { IfOk result (λ b. (b ≡ is_nothing (top (parts self.old))) × (top (parts self.new) ≡ top (parts self.old)) × (pop (parts self.new) ≡ pop (parts self.old))) }
    {
        let last = self.take();
        let none = self.is_end(last);
        self.hold(last)?;
        Ok(none)
    }
}
