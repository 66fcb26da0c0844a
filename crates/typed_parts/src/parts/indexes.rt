//! The indexes in the name of an object (4.1.1), which an attribute of it mentions.

ghost use Rattle.std.specs.Prelude.{◌≡◌, ◌<◌, ◌∷◌, IfOk, MatchOption, OnOk, length};
ghost use Rattle.typed_tree.specs.Decoded.{as_selection, as_selections, part_at};
ghost use Rattle.typed_tree.specs.Syntax.{Whole};
ghost use Rattle.typed_tree.specs.Indexes.{indexes_from, indexes_in};
ghost use Rattle.typed_tree.specs.Latest.{pop, top};
ghost use Rattle.typed_parts.specs.IndexChains.{GoesOn};
ghost use Rattle.typed_parts.specs.Stack.{parts, Stays};

use crate::parts::Parts;
use std::alloc::AllocError;
use typed_tree::{Node, Selection};

impl Parts {
    /// The indexes in a complete list of selections, as a list of expressions that grows.
    #[tactic(auto, unfolding(typed_tree::specs::Indexes::indexes_in))]
    pub fn indexes(&mut self) -> Result<(), AllocError>
        ensures { OnOk result (parts self.new ≡ indexes_in (as_selections (top (parts self.old))) ∷ pop (parts self.old)) }
    {
        self.nothing()?;
        self.swap()?;
        let mut next = self.take();
        'selections: while let Some(rest) = self.after_selection(next)? {
            next = rest;
        }
        let all = self.take();
        self.hold(all)
    }

    /// Goes over the first selection of a list, and gives the number of the rest; None at the end of the list.
    fn after_selection(&mut self, list: u32) -> Result<Option<u32>, AllocError>
        requires { list < length self.old.nodes }
        ensures { IfOk result (λ rest. MatchOption rest ((as_selections (part_at self.old.nodes list) ≡ Whole) × (parts self.new ≡ parts self.old)) (λ next. (indexes_from (top (parts self.old)) (as_selections (part_at self.old.nodes list)) ≡ indexes_from (top (parts self.new)) (as_selections (part_at self.new.nodes next))) × (next < list) × (next < length self.new.nodes) × (pop (parts self.new) ≡ pop (parts self.old)))) }
    {
        match self.node(list) {
            Node::Cell { first, rest } => {
                self.also_index(first)?;
                Ok(Some(rest))
            }
            _ => Ok(None),
        }
    }

    /// The expression of a selection by an index joins the list that grows.
    fn also_index(&mut self, selection: u32) -> Result<(), AllocError>
        requires { selection < length self.old.nodes }
        ensures { OnOk result (GoesOn (top (parts self.old)) (as_selection (part_at self.old.nodes selection)) (top (parts self.new)) × (pop (parts self.new) ≡ pop (parts self.old)) × Stays self.old.nodes self.new.nodes) }
    {
        match self.node(selection) {
            Node::Selection(Selection::Index { index, .. }) => {
                let done = self.take();
                self.hold_expr(index)?;
                let first = self.take();
                self.put_on(Node::Cell { first, rest: done })
            }
            _ => Ok(()),
        }
    }
}
