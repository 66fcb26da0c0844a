//! Parts change places; lists are joined item by item, and turned once they are complete.

ghost use Rattle.std.specs.Prelude.{◌≡◌, ◌<◌, ◌∷◌, OnOk, IfOk, MatchOption, length};
ghost use Rattle.typed_tree.specs.Decoded.{part_at, Cons, LeafCons, Nothing};
ghost use Rattle.typed_tree.specs.Latest.{first_of, onto, pop, rest_of, second, third, top, turned};
ghost use Rattle.typed_parts.specs.Lists.{has_item};
ghost use Rattle.typed_parts.specs.Stack.{parts};

use crate::parts::Parts;
use std::alloc::AllocError;
use typed_tree::{Leaf, Node};

impl Parts {
    /// Nothing, which is also a list without items.
    pub fn nothing(&mut self) -> Result<(), AllocError>
        ensures { OnOk result (parts self.new ≡ Nothing ∷ parts self.old) }
    {
        let none = self.none();
        self.hold(none)
    }

    /// The latest part once more.
    pub fn again(&mut self) -> Result<(), AllocError>
        ensures { OnOk result (parts self.new ≡ top (parts self.old) ∷ top (parts self.old) ∷ pop (parts self.old)) }
    {
        let last = self.take();
        self.hold(last)?;
        self.hold(last)
    }

    /// Leaves the latest part out.
    pub fn leave_out(&mut self)
        ensures { parts self.new ≡ pop (parts self.old) }
    {
        let _root = self.take();
    }

    /// The two latest parts change places.
    pub fn swap(&mut self) -> Result<(), AllocError>
        ensures { OnOk result (parts self.new ≡ second (parts self.old) ∷ top (parts self.old) ∷ pop (pop (parts self.old))) }
    {
        let last = self.take();
        let before = self.take();
        self.hold(last)?;
        self.hold(before)
    }

    /// The latest part but two becomes the latest.
    pub fn rotate(&mut self) -> Result<(), AllocError>
        ensures { OnOk result (parts self.new ≡ third (parts self.old) ∷ top (parts self.old) ∷ second (parts self.old) ∷ pop (pop (pop (parts self.old)))) }
    {
        let last = self.take();
        let before = self.take();
        let third = self.take();
        self.hold(before)?;
        self.hold(last)?;
        self.hold(third)
    }

    /// One more item of a list that grows. Joined of the list and then the item.
    pub fn also(&mut self) -> Result<(), AllocError>
        ensures { OnOk result (parts self.new ≡ Cons (top (parts self.old)) (second (parts self.old)) ∷ pop (pop (parts self.old))) }
    {
        let first = self.take();
        let rest = self.take();
        self.put(Node::Cell { first, rest })
    }

    /// An item before a list. Joined of the item and then the list.
    pub fn before(&mut self) -> Result<(), AllocError>
        ensures { OnOk result (parts self.new ≡ Cons (second (parts self.old)) (top (parts self.old)) ∷ pop (pop (parts self.old))) }
    {
        let rest = self.take();
        let first = self.take();
        self.put(Node::Cell { first, rest })
    }

    /// One more item, which has no parts, of the list that grows.
    pub fn also_leaf(&mut self, leaf: Leaf) -> Result<(), AllocError>
        ensures { OnOk result (parts self.new ≡ LeafCons leaf (top (parts self.old)) ∷ pop (parts self.old)) }
    {
        let rest = self.take();
        self.put(Node::Leaf { leaf, rest })
    }

    /// All items of a complete list, one by one, for a list that grows. Joined of the one that grows and then the
    /// complete one.
    pub fn also_all(&mut self) -> Result<(), AllocError>
        ensures { OnOk result (parts self.new ≡ onto (top (parts self.old)) (second (parts self.old)) ∷ pop (pop (parts self.old))) }
    {
        let at = self.take();
        let done = self.take();
        let all = self.onto(at, done)?;
        self.hold(all)
    }

    /// A list that grew item by item is complete: its items stand in the order in which they came.
    #[tactic(auto, unfolding(typed_tree::specs::Latest::turned))]
    pub fn turn(&mut self) -> Result<(), AllocError>
        ensures { OnOk result (parts self.new ≡ turned (top (parts self.old)) ∷ pop (parts self.old)) }
    {
        let at = self.take();
        let none = self.none();
        let done = self.onto(at, none)?;
        self.hold(done)
    }

    /// A list is taken apart: its first item, or the latest of one that grows, and then the rest of it as the latest
    /// part. A part that is no list gives nothing twice.
    pub fn apart(&mut self) -> Result<(), AllocError>
        ensures { OnOk result (parts self.new ≡ rest_of (top (parts self.old)) ∷ first_of (top (parts self.old)) ∷ pop (parts self.old)) }
    {
        let at = self.take();
        match self.node(at) {
            Node::Cell { first, rest } => {
                self.hold(first)?;
                self.hold(rest)
            }
            _ => {
                self.nothing()?;
                self.nothing()
            }
        }
    }

    /// Whether the latest part is a list of parts with an item. It stays the latest part.
    pub fn has_item(&mut self) -> Result<bool, AllocError>
        ensures { IfOk result (λ b. (b ≡ has_item (top (parts self.old))) × (parts self.new ≡ top (parts self.old) ∷ pop (parts self.old))) }
    {
        let last = self.take();
        self.hold(last)?;
        match self.node(last) {
            Node::Cell { .. } => Ok(true),
            _ => Ok(false),
        }
    }

    /// The items of the list `at`, one by one before the list `done`.
    fn onto(&mut self, at: u32, done: u32) -> Result<u32, AllocError>
        requires at { at < length self.old.nodes }
        requires done { done < length self.old.nodes }
        ensures { IfOk result (λ id. (part_at self.new.nodes id ≡ onto (part_at self.old.nodes at) (part_at self.old.nodes done)) × (id < length self.new.nodes) × (parts self.new ≡ parts self.old)) }
    {
        let mut here = Turning { at, done };
        while let Some(next) = self.turn_cell(here)? {
            here = next;
        }
        Ok(here.done)
    }

    /// Turns one cell; None at the end of the list.
    fn turn_cell(&mut self, here: Turning) -> Result<Option<Turning>, AllocError>
        requires at { here.at < length self.old.nodes }
        requires done { here.done < length self.old.nodes }
        ensures { IfOk result (λ turned. MatchOption turned ((onto (part_at self.old.nodes here.at) (part_at self.old.nodes here.done) ≡ part_at self.old.nodes here.done) × (self.new ≡ self.old)) (λ next. (onto (part_at self.old.nodes here.at) (part_at self.old.nodes here.done) ≡ onto (part_at self.new.nodes next.at) (part_at self.new.nodes next.done)) × (next.at < here.at) × (next.at < length self.new.nodes) × (next.done < length self.new.nodes) × (parts self.new ≡ parts self.old))) }
    {
        match self.node(here.at) {
            Node::Cell { first, rest } => {
                let done = self.add(Node::Cell {
                    first,
                    rest: here.done,
                })?;
                Ok(Some(Turning { at: rest, done }))
            }
            Node::Leaf { leaf, rest } => {
                let done = self.add(Node::Leaf {
                    leaf,
                    rest: here.done,
                })?;
                Ok(Some(Turning { at: rest, done }))
            }
            _ => Ok(None),
        }
    }
}

/// Where a list is being turned: what is still to be turned, and what was.
#[derive(Clone, Copy)]
struct Turning {
    at: u32,
    done: u32,
}
