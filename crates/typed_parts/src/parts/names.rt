//! Selections of names (4.1) and actual parameters (6.4.1).

ghost use Rattle.std.specs.Prelude.{◌≡◌, ◌∷◌, OnOk};
ghost use Rattle.typed_tree.specs.Decoded.{ASelection, AScalar, AnActual, as_expr, as_scalar, as_selections, as_value};
ghost use Rattle.typed_tree.specs.Syntax as syntax;
ghost use Rattle.typed_tree.specs.Latest.{pop, second, third, top};
ghost use Rattle.typed_parts.specs.Stack.{parts};

use crate::parts::Parts;
use std::alloc::AllocError;
use typed_tree::{Actual, Node, Root, Scalar, Selection};

impl Parts {
    /// The selection of a record's component (4.1.3) by its number, so many cells from the record's beginning.
    pub fn field(&mut self, number: u32, offset: u32) -> Result<(), AllocError>
        ensures { OnOk result (parts self.new ≡ ASelection (syntax.Field number offset) ∷ parts self.old) }
    {
        self.put(Node::Selection(Selection::Field { number, offset }))
    }

    /// The selection by one index (4.1.1) between bounds, whose neighbours are so many cells apart. Joined of the index.
    pub fn index(&mut self, at: u32, low: i64, high: i64, stride: u32) -> Result<(), AllocError>
        ensures { OnOk result (parts self.new ≡ ASelection (syntax.Index at (as_expr (top (parts self.old))) low high stride) ∷ pop (parts self.old)) }
    {
        let index = self.take();
        self.put(Node::Selection(Selection::Index {
            at,
            index,
            low,
            high,
            stride,
        }))
    }

    /// An actual parameter of mode `in`, of its value.
    pub fn actual_in(&mut self, formal: u32) -> Result<(), AllocError>
        ensures { OnOk result (parts self.new ≡ AnActual (syntax.In formal (as_value (top (parts self.old)))) ∷ pop (parts self.old)) }
    {
        let value = self.take();
        self.put(Node::Actual(Actual::In { formal, value }))
    }

    /// A scalar actual parameter of mode `in out`. Joined of the list of its selections, the subtype of its formal and
    /// its own subtype in this order.
    pub fn actual_in_out(&mut self, formal: u32, at: u32, root: Root) -> Result<(), AllocError>
        ensures { OnOk result (parts self.new ≡ AnActual (syntax.InOut formal at root (as_selections (third (parts self.old))) (as_scalar (second (parts self.old))) (as_scalar (top (parts self.old)))) ∷ pop (pop (pop (parts self.old)))) }
    {
        let outside = self.take();
        let inside = self.take();
        let selections = self.take();
        self.put(Node::Actual(Actual::InOut {
            formal,
            at,
            root,
            selections,
            inside,
            outside,
        }))
    }

    /// A scalar actual parameter of mode `out`. Joined of the list of its selections, the subtype of its formal and its
    /// own subtype in this order.
    pub fn actual_out(&mut self, formal: u32, at: u32, root: Root) -> Result<(), AllocError>
        ensures { OnOk result (parts self.new ≡ AnActual (syntax.Out formal at root (as_selections (third (parts self.old))) (as_scalar (second (parts self.old))) (as_scalar (top (parts self.old)))) ∷ pop (pop (pop (parts self.old)))) }
    {
        let outside = self.take();
        let inside = self.take();
        let selections = self.take();
        self.put(Node::Actual(Actual::Out {
            formal,
            at,
            root,
            selections,
            inside,
            outside,
        }))
    }

    /// An actual parameter of mode `in out` that is an array or record. Joined of the list of its selections.
    pub fn composite_in_out(
        &mut self,
        formal: u32,
        at: u32,
        root: Root,
        subtype: u32,
    ) -> Result<(), AllocError>
        ensures { OnOk result (parts self.new ≡ AnActual (syntax.CompositeInOut formal at root (as_selections (top (parts self.old))) subtype) ∷ pop (parts self.old)) }
    {
        let selections = self.take();
        self.put(Node::Actual(Actual::CompositeInOut {
            formal,
            at,
            root,
            selections,
            subtype,
        }))
    }

    /// An actual parameter of mode `out` that is an array or record. Joined of the list of its selections.
    pub fn composite_out(
        &mut self,
        formal: u32,
        at: u32,
        root: Root,
        subtype: u32,
    ) -> Result<(), AllocError>
        ensures { OnOk result (parts self.new ≡ AnActual (syntax.CompositeOut formal at root (as_selections (top (parts self.old))) subtype) ∷ pop (parts self.old)) }
    {
        let selections = self.take();
        self.put(Node::Actual(Actual::CompositeOut {
            formal,
            at,
            root,
            selections,
            subtype,
        }))
    }

    /// A scalar subtype, as a part of an actual parameter or a reducer.
    pub fn scalar(&mut self, scalar: Scalar) -> Result<(), AllocError>
        ensures { OnOk result (parts self.new ≡ AScalar scalar ∷ parts self.old) }
    {
        self.put(Node::Scalar(scalar))
    }
}
