//! What is stored: numbers, and the cells of arrays and records (4.3, 5.2).

ghost use Rattle.std.specs.Prelude.{◌≡◌, ◌∷◌, OnOk};
ghost use Rattle.typed_tree.specs.Decoded.{AComposite, AValue, AnAssociation, as_associations, as_composite, as_expr, as_exprs, as_runs, as_selections, as_value};
ghost use Rattle.typed_tree.specs.Syntax as syntax;
ghost use Rattle.typed_tree.specs.Latest.{pop, second, third, top};
ghost use Rattle.typed_parts.specs.Stack.{parts};

use crate::parts::Parts;
use std::alloc::AllocError;
use typed_tree::{Association, Check, Composite, Iterated, Node, Root, Value};

impl Parts {
    /// A scalar that is checked and stored, of its expression.
    pub fn number(&mut self, check: Check) -> Result<(), AllocError>
        ensures { OnOk result (parts self.new ≡ AValue (syntax.Number check (as_expr (top (parts self.old)))) ∷ pop (parts self.old)) }
    {
        let value = self.take();
        self.put(Node::Value(Value::Number { check, value }))
    }

    /// An array or record that is stored, of its expression.
    pub fn cells(&mut self) -> Result<(), AllocError>
        ensures { OnOk result (parts self.new ≡ AValue (syntax.Cells (as_composite (top (parts self.old)))) ∷ pop (parts self.old)) }
    {
        let composite = self.take();
        self.put(Node::Value(Value::Cells { composite }))
    }

    /// A variable of an array or record type, or such a part of one. Joined of the list of its selections.
    pub fn whole_variable(&mut self, at: u32, root: Root, subtype: u32) -> Result<(), AllocError>
        ensures { OnOk result (parts self.new ≡ AComposite (syntax.WholeVariable at root (as_selections (top (parts self.old))) subtype) ∷ pop (parts self.old)) }
    {
        let selections = self.take();
        self.put(Node::Composite(Composite::WholeVariable {
            at,
            root,
            selections,
            subtype,
        }))
    }

    /// A constant of an array or record type, or such a part of one. Joined of the list of its selections.
    pub fn whole_constant(&mut self, at: u32, root: Root, subtype: u32) -> Result<(), AllocError>
        ensures { OnOk result (parts self.new ≡ AComposite (syntax.WholeConstant at root (as_selections (top (parts self.old))) subtype) ∷ pop (parts self.old)) }
    {
        let selections = self.take();
        self.put(Node::Composite(Composite::WholeConstant {
            at,
            root,
            selections,
            subtype,
        }))
    }

    /// `@` of an array or record type (5.2.1).
    pub fn whole_target(&mut self, at: u32, subtype: u32) -> Result<(), AllocError>
        ensures { OnOk result (parts self.new ≡ AComposite (syntax.WholeTarget at subtype) ∷ parts self.old) }
    {
        self.put(Node::Composite(Composite::WholeTarget { at, subtype }))
    }

    /// `(if C then X else Y)` of an array or record type (4.5.7). Joined of C, X and Y in this order.
    pub fn composite_conditional(&mut self) -> Result<(), AllocError>
        ensures { OnOk result (parts self.new ≡ AComposite (syntax.CompositeIf (as_expr (third (parts self.old))) (as_composite (second (parts self.old))) (as_composite (top (parts self.old)))) ∷ pop (pop (pop (parts self.old)))) }
    {
        let otherwise = self.take();
        let value = self.take();
        let condition = self.take();
        self.put(Node::Composite(Composite::If {
            condition,
            value,
            otherwise,
        }))
    }

    /// An aggregate (4.3) of so many cells, with its bracket's token. Joined of the list of its associations.
    pub fn aggregate(&mut self, at: u32, cells: u32) -> Result<(), AllocError>
        ensures { OnOk result (parts self.new ≡ AComposite (syntax.Aggregate at cells (as_associations (top (parts self.old)))) ∷ pop (parts self.old)) }
    {
        let associations = self.take();
        self.put(Node::Composite(Composite::Aggregate {
            at,
            cells,
            associations,
        }))
    }

    /// An association of an aggregate (4.3.1, 4.3.3). Joined of the list of the runs that it gives, the list of the
    /// expressions that its choices mention, and its value in this order.
    pub fn association(&mut self, iterated: Option<Iterated>) -> Result<(), AllocError>
        ensures { OnOk result (parts self.new ≡ AnAssociation (syntax.Association (as_runs (third (parts self.old))) iterated (as_exprs (second (parts self.old))) (as_value (top (parts self.old)))) ∷ pop (pop (pop (parts self.old)))) }
    {
        let value = self.take();
        let mentions = self.take();
        let runs = self.take();
        self.put(Node::Association(Association {
            runs,
            iterated,
            mentions,
            value,
        }))
    }
}
