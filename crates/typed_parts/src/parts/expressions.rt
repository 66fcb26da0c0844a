//! Expressions (4.4).

ghost use Rattle.std.specs.Prelude.{◌≡◌, ◌∷◌, OnOk};
ghost use Rattle.typed_tree.specs.Decoded.{AnExpr, as_actuals, as_chunk, as_expr, as_exprs, as_iteration, as_reducer, as_selections};
ghost use Rattle.typed_tree.specs.Syntax as syntax;
ghost use Rattle.typed_tree.specs.Latest.{fifth, fourth, pop, second, third, top};
ghost use Rattle.typed_parts.specs.Stack.{parts};

use crate::parts::Parts;
use ada_base::{Comparison, Op};
use std::alloc::AllocError;
use typed_tree::{Check, Class, Expr, Node, Root, Scalar, Sign};

impl Parts {
    /// A static expression (4.9) with its first token, its value, and whether it is one number literal. Joined of the
    /// list of expressions that its text mentions.
    pub fn static_value(&mut self, at: u32, value: i64, literal: bool) -> Result<(), AllocError>
        ensures { OnOk result (parts self.new ≡ AnExpr (syntax.Static at value literal (as_exprs (top (parts self.old)))) ∷ pop (parts self.old)) }
    {
        let mentions = self.take();
        self.put(Node::Expr(Expr::Static {
            at,
            value,
            literal,
            mentions,
        }))
    }

    /// A scalar variable or part of one (4.1). Joined of the list of its selections.
    pub fn variable(&mut self, at: u32, root: Root, scalar: Scalar) -> Result<(), AllocError>
        ensures { OnOk result (parts self.new ≡ AnExpr (syntax.Variable at root (as_selections (top (parts self.old))) scalar) ∷ pop (parts self.old)) }
    {
        let selections = self.take();
        self.put(Node::Expr(Expr::Variable {
            at,
            root,
            selections,
            scalar,
        }))
    }

    /// A scalar constant or part of one (4.1). Joined of the list of its selections.
    pub fn constant(&mut self, at: u32, root: Root, scalar: Scalar) -> Result<(), AllocError>
        ensures { OnOk result (parts self.new ≡ AnExpr (syntax.Constant at root (as_selections (top (parts self.old))) scalar) ∷ pop (parts self.old)) }
    {
        let selections = self.take();
        self.put(Node::Expr(Expr::Constant {
            at,
            root,
            selections,
            scalar,
        }))
    }

    /// The parameter of a loop (5.5), of its chunks, or of an iterated association (4.3.3).
    pub fn parameter(&mut self, at: u32, parameter: u32) -> Result<(), AllocError>
        ensures { OnOk result (parts self.new ≡ AnExpr (syntax.Parameter at parameter) ∷ parts self.old) }
    {
        self.put(Node::Expr(Expr::Parameter { at, parameter }))
    }

    /// `@`, the scalar target of an assignment (5.2.1).
    pub fn target(&mut self, at: u32, scalar: Scalar) -> Result<(), AllocError>
        ensures { OnOk result (parts self.new ≡ AnExpr (syntax.Target at scalar) ∷ parts self.old) }
    {
        self.put(Node::Expr(Expr::Target { at, scalar }))
    }

    /// An expression in brackets.
    pub fn group(&mut self) -> Result<(), AllocError>
        ensures { OnOk result (parts self.new ≡ AnExpr (syntax.Group (as_expr (top (parts self.old)))) ∷ pop (parts self.old)) }
    {
        let inside = self.take();
        self.put(Node::Expr(Expr::Group { inside }))
    }

    /// `-`, `abs` or `not` before its operand (4.5.4, 4.5.6), with the operator's token.
    pub fn unary(&mut self, at: u32, sign: Sign, class: Class) -> Result<(), AllocError>
        ensures { OnOk result (parts self.new ≡ AnExpr (syntax.Unary at sign class (as_expr (top (parts self.old)))) ∷ pop (parts self.old)) }
    {
        let operand = self.take();
        self.put(Node::Expr(Expr::Unary {
            at,
            sign,
            class,
            operand,
        }))
    }

    /// An operator (4.5), with its token. Joined of its left operand and then its right one.
    pub fn binary(&mut self, at: u32, op: Op, class: Class) -> Result<(), AllocError>
        ensures { OnOk result (parts self.new ≡ AnExpr (syntax.Binary at op class (as_expr (second (parts self.old))) (as_expr (top (parts self.old)))) ∷ pop (pop (parts self.old))) }
    {
        let right = self.take();
        let left = self.take();
        self.put(Node::Expr(Expr::Binary {
            at,
            op,
            class,
            left,
            right,
        }))
    }

    /// `and then` (4.5.1), of its left operand and then its right one.
    pub fn and_then(&mut self) -> Result<(), AllocError>
        ensures { OnOk result (parts self.new ≡ AnExpr (syntax.AndThen (as_expr (second (parts self.old))) (as_expr (top (parts self.old)))) ∷ pop (pop (parts self.old))) }
    {
        let right = self.take();
        let left = self.take();
        self.put(Node::Expr(Expr::AndThen { left, right }))
    }

    /// `or else` (4.5.1), of its left operand and then its right one.
    pub fn or_else(&mut self) -> Result<(), AllocError>
        ensures { OnOk result (parts self.new ≡ AnExpr (syntax.OrElse (as_expr (second (parts self.old))) (as_expr (top (parts self.old)))) ∷ pop (pop (parts self.old))) }
    {
        let right = self.take();
        let left = self.take();
        self.put(Node::Expr(Expr::OrElse { left, right }))
    }

    /// A relation of two operands of a class (4.5.2), the left one first.
    pub fn relation(&mut self, class: Class, comparison: Comparison) -> Result<(), AllocError>
        ensures { OnOk result (parts self.new ≡ AnExpr (syntax.Relation class comparison (as_expr (second (parts self.old))) (as_expr (top (parts self.old)))) ∷ pop (pop (parts self.old))) }
    {
        let right = self.take();
        let left = self.take();
        self.put(Node::Expr(Expr::Relation {
            class,
            comparison,
            left,
            right,
        }))
    }

    /// `X [not] in L .. H` on operands of a class (4.5.2). Joined of X, L and H in this order.
    pub fn membership(&mut self, class: Class, negated: bool) -> Result<(), AllocError>
        ensures { OnOk result (parts self.new ≡ AnExpr (syntax.Membership class negated (as_expr (third (parts self.old))) (as_expr (second (parts self.old))) (as_expr (top (parts self.old)))) ∷ pop (pop (pop (parts self.old)))) }
    {
        let high = self.take();
        let low = self.take();
        let value = self.take();
        self.put(Node::Expr(Expr::Membership {
            class,
            negated,
            value,
            low,
            high,
        }))
    }

    /// `(if C then X else Y)` of a scalar type (4.5.7). Joined of C, X and Y in this order.
    pub fn conditional(&mut self) -> Result<(), AllocError>
        ensures { OnOk result (parts self.new ≡ AnExpr (syntax.If (as_expr (third (parts self.old))) (as_expr (second (parts self.old))) (as_expr (top (parts self.old)))) ∷ pop (pop (pop (parts self.old)))) }
    {
        let otherwise = self.take();
        let value = self.take();
        let condition = self.take();
        self.put(Node::Expr(Expr::If {
            condition,
            value,
            otherwise,
        }))
    }

    /// A call of a function (6.4), with the first and the last token of its name. Joined of the list of its actual
    /// parameters.
    pub fn call(&mut self, at: u32, callee: u32, sub: u32) -> Result<(), AllocError>
        ensures { OnOk result (parts self.new ≡ AnExpr (syntax.Call at callee sub (as_actuals (top (parts self.old)))) ∷ pop (parts self.old)) }
    {
        let actuals = self.take();
        self.put(Node::Expr(Expr::Call {
            at,
            callee,
            sub,
            actuals,
        }))
    }

    /// A conversion (4.6) of an expression, with its check.
    pub fn convert(&mut self, check: Check) -> Result<(), AllocError>
        ensures { OnOk result (parts self.new ≡ AnExpr (syntax.Convert check (as_expr (top (parts self.old)))) ∷ pop (parts self.old)) }
    {
        let value = self.take();
        self.put(Node::Expr(Expr::Convert { check, value }))
    }

    /// A reduction (4.5.10), with its first token and that of the attribute's name, and its site where it is parallel.
    /// Joined of the chunk specification, the iteration, the value, the reducer and the initial value in this order.
    pub fn reduction(
        &mut self,
        at: u32,
        attribute: u32,
        site: Option<u32>,
    ) -> Result<(), AllocError>
        ensures { OnOk result (parts self.new ≡ AnExpr (syntax.Reduction at attribute (as_reducer (second (parts self.old))) (as_expr (top (parts self.old))) site (as_chunk (fifth (parts self.old))) (as_iteration (fourth (parts self.old))) (as_expr (third (parts self.old)))) ∷ pop (pop (pop (pop (pop (parts self.old)))))) }
    {
        let initial = self.take();
        let reducer = self.take();
        let value = self.take();
        let iteration = self.take();
        let chunk = self.take();
        self.put(Node::Expr(Expr::Reduction {
            at,
            attribute,
            reducer,
            initial,
            site,
            chunk,
            iteration,
            value,
        }))
    }
}
