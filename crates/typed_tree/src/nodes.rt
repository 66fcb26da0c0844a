//! The table of nodes of a typed program, and its readers.

ghost use Rattle.std.specs.Prelude.{◌≡◌, ◌<◌, IfSome};
ghost use Rattle.typed_tree.specs.Decoded.{actuals_at, alternatives_at, arms_at, as_actual, as_alternative, as_association, as_decl, as_handler, as_piece, as_selection, associations_at, body_at, check_at, chunk_at, composite_at, decls_at, expr_at, exprs_at, handlers_at, iteration_at, leaves_at, of_actual, of_alternative, of_association, of_body, of_composite, of_decl, of_expr, of_handler, of_iteration, of_node, of_piece, of_selection, of_stmt, of_value, optional_at, part_at, pieces_at, reducer_at, scalar_at, selections_at, stmt_at, stmts_at, value_at};
ghost use Rattle.typed_tree.specs.Viewed.{actual_of, actuals_of, alternative_of, alternatives_of, arms_of, association_of, associations_of, body_of, chunk_of, decl_of, decls_of, exprs_of, handler_of, handlers_of, iteration_of, leaves_of, optional_of, piece_of, pieces_of, selection_of, selections_of, stmts_of, value_of};
ghost use Rattle.typed_tree.specs.Ordered.{IsOrdered, ActualBelow, AlternativeBelow, AssociationBelow, BodyBelow, ChunkBelow, CompositeBelow, DeclBelow, ExprBelow, HandlerBelow, IterationBelow, NodeBelow, PieceBelow, SelectionBelow, StmtBelow, ValueBelow};

use crate::expressions::{
    Actual, Association, Chunk, Composite, Expr, Iteration, Reducer, Selection, Value,
};
use crate::node::{Cell, Fold, LeafCell, Node};
use crate::scalars::{Check, Class, Scalar};
use crate::statements::{Alternative, Body, Decl, Handler, Piece, Stmt};
use ada_base::{Items, Op};
use std::marker::Model;

/// A table of nodes, each of which has its parts before it. Contracts see it as the list of its nodes.
///
/// A reader asks for the node of a number as what it takes it for. A number without a node, or with one of another
/// kind, stands for what is dullest of that kind, so that each reader has an answer.
#[derive(Drop)]
pub struct Nodes {
    list: Items<Node>,
}

impl Model for Nodes {
    ghost use Rattle.std.specs.Prelude.{List};
    ghost use Rattle.std.specs.Coded.{coded_list};
    ghost use Rattle.typed_tree.specs.declared.node.Node.{Node};
    ghost use Rattle.typed_tree.specs.Ordered.{IsOrdered};

    ghost Value = { List Node };

    ghost view = { λ table. table.list };

    ghost invariant = { λ table. IsOrdered table.list };
}

impl Nodes {
    /// The table of nodes that stand in order.
    pub fn new(list: Items<Node>) -> Nodes
        requires { IsOrdered list }
        ensures { result ≡ list }
    {
        Nodes { list }
    }

    /// The node of a number, or `End` where there is none.
    pub fn node(&self, id: u32) -> Node
        ensures is { part_at self.now id ≡ of_node (part_at self.now) result }
        ensures below { NodeBelow id result }
    {
        match self.list.get(id as usize) {
            Some(node) => *node,
            None => Node::End,
        }
    }

    /// The expression of a number.
    pub fn expr(&self, id: u32) -> Expr
        ensures is { expr_at self.now id ≡ of_expr (part_at self.now) result }
        ensures below { ExprBelow id result }
    {
        match self.node(id) {
            Node::Expr(expr) => expr,
            _ => Expr::Parameter {
                at: 0,
                parameter: 0,
            },
        }
    }

    /// The expression of an array or record type of a number.
    pub fn composite(&self, id: u32) -> Composite
        ensures is { composite_at self.now id ≡ of_composite (part_at self.now) result }
        ensures below { CompositeBelow id result }
    {
        match self.node(id) {
            Node::Composite(composite) => composite,
            _ => Composite::WholeTarget { at: 0, subtype: 0 },
        }
    }

    /// The statement of a number.
    pub fn stmt(&self, id: u32) -> Stmt
        ensures is { stmt_at self.now id ≡ of_stmt (part_at self.now) result }
        ensures below { StmtBelow id result }
    {
        match self.node(id) {
            Node::Stmt(stmt) => stmt,
            _ => Stmt::Null,
        }
    }

    /// The expression of a number, or None where it is left out.
    pub fn optional(&self, id: u32) -> Option<Expr>
        ensures is { optional_at self.now id ≡ optional_of (part_at self.now) result }
        ensures below { IfSome result (ExprBelow id) }
    {
        match self.node(id) {
            Node::Expr(part) => Some(part),
            _ => None,
        }
    }

    /// The value of a number, which is stored somewhere.
    pub fn value(&self, id: u32) -> Option<Value>
        ensures is { value_at self.now id ≡ value_of (part_at self.now) result }
        ensures below { IfSome result (ValueBelow id) }
    {
        match self.node(id) {
            Node::Value(part) => Some(part),
            _ => None,
        }
    }

    /// The iteration of a number.
    pub fn iteration(&self, id: u32) -> Option<Iteration>
        ensures is { iteration_at self.now id ≡ iteration_of (part_at self.now) result }
        ensures below { IfSome result (IterationBelow id) }
    {
        match self.node(id) {
            Node::Iteration(part) => Some(part),
            _ => None,
        }
    }

    /// The chunk specification of a number, or None where there is none.
    pub fn chunk(&self, id: u32) -> Option<Chunk>
        ensures is { chunk_at self.now id ≡ chunk_of (part_at self.now) result }
        ensures below { IfSome result (ChunkBelow id) }
    {
        match self.node(id) {
            Node::Chunk(part) => Some(part),
            _ => None,
        }
    }

    /// The body of a number.
    pub fn body(&self, id: u32) -> Option<Body>
        ensures is { body_at self.now id ≡ body_of (part_at self.now) result }
        ensures below { IfSome result (BodyBelow id) }
    {
        match self.node(id) {
            Node::Body(part) => Some(part),
            _ => None,
        }
    }

    /// The selection of a number.
    pub fn selection(&self, id: u32) -> Option<Selection>
        ensures is { as_selection (part_at self.now id) ≡ selection_of (part_at self.now) result }
        ensures below { IfSome result (SelectionBelow id) }
    {
        match self.node(id) {
            Node::Selection(part) => Some(part),
            _ => None,
        }
    }

    /// The actual parameter of a number.
    pub fn actual(&self, id: u32) -> Option<Actual>
        ensures is { as_actual (part_at self.now id) ≡ actual_of (part_at self.now) result }
        ensures below { IfSome result (ActualBelow id) }
    {
        match self.node(id) {
            Node::Actual(part) => Some(part),
            _ => None,
        }
    }

    /// The association of a number.
    pub fn association(&self, id: u32) -> Option<Association>
        ensures is { as_association (part_at self.now id) ≡ association_of (part_at self.now) result }
        ensures below { IfSome result (AssociationBelow id) }
    {
        match self.node(id) {
            Node::Association(part) => Some(part),
            _ => None,
        }
    }

    /// The piece of output of a number.
    pub fn piece(&self, id: u32) -> Option<Piece>
        ensures is { as_piece (part_at self.now id) ≡ piece_of (part_at self.now) result }
        ensures below { IfSome result (PieceBelow id) }
    {
        match self.node(id) {
            Node::Piece(part) => Some(part),
            _ => None,
        }
    }

    /// The declaration of a number.
    pub fn decl(&self, id: u32) -> Option<Decl>
        ensures is { as_decl (part_at self.now id) ≡ decl_of (part_at self.now) result }
        ensures below { IfSome result (DeclBelow id) }
    {
        match self.node(id) {
            Node::Decl(part) => Some(part),
            _ => None,
        }
    }

    /// The alternative of a number.
    pub fn alternative(&self, id: u32) -> Option<Alternative>
        ensures is { as_alternative (part_at self.now id) ≡ alternative_of (part_at self.now) result }
        ensures below { IfSome result (AlternativeBelow id) }
    {
        match self.node(id) {
            Node::Alternative(part) => Some(part),
            _ => None,
        }
    }

    /// The handler of a number.
    pub fn handler(&self, id: u32) -> Option<Handler>
        ensures is { as_handler (part_at self.now id) ≡ handler_of (part_at self.now) result }
        ensures below { IfSome result (HandlerBelow id) }
    {
        match self.node(id) {
            Node::Handler(part) => Some(part),
            _ => None,
        }
    }

    /// The check of a number, or None where there is none.
    pub fn check(&self, id: u32) -> Option<Check>
        ensures { result ≡ check_at self.now id }
    {
        match self.node(id) {
            Node::Check(check) => Some(check),
            _ => None,
        }
    }

    /// The scalar subtype of a number.
    pub fn scalar(&self, id: u32) -> Scalar
        ensures { result ≡ scalar_at self.now id }
    {
        match self.node(id) {
            Node::Scalar(scalar) => scalar,
            _ => Scalar {
                class: Class::Boolean,
                low: 0,
                high: 1,
            },
        }
    }

    /// What the reduction of a number folds by.
    pub fn reducer(&self, id: u32) -> Reducer
        ensures { result ≡ reducer_at self.now id }
    {
        match self.node(id) {
            Node::Fold(Fold::Operator { at, op, class }) => Reducer::Operator { at, op, class },
            Node::Fold(
                Fold::Function {
                    at,
                    sub,
                    accumulator,
                    value,
                },
            ) => Reducer::Function {
                at,
                sub,
                accumulator: self.scalar(accumulator),
                value: self.scalar(value),
            },
            _ => Reducer::Operator {
                at: 0,
                op: Op::Add,
                class: Class::Boolean,
            },
        }
    }

    /// The cell of a number in a list of items that have no parts, or None at the end.
    pub fn leaf(&self, id: u32) -> Option<LeafCell>
        ensures is { leaves_at self.now id ≡ leaves_of (part_at self.now) result }
        ensures below { IfSome result (λ cell. cell.rest < id) }
    {
        match self.node(id) {
            Node::Leaf { leaf, rest } => Some(LeafCell { leaf, rest }),
            _ => None,
        }
    }

    /// The cell of a number in a list of expressions that are only text, or None at the end.
    pub fn exprs(&self, id: u32) -> Option<Cell>
        ensures is { exprs_at self.now id ≡ exprs_of (part_at self.now) result }
        ensures below { IfSome result (λ cell. (cell.first < id) × (cell.rest < id)) }
    {
        match self.node(id) {
            Node::Cell { first, rest } => Some(Cell { first, rest }),
            _ => None,
        }
    }

    /// The cell of a number in a list of selections, or None at the end.
    pub fn selections(&self, id: u32) -> Option<Cell>
        ensures is { selections_at self.now id ≡ selections_of (part_at self.now) result }
        ensures below { IfSome result (λ cell. (cell.first < id) × (cell.rest < id)) }
    {
        match self.node(id) {
            Node::Cell { first, rest } => Some(Cell { first, rest }),
            _ => None,
        }
    }

    /// The cell of a number in a list of actual parameters, or None at the end.
    pub fn actuals(&self, id: u32) -> Option<Cell>
        ensures is { actuals_at self.now id ≡ actuals_of (part_at self.now) result }
        ensures below { IfSome result (λ cell. (cell.first < id) × (cell.rest < id)) }
    {
        match self.node(id) {
            Node::Cell { first, rest } => Some(Cell { first, rest }),
            _ => None,
        }
    }

    /// The cell of a number in a list of associations, or None at the end.
    pub fn associations(&self, id: u32) -> Option<Cell>
        ensures is { associations_at self.now id ≡ associations_of (part_at self.now) result }
        ensures below { IfSome result (λ cell. (cell.first < id) × (cell.rest < id)) }
    {
        match self.node(id) {
            Node::Cell { first, rest } => Some(Cell { first, rest }),
            _ => None,
        }
    }

    /// The cell of a number in a list of pieces of output, or None at the end.
    pub fn pieces(&self, id: u32) -> Option<Cell>
        ensures is { pieces_at self.now id ≡ pieces_of (part_at self.now) result }
        ensures below { IfSome result (λ cell. (cell.first < id) × (cell.rest < id)) }
    {
        match self.node(id) {
            Node::Cell { first, rest } => Some(Cell { first, rest }),
            _ => None,
        }
    }

    /// The cell of a number in a list of declarations, or None at the end.
    pub fn decls(&self, id: u32) -> Option<Cell>
        ensures is { decls_at self.now id ≡ decls_of (part_at self.now) result }
        ensures below { IfSome result (λ cell. (cell.first < id) × (cell.rest < id)) }
    {
        match self.node(id) {
            Node::Cell { first, rest } => Some(Cell { first, rest }),
            _ => None,
        }
    }

    /// The cell of a number in a list of statements, or None at the end.
    pub fn stmts(&self, id: u32) -> Option<Cell>
        ensures is { stmts_at self.now id ≡ stmts_of (part_at self.now) result }
        ensures below { IfSome result (λ cell. (cell.first < id) × (cell.rest < id)) }
    {
        match self.node(id) {
            Node::Cell { first, rest } => Some(Cell { first, rest }),
            _ => None,
        }
    }

    /// The cell of a number in a list of alternatives, or None at the end.
    pub fn alternatives(&self, id: u32) -> Option<Cell>
        ensures is { alternatives_at self.now id ≡ alternatives_of (part_at self.now) result }
        ensures below { IfSome result (λ cell. (cell.first < id) × (cell.rest < id)) }
    {
        match self.node(id) {
            Node::Cell { first, rest } => Some(Cell { first, rest }),
            _ => None,
        }
    }

    /// The cell of a number in a list of arms, whose items are lists of statements, or None at the end.
    pub fn arms(&self, id: u32) -> Option<Cell>
        ensures is { arms_at self.now id ≡ arms_of (part_at self.now) result }
        ensures below { IfSome result (λ cell. (cell.first < id) × (cell.rest < id)) }
    {
        match self.node(id) {
            Node::Cell { first, rest } => Some(Cell { first, rest }),
            _ => None,
        }
    }

    /// The cell of a number in a list of handlers, or None at the end.
    pub fn handlers(&self, id: u32) -> Option<Cell>
        ensures is { handlers_at self.now id ≡ handlers_of (part_at self.now) result }
        ensures below { IfSome result (λ cell. (cell.first < id) × (cell.rest < id)) }
    {
        match self.node(id) {
            Node::Cell { first, rest } => Some(Cell { first, rest }),
            _ => None,
        }
    }
}
