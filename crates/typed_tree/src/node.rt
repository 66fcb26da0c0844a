//! The nodes of the table that a typed program stands in.

use crate::expressions::{
    Actual, Association, Chunk, Composite, Expr, Iteration, Run, Selection, Value,
};
use crate::program::{Bounds, Field, Formal};
use crate::scalars::{Check, Class, Scalar};
use crate::statements::{Alternative, Body, Decl, Handler, Piece, Span, Stmt};
use ada_base::{Op, Reason};

/// A node. Each part of it stands in the table before it, and is given by its number there. A list is its cells: each
/// names its item and the next cell, and the last one the end. What is left out is an end too.
#[derive(Clone, Copy)]
pub enum Node {
    /// The end of a list, or what is left out.
    End,
    /// A cell of a list: the number of an item, and that of the next cell.
    Cell { first: u32, rest: u32 },
    /// A cell of a list of items that have no parts.
    Leaf { leaf: Leaf, rest: u32 },
    /// An expression of a scalar type.
    Expr(Expr),
    Selection(Selection),
    Actual(Actual),
    Value(Value),
    Composite(Composite),
    Association(Association),
    Iteration(Iteration),
    Chunk(Chunk),
    Fold(Fold),
    Check(Check),
    Scalar(Scalar),
    Piece(Piece),
    Decl(Decl),
    Stmt(Stmt),
    Alternative(Alternative),
    Handler(Handler),
    Body(Body),
}

/// An item that has no parts: a byte of a text, components of an aggregate, the values of a choice, the reason of a
/// handler, the bounds of an index, a component of a record, a formal parameter.
#[derive(Clone, Copy)]
pub enum Leaf {
    Byte(u8),
    Run(Run),
    Span(Span),
    Reason(Reason),
    Bounds(Bounds),
    Field(Field),
    Formal(Formal),
}

/// What a reduction folds by (4.5.10), where subtypes are nodes.
#[derive(Clone, Copy)]
pub enum Fold {
    Operator {
        at: u32,
        op: Op,
        class: Class,
    },
    Function {
        at: u32,
        sub: u32,
        accumulator: u32,
        value: u32,
    },
}

/// A cell of a list: the number of an item, and that of the next cell or of the end.
#[derive(Clone, Copy)]
pub struct Cell {
    pub first: u32,
    pub rest: u32,
}

/// A cell of a list of items that have no parts, with the number of the next cell or of the end.
#[derive(Clone, Copy)]
pub struct LeafCell {
    pub leaf: Leaf,
    pub rest: u32,
}

/// An operator of a chain of operators, which are nested to the left, with the number of its right operand.
#[derive(Clone, Copy)]
pub enum Link {
    Operator {
        at: u32,
        op: Op,
        class: Class,
        right: u32,
    },
    AndThen {
        right: u32,
    },
    OrElse {
        right: u32,
    },
}
