//! Expressions (4.4), names of objects (4.1) and what they are made of, as nodes of a table. A part is given by its
//! number there, which is smaller than the number of what it is a part of.

use crate::scalars::{Check, Class, Scalar};
use ada_base::{Comparison, Op};

/// An expression of a scalar type.
#[derive(Clone, Copy)]
pub enum Expr {
    /// A static expression (4.9): its first token, its value, and whether it is one number literal without
    /// brackets. `mentions` lists the indexes in prefixes of its attributes, which are text and aren't evaluated.
    Static {
        at: u32,
        value: i64,
        literal: bool,
        mentions: u32,
    },
    /// A scalar variable, or such a part of one, with its subtype.
    Variable {
        at: u32,
        root: Root,
        selections: u32,
        scalar: Scalar,
    },
    /// A scalar constant or formal parameter of mode `in`, or such a part of one, with its subtype.
    Constant {
        at: u32,
        root: Root,
        selections: u32,
        scalar: Scalar,
    },
    /// The parameter of a loop (5.5), of its chunks, or of an iterated association (4.3.3).
    Parameter {
        at: u32,
        parameter: u32,
    },
    /// `@`: the target of the assignment that it stands in (5.2.1).
    Target {
        at: u32,
        scalar: Scalar,
    },
    /// `(E)`, where E isn't static.
    Group {
        inside: u32,
    },
    /// `-`, `abs` or `not`, with the operator's token (4.5.4, 4.5.6).
    Unary {
        at: u32,
        sign: Sign,
        class: Class,
        operand: u32,
    },
    /// An operator and its operands (4.5.1, 4.5.3, 4.5.5, 4.5.6). `S'Max` and `S'Min` are operators here, `S'Succ (X)`
    /// and `S'Pred (X)` are `X + 1` and `X - 1` (3.5). Operators of one level are nested to the left.
    Binary {
        at: u32,
        op: Op,
        class: Class,
        left: u32,
        right: u32,
    },
    /// `A and then B` (4.5.1)
    AndThen {
        left: u32,
        right: u32,
    },
    /// `A or else B` (4.5.1)
    OrElse {
        left: u32,
        right: u32,
    },
    /// `L < R` and its kin, on operands of a class (4.5.2).
    Relation {
        class: Class,
        comparison: Comparison,
        left: u32,
        right: u32,
    },
    /// `X [not] in L .. H`, on operands of a class (4.5.2); a subtype is its two limits.
    Membership {
        class: Class,
        negated: bool,
        value: u32,
        low: u32,
        high: u32,
    },
    /// `(if C then X else Y)` (4.5.7); an `elsif` is an expression of this kind in place of Y.
    If {
        condition: u32,
        value: u32,
        otherwise: u32,
    },
    /// A call of a function (6.4): the first and the last token of its name.
    Call {
        at: u32,
        callee: u32,
        sub: u32,
        actuals: u32,
    },
    /// `T (X)` (4.6), which is checked at the name of T.
    Convert {
        check: Check,
        value: u32,
    },
    /// `[for .. => E]'Reduce (R, V)` (4.5.10), with its first token and that of the attribute's name. `site` is
    /// there where the reduction is parallel.
    Reduction {
        at: u32,
        attribute: u32,
        reducer: u32,
        initial: u32,
        site: Option<u32>,
        chunk: u32,
        iteration: u32,
        value: u32,
    },
}

/// A unary operator (4.5.4, 4.5.6): `-`, `abs`, `not`. A unary `+` leaves nothing but its operand.
#[derive(Clone, Copy)]
pub enum Sign {
    Minus,
    Abs,
    Not,
}

/// What a name begins with: an object, or the item of an iteration over the components of one (5.5.2).
#[derive(Clone, Copy)]
pub enum Root {
    /// The object of a number.
    Object(u32),
    /// The item of a number.
    Item(u32),
}

/// A selected component (4.1.3), or one index of an indexed component (4.1.1).
#[derive(Clone, Copy)]
pub enum Selection {
    /// The field of that number, so many cells from the record's beginning.
    Field {
        number: u32,
        offset: u32,
    },
    /// An index with its first token and its bounds, and how many cells its neighbours are apart.
    Index {
        at: u32,
        index: u32,
        low: i64,
        high: i64,
        stride: u32,
    },
}

/// An actual parameter (6.4.1), with the object of its formal. An array or record of mode `in out` or `out` has no
/// check, since its type is the formal's.
#[derive(Clone, Copy)]
pub enum Actual {
    /// Of mode `in`.
    In {
        formal: u32,
        value: u32,
    },
    /// A scalar of mode `in out`, with the formal's subtype and its own.
    InOut {
        formal: u32,
        at: u32,
        root: Root,
        selections: u32,
        inside: u32,
        outside: u32,
    },
    /// A scalar of mode `out`, with the formal's subtype and its own.
    Out {
        formal: u32,
        at: u32,
        root: Root,
        selections: u32,
        inside: u32,
        outside: u32,
    },
    /// An array or record of mode `in out`.
    CompositeInOut {
        formal: u32,
        at: u32,
        root: Root,
        selections: u32,
        subtype: u32,
    },
    /// An array or record of mode `out`.
    CompositeOut {
        formal: u32,
        at: u32,
        root: Root,
        selections: u32,
        subtype: u32,
    },
}

/// What is stored somewhere: a scalar, which is checked before, or an array or record.
#[derive(Clone, Copy)]
pub enum Value {
    /// A scalar, by its check and its expression.
    Number { check: Check, value: u32 },
    /// An array or record.
    Cells { composite: u32 },
}

/// An expression of an array or record type.
#[derive(Clone, Copy)]
pub enum Composite {
    /// A whole variable or part of one, with its subtype.
    WholeVariable {
        at: u32,
        root: Root,
        selections: u32,
        subtype: u32,
    },
    /// A whole constant or part of one, with its subtype.
    WholeConstant {
        at: u32,
        root: Root,
        selections: u32,
        subtype: u32,
    },
    /// `@` (5.2.1), with its subtype.
    WholeTarget {
        at: u32,
        subtype: u32,
    },
    /// A conditional expression (4.5.7).
    If {
        condition: u32,
        value: u32,
        otherwise: u32,
    },
    /// An aggregate (4.3) of so many cells, with its bracket's token.
    Aggregate {
        at: u32,
        cells: u32,
        associations: u32,
    },
}

/// An association of an aggregate (4.3.1, 4.3.3): the components that it gives, in order, and the expression, which
/// is evaluated for each of them. `mentions` lists the indexes in prefixes of attributes in its choices or bounds,
/// which are text and aren't evaluated.
#[derive(Clone, Copy)]
pub struct Association {
    pub runs: u32,
    pub iterated: Option<Iterated>,
    pub mentions: u32,
    pub value: u32,
}

/// Components of one size at equal distances: the first begins `first` cells from the aggregate's beginning, there are
/// `count` of them, and each begins `stride` cells behind the one before it.
#[derive(Clone, Copy)]
pub struct Run {
    pub first: u32,
    pub count: u32,
    pub stride: u32,
}

/// The parameter of an iterated association, and its first value.
#[derive(Clone, Copy)]
pub struct Iterated {
    pub parameter: u32,
    pub first: i64,
}

/// What an iteration goes through (5.5, 5.5.2), and its filter.
#[derive(Clone, Copy)]
pub enum Iteration {
    /// `I in [reverse] L .. H`; with a subtype the bounds are checked where the range isn't empty, and `check` is the
    /// node of that check. `filter` is the condition after `when`, where there is one.
    Range {
        parameter: u32,
        reverse: bool,
        low: u32,
        high: u32,
        check: u32,
        filter: u32,
    },
    /// `X of A`: `count` components, each `stride` cells behind the one before it, of an array with so many dimensions.
    /// `constant` says whether X may not be assigned to.
    Components {
        item: u32,
        constant: bool,
        at: u32,
        root: Root,
        selections: u32,
        count: u32,
        stride: u32,
        dimensions: u32,
        filter: u32,
    },
}

/// A chunk specification (5.5).
#[derive(Clone, Copy)]
pub enum Chunk {
    /// A number of chunks, of any integer type.
    Count {
        value: u32,
    },
    /// `C in L .. H`: a chunk for each value, which the parameter has in it.
    Each {
        parameter: u32,
        low: u32,
        high: u32,
        check: u32,
    },
}

/// What a reduction folds by (4.5.10).
#[derive(Clone, Copy)]
pub enum Reducer {
    /// An operator, `S'Max` or `S'Min`, with its first token.
    Operator {
        at: u32,
        op: Op,
        class: Class,
    },
    /// A declared function of an accumulator and a value, with its first token and the subtypes of its parameters.
    Function {
        at: u32,
        sub: u32,
        accumulator: Scalar,
        value: Scalar,
    },
}
