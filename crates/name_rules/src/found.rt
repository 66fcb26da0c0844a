//! What is known of names and expressions; the expressions themselves are parts of the typed program.

use crate::log::Dimension;
use crate::types::{Kind, Scalar, Subtype};
use ada_base::{Op, Reason};
use typed_tree::expressions::Root;

/// The name of an object or of a part of one (4.1): its first token, what it stands for, whether it is a variable,
/// and the value of a static constant. Its part is its selections.
#[derive(Clone, Copy)]
pub struct ObjectName {
    pub first: u32,
    pub root: Root,
    pub subtype: Subtype,
    pub variable: bool,
    pub value: Option<i64>,
}

/// The first static part of a universal expression that isn't a value of 32 bits, the first that isn't one of 64 bits, and
/// the first that is no number of 64 binary digits.
#[derive(Clone, Copy)]
pub struct Limits {
    pub narrow: Option<u32>,
    pub wide: Option<u32>,
    pub word: Option<u32>,
}

/// What an expression was found to be, with its first token.
#[derive(Clone, Copy)]
pub enum Found {
    /// A static universal value (4.9); whether it is a number literal alone. Its part is what its attributes mention.
    Universal {
        first: u32,
        value: i128,
        literal: bool,
    },
    /// A universal value that isn't static.
    Open {
        first: u32,
        limits: Limits,
    },
    /// A static value of a type. Its part is what its attributes mention.
    Static {
        first: u32,
        kind: Kind,
        value: i128,
    },
    /// The name of an object.
    Object(ObjectName),
    /// Another expression of a scalar type, with its nominal subtype where it is a name.
    Scalar {
        first: u32,
        kind: Kind,
        nominal: Option<Scalar>,
    },
    /// An expression of an array or record type.
    Composite {
        first: u32,
        number: u32,
    },
    /// An aggregate of an array's inner dimensions.
    Rest {
        first: u32,
    },
    /// A string expression; its part is its pieces.
    Text {
        first: u32,
    },
}

/// An attribute (3.5, 3.6.2, 4.5.10).
#[derive(Clone, Copy)]
pub enum Attribute {
    First,
    Last,
    Length,
    Range,
    Image,
    Max,
    Min,
    Succ,
    Pred,
    Reduce,
    ParallelReduce,
}

/// What stands before the tick of an attribute.
#[derive(Clone, Copy)]
pub enum Prefix {
    Object(ObjectName),
    Parameter(Scalar),
    Type(Subtype),
    Function(u32),
    Other,
}

/// A predefined procedure (A.10).
#[derive(Clone, Copy)]
pub enum Put {
    Put,
    PutLine,
    NewLine,
    Get,
}

/// How a predefined procedure was named: by a simple name that is visible from these packages, or through a package.
#[derive(Clone, Copy)]
pub struct Reach {
    pub text_io: bool,
    pub integer_io: bool,
    pub expanded: bool,
}

/// What a name denotes, with its first token.
#[derive(Clone, Copy)]
pub enum Denoted {
    Value(Found),
    /// A parameter of a loop, a chunk or an association (5.5): an object whose part is its value.
    Parameter {
        first: u32,
        scalar: Scalar,
    },
    Type {
        first: u32,
        subtype: Subtype,
    },
    /// A subprogram, with the last token of its name.
    Sub {
        first: u32,
        callee: u32,
        number: u32,
    },
    /// A call of a procedure, whose part is a statement.
    Done {
        first: u32,
    },
    Exception {
        first: u32,
        reason: Reason,
    },
    /// `Ada`, `Ada.Text_IO` or `Ada.Integer_Text_IO`.
    Package {
        first: u32,
        symbol: u32,
    },
    Io {
        first: u32,
        callee: u32,
        put: Put,
        reach: Reach,
    },
    /// An attribute, behind which its arguments may stand. Its part is its prefix's.
    Attribute {
        first: u32,
        prefix: Prefix,
        at: u32,
        attribute: Attribute,
    },
    /// A range of an array (3.6.2); its part is what its prefix mentions.
    Range {
        first: u32,
        dimension: Dimension,
    },
}

/// A range that is evaluated (3.5): the subtype that its values have, and a check of the bounds, which are its part.
#[derive(Clone, Copy)]
pub struct Bounded {
    pub scalar: Scalar,
    pub check: Option<Scalar>,
    pub at: u32,
}

/// What a reduction folds by (4.5.10), with its first token: an operator; `S'Max` or `S'Min`; or a function.
#[derive(Clone, Copy)]
pub enum Folding {
    Operator { at: u32, op: Op },
    Extreme { at: u32, op: Op, scalar: Scalar },
    Function { at: u32, number: u32 },
}

/// What the values of a conditional expression are so far (4.5.7).
#[derive(Clone, Copy)]
pub struct Common {
    pub kind: Option<Kind>,
    pub limits: Limits,
}

/// What a reduction goes through (4.5.10): its first token, its attribute's, and its construct where it is parallel.
/// Its parts are the chunk specification and the iteration.
#[derive(Clone, Copy)]
pub struct Going {
    pub at: u32,
    pub attribute: u32,
    pub site: Option<u32>,
}
