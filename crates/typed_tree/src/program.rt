//! Tables of a typed program beside that of its nodes.

use crate::scalars::Scalar;

/// A subtype (3.2.2). The subtypes of its components have lower numbers.
#[derive(Clone, Copy)]
pub enum Subtype {
    /// A scalar subtype (3.5).
    Scalar { scalar: Scalar },
    /// An array (3.6): the list of the bounds of each dimension, and the subtype of a component. The last index varies
    /// fastest.
    Array { dimensions: u32, component: u32 },
    /// A record (3.8) with the list of its components in order.
    Record { fields: u32 },
}

/// The bounds of an index (3.6.1). No array is empty: `low` is at most `high`.
#[derive(Clone, Copy)]
pub struct Bounds {
    pub low: i64,
    pub high: i64,
}

/// A component of a record: the token of its name, and its subtype.
#[derive(Clone, Copy)]
pub struct Field {
    pub name: u32,
    pub subtype: u32,
}

/// An object (3.3): the token of its name, its subtype, whether it is a constant or a formal parameter of mode `in`, its
/// owner, where its cells begin among the owner's and how many they are, and the value of a static constant (4.9). How
/// objects lie among the cells of their owner is `IsLaidOut` of `specs/Layout.antt`.
#[derive(Clone, Copy)]
pub struct Object {
    pub name: u32,
    pub subtype: u32,
    pub constant: bool,
    pub owner: u32,
    pub offset: u32,
    pub cells: u32,
    pub value: Option<i64>,
}

/// A subprogram (6.1): the list of its formal parameters, the result's subtype of a function, whether it is
/// nonblocking, and its body. It calls itself and subprograms of lower numbers alone.
#[derive(Clone, Copy)]
pub struct Sub {
    pub formals: u32,
    pub result: Option<Scalar>,
    pub nonblocking: bool,
    pub body: u32,
}

/// A formal parameter (6.1): its object and its mode.
#[derive(Clone, Copy)]
pub struct Formal {
    pub object: u32,
    pub mode: Mode,
}

/// A mode (6.2): `in`, `in out`, `out`.
#[derive(Clone, Copy)]
pub enum Mode {
    In,
    InOut,
    Out,
}

/// A parallel construct (5.5, 5.6.1, 4.5.10): the token of `parallel`, or the first token of an array prefix; the
/// owner whose text it stands in; and what it is. It has a lower number than the constructs inside it.
#[derive(Clone, Copy)]
pub struct Site {
    pub at: u32,
    pub around: u32,
    pub kind: SiteKind,
}

/// What a parallel construct is.
#[derive(Clone, Copy)]
pub enum SiteKind {
    /// A parallel loop.
    Loop,
    /// A parallel block of so many arms, at least two.
    Block(u32),
    /// A parallel reduction.
    Reduction,
}

/// An exception's declaration (11.1): the token of its name.
#[derive(Clone, Copy)]
pub struct Declared {
    pub name: u32,
}
