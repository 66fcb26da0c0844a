//! What is written on the way through a program, in the order of the text.

use crate::types::{Kind, Scalar, Subtype};
use ada_base::Items;
use typed_tree::program::{Declared, Mode, Object, Site};

/// What a limit of size bounds.
#[derive(Clone, Copy, Debug)]
pub enum Bound {
    /// How many objects a program has.
    Objects,
    /// How many cells the objects of a program have together.
    Cells,
    /// How many arms a parallel block has (5.6.1).
    Arms,
    /// How many dimensions an array type has (3.6).
    Dimensions,
    /// How many levels of statements and brackets stand in one another.
    Levels,
}

/// A rule that may be broken.
#[derive(Clone, Copy)]
pub enum Rule {
    Unknown,
    Twice,
    NotVisible,
    WrongEnd,
    PolicyName,
    WrongType,
    NotStatic,
    StaticRange,
    ChunkRule,
    ReduceRule,
    /// A limit of size is passed.
    Limit { of: Bound },
}

/// A rule that is broken at a token.
#[derive(Clone, Copy)]
pub struct Fault {
    pub at: u32,
    pub rule: Rule,
}

/// A dimension of an array type (3.6).
#[derive(Clone, Copy)]
pub struct Dimension {
    pub kind: Kind,
    pub low: i64,
    pub high: i64,
}

/// A component of a record type (3.8): its name by symbol and token, its subtype, that one's number, and how many
/// cells are before it.
#[derive(Clone, Copy)]
pub struct Field {
    pub symbol: u32,
    pub name: u32,
    pub subtype: Subtype,
    pub number: u32,
    pub offset: u64,
}

/// A subtype, and how many cells its objects have, which stands at the greatest number of 64 bits where there are
/// more.
#[derive(Drop)]
pub enum Shape {
    Scalar(Scalar),
    Array {
        dimensions: Items<Dimension>,
        component: Subtype,
        number: u32,
        cells: u64,
    },
    Record {
        fields: Items<Field>,
        cells: u64,
    },
}

/// What a call gives a formal parameter (6.4.1): its name, its object, its subtype, and its mode.
#[derive(Clone, Copy)]
pub struct Taken {
    pub symbol: u32,
    pub object: u32,
    pub subtype: Subtype,
    pub number: u32,
    pub mode: Mode,
}

/// What a call of a subprogram takes and gives: a function gives a value of a subtype.
#[derive(Drop)]
pub struct Profile {
    pub takes: Items<Taken>,
    pub gives: Option<Scalar>,
}

/// What was found so far.
#[derive(Drop)]
pub struct Log {
    pub faults: Items<Fault>,
    pub shapes: Items<Shape>,
    pub objects: Items<Object>,
    pub profiles: Items<Profile>,
    pub sites: Items<Site>,
    pub exceptions: Items<Declared>,
    /// How many parameters of loops, chunks and associations and items of iterations there are, and how many loops.
    pub parameters: u32,
    pub loops: u32,
    /// How many objects are declared, and how many cells they have.
    pub declared: u32,
    pub cells: u64,
}
