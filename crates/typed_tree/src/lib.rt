//! The typed program: what name resolution makes of a syntax tree without a fault. Its plain abstract syntax is in
//! `specs/Syntax.antt`; code holds it as a table of nodes, `Nodes`, with tables of subtypes, objects, subprograms,
//! parallel constructs and exceptions beside it, all in `Typed`.
//!
//! All that is numbered is numbered from 0: nodes, subtypes, objects, subprograms, sites and exceptions by their places
//! in their tables; loops, the parameters of loops, chunks and iterated associations, and the items of iterations over
//! components each by numbers of their own in the whole program. A token is given by its number in the list of tokens;
//! each at which something may be blamed or a check stands is kept. Offsets, strides and sizes count cells, each of
//! which holds one scalar. Bounds, offsets and strides stand where they are used, so that a statement is understood by
//! itself.
#![tactic(auto)]

ghost use Rattle.typed_tree.specs.Laws.{KeptLaw, WrittenLaw, LayoutLaw, RowMajorLaw};

pub mod chains;
pub mod expressions;
pub mod node;
pub mod nodes;
pub mod program;
pub mod scalars;
pub mod statements;
pub mod statics;
pub mod typed;
pub mod writing;

pub use expressions::{
    Actual, Association, Chunk, Composite, Expr, Iterated, Iteration, Reducer, Root, Run,
    Selection, Sign, Value,
};
pub use node::{Cell, Fold, Leaf, LeafCell, Link, Node};
pub use nodes::Nodes;
pub use program::{Bounds, Declared, Field, Formal, Mode, Object, Site, SiteKind, Sub, Subtype};
pub use scalars::{Check, Class, Scalar};
pub use statements::{Alternative, Body, Decl, Handler, Piece, Span, Stmt};
pub use statics::eval;
pub use typed::Typed;
pub use writing::push;

/// Laws of tables and of layout: what is put at the end of a table leaves what stood there as it was; what is written
/// of a part is read as that part; two objects of one owner share no cell; the components of an array stand in
/// row-major order (3.6.2).
pub fn laws()
    ensures kept { KeptLaw }
    ensures written { WrittenLaw }
    ensures layout { LayoutLaw }
    ensures row_major { RowMajorLaw }
{}
