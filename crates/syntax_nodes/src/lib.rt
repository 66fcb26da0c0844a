//! Syntax trees in a table of nodes, how they are joined while a text is read, and what each number of a finished tree is
//! by each of the grammar's rules.
//!
//! [`Parts`] holds a table and the parts that are being joined, the latest first. A function of a form's number of
//! parts (`leaf` to `four`) takes that many from it and puts what they make in their place; a part that is left out is
//! `nothing`, which is also a list without items. A list grows item by item with `also`, and `close` ends it.
//!
//! [`Tree`] is the syntax tree of a program (`finish`). Its methods are the views, which give the public types of its
//! parts. A list is walked from cell to cell, front to back.
#![tactic(auto)]

pub mod declarations;
pub mod expressions;
pub mod joining;
pub mod listing;
pub mod lists;
pub mod names;
pub mod naming;
pub mod nodes;
pub mod parts;
pub mod rooting;
pub mod statements;
pub mod tree;
pub mod units;

pub use declarations::{Array, Comp, Decl, Definition, Formal, Formals, Ids, Indic, ObjectType};
pub use expressions::{
    Adding, Conjunct, Elsif, Expr, Factor, Multiplying, Primary, Rel, Simple, Term, Values,
};
pub use joining::{also, before, begin, four, leaf, leave_out, nothing, one, swap, three, two};
pub use listing::close;
pub use lists::ListKind;
pub use names::{Arg, Assoc, Choice, Iter, Many, Name, NamePart, Parallel, Range};
pub use naming::{bare, take_name};
pub use nodes::{Cell, Four, Leaf, Node, One, Three, Two};
pub use parts::Parts;
pub use statements::{Alt, Arm, Body, Declare, Handled, Handler, Pack, Scheme, Stmt, Stmts};
pub use tree::{Tree, finish};
pub use units::{Aspect, Bracketed, Clause, Implementation, Main, Policy, Program, Sub, Unit};
