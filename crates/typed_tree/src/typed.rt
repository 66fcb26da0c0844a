//! Typed programs.

ghost use Rattle.std.specs.Prelude.{◌≡◌, slice_get, option_map};
ghost use Rattle.typed_tree.specs.Programs.{program, sub_of, subtype_of};

use crate::nodes::Nodes;
use crate::program::{Declared, Object, Site, Sub, Subtype};
use ada_base::Items;

/// A program. The owner 0 of objects is the main procedure; the subprogram of number s is the owner s + 1; the owners
/// that are the threads of parallel constructs come after them: those of site i are the owner i + 1 + the number of
/// subprograms. The plain program that contracts speak of is `program` of `specs/Programs.antt`.
#[derive(Drop)]
pub struct Typed {
    pub nodes: Nodes,
    /// Each subtype stands behind those of its components.
    pub subtypes: Items<Subtype>,
    /// In the order of their declarations, which is that of their cells.
    pub objects: Items<Object>,
    pub subs: Items<Sub>,
    /// Each construct stands before those inside it.
    pub sites: Items<Site>,
    /// The declared exceptions; `Reason::Declared(n)` is the one of number n.
    pub exceptions: Items<Declared>,
    /// The node of the main procedure's body.
    pub body: u32,
    /// Whether the main procedure is nonblocking (9.5).
    pub nonblocking: bool,
    /// Whether the strict rule on conflicts is asked for (9.10.1).
    pub strict: bool,
}

impl Typed {
    /// The subtype of a number, or None where there is none.
    pub fn subtype(&self, number: u32) -> Option<Subtype>
        ensures { slice_get (program self.now).subtypes number ≡ option_map (subtype_of self.now.nodes) result }
    {
        self.subtypes.get(number as usize).copied()
    }

    /// The subprogram of a number, or None where there is none.
    pub fn sub(&self, number: u32) -> Option<Sub>
        ensures { slice_get (program self.now).subs number ≡ option_map (sub_of self.now.nodes) result }
    {
        self.subs.get(number as usize).copied()
    }
}
