//! What is known where code is emitted, and what it is emitted into.

use crate::texts::Texts;
use ada_base::Items;
use lower_emission::types::{Leaving, Named, Placed, Where};
use stack_code::Around;
use typed_tree::Typed;

/// What a link adds to the names outward.
#[derive(Clone, Copy)]
pub enum Link {
    Object {
        constant: bool,
        object: u32,
        named: Named,
    },
    Parameter {
        number: u32,
        place: Where,
    },
    Item {
        constant: bool,
        number: u32,
        named: Named,
    },
    Target {
        named: Named,
    },
    Handled {
        place: Where,
    },
    Exit {
        number: u32,
        to: u32,
    },
    /// The threads of a construct begin: what is outward is a frame further outward.
    Thread,
}

/// What names stand for.
#[derive(Clone, Copy)]
pub enum Names<'a> {
    Outset,
    And { link: Link, outer: &'a Names<'a> },
}

/// What is known where code is emitted: the program, names, the texts of the program, the first free cell of the frame, the handler,
/// how the body is left by a return, the body, and how many constructs are begun in it.
#[derive(Clone, Copy)]
pub struct Env<'a> {
    pub typed: &'a Typed,
    pub names: Names<'a>,
    pub texts: &'a Texts,
    pub free: u32,
    pub entry: Option<u32>,
    pub leaving: Leaving,
    pub body: Around,
    pub nest: u32,
}

/// The code that was emitted, if it is whole: if all of it had room. It isn't where memory was short, where a number has
/// no room in the bits of a code's, or where a part of the tree isn't of the kind that the part around it says.
#[derive(Drop)]
pub struct Emitter {
    pub code: Items<Placed>,
    pub whole: bool,
    pub short: bool,
}

/// An index of a name: its expression, its least and greatest value, and the cells of one component.
#[derive(Clone, Copy)]
pub struct Index {
    pub index: u32,
    pub low: i64,
    pub high: i64,
    pub stride: u32,
}
