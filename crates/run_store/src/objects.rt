//! What parts of runs name.

ghost use Rattle.std.specs.Prelude.{◌≡◌};
ghost use Rattle.ada_meaning.specs.Stored as spec;
ghost use Rattle.run_store.specs.Shows.{entity_of};

use ada_meaning::Slot;

/// An object by its number.
#[derive(Clone, Copy)]
pub enum Object {
    Variable(u32),
    Constant(u32),
}

impl Object {
    /// Where the object's slot is in a table of slots.
    pub fn key(self) -> usize
        ensures { result ≡ spec.key (entity_of self) }
    {
        match self {
            Object::Variable(number) => number as usize * 2,
            Object::Constant(number) => number as usize * 2 + 1,
        }
    }
}

/// Where an object is visible: in all subprograms too, or in its own text alone.
#[derive(Clone, Copy)]
pub enum Region {
    Everywhere,
    Here,
}

/// Where an object was in a table, and how many cells there were.
#[derive(Clone, Copy)]
pub struct Mark {
    pub slot: Slot,
    pub height: u64,
}
