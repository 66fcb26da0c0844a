//! Cells that a walk holds for a while, of which those of scalars take no memory.

ghost use Rattle.std.specs.Prelude.{◌≡◌, ◌↔◌, [], ◌∷◌, slice_get, IsTrue};

use ada_base::Items;
use std::alloc::Global;
use std::marker::Model;

/// Cells of a value, which contracts see as their list. That of a scalar takes no memory.
#[derive(Drop)]
pub struct Cells {
    is_one: bool,
    one: [i64; 1],
    list: Items<i64>,
}

impl Model for Cells {
    ghost use Rattle.std.specs.Prelude.{ℤ, List, cond};

    ghost Value = { List ℤ };

    ghost view = { λ c. cond c.is_one c.one c.list };
}

impl Cells {
    /// The cell of a scalar.
    pub fn one(alloc: Global, value: i64) -> Cells
        ensures { result ≡ value ∷ [] }
    {
        Cells {
            is_one: true,
            one: [value],
            list: Items::new(alloc),
        }
    }

    /// The cells of a list.
    pub fn many(list: Items<i64>) -> Cells
        ensures { result ≡ list }
    {
        Cells {
            is_one: false,
            one: [0],
            list,
        }
    }

    /// The cells in order.
    pub fn as_slice(&self) -> &[i64]
        ensures { result.now ≡ self.now }
    {
        if self.is_one {
            &self.one[..]
        } else {
            self.list.as_slice()
        }
    }

    /// The first cell, where there is one.
    pub fn first(&self) -> Option<i64>
        ensures { result ≡ slice_get self.now 0 }
    {
        self.as_slice().get(0).copied()
    }

    /// Whether there is no cell.
    pub fn is_empty(&self) -> bool
        ensures { IsTrue result ↔ (self.now ≡ []) }
    {
        self.as_slice().is_empty()
    }
}
