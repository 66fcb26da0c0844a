//! Scalar parameters of mode `in` that were evaluated (6.4.1), which take no memory.

ghost use Rattle.std.specs.Prelude.{◌≡◌, ◌↔◌, ◌<◌, ◌++◌, ◌∷◌, [], IsTrue, cond, length};

use std::marker::Model;

/// A scalar parameter of mode `in` that was evaluated: the formal's number, and its value.
#[derive(Clone, Copy)]
pub struct InScalar {
    pub formal: u32,
    pub value: i64,
}

/// At most four such parameters, which contracts see as their list.
#[derive(Drop)]
pub struct InScalars {
    count: usize,
    items: [InScalar; 4],
}

impl Model for InScalars {
    ghost use Rattle.std.specs.Prelude.{List, take, ◌≡◌, ◌≤◌, length};
    ghost use Rattle.run_parts.specs.declared.scalars.InScalar.{InScalar};

    ghost Value = { List InScalar };

    ghost view = { λ s. take s.count s.items };

    ghost invariant = { λ s. (s.count ≤ 4) × (length s.items ≡ 4) };
}

impl InScalars {
    /// Of no parameter.
    pub fn new() -> InScalars
        ensures { result ≡ [] }
    {
        InScalars {
            count: 0,
            items: [InScalar {
                formal: 0,
                value: 0,
            }; 4],
        }
    }

    /// One parameter more, and whether there was room for it: four have room.
    pub fn push(&mut self, one: InScalar) -> bool
        ensures grown { self.new ≡ cond result (self.old ++ one ∷ []) self.old }
        ensures room { IsTrue result ↔ (length self.old < 4) }
    {
        if self.count < 4 {
            self.items[self.count] = one;
            self.count += 1;
            true
        } else {
            false
        }
    }

    /// The parameters in order.
    pub fn as_slice(&self) -> &[InScalar]
        ensures { result.now ≡ self.now }
    {
        &self.items[..self.count]
    }
}
