//! Bytes of which only contracts speak.
ghost use Rattle.std.specs.Prelude.{◌≡◌, ℕ, List, [], ◌++◌};
ghost use Rattle.std.specs.Borrow.{ftrue};

use std::marker::Model;

/// The bytes that came of an input or were put to an output, one after the other. Contracts read them as `bytes`. A log
/// takes no memory, and its methods do nothing when the program runs.
#[derive(Drop)]
pub struct Log {
    pub ghost bytes: { List ℕ },
}

impl Model for Log {
    ghost also_owns = { λ _. ftrue };
}

impl Log {
    /// A log of no bytes.
    pub fn new() -> Log
        ensures { result.bytes ≡ [] }
    {
        Log {}
    }

    /// The same bytes, and a piece behind them.
    pub fn with(&self, piece: &[u8]) -> Log
        ensures { result.bytes ≡ self.now.bytes ++ piece.now }
    {
        let _ = piece;
        Log {}
    }
}
