ghost use Rattle.std.specs.Prelude.{◌≡◌, ℕ, List, Option};
ghost use Rattle.ada_port.specs.Ports.{Fetches, Puts, Stream, Takes, Texts};

use std::alloc::{AllocError, Global};
use std::io;
use std::io::ErrorKind;

// The most bytes that a fetch gives: one more than a text may have.
pub(crate) const MOST_BYTES: usize = 1_048_577;

/// A source could not be asked, or a sink could not take a piece.
#[derive(Clone, Copy)]
pub struct Failed;

/// Why a shelf gave no text.
#[derive(Clone, Copy)]
pub enum ShelfFault {
    /// The text can't be read.
    Failed,
    /// There is no memory for it.
    OutOfMemory,
}

impl From<AllocError> for ShelfFault {
    ghost use Rattle.ada_port.specs.declared.ports.ShelfFault.TheVariants.{OutOfMemory};

    ghost from_gives = { λ _ fault. fault ≡ OutOfMemory };

    fn from(_: AllocError) -> ShelfFault {
        ShelfFault::OutOfMemory
    }
}

impl From<io::Error> for ShelfFault {
    ghost use Rattle.std.specs.Prelude.{◌≡◌, ◌↔◌};
    ghost use Rattle.std.specs.IoError.{error_kind};
    ghost use Rattle.std.specs.declared.io.ErrorKind.{ErrorKind};
    ghost use Rattle.ada_port.specs.declared.ports.ShelfFault.{ShelfFault};

    ghost from_gives = { λ error fault. (fault ≡ ShelfFault.OutOfMemory) ↔ (error_kind error ≡ ErrorKind.OutOfMemory) };

    fn from(error: io::Error) -> ShelfFault {
        match error.kind() {
            ErrorKind::OutOfMemory => ShelfFault::OutOfMemory,
            _ => ShelfFault::Failed,
        }
    }
}

/// Where texts are fetched by their names.
pub trait Shelf {
    // What the shelf has for each name, where it tells, and how often a fetch failed.
    ghost state: { Self → Texts };

    /// Fetches the text of a name: all its bytes, or the first 1,048,577 of them. `Failed` comes only
    /// where the count of faults rose; with every other answer it stays. No answer changes what the
    /// shelf has.
    fn fetch(&mut self, alloc: Global, name: &str) -> Result<Vec<u8>, ShelfFault>
        ensures { Fetches (state self.old) (state self.new) name.now result };

    /// How often a fetch failed, up to the greatest number.
    fn faults(&self) -> u64
        ensures { result ≡ (state self.now).faults };
}

/// Where the input of a program comes from, byte by byte.
pub trait Source {
    // The bytes that are left, where the source tells, and how often a call failed.
    ghost state: { Self → Stream };

    /// Takes the first byte that is left; `None` means that none is. `Failed` comes only where the
    /// count of faults rose, and takes nothing; with every other answer the count stays.
    fn next(&mut self) -> Result<Option<u8>, Failed>
        ensures { Takes (state self.old) (state self.new) result };

    /// How often a call failed, up to the greatest number.
    fn faults(&self) -> u64
        ensures { result ≡ (state self.now).faults };
}

/// Where the output of a program goes, piece by piece.
pub trait Sink {
    // The bytes that the sink holds, where it tells, and how often a put failed.
    ghost state: { Self → Stream };

    /// Appends a piece, and leaves the count of faults. `Failed` comes only where the count rose; then a
    /// prefix of the piece was appended.
    fn put(&mut self, piece: &[u8]) -> Result<(), Failed>
        ensures { Puts (state self.old) (state self.new) piece.now result };

    /// How often a put failed, up to the greatest number.
    fn faults(&self) -> u64
        ensures { result ≡ (state self.now).faults };
}

/// Who is told that a thread begins.
pub trait Pulse {
    /// To be called as a worker begins a thread of an outermost construct, with the thread's number from 0.
    fn begins(&self, thread: u32);
}
