ghost use Rattle.std.specs.Prelude.{◌≡◌, ◌++◌, ◌^◌, ◌<◌, ◌≤◌, ℕ, pos, List, length, take, drop, IsSome, Some, OnOk, OnErr};
ghost use Rattle.ada_base.specs.Cells.{Cell, seen, written, zeros};
ghost use Rattle.ada_machine.specs.Places.{Stays};

use std::alloc::AllocError;

/// The cells that a path is lent, each to read, to read and write, or gone; its own frames are the last ones.
pub trait Cells {
    ghost cells: { Self → List Cell };

    // where the path's own cells begin
    ghost floor: { Self → ℕ };

    // none of them is lent on
    ghost whole: { Self → Type 0 };

    ghost Home: { Type 0 };

    // what no call changes
    ghost place: { Self → Home };

    /// The value of a cell.
    fn get(&self, at: u64) -> i64
        requires { IsSome (seen (cells self.now) (pos at)) }
        ensures { seen (cells self.now) (pos at) ≡ Some result };

    /// Writes a cell.
    fn set(&mut self, at: u64, value: i64)
        requires { IsSome (written (cells self.old) (pos at) value) }
        ensures written { written (cells self.old) (pos at) value ≡ Some (cells self.new) }
        ensures stays { Stays floor whole place self.old self.new };

    /// How many cells there are.
    fn len(&self) -> u64
        ensures len { result ≡ length (cells self.now) }
        ensures small { length (cells self.now) < 2 ^ 33 }
        ensures own { floor self.now ≤ length (cells self.now) };

    /// A new frame of so many cells of 0 at the end. An Err is want of memory, and leaves the cells as they were.
    fn push_frame(&mut self, count: u32) -> Result<(), AllocError>
        requires { whole self.old }
        ensures ok { OnOk result (cells self.new ≡ cells self.old ++ zeros count) }
        ensures err { OnErr result (cells self.new ≡ cells self.old) }
        ensures stays { Stays floor whole place self.old self.new };

    /// Takes the cells from that address on off, which are its own.
    fn pop_frame(&mut self, base: u64)
        requires whole { whole self.old }
        requires own { floor self.old ≤ base }
        requires there { base ≤ length (cells self.old) }
        ensures cells { cells self.new ≡ take base (cells self.old) }
        ensures stays { Stays floor whole place self.old self.new };
}
