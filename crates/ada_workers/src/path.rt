//! The path of a thread, as workers run it.
ghost use Rattle.std.specs.Prelude.{◌≡◌, ℕ, Option, None, List};
ghost use Rattle.ada_base.specs.Cells.{Cell};
ghost use Rattle.cell_memory.specs.Sight.{OwnThere};
ghost use Rattle.ada_workers.specs.Paths.{Outcome, Fine, Frames, Went, SamePlace};

use cell_memory::View;
pub use leave_board::Halt;
use std::alloc::Global;

/// How a path stopped (5.1, 9.10.1 and the limit of turns).
#[derive(Clone, Copy)]
pub enum Stop {
    /// At its end.
    Ended,
    /// By leaving the construct, as by an exit, a return or an exception.
    Gone,
    /// At the limit of its turns.
    Spent,
    /// As it was asked at a look, after so many looks at which it wasn't.
    Paused(u64),
    /// For want of memory.
    NoMemory,
}

/// What a thread does on the cells of its view, as a function of the path, the number of its looks, where they have a bound,
/// and the cells.
pub trait Path {
    ghost runs: { Self → Option ℕ → List Cell → Outcome Self };

    /// Goes on until the path stops. It looks for a request of `halt` now and then, and stops only at such a look where it
    /// finds one. The view is afterwards over the same cells, and none of its own is lent.
    fn go<H: Halt>(&mut self, alloc: Global, view: &mut View<'_>, halt: &mut H) -> Stop
        requires there { OwnThere view.old }
        requires fine { Fine (runs self.old None view.old.cells).end }
        ensures went { Went runs self.old view.old.cells result self.new view.new.cells }
        ensures place { SamePlace view.old view.new }
        ensures kept { H.kept halt.new ≡ H.kept halt.old }
        ensures stays { H.told halt.old → H.told halt.new }
        ensures paused { (looks : ℕ) → result ≡ Stop.Paused looks → H.told halt.new };

    ghost frames: { Frames runs };
}
