//! How the threads of a construct went, as notes tell it.
ghost use Rattle.std.specs.Prelude.{◌≡◌};
ghost use Rattle.ada_workers.specs.Joins.{note_of};
ghost use Rattle.ada_workers.specs.Noted.{told_note};

use crate::path::Stop;
use crate::tasks::State;

/// How a thread of a construct went, in a run that is told afterwards (5.1). What it tells is the plain
/// `ThreadNote` of `ada_base`.
#[derive(Clone, Copy)]
pub enum ThreadNote {
    /// It went to its own end, and wasn't cut.
    Whole,
    /// It wasn't begun.
    NotBegun,
    /// It was cut, after so many looks at which it went on.
    CutAfter(u64),
}

impl State {
    /// The note of a thread that stopped so. None of a construct that came to its end stopped for want of memory.
    pub fn note(&self) -> ThreadNote
        ensures { told_note result ≡ note_of self.now }
    {
        match self {
            State::Stopped(Stop::Ended | Stop::Gone | Stop::Spent) => ThreadNote::Whole,
            State::Stopped(Stop::Paused(looks)) => ThreadNote::CutAfter(*looks),
            State::NotBegun | State::Stopped(Stop::NoMemory) => ThreadNote::NotBegun,
        }
    }
}
