// A thread of the machine, as workers run it.
ghost use Rattle.std.specs.Prelude.{◌≡◌, ◌≤◌, List, IfOk, None, Some};
ghost use Rattle.ada_base.specs.Cells.{Cell};
ghost use Rattle.ada_machine.specs.States.{Ready, state_of};
ghost use Rattle.machine_paths.specs.Noting.{turns_by};
ghost use Rattle.machine_paths.specs.Threads.{starts};
ghost use Rattle.ada_threads.specs.Came.{OfBody, WayWell};
ghost use Rattle.ada_threads.specs.ThreadPaths.{how_by};
ghost use Rattle.ada_threads.specs.declared.way.Way.{Way as WayOf};

use crate::way::{Ran, Way};
use ada_machine::Machine;
use ada_machine::starting::Counts;
use ada_workers::State;
use run_plan::Plan;
use stack_code::{Around, Code};
use std::alloc::{AllocError, Global};
use std::marker::Model;

/// What all threads of a run have: the code, how iterations are cut, the limit of turns, and where memory comes from.
#[derive(Clone, Copy)]
pub struct Team<'a> {
    pub alloc: Global,
    pub code: &'a Code,
    pub plan: &'a Plan,
    pub limit: u64,
}

/// The threads of a construct: where they begin, the frames that they see, their own first, and what was begun before
/// them. Contracts see the path that each of them is. Once it ran it has what it came to.
#[derive(Drop)]
pub struct MachineThread<'a> {
    pub(crate) team: Team<'a>,
    pub(crate) site: u32,
    pub(crate) entry: u32,
    pub(crate) frames: Vec<u64>,
    pub(crate) counts: Counts,
    pub(crate) how: Option<Way>,
}

impl<'a> Model for MachineThread<'a> {
    ghost use Rattle.machine_paths.specs.Threads.{ThreadPath};

    ghost Value = { ThreadPath };

    ghost use Rattle.ada_threads.specs.ThreadPaths.{path_of, IsThread};

    ghost view = { path_of };

    ghost invariant = { IsThread };
}

impl<'a> MachineThread<'a> {
    /// A machine at its entry. An Err is want of memory.
    pub(crate) fn machine(&self) -> Result<Machine, AllocError>
        ensures ready { IfOk result (λ m. (cells : List Cell) → Ready self.now.code m cells) }
        ensures begun { IfOk result (λ m. (cells : List Cell) → state_of m cells ≡ (starts self.now None cells).state) }
        ensures looks { IfOk result (λ m. m.looks ≡ 0) }
        ensures within { self.now.turns ≤ self.now.limit }
    {
        Machine::start(
            self.team.alloc,
            self.team.code,
            Around::Site(self.site),
            self.frames.as_slice(),
            self.counts,
        )
    }

    /// It came to nothing, for want of memory.
    pub(crate) fn short(&self) -> Ran
        ensures value { result ≡ record { way = Way.NoMemory; turns = self.now.turns; looks = 0 } }
        ensures within { self.now.turns ≤ self.now.limit }
    {
        Ran {
            way: Way::NoMemory,
            turns: self.counts.turns,
            looks: 0,
        }
    }

    /// What it came to, once it ran. A reduction's thread that left did so by a raise.
    pub(crate) fn how(&self) -> Option<Way>
        ensures how { self.now.how ≡ how_by result }
        ensures well { (w : WayOf) → result ≡ Some w → OfBody self.now (λ b. WayWell b w) }
    {
        self.how
    }

    /// The most turns, of which there were so many before it ran, if it was begun.
    pub(crate) fn turns_by(&self, most: u64, state: State) -> u64
        ensures most { result ≡ turns_by most state self.now.turns }
        ensures within { self.now.turns ≤ self.now.limit }
    {
        match state {
            State::NotBegun => most,
            State::Stopped(_) => most.max(self.counts.turns),
        }
    }
}
