// What threads in order came to so far.
ghost use Rattle.std.specs.Prelude.{◌≡◌, ◌+◌, ◌-◌, ◌<◌, ◌^◌, min, [], false};
ghost use Rattle.ada_threads.specs.Tallies.{Adds, Nexts, end_of};

use crate::iterations::Iterations;
use crate::way::{End, Joined, Ran, Way};
use ada_base::Items;
use std::alloc::Global;

/// So many looks more, up to the greatest number of 64 bits.
pub(crate) fn looks_after(looks: u64, more: u64) -> u64
    ensures sum { result ≡ min (looks + more) (2 ^ 64 - 1) }
    ensures small { looks < 2 ^ 64 }
{
    looks.saturating_add(more)
}

/// The number of the next thread and of its first iteration, the most turns of a thread, whether turns ran out, the
/// accumulators, and how often the threads might have paused.
#[derive(Drop)]
pub(crate) struct Tally {
    pub number: u32,
    pub first: u64,
    pub turns: u64,
    pub over: bool,
    pub values: Items<i64>,
    pub looks: u64,
}

impl Tally {
    /// Before the first thread.
    pub(crate) fn new(alloc: Global, turns: u64) -> Tally
        ensures { result ≡ record { number = 0; first = 0; turns = turns; over = false; values = []; looks = 0 } }
    {
        Tally {
            number: 0,
            first: 0,
            turns,
            over: false,
            values: Items::new(alloc),
            looks: 0,
        }
    }

    /// The next thread, of so many iterations.
    pub(crate) fn share(&self, size: u64) -> Iterations
        ensures { result ≡ record { number = self.now.number; first = self.now.first; size = size } }
    {
        Iterations {
            number: self.number,
            first: self.first,
            size,
        }
    }

    // Goes on to the next thread.
    fn next(&mut self, size: u64) -> Option<End>
        ensures { Nexts self.old size result self.new }
    {
        let Some(number) = self.number.checked_add(1) else {
            return Some(End::NoMemory);
        };
        let Some(first) = self.first.checked_add(size) else {
            return Some(End::NoMemory);
        };
        self.number = number;
        self.first = first;
        None
    }

    /// Counts what a thread of so many iterations came to. It answers how they ended, if no further one is begun.
    pub(crate) fn add(&mut self, ran: Ran, size: u64) -> Option<End>
        ensures adds { Adds self.old ran size result self.new }
        ensures small { self.old.looks < 2 ^ 64 }
    {
        self.turns = self.turns.max(ran.turns);
        self.looks = looks_after(self.looks, ran.looks);
        match ran.way {
            Way::Done(None) => self.next(size),
            Way::Done(Some(value)) => match self.values.push(value) {
                Ok(()) => self.next(size),
                Err(_) => Some(End::NoMemory),
            },
            Way::Spent => {
                self.over = true;
                self.next(size)
            }
            Way::Left(leave) => Some(End::Left(leave)),
            Way::Paused => Some(End::Paused),
            Way::NoMemory => Some(End::NoMemory),
        }
    }

    /// What they came to that ended so.
    pub(crate) fn ended(self, end: End) -> Joined
        ensures { result ≡ record { end = end; turns = self.turns; looks = self.looks } }
    {
        Joined {
            end,
            turns: self.turns,
            looks: self.looks,
        }
    }

    /// What they came to, all of which came to their ends.
    pub(crate) fn joined(self) -> Joined
        ensures { result ≡ record { end = end_of self; turns = self.turns; looks = self.looks } }
    {
        let Tally {
            number: _,
            first: _,
            turns,
            over,
            values,
            looks,
        } = self;
        let end = if over {
            End::Spent
        } else {
            End::Values(values)
        };
        Joined { end, turns, looks }
    }
}
