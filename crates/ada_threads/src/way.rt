// How the machines of threads stop.
use ada_base::Items;
use stack_code::{Asked, Leave};

/// How a thread's machine came to its end, with the constructs in it run in order.
#[derive(Clone, Copy)]
pub enum Way {
    /// Its body ended, of a reduction with an accumulator.
    Done(Option<i64>),
    /// It left its construct.
    Left(Leave),
    /// Its turns are at the limit.
    Spent,
    /// It was asked to pause.
    Paused,
    /// For want of memory.
    NoMemory,
}

/// What a thread's machine came to: how it ended, the turns begun by then, and how often it might have paused and went on.
#[derive(Clone, Copy)]
pub(crate) struct Ran {
    pub way: Way,
    pub turns: u64,
    pub looks: u64,
}

/// How threads in order ended: all came to their ends, or one left, or turns ran out, or they were asked to pause, or
/// memory wasn't there.
#[derive(Drop)]
pub(crate) enum End {
    Values(Items<i64>),
    Left(Leave),
    Spent,
    Paused,
    NoMemory,
}

/// What threads in order came to: how they ended, the most turns of one of them, and how often they might have paused.
#[derive(Drop)]
pub(crate) struct Joined {
    pub end: End,
    pub turns: u64,
    pub looks: u64,
}

/// What a fork took, and the cells of a thread's frame.
#[derive(Clone, Copy)]
pub(crate) struct Fork {
    pub asked: Asked,
    pub frame: u32,
}
