use ada_base::{Items, Reason};
use stack_code::path::Round;
use stack_code::{Asked, Io, Leave};

/// Why a machine stopped.
#[derive(Drop)]
pub enum Stop {
    /// The body ended, a thread of a reduction with its accumulator.
    Done(Option<i64>),
    /// The construct of this thread is left, or nothing handled an exception.
    Left(Leave),
    /// A construct is begun: go on after `resume_after` with its answer.
    Construct(Asked),
    /// Output or input is asked for: go on after `resume_after`.
    Ask(Io),
    /// The halt asked for it: it may go on as it is.
    Paused,
    /// A turn would be begun, and the turns are at the limit.
    Spent,
    /// Memory wasn't there, or a number isn't in 64 bits; the machine is as it was before the
    /// instruction.
    NoMemory,
}

/// What one instruction came to: it goes on, it raises an exception, or it stopped.
#[derive(Drop)]
pub enum Went {
    /// It goes on at the next instruction.
    On,
    /// An exception is being raised.
    Raising,
    /// It stopped.
    Stopped(Stop),
}

/// What a body that waits for its call has set aside: what its last fork kept, of which the first is last, and the parts that it
/// repeats.
#[derive(Drop)]
pub struct Aside {
    /// The accumulators that are still to be combined, the first last.
    pub kept: Vec<i64>,
    /// The parts that are being repeated in it, the innermost last.
    pub rounds: Vec<Round>,
}

/// A body that waits for its call: where the call stands and where it goes on, where its operands and its frame begin,
/// the constructs begun in it, what it has set aside, and where the cells ended.
#[derive(Drop)]
pub struct Waiting {
    /// The call.
    pub at: usize,
    /// Where it goes on after it.
    pub to: usize,
    /// The height of the stack below its own operands.
    pub floor: usize,
    /// Where its frame begins.
    pub base: u64,
    /// The constructs begun in it.
    pub nest: u32,
    /// What its last fork kept and the parts that it repeats, none where there is neither.
    pub aside: Option<Box<Aside>>,
    /// Where the cells ended before the call.
    pub top: u64,
}

/// One logical thread between two instructions. The top of the stack is last, and so are the innermost of the bodies that
/// wait and of the parts that are repeated, and the first of what the last fork kept.
#[derive(Drop)]
pub struct Machine {
    /// The next instruction.
    pub pc: usize,
    /// The operands of all bodies that are active, the top last.
    pub stack: Vec<i64>,
    /// The height of the stack below those of the own body.
    pub floor: usize,
    /// The constructs begun in the own body.
    pub nest: u32,
    /// The accumulators that are still to be combined, the first last.
    pub kept: Vec<i64>,
    /// The parts that are being repeated in the own body, the innermost last.
    pub rounds: Vec<Round>,
    /// Where the own frame begins.
    pub base: u64,
    /// Where the frames outward from a thread's own begin, the innermost first.
    pub outward: Vec<u64>,
    /// The bodies that wait for their calls, the innermost last.
    pub waiting: Vec<Waiting>,
    /// The active calls.
    pub calls: u32,
    /// The active constructs.
    pub nested: u32,
    /// The turns that were begun.
    pub turns: u64,
    /// How often it might have paused.
    pub looks: u64,
    /// The line that is being built.
    pub line: Items<u8>,
    /// The exception that is being raised.
    pub raising: Option<Reason>,
}
