//! How parts of runs end.

use ada_base::Reason;

/// How a statement is left (5.7, 6.5, 11.3).
#[derive(Clone, Copy)]
pub enum Leave {
    /// By an exit from the loop of this number.
    Exits(u32),
    /// By a return, with the value of a function.
    Returns(Option<i64>),
    /// By an exception.
    Raises(Reason),
}

/// Why a part of a run has no value: it is left, or the run ends.
#[derive(Clone, Copy)]
pub enum End {
    Left(Leave),
    Spent,
    NoMemory,
    ReadFault,
    WriteFault,
}
