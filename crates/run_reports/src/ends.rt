//! How a run ended, and the values of the main procedure's variables then.

use ada_base::{Items, Reason};
use ada_meaning::Variable;

/// What a scalar cell keeps (3.5): a truth value, a number, or a number of a modular type by its binary digits (3.5.4).
#[derive(Clone, Copy)]
pub enum CellKind {
    Truth,
    Number,
    Digits,
}

/// A variable of the main procedure's declarative part: its name as declared, and what each of its cells keeps.
#[derive(Drop)]
pub struct Final {
    pub name: Items<u8>,
    pub kinds: Items<CellKind>,
}

/// The values of the main procedure's variables at the end of a run: their cells, and which of the cells each has.
#[derive(Drop)]
pub struct Finals {
    pub kept: Items<i64>,
    pub declared: Items<Variable>,
}

/// How a run ended: normally, with the values of the main procedure's variables; by an exception that no handler took;
/// by its turns, of which there are so many; or before its end, because the input or the output failed or memory ran out.
#[derive(Drop)]
pub enum RunEnd {
    Ended(Finals),
    Raised(Reason),
    TurnsSpent(u64),
    ReadFault,
    WriteFault,
    NoMemory,
}
