//! What code is emitted, and what names stand for where it is.

use stack_code::{Around, Instr, SiteKind};

/// A cell of the own frame, of one so many frames outward from a thread's own, or of the main frame.
#[derive(Clone, Copy)]
pub enum Level {
    Own,
    Around(u32),
    Main,
}

/// A cell, by its level and its number in the frame.
#[derive(Clone, Copy)]
pub struct Where {
    pub level: Level,
    pub cell: u32,
}

/// What a name stands for: so many cells from there on, or from the address on that is kept there.
#[derive(Clone, Copy)]
pub struct Named {
    pub through: bool,
    pub place: Where,
    pub cells: u32,
}

/// How a body is left by a return: a procedure, a function, the main procedure, a thread.
#[derive(Clone, Copy)]
pub enum Leaving {
    ByReturn,
    ByValue,
    ByEnd,
    ByLeave,
}

/// What holds around an instruction: its body, how many constructs are begun there since the body's entry, the handler
/// of what is raised there, how many cells of the frame are taken, and what construct a fork begins, which is a loop
/// where there is no fork.
#[derive(Clone, Copy)]
pub struct Mark {
    pub body: Around,
    pub nest: u32,
    pub entry: Option<u32>,
    pub cells: u32,
    pub kind: SiteKind,
}

/// An instruction, with the height of the operand stack before it and what holds around it.
#[derive(Clone, Copy)]
pub struct Placed {
    pub instr: Instr,
    pub height: u32,
    pub entry: Option<u32>,
    pub body: Around,
    pub nest: u32,
    pub cells: u32,
    pub kind: SiteKind,
}

/// What a body needs: so many cells of its frame, and so many places on its operand stack.
#[derive(Clone, Copy)]
pub struct Need {
    pub cells: u32,
    pub height: u32,
}

/// A fork: its place in the code, the body in which it stands, and what it begins.
#[derive(Clone, Copy)]
pub struct Fork {
    pub place: u32,
    pub around: Around,
    pub kind: SiteKind,
}
