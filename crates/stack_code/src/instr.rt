use ada_base::{Base, Reason};

/// One instruction. What each does to the operand stack stands in `specs/Deeds.antt`.
#[derive(Clone, Copy)]
pub enum Instr {
    /// Pushes a number.
    Push(i64),
    /// Drops the top.
    Pop,
    /// Pushes the top once more.
    Dup,
    /// Exchanges the two last.
    Swap,
    /// Pushes the address of a cell of the own frame.
    Local(u32),
    /// Pushes the address of a cell of a frame outward from a thread's own: how many frames outward, from 1, and which
    /// cell.
    Outer(u32, u32),
    /// Pushes the address of a cell of the main frame.
    Global(u32),
    /// Moves an address by an index: the least index, the greatest, and the cells of one component (4.1.1).
    Index(i64, i64, u32),
    /// Moves an address by so many cells (4.1.3).
    Field(u32),
    /// Pushes the cell at an address.
    Load,
    /// Writes the top to the cell at the address below it.
    Store,
    /// Copies so many cells, which are all read first: the address to write at, then the one to read at (5.2).
    Copy(u32),
    /// Writes a number to so many cells from an address on.
    Fill(u32, i64),
    /// The sum, or Constraint_Error (4.5.3).
    Add(Base),
    /// The difference, or Constraint_Error (4.5.3).
    Sub(Base),
    /// The product, or Constraint_Error (4.5.5).
    Mul(Base),
    /// The quotient toward 0, or Constraint_Error (4.5.5).
    Div(Base),
    /// The remainder with the sign of the divisor, or Constraint_Error where that is 0 (4.5.5).
    Mod(Base),
    /// The remainder with the sign of the dividend, or Constraint_Error where the divisor is 0 (4.5.5).
    Rem(Base),
    /// The power, or Constraint_Error, also where the exponent is negative (4.5.6).
    Pow(Base),
    /// The negated number, or Constraint_Error (4.5.4).
    Neg(Base),
    /// The absolute value, or Constraint_Error (4.5.6).
    Abs(Base),
    /// The greater of two (3.5).
    Max,
    /// The lesser of two (3.5).
    Min,
    /// Whether two are equal, 1 or 0 (4.5.2).
    Eq,
    /// Whether they aren't equal (4.5.2).
    Ne,
    /// Whether the lower one is less (4.5.2).
    Lt,
    /// Whether it is at most the top (4.5.2).
    Le,
    /// Whether it is greater (4.5.2).
    Gt,
    /// Whether it is at least the top (4.5.2).
    Ge,
    /// Whether the top is above the lower one by so many, or by more.
    Far(u32),
    /// Each binary digit that both have (4.5.1).
    And,
    /// Each binary digit that one of them has (4.5.1).
    Or,
    /// Each binary digit that exactly one has (4.5.1).
    Xor,
    /// 1 for 0, and 0 for any other number (4.5.6).
    Not,
    /// Raises Constraint_Error unless the top lies from one number to the other (3.5).
    Range(i64, i64),
    /// Goes on there.
    Jump(u32),
    /// Takes the top, and goes on there where it is 0.
    JFalse(u32),
    /// Takes the top, and goes on there where it isn't 0.
    JTrue(u32),
    /// Begins a turn.
    Turn,
    /// Calls a subprogram with a frame of its own, which takes its operands from the stack (6.4).
    Call(u32),
    /// A call whose frame begins at a cell of the own one, where the first values of its formals stand.
    CallAt(u32, u32),
    /// The same, which comes back to that instruction in place of the next one: the subprogram, the cell, and where. It
    /// takes the top, and raises Constraint_Error where that is 0, after a look, with its turn begun and calls counted.
    CallTo(u32, u32, u32),
    /// Ends the subprogram (6.5).
    Ret,
    /// Ends the function with the top as its value (6.5).
    RetV,
    /// Raises an exception (11.3).
    Raise(Reason),
    /// Raises the exception whose number is the top.
    Reraise,
    /// Leaves the construct of the own thread by the exit of a loop (5.7).
    Exit(u32),
    /// Leaves the construct of the own thread by a return (6.5).
    Leave,
    /// Leaves it by a return with the top as the value.
    LeaveV,
    /// Begins a construct, and takes its five operands (5.5, 5.6.1, 4.5.10).
    Fork(u32),
    /// A construct is begun.
    Nest,
    /// A construct is ended.
    Unnest,
    /// Adds a text to the line that is being built.
    Words(u32),
    /// Adds the image of a number to it (4.10).
    Img,
    /// Adds TRUE, or FALSE for 0.
    Bool,
    /// Adds the image of a number, padded to so many characters (A.10.8).
    Wide(u32),
    /// Asks to write the line (A.10.7).
    Send,
    /// Asks to write the line and a line feed (A.10.7).
    SendLn,
    /// Asks for a number (A.10.8).
    Get,
    /// The thread is done.
    End,
    /// The thread is done with an accumulator.
    EndV,
    /// The main procedure is done.
    Halt,
    /// Calls the reducer with each accumulator that the last fork of this frame kept.
    Combine(u32),
    /// Takes off the next accumulator that the last fork of this body kept, and pushes it and 1; where none is left it
    /// pushes 0 and 0.
    Part,
    /// Begins a part that is done so many times, once at least; each round begins at the next instruction.
    Repeat(u64),
    /// The end of a round: where another one follows, and rounds begin at that instruction, it begins; else the part is
    /// done.
    Again(u32),
    /// The following do what several of those above do one after another. Pushes a cell of the own frame: `Local`,
    /// `Load`.
    LoadL(u32),
    /// Pushes a cell of a frame outward: `Outer`, `Load`.
    LoadO(u32, u32),
    /// Pushes a cell of the main frame: `Global`, `Load`.
    LoadG(u32),
    /// Writes the top to a cell of the own frame: `Local`, `Swap`, `Store`.
    StoreL(u32),
    /// Writes it to a cell of a frame outward: `Outer`, `Swap`, `Store`.
    StoreO(u32, u32),
    /// Writes it to a cell of the main frame: `Global`, `Swap`, `Store`.
    StoreG(u32),
    /// Writes the top to a cell of the own frame where it lies from the least to the greatest, and else raises: `Range`, `StoreL`. The
    /// cell, the least and the greatest.
    SetL(u32, i64, i64),
    /// Adds a constant: `Push`, `Add`.
    AddI(i64, Base),
    /// Takes a constant off: `Push`, `Sub`.
    SubI(i64, Base),
    /// Multiplies by a constant: `Push`, `Mul`.
    MulI(i64, Base),
    /// The remainder by a constant: `Push`, `Mod`.
    ModI(i64, Base),
    /// Moves an address by a cell of the frame: `Local`, `Load`, `Index`.
    IndexL(u32, i64, i64, u32),
    /// Pushes a component: `Index`, `Load`.
    Item(i64, i64, u32),
    /// The same by a cell of the frame: `Local`, `Load`, `Index`, `Load`.
    ItemL(u32, i64, i64, u32),
    /// Pushes the address of a component of an object in the main frame, by a cell of the own frame: `Global`, `IndexL`. The
    /// object's first cell, the least index, the greatest, the cells of one component, and the cell with the index.
    IndexG(u32, i64, i64, u32, u32),
    /// Pushes that component: `Global`, `ItemL`.
    ItemG(u32, i64, i64, u32, u32),
    /// Goes on there where two aren't equal: `Eq`, `JFalse`.
    JfEq(u32),
    /// The same with `Ne`.
    JfNe(u32),
    /// The same with `Lt`.
    JfLt(u32),
    /// The same with `Le`.
    JfLe(u32),
    /// The same with `Gt`.
    JfGt(u32),
    /// The same with `Ge`.
    JfGe(u32),
    /// The end of a turn of a counting loop. Where the first cell is below the second, 1 is added to the first, and a
    /// jump goes back.
    Next(u32, u32, u32),
    /// The same downward: where the first cell is above the second, 1 is taken off.
    Prior(u32, u32, u32),
    /// The other truth value: 1 - x.
    Flip,
    /// Whether exactly one of two isn't 0.
    Differ,
    /// The number of a modular type that has each of so many binary digits turned (4.5.6).
    BNot(u8),
    /// Whether the lower one is less, both as numbers of 64 binary digits (4.5.2).
    ULt,
    /// Whether it is at most the top.
    ULe,
    /// Whether it is greater.
    UGt,
    /// Whether it is at least the top.
    UGe,
    /// The greater of two such numbers (3.5).
    UMax,
    /// The lesser of them (3.5).
    UMin,
    /// Raises Constraint_Error unless the top lies from one such number to the other (3.5).
    URange(i64, i64),
    /// Writes the top to a cell of the own frame where it does, and else raises: `URange`, `StoreL`. The cell, the least
    /// and the greatest.
    USetL(u32, i64, i64),
    /// Adds the image of such a number to the line (4.10).
    UImg,
}
