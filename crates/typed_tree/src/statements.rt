//! Statements (5.1), bodies with declarations and handlers (5.6, 11.2), and text output (A.10), as nodes of a table.

use crate::expressions::Root;
use crate::scalars::{Class, Scalar};
use ada_base::Reason;

/// A statement. Loops have numbers of their own in the whole program.
#[derive(Clone, Copy)]
pub enum Stmt {
    /// `null;`
    Null,
    /// `X := V;` (5.2), where a scalar is checked at `:=`.
    Assign {
        at: u32,
        root: Root,
        selections: u32,
        value: u32,
    },
    /// A call of a procedure (6.4): the first and the last token of its name.
    Call {
        at: u32,
        callee: u32,
        sub: u32,
        actuals: u32,
    },
    /// `exit L when C;` (5.7), with the number of the loop that it leaves.
    Exit {
        from: u32,
        condition: u32,
    },
    /// `return;` (6.5)
    Return,
    /// `return V;` (6.5), where the value is checked at `return`.
    ReturnValue {
        value: u32,
    },
    /// `raise E;` (11.3)
    Raise {
        reason: Reason,
    },
    /// `raise;` in a handler (11.3)
    Reraise,
    /// `if C then .. else .. end if;` (5.3); an `elsif` is a statement of this kind after `else`.
    If {
        condition: u32,
        stmts: u32,
        otherwise: u32,
    },
    /// `case X is ..` (5.4)
    Case {
        value: u32,
        alternatives: u32,
    },
    /// `loop`, or `while C loop` (5.5)
    Loop {
        number: u32,
        condition: u32,
        stmts: u32,
    },
    /// `for .. loop` (5.5)
    For {
        number: u32,
        iteration: u32,
        stmts: u32,
    },
    /// `parallel [(..)] for .. loop` (5.5)
    ParallelFor {
        number: u32,
        site: u32,
        chunk: u32,
        iteration: u32,
        stmts: u32,
    },
    /// `parallel [(N)] do .. and .. end do;` (5.6.1), with its arms, each a list of statements.
    Parallel {
        site: u32,
        count: u32,
        arms: u32,
    },
    /// `declare .. begin .. exception .. end;` (5.6)
    Block {
        decls: u32,
        stmts: u32,
        handlers: u32,
    },
    /// `Put`, `Put_Line`, `New_Line` (A.10.6 to A.10.8): pieces that are written as one, and whether a line ends
    /// after them; with the first and the last token of the name.
    Put {
        at: u32,
        callee: u32,
        pieces: u32,
        line: bool,
    },
    /// `Get (X);` (A.10.8) for a variable of this subtype, with the first and the last token of the name and the first
    /// one of X.
    Get {
        at: u32,
        callee: u32,
        first: u32,
        root: Root,
        selections: u32,
        scalar: Scalar,
    },
}

/// `when A | B .. C => ..` of a case statement; `when others =>` takes what is left. `mentions` lists the indexes in
/// prefixes of attributes in its choices, which are text and aren't evaluated.
#[derive(Clone, Copy)]
pub struct Alternative {
    pub others: bool,
    pub choices: u32,
    pub mentions: u32,
    pub stmts: u32,
}

/// The values of a choice, from the first to the last. There is none where the last is less.
#[derive(Clone, Copy)]
pub struct Span {
    pub low: i64,
    pub high: i64,
}

/// `declare .. begin .. exception .. end` of a subprogram or program: declarations, statements and handlers of what
/// the statements raise.
#[derive(Clone, Copy)]
pub struct Body {
    pub decls: u32,
    pub stmts: u32,
    pub handlers: u32,
}

/// `when E | F => ..` (11.2)
#[derive(Clone, Copy)]
pub enum Handler {
    /// `when others`
    Others { stmts: u32 },
    /// The list of the reasons that it handles.
    Reasons { reasons: u32, stmts: u32 },
}

/// A declaration, as it is elaborated (3.11). Of types, named numbers and exceptions nothing is left, but the
/// indexes in prefixes of their attributes, which are text and aren't evaluated.
#[derive(Clone, Copy)]
pub enum Decl {
    /// A variable without an initial value (3.3.1).
    Default { object: u32 },
    /// A variable with its initial value (3.3.1).
    Variable { object: u32, initial: u32 },
    /// A constant.
    Constant { object: u32, initial: u32 },
    /// What is only text.
    Mentions { exprs: u32 },
}

/// A piece of output.
#[derive(Clone, Copy)]
pub enum Piece {
    /// A string literal: the list of its bytes in UTF-8 (2.6).
    Text {
        bytes: u32,
    },
    /// `S'Image (X)` (4.10), on a value of this class.
    Image {
        class: Class,
        value: u32,
    },
    /// A number, right-justified in so many places (A.10.8); the width is static.
    Padded {
        class: Class,
        value: u32,
        width: u32,
    },
}
