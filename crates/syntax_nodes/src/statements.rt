//! Statements (5.1) and bodies with handlers (11.2). A part is given by the number of its node, and a list by that of its
//! first cell, or 0.

ghost use Rattle.std.specs.Prelude.{◌≡◌};
ghost use Rattle.syntax_nodes.specs.Parts.{the_alt, the_arm, the_body, the_declare, the_handled, the_handler, the_pack, the_scheme, the_stmt, the_stmts};
ghost use Rattle.syntax_nodes.specs.Tables.{part_at};
ghost use Rattle.syntax_nodes.specs.Below.{AltBelow, ArmBelow, BodyBelow, DeclareBelow, HandledBelow, HandlerBelow, PackBelow, SchemeBelow, StmtBelow, StmtsBelow};
ghost use Rattle.syntax_nodes.specs.Views.{of_alt, of_arm, of_body, of_declare, of_handled, of_handler, of_pack, of_scheme, of_stmt, of_stmts};

use crate::tree::Tree;
use crate::{Four, Leaf, Node, One, Three, Two};

/// `pack = id {"." id}`: the first token, and the list of the others (4.1.3).
#[derive(Clone, Copy)]
pub struct Pack {
    pub first: u32,
    pub more: u32,
}

/// `"declare" {decl}`, with the token of `declare` (5.6).
#[derive(Clone, Copy)]
pub struct Declare {
    pub at: u32,
    pub decls: u32,
}

/// `scheme` (5.5)
#[derive(Clone, Copy)]
pub enum Scheme {
    /// `"while" expr`, with the token of `while`.
    While {
        at: u32,
        condition: u32,
    },
    /// `["parallel" ["(" chunk ")"]] "for" iter`, with the token of `for`.
    For {
        parallel: Option<u32>,
        at: u32,
        iter: u32,
    },
}

/// What a handler handles (11.2).
#[derive(Clone, Copy)]
pub enum Handled {
    /// `"others"`, with its token.
    AnyOther(u32),
    /// `pack {"|" pack}`
    These { first: u32, more: u32 },
}

/// `stmts = stmt {stmt}` (5.1)
#[derive(Clone, Copy)]
pub struct Stmts {
    pub first: u32,
    pub more: u32,
}

/// `stmt`, with the token of its first word where it begins with one (5.1).
#[derive(Clone, Copy)]
pub enum Stmt {
    /// `"null" ";"`
    Null(u32),
    /// `name ":=" expr ";"` (5.2)
    Assign {
        target: u32,
        value: u32,
    },
    /// `name ";"` (6.4)
    CallStmt(u32),
    /// `"exit" [id] ["when" expr] ";"` (5.7)
    Exit {
        at: u32,
        from: Option<u32>,
        condition: Option<u32>,
    },
    /// `"return" [expr] ";"` (6.5)
    Return {
        at: u32,
        value: Option<u32>,
    },
    /// `"raise" [pack] ";"` (11.3)
    Raise {
        at: u32,
        exception: Option<u32>,
    },
    /// `"if" expr "then" stmts {"elsif" expr "then" stmts} ["else" stmts] "end" "if" ";"` (5.3)
    IfStmt {
        at: u32,
        condition: u32,
        stmts: u32,
        more: u32,
        otherwise: Option<u32>,
    },
    /// `"case" expr "is" alt {alt} "end" "case" ";"` (5.4)
    Case {
        at: u32,
        value: u32,
        first: u32,
        more: u32,
    },
    /// `[id ":"] [scheme] "loop" stmts "end" "loop" [id] ";"` (5.5), with the tokens of the first `loop` and of `end`.
    Loop {
        label: Option<u32>,
        scheme: Option<u32>,
        at: u32,
        stmts: u32,
        last: u32,
        last_name: Option<u32>,
    },
    /// `["declare" {decl}] "begin" body "end" ";"` (5.6), with the token of `begin`.
    Block {
        declare: Option<u32>,
        at: u32,
        body: u32,
    },
    /// `"parallel" ["(" simple ")"] "do" stmts "and" stmts {"and" stmts} "end" "do" ";"` (5.6.1)
    ParallelBlock {
        at: u32,
        count: Option<u32>,
        first: u32,
        second: u32,
        more: u32,
    },
}

/// `"elsif" expr "then" stmts`, with the token of `elsif` (5.3).
#[derive(Clone, Copy)]
pub struct Arm {
    pub at: u32,
    pub condition: u32,
    pub stmts: u32,
}

/// `alt = "when" choice {"|" choice} "=>" stmts`, with the token of `when` (5.4).
#[derive(Clone, Copy)]
pub struct Alt {
    pub at: u32,
    pub first: u32,
    pub more: u32,
    pub stmts: u32,
}

/// `body = stmts ["exception" handler {handler}]`: no handlers where there is no `exception` (11.2).
#[derive(Clone, Copy)]
pub struct Body {
    pub stmts: u32,
    pub handlers: u32,
}

/// `handler = "when" handled "=>" stmts`, with the token of `when` (11.2).
#[derive(Clone, Copy)]
pub struct Handler {
    pub at: u32,
    pub handled: u32,
    pub stmts: u32,
}

impl Tree {
    /// The expanded name of a number.
    #[tactic(auto, using(crate::proofs::Reading::part_zero))]
    pub fn pack(&self, number: u32) -> Pack
        ensures is { the_pack (part_at self.now.nodes number) ≡ of_pack (part_at self.now.nodes) result }
        ensures below { PackBelow number result }
    {
        match self.node(number) {
            Node::One(One::Pack(first), more) => Pack { first, more },
            _ => Pack { first: 0, more: 0 },
        }
    }

    /// The declarative part of a number.
    #[tactic(auto, using(crate::proofs::Reading::part_zero))]
    pub fn declare(&self, number: u32) -> Declare
        ensures is { the_declare (part_at self.now.nodes number) ≡ of_declare (part_at self.now.nodes) result }
        ensures below { DeclareBelow number result }
    {
        match self.node(number) {
            Node::One(One::Declare(at), decls) => Declare { at, decls },
            _ => Declare { at: 0, decls: 0 },
        }
    }

    /// The iteration scheme of a number.
    pub fn scheme(&self, number: u32) -> Scheme
        ensures is { the_scheme (part_at self.now.nodes number) ≡ of_scheme (part_at self.now.nodes) result }
        ensures below { SchemeBelow number result }
    {
        match self.node(number) {
            Node::One(One::While(at), condition) => Scheme::While { at, condition },
            Node::Two(Two::For(at), parallel, iter) => Scheme::For {
                parallel: self.maybe_parallel(parallel),
                at,
                iter,
            },
            _ => Scheme::While {
                at: 0,
                condition: number,
            },
        }
    }

    /// The choice of exceptions of a number.
    pub fn handled(&self, number: u32) -> Handled
        ensures is { the_handled (part_at self.now.nodes number) ≡ of_handled (part_at self.now.nodes) result }
        ensures below { HandledBelow number result }
    {
        match self.node(number) {
            Node::Leaf(Leaf::AnyOther(at)) => Handled::AnyOther(at),
            Node::Two(Two::These, first, more) => Handled::These { first, more },
            _ => Handled::AnyOther(0),
        }
    }

    /// The sequence of statements of a number.
    #[tactic(auto, using(crate::proofs::Reading::part_zero))]
    pub fn stmts(&self, number: u32) -> Stmts
        ensures is { the_stmts (part_at self.now.nodes number) ≡ of_stmts (part_at self.now.nodes) result }
        ensures below { StmtsBelow number result }
    {
        match self.node(number) {
            Node::Two(Two::Stmts, first, more) => Stmts { first, more },
            _ => Stmts {
                first: number,
                more: 0,
            },
        }
    }

    /// The statement of a number.
    pub fn stmt(&self, number: u32) -> Stmt
        ensures is { the_stmt (part_at self.now.nodes number) ≡ of_stmt (part_at self.now.nodes) result }
        ensures below { StmtBelow number result }
    {
        match self.node(number) {
            Node::Leaf(Leaf::Null(at)) => Stmt::Null(at),
            Node::Two(Two::Assign, target, value) => Stmt::Assign { target, value },
            Node::One(One::CallStmt, name) => Stmt::CallStmt(name),
            Node::One(One::Exit(at, from), condition) => Stmt::Exit {
                at,
                from,
                condition: self.present(condition),
            },
            Node::One(One::Return(at), value) => Stmt::Return {
                at,
                value: self.present(value),
            },
            Node::One(One::Raise(at), exception) => Stmt::Raise {
                at,
                exception: self.maybe_pack(exception),
            },
            Node::Four(Four::IfStmt(at), condition, stmts, more, otherwise) => Stmt::IfStmt {
                at,
                condition,
                stmts,
                more,
                otherwise: self.maybe_stmts(otherwise),
            },
            Node::Three(Three::Case(at), value, first, more) => Stmt::Case {
                at,
                value,
                first,
                more,
            },
            Node::Four(Four::Loop(at, last), label, scheme, stmts, last_name) => Stmt::Loop {
                label: self.maybe_token(label),
                scheme: self.maybe_scheme(scheme),
                at,
                stmts,
                last,
                last_name: self.maybe_token(last_name),
            },
            Node::Two(Two::Block(at), declare, body) => Stmt::Block {
                declare: self.maybe_declare(declare),
                at,
                body,
            },
            Node::Four(Four::ParallelBlock(at), count, first, second, more) => Stmt::ParallelBlock {
                at,
                count: self.present(count),
                first,
                second,
                more,
            },
            _ => Stmt::Null(0),
        }
    }

    /// The elsif part of an if statement of a number.
    pub fn arm(&self, number: u32) -> Arm
        ensures is { the_arm (part_at self.now.nodes number) ≡ of_arm (part_at self.now.nodes) result }
        ensures below { ArmBelow number result }
    {
        match self.node(number) {
            Node::Two(Two::Arm(at), condition, stmts) => Arm {
                at,
                condition,
                stmts,
            },
            _ => Arm {
                at: 0,
                condition: number,
                stmts: number,
            },
        }
    }

    /// The alternative of a case statement of a number.
    #[tactic(auto, using(crate::proofs::Reading::part_zero))]
    pub fn alt(&self, number: u32) -> Alt
        ensures is { the_alt (part_at self.now.nodes number) ≡ of_alt (part_at self.now.nodes) result }
        ensures below { AltBelow number result }
    {
        match self.node(number) {
            Node::Three(Three::Alt(at), first, more, stmts) => Alt {
                at,
                first,
                more,
                stmts,
            },
            _ => Alt {
                at: 0,
                first: number,
                more: 0,
                stmts: number,
            },
        }
    }

    /// The body of a number.
    #[tactic(auto, using(crate::proofs::Reading::part_zero))]
    pub fn body(&self, number: u32) -> Body
        ensures is { the_body (part_at self.now.nodes number) ≡ of_body (part_at self.now.nodes) result }
        ensures below { BodyBelow number result }
    {
        match self.node(number) {
            Node::Two(Two::Body, stmts, handlers) => Body { stmts, handlers },
            _ => Body {
                stmts: number,
                handlers: 0,
            },
        }
    }

    /// The handler of a number.
    pub fn handler(&self, number: u32) -> Handler
        ensures is { the_handler (part_at self.now.nodes number) ≡ of_handler (part_at self.now.nodes) result }
        ensures below { HandlerBelow number result }
    {
        match self.node(number) {
            Node::Two(Two::Handler(at), handled, stmts) => Handler { at, handled, stmts },
            _ => Handler {
                at: 0,
                handled: number,
                stmts: number,
            },
        }
    }
}
