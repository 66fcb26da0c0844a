//! Programs (10.1) and subprograms (6.1, 6.3). A part is given by the number of its node, and a list by that of its first
//! cell, or 0.

ghost use Rattle.std.specs.Prelude.{◌≡◌};
ghost use Rattle.syntax_nodes.specs.Parts.{the_aspect, the_bracketed, the_clause, the_implementation, the_main, the_policy, the_program, the_sub, the_unit};
ghost use Rattle.syntax_nodes.specs.Tables.{part_at};
ghost use Rattle.syntax_nodes.specs.Below.{BracketedBelow, ClauseBelow, ImplementationBelow, MainBelow, ProgramBelow, SubBelow, UnitBelow};
ghost use Rattle.syntax_nodes.specs.Views.{of_aspect, of_bracketed, of_clause, of_implementation, of_main, of_policy, of_program, of_sub, of_unit};

use crate::tree::Tree;
use crate::{Four, Leaf, Node, One, Three, Two};
use syntax_tree::ClauseWord;

/// `aspect = "with" id ["=>" id]` (13.1.1), with the token of `with`.
#[derive(Clone, Copy)]
pub struct Aspect {
    pub at: u32,
    pub mark: u32,
    pub value: Option<u32>,
}

/// `"(" expr ")"` of an expression function, with the bracket's token (6.8).
#[derive(Clone, Copy)]
pub struct Bracketed {
    pub bracket: u32,
    pub value: u32,
}

/// `{decl} "begin" body "end" [id] ";"` (6.3)
#[derive(Clone, Copy)]
pub struct Implementation {
    pub decls: u32,
    pub body: u32,
    pub last_name: Option<u32>,
}

/// `sub`, with the token of `procedure` or `function` (6.1, 6.3).
#[derive(Clone, Copy)]
pub enum Sub {
    /// `"procedure" id [formals] [aspect] "is"` and its implementation.
    Procedure {
        at: u32,
        defined: u32,
        formals: Option<u32>,
        aspect: Option<u32>,
        implementation: u32,
    },
    /// `"function" id [formals] "return" id [aspect] "is"` and its implementation.
    Function {
        at: u32,
        defined: u32,
        formals: Option<u32>,
        result_mark: u32,
        aspect: Option<u32>,
        implementation: u32,
    },
    /// `"function" id [formals] "return" id "is" "(" expr ")" [aspect] ";"` (6.8)
    ExprFunction {
        at: u32,
        defined: u32,
        formals: Option<u32>,
        result_mark: u32,
        bracketed: u32,
        aspect: Option<u32>,
    },
}

/// `decl | sub`
#[derive(Clone, Copy)]
pub enum Unit {
    /// `decl`
    Decl(u32),
    /// `sub`
    Sub(u32),
}

/// `policy = "pragma" id "(" id ")" ";"` (2.8), with the token of `pragma`.
#[derive(Clone, Copy)]
pub struct Policy {
    pub at: u32,
    pub mark: u32,
    pub policy: u32,
}

/// `("with" | "use") pack {"," pack} ";"` (10.1.2, 8.4), with the token of the word.
#[derive(Clone, Copy)]
pub struct Clause {
    pub at: u32,
    pub word: ClauseWord,
    pub first: u32,
    pub more: u32,
}

/// `main = "procedure" id [aspect] "is" {decl | sub} "begin" body "end" [id] ";"`, with the token of `procedure` (10.1.1).
#[derive(Clone, Copy)]
pub struct Main {
    pub at: u32,
    pub defined: u32,
    pub aspect: Option<u32>,
    pub units: u32,
    pub body: u32,
    pub last_name: Option<u32>,
}

/// `program = [policy] {clause} main` (10.1)
#[derive(Clone, Copy)]
pub struct Program {
    pub policy: Option<u32>,
    pub clauses: u32,
    pub main: u32,
}

impl Tree {
    /// The aspect of a number.
    pub fn aspect(&self, number: u32) -> Aspect
        ensures is { the_aspect (part_at self.now.nodes number) ≡ of_aspect (part_at self.now.nodes) result }
    {
        match self.node(number) {
            Node::Leaf(Leaf::Aspect(at, mark, value)) => Aspect { at, mark, value },
            _ => Aspect {
                at: 0,
                mark: 0,
                value: None,
            },
        }
    }

    /// The expression of an expression function of a number.
    pub fn bracketed(&self, number: u32) -> Bracketed
        ensures is { the_bracketed (part_at self.now.nodes number) ≡ of_bracketed (part_at self.now.nodes) result }
        ensures below { BracketedBelow number result }
    {
        match self.node(number) {
            Node::One(One::Bracketed(bracket), value) => Bracketed { bracket, value },
            _ => Bracketed {
                bracket: 0,
                value: number,
            },
        }
    }

    /// The implementation of a subprogram of a number.
    #[tactic(auto, using(crate::proofs::Reading::part_zero))]
    pub fn implementation(&self, number: u32) -> Implementation
        ensures is { the_implementation (part_at self.now.nodes number) ≡ of_implementation (part_at self.now.nodes) result }
        ensures below { ImplementationBelow number result }
    {
        match self.node(number) {
            Node::Two(Two::Implementation(last_name), decls, body) => Implementation {
                decls,
                body,
                last_name,
            },
            _ => Implementation {
                decls: 0,
                body: number,
                last_name: None,
            },
        }
    }

    /// The subprogram of a number.
    pub fn sub(&self, number: u32) -> Sub
        ensures is { the_sub (part_at self.now.nodes number) ≡ of_sub (part_at self.now.nodes) result }
        ensures below { SubBelow number result }
    {
        match self.node(number) {
            Node::Three(Three::Procedure(at, defined), formals, aspect, implementation) =>
                Sub::Procedure {
                    at,
                    defined,
                    formals: self.maybe_formals(formals),
                    aspect: self.maybe_aspect(aspect),
                    implementation,
                },
            Node::Three(
                Three::Function(at, defined, result_mark),
                formals,
                aspect,
                implementation,
            ) => Sub::Function {
                at,
                defined,
                formals: self.maybe_formals(formals),
                result_mark,
                aspect: self.maybe_aspect(aspect),
                implementation,
            },
            Node::Three(
                Three::ExprFunction(at, defined, result_mark),
                formals,
                bracketed,
                aspect,
            ) => Sub::ExprFunction {
                at,
                defined,
                formals: self.maybe_formals(formals),
                result_mark,
                bracketed,
                aspect: self.maybe_aspect(aspect),
            },
            _ => Sub::ExprFunction {
                at: 0,
                defined: 0,
                formals: None,
                result_mark: 0,
                bracketed: number,
                aspect: None,
            },
        }
    }

    /// The declaration or subprogram of a number.
    pub fn unit(&self, number: u32) -> Unit
        ensures is { the_unit (part_at self.now.nodes number) ≡ of_unit (part_at self.now.nodes) result }
        ensures below { UnitBelow number result }
    {
        match self.node(number) {
            Node::Three(Three::Procedure(_, _), _, _, _) => Unit::Sub(number),
            Node::Three(Three::Function(_, _, _), _, _, _) => Unit::Sub(number),
            Node::Three(Three::ExprFunction(_, _, _), _, _, _) => Unit::Sub(number),
            _ => Unit::Decl(number),
        }
    }

    /// The policy of a number.
    pub fn policy(&self, number: u32) -> Policy
        ensures is { the_policy (part_at self.now.nodes number) ≡ of_policy (part_at self.now.nodes) result }
    {
        match self.node(number) {
            Node::Leaf(Leaf::Policy(at, mark, policy)) => Policy { at, mark, policy },
            _ => Policy {
                at: 0,
                mark: 0,
                policy: 0,
            },
        }
    }

    /// The context clause of a number.
    #[tactic(auto, using(crate::proofs::Reading::part_zero))]
    pub fn clause(&self, number: u32) -> Clause
        ensures is { the_clause (part_at self.now.nodes number) ≡ of_clause (part_at self.now.nodes) result }
        ensures below { ClauseBelow number result }
    {
        match self.node(number) {
            Node::Two(Two::Clause(word, at), first, more) => Clause {
                at,
                word,
                first,
                more,
            },
            _ => Clause {
                at: 0,
                word: ClauseWord::With,
                first: number,
                more: 0,
            },
        }
    }

    /// The main procedure of a number.
    #[tactic(auto, using(crate::proofs::Reading::part_zero))]
    pub fn main(&self, number: u32) -> Main
        ensures is { the_main (part_at self.now.nodes number) ≡ of_main (part_at self.now.nodes) result }
        ensures below { MainBelow number result }
    {
        match self.node(number) {
            Node::Four(Four::Main(at, defined), aspect, units, body, last_name) => Main {
                at,
                defined,
                aspect: self.maybe_aspect(aspect),
                units,
                body,
                last_name: self.maybe_token(last_name),
            },
            _ => Main {
                at: 0,
                defined: 0,
                aspect: None,
                units: 0,
                body: number,
                last_name: None,
            },
        }
    }

    /// The program of a number.
    #[tactic(auto, using(crate::proofs::Reading::part_zero))]
    pub fn program(&self, number: u32) -> Program
        ensures is { the_program (part_at self.now.nodes number) ≡ of_program (part_at self.now.nodes) result }
        ensures below { ProgramBelow number result }
    {
        match self.node(number) {
            Node::Three(Three::Program, policy, clauses, main) => Program {
                policy: self.maybe_policy(policy),
                clauses,
                main,
            },
            _ => Program {
                policy: None,
                clauses: 0,
                main: number,
            },
        }
    }
}
