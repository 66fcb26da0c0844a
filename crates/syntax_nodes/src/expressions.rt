//! Expressions (4.4). A part is given by the number of its node, and a list by that of its first cell, or 0.

ghost use Rattle.std.specs.Prelude.{◌≡◌};
ghost use Rattle.syntax_nodes.specs.Parts.{the_adding, the_conjunct, the_elsif, the_expr, the_factor, the_multiplying, the_primary, the_rel, the_simple, the_term, the_values};
ghost use Rattle.syntax_nodes.specs.Tables.{part_at};
ghost use Rattle.syntax_nodes.specs.Below.{AddingBelow, ConjunctBelow, ElsifBelow, ExprBelow, FactorBelow, MultiplyingBelow, PrimaryBelow, RelBelow, SimpleBelow, TermBelow, ValuesBelow};
ghost use Rattle.syntax_nodes.specs.Views.{of_adding, of_conjunct, of_elsif, of_expr, of_factor, of_multiplying, of_primary, of_rel, of_simple, of_term, of_values};

use crate::tree::Tree;
use crate::{Four, Leaf, Node, One, Three, Two};
use ada_base::Comparison;
use syntax_tree::{Additive, Logical, Multiplicative, Sign};

/// `expr` (4.4)
#[derive(Clone, Copy)]
pub enum Expr {
    /// `rel`
    Single(u32),
    /// `rel {operator rel}` with at least one operator, which is at the token `at`.
    Joined {
        by: Logical,
        first: u32,
        at: u32,
        second: u32,
        more: u32,
    },
}

/// A relation after a logical operator, which is at the token `at`.
#[derive(Clone, Copy)]
pub struct Conjunct {
    pub at: u32,
    pub rel: u32,
}

/// `rel` (4.4)
#[derive(Clone, Copy)]
pub enum Rel {
    /// `simple`
    Alone(u32),
    /// `simple relational_operator simple`, with the operator at the token `at`.
    Compared {
        left: u32,
        by: Comparison,
        at: u32,
        right: u32,
    },
    /// `simple ["not"] "in" simple ".." simple`, with `not` and `in` at these tokens.
    Within {
        value: u32,
        negation: Option<u32>,
        at: u32,
        low: u32,
        high: u32,
    },
    /// `simple ["not"] "in" id`, with `not` and `in` at these tokens.
    OfMark {
        value: u32,
        negation: Option<u32>,
        at: u32,
        mark: u32,
    },
}

/// `simple = ["+" | "-"] term {("+" | "-" | "&") term}`
#[derive(Clone, Copy)]
pub struct Simple {
    pub sign: Option<Sign>,
    pub first: u32,
    pub more: u32,
}

/// A term after a binary adding operator (4.5.3), which is at the token `at`.
#[derive(Clone, Copy)]
pub struct Adding {
    pub by: Additive,
    pub at: u32,
    pub term: u32,
}

/// `term = factor {("*" | "/" | "mod" | "rem") factor}`
#[derive(Clone, Copy)]
pub struct Term {
    pub first: u32,
    pub more: u32,
}

/// A factor after a multiplying operator (4.5.5), which is at the token `at`.
#[derive(Clone, Copy)]
pub struct Multiplying {
    pub by: Multiplicative,
    pub at: u32,
    pub factor: u32,
}

/// `factor`, with the operator's token (4.5.6)
#[derive(Clone, Copy)]
pub enum Factor {
    /// `primary`
    Operand(u32),
    /// `primary "**" primary`
    Power { base: u32, at: u32, exponent: u32 },
    /// `"abs" primary`
    Abs { at: u32, operand: u32 },
    /// `"not" primary`
    Not { at: u32, operand: u32 },
}

/// `primary`, with the token of the bracket that it begins with (4.4).
#[derive(Clone, Copy)]
pub enum Primary {
    /// `name`
    Named(u32),
    /// `num`
    Number(u32),
    /// `str`
    Text(u32),
    /// `"@"`, the target of the assignment that it stands in (5.2.1).
    Target(u32),
    /// `"(" expr ")"`
    Group {
        bracket: u32,
        expr: u32,
    },
    /// `"(" "if" expr "then" expr {"elsif" expr "then" expr} "else" expr ")"` (4.5.7), with the token of `if`.
    If {
        bracket: u32,
        at: u32,
        condition: u32,
        value: u32,
        more: u32,
        otherwise: u32,
    },
    /// `"(" many ")"`
    Round {
        bracket: u32,
        many: u32,
    },
    /// `"[" many "]"`
    Square {
        bracket: u32,
        many: u32,
    },
    /// `"[" expr "]"`
    OneValue {
        bracket: u32,
        value: u32,
    },
    /// `reduction` (4.5.10), with the token of the attribute's identifier.
    Reduction {
        bracket: u32,
        values: u32,
        attribute: u32,
        reducer: u32,
        initial: u32,
    },
}

/// `["parallel" ["(" chunk ")"]] "for" iter "=>" expr` of a reduction, with the token of `for`.
#[derive(Clone, Copy)]
pub struct Values {
    pub parallel: Option<u32>,
    pub at: u32,
    pub iter: u32,
    pub value: u32,
}

/// `"elsif" expr "then" expr`, with the token of `elsif`.
#[derive(Clone, Copy)]
pub struct Elsif {
    pub at: u32,
    pub condition: u32,
    pub value: u32,
}

impl Tree {
    /// The expression of a number.
    pub fn expr(&self, number: u32) -> Expr
        ensures is { the_expr (part_at self.now.nodes number) ≡ of_expr (part_at self.now.nodes) result }
        ensures below { ExprBelow number result }
    {
        match self.node(number) {
            Node::Three(Three::Joined(by, at), first, second, more) => Expr::Joined {
                by,
                first,
                at,
                second,
                more,
            },
            _ => Expr::Single(number),
        }
    }

    /// The relation after a logical operator of a number.
    pub fn conjunct(&self, number: u32) -> Conjunct
        ensures is { the_conjunct (part_at self.now.nodes number) ≡ of_conjunct (part_at self.now.nodes) result }
        ensures below { ConjunctBelow number result }
    {
        match self.node(number) {
            Node::One(One::Conjunct(at), rel) => Conjunct { at, rel },
            _ => Conjunct { at: 0, rel: number },
        }
    }

    /// The relation of a number.
    pub fn rel(&self, number: u32) -> Rel
        ensures is { the_rel (part_at self.now.nodes number) ≡ of_rel (part_at self.now.nodes) result }
        ensures below { RelBelow number result }
    {
        match self.node(number) {
            Node::Two(Two::Compared(by, at), left, right) => Rel::Compared {
                left,
                by,
                at,
                right,
            },
            Node::Three(Three::Within(negation, at), value, low, high) => Rel::Within {
                value,
                negation,
                at,
                low,
                high,
            },
            Node::One(One::OfMark(negation, at, mark), value) => Rel::OfMark {
                value,
                negation,
                at,
                mark,
            },
            _ => Rel::Alone(number),
        }
    }

    /// The sum of a number.
    #[tactic(auto, using(crate::proofs::Reading::part_zero))]
    pub fn simple(&self, number: u32) -> Simple
        ensures is { the_simple (part_at self.now.nodes number) ≡ of_simple (part_at self.now.nodes) result }
        ensures below { SimpleBelow number result }
    {
        match self.node(number) {
            Node::Two(Two::Sum(sign), first, more) => Simple { sign, first, more },
            _ => Simple {
                sign: None,
                first: number,
                more: 0,
            },
        }
    }

    /// The term after an adding operator of a number.
    pub fn adding(&self, number: u32) -> Adding
        ensures is { the_adding (part_at self.now.nodes number) ≡ of_adding (part_at self.now.nodes) result }
        ensures below { AddingBelow number result }
    {
        match self.node(number) {
            Node::One(One::Adding(by, at), term) => Adding { by, at, term },
            _ => Adding {
                by: Additive::Plus,
                at: 0,
                term: number,
            },
        }
    }

    /// The term of a number.
    #[tactic(auto, using(crate::proofs::Reading::part_zero))]
    pub fn term(&self, number: u32) -> Term
        ensures is { the_term (part_at self.now.nodes number) ≡ of_term (part_at self.now.nodes) result }
        ensures below { TermBelow number result }
    {
        match self.node(number) {
            Node::Two(Two::Product, first, more) => Term { first, more },
            _ => Term {
                first: number,
                more: 0,
            },
        }
    }

    /// The factor after a multiplying operator of a number.
    pub fn multiplying(&self, number: u32) -> Multiplying
        ensures is { the_multiplying (part_at self.now.nodes number) ≡ of_multiplying (part_at self.now.nodes) result }
        ensures below { MultiplyingBelow number result }
    {
        match self.node(number) {
            Node::One(One::Multiplying(by, at), factor) => Multiplying { by, at, factor },
            _ => Multiplying {
                by: Multiplicative::Times,
                at: 0,
                factor: number,
            },
        }
    }

    /// The factor of a number.
    pub fn factor(&self, number: u32) -> Factor
        ensures is { the_factor (part_at self.now.nodes number) ≡ of_factor (part_at self.now.nodes) result }
        ensures below { FactorBelow number result }
    {
        match self.node(number) {
            Node::Two(Two::Power(at), base, exponent) => Factor::Power { base, at, exponent },
            Node::One(One::Abs(at), operand) => Factor::Abs { at, operand },
            Node::One(One::Not(at), operand) => Factor::Not { at, operand },
            _ => Factor::Operand(number),
        }
    }

    /// The primary of a number.
    pub fn primary(&self, number: u32) -> Primary
        ensures is { the_primary (part_at self.now.nodes number) ≡ of_primary (part_at self.now.nodes) result }
        ensures below { PrimaryBelow number result }
    {
        match self.node(number) {
            Node::Leaf(Leaf::Number(at)) => Primary::Number(at),
            Node::Leaf(Leaf::Text(at)) => Primary::Text(at),
            Node::Leaf(Leaf::Target(at)) => Primary::Target(at),
            Node::One(One::Group(bracket), expr) => Primary::Group { bracket, expr },
            Node::Four(Four::If(bracket, at), condition, value, more, otherwise) => Primary::If {
                bracket,
                at,
                condition,
                value,
                more,
                otherwise,
            },
            Node::One(One::Round(bracket), many) => Primary::Round { bracket, many },
            Node::One(One::Square(bracket), many) => Primary::Square { bracket, many },
            Node::One(One::OneValue(bracket), value) => Primary::OneValue { bracket, value },
            Node::Three(Three::Reduction(bracket, attribute), values, reducer, initial) =>
                Primary::Reduction {
                    bracket,
                    values,
                    attribute,
                    reducer,
                    initial,
                },
            Node::Leaf(Leaf::Identifier(_)) => Primary::Named(number),
            Node::One(One::Name(_), _) => Primary::Named(number),
            _ => Primary::Number(0),
        }
    }

    /// The values of a reduction of a number.
    pub fn values(&self, number: u32) -> Values
        ensures is { the_values (part_at self.now.nodes number) ≡ of_values (part_at self.now.nodes) result }
        ensures below { ValuesBelow number result }
    {
        match self.node(number) {
            Node::Three(Three::Values(at), parallel, iter, value) => Values {
                parallel: self.maybe_parallel(parallel),
                at,
                iter,
                value,
            },
            _ => Values {
                parallel: None,
                at: 0,
                iter: number,
                value: number,
            },
        }
    }

    /// The elsif part of a conditional expression of a number.
    pub fn elsif(&self, number: u32) -> Elsif
        ensures is { the_elsif (part_at self.now.nodes number) ≡ of_elsif (part_at self.now.nodes) result }
        ensures below { ElsifBelow number result }
    {
        match self.node(number) {
            Node::Two(Two::Elsif(at), condition, value) => Elsif {
                at,
                condition,
                value,
            },
            _ => Elsif {
                at: 0,
                condition: number,
                value: number,
            },
        }
    }
}
