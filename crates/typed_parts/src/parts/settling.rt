//! Expressions of a universal type (3.4.1) get the class of their place.

ghost use Rattle.std.specs.Prelude.{◌≡◌, ◌<◌, ◌∷◌, [], IfOk, MatchOption, OnOk, length};
ghost use Rattle.typed_tree.specs.Decoded.{AnExpr, as_expr, as_reducer, of_expr, of_fold, of_node, part_at};
ghost use Rattle.typed_tree.specs.Ordered.{ExprBelow, NodeBelow};
ghost use Rattle.typed_tree.specs.Classes.{class_or, with_class};
ghost use Rattle.typed_tree.specs.Latest.{pop, top};
ghost use Rattle.typed_parts.specs.ClassChains.{joined, Ends, GoesOn, Leads};
ghost use Rattle.typed_parts.specs.Stack.{parts, Stays};

use crate::parts::Parts;
use ada_base::{Items, Op};
use std::alloc::AllocError;
use typed_tree::{Class, Expr, Fold, Node};

impl Parts {
    /// An expression of a universal type gets a class, where a part of it has none yet.
    pub fn settle(&mut self, class: Class) -> Result<(), AllocError>
        ensures { OnOk result (parts self.new ≡ AnExpr (with_class class (as_expr (top (parts self.old)))) ∷ pop (parts self.old)) }
    {
        let id = self.take();
        self.settled(id, class)
    }

    /// The settled expression of a number becomes the latest part. A chain of operators or of conditional expressions is
    /// gone through without recursion.
    #[cycle(settled)]
    fn settled(&mut self, id: u32, class: Class) -> Result<(), AllocError>
        requires { id < length self.old.nodes }
        ensures { OnOk result ((parts self.new ≡ AnExpr (with_class class (as_expr (part_at self.old.nodes id))) ∷ parts self.old) × Stays self.old.nodes self.new.nodes) }
    {
        let mut chain = Items::new(self.alloc);
        let last = self.last_of(id, &mut chain)?;
        self.hold_expr(last)?;
        while let Some(link) = chain.pop() {
            self.rejoin(link, class)?;
        }
        Ok(())
    }

    /// Goes along the chain of a number to its last expression, and lists the numbers that it comes over.
    fn last_of(&self, id: u32, chain: &mut Items<u32>) -> Result<u32, AllocError>
        requires { chain.old ≡ [] }
        ensures { IfOk result (λ last. Leads (part_at self.now.nodes) id chain.new last × Ends (part_at self.now.nodes) last) }
    {
        let mut last = id;
        while let Some(next) = self.next_of(last) {
            chain.push(last)?;
            last = next;
        }
        Ok(last)
    }

    /// The part of an expression that its chain goes on with: the left operand, what follows `else`, or the value of a
    /// reduction by an operator.
    fn next_of(&self, id: u32) -> Option<u32>
        ensures { MatchOption result (Ends (part_at self.now.nodes) id) (λ next. (next < id) × GoesOn (part_at self.now.nodes) id next) }
    {
        match self.expr(id) {
            Expr::Group { inside } => Some(inside),
            Expr::Unary { operand, .. } => Some(operand),
            Expr::Binary { left, .. } => Some(left),
            Expr::If { otherwise, .. } => Some(otherwise),
            Expr::Reduction { reducer, value, .. } => match self.fold(reducer) {
                Fold::Operator { .. } => Some(value),
                Fold::Function { .. } => None,
            },
            _ => None,
        }
    }

    /// The latest part becomes the expression of a number with the latest part in place of what its chain goes on with.
    #[cycle(settled)]
    #[tactic(auto, using(crate::proofs::Stacks::stays_on))]
    fn rejoin(&mut self, link: u32, class: Class) -> Result<(), AllocError>
        requires { link < length self.old.nodes }
        ensures { OnOk result ((parts self.new ≡ AnExpr (joined class (as_expr (part_at self.old.nodes link)) (as_expr (top (parts self.old)))) ∷ pop (parts self.old)) × Stays self.old.nodes self.new.nodes) }
    {
        match self.expr(link) {
            Expr::Group { .. } => {
                let inside = self.take();
                self.put_on(Node::Expr(Expr::Group { inside }))
            }
            Expr::Unary {
                at,
                sign,
                class: own,
                ..
            } => {
                let operand = self.take();
                let class = class_or(class, own);
                self.put_on(Node::Expr(Expr::Unary {
                    at,
                    sign,
                    class,
                    operand,
                }))
            }
            Expr::Binary {
                at,
                op,
                class: own,
                right,
                ..
            } => {
                self.settled(right, class)?;
                let right = self.take();
                let left = self.take();
                let class = class_or(class, own);
                self.put_on(Node::Expr(Expr::Binary {
                    at,
                    op,
                    class,
                    left,
                    right,
                }))
            }
            Expr::If {
                condition,
                value,
                ..
            } => {
                self.settled(value, class)?;
                let value = self.take();
                let otherwise = self.take();
                self.put_on(Node::Expr(Expr::If {
                    condition,
                    value,
                    otherwise,
                }))
            }
            Expr::Reduction {
                at,
                attribute,
                reducer,
                initial,
                site,
                chunk,
                iteration,
                ..
            } => match self.fold(reducer) {
                Fold::Operator {
                    at: operator,
                    op,
                    class: own,
                } => {
                    let folded = class_or(class, own);
                    self.settled(initial, class)?;
                    self.put_on(Node::Fold(Fold::Operator {
                        at: operator,
                        op,
                        class: folded,
                    }))?;
                    let reducer = self.take();
                    let initial = self.take();
                    let value = self.take();
                    self.put_on(Node::Expr(Expr::Reduction {
                        at,
                        attribute,
                        reducer,
                        initial,
                        site,
                        chunk,
                        iteration,
                        value,
                    }))
                }
                Fold::Function { .. } => {
                    let same = self.take();
                    self.hold_expr(same)
                }
            },
            _ => {
                let same = self.take();
                self.hold_expr(same)
            }
        }
    }

    /// The expression of a number.
    pub(super) fn expr(&self, id: u32) -> Expr
        ensures { (as_expr (part_at self.now.nodes id) ≡ of_expr (part_at self.now.nodes) result) × ExprBelow id result }
    {
        match self.node(id) {
            Node::Expr(expr) => expr,
            _ => Expr::Parameter {
                at: 0,
                parameter: 0,
            },
        }
    }

    /// What a reduction folds by, by its number.
    fn fold(&self, id: u32) -> Fold
        ensures { as_reducer (part_at self.now.nodes id) ≡ of_fold (part_at self.now.nodes) result }
    {
        match self.node(id) {
            Node::Fold(fold) => fold,
            _ => Fold::Operator {
                at: 0,
                op: Op::Add,
                class: Class::Boolean,
            },
        }
    }

    /// The expression of a number becomes the latest part.
    #[tactic(auto, using(crate::proofs::Stacks::stays_same))]
    pub(super) fn hold_expr(&mut self, id: u32) -> Result<(), AllocError>
        requires { id < length self.old.nodes }
        ensures { OnOk result ((parts self.new ≡ AnExpr (as_expr (part_at self.old.nodes id)) ∷ parts self.old) × Stays self.old.nodes self.new.nodes) }
    {
        match self.node(id) {
            Node::Expr(_) => self.hold(id),
            _ => self.put_on(Node::Expr(Expr::Parameter {
                at: 0,
                parameter: 0,
            })),
        }
    }

    /// Writes a node, and what stood in the table stands for the same.
    pub(super) fn put_on(&mut self, node: Node) -> Result<(), AllocError>
        requires { NodeBelow (length self.old.nodes) node }
        ensures { OnOk result ((parts self.new ≡ of_node (part_at self.old.nodes) node ∷ parts self.old) × Stays self.old.nodes self.new.nodes) }
    {
        self.put(node)?;
        Ok(())
    }
}

fn class_or(class: Class, own: Class) -> Class
    ensures { result ≡ class_or class own }
{
    match own {
        Class::Universal => class,
        _ => own,
    }
}
