//! Chains of operators, which are nested to the left: read from their first operand on, without recursion.

ghost use Rattle.std.specs.Prelude.{◌≡◌, ◌<◌, ◌≤◌, IfOk, MatchOption, false, length, take, drop};
ghost use Rattle.typed_tree.specs.Decoded.{part_at, expr_at};
ghost use Rattle.typed_tree.specs.Chained.{applied, is_chain, linked, right_of, AreBelow};

use crate::expressions::Expr;
use crate::node::Link;
use crate::nodes::Nodes;
use ada_base::Items;
use std::alloc::AllocError;

impl Link {
    /// The number of the right operand.
    pub fn right(self) -> u32
        ensures { result ≡ right_of self }
    {
        match self {
            Link::Operator { right, .. } | Link::AndThen { right } | Link::OrElse { right } => {
                right
            }
        }
    }
}

impl Nodes {
    /// The last operator of a chain, with what it has on its left; None where an expression is no such chain.
    pub fn link(&self, id: u32) -> Option<(Link, u32)>
        ensures { MatchOption result (is_chain (expr_at self.now id) ≡ false) (λ r. (expr_at self.now id ≡ applied (part_at self.now) r.0 (expr_at self.now r.1)) × (r.1 < id) × (right_of r.0 < id)) }
    {
        match self.expr(id) {
            Expr::Binary {
                at,
                op,
                class,
                left,
                right,
            } => {
                let link = Link::Operator {
                    at,
                    op,
                    class,
                    right,
                };
                Some((link, left))
            }
            Expr::AndThen { left, right } => Some((Link::AndThen { right }, left)),
            Expr::OrElse { left, right } => Some((Link::OrElse { right }, left)),
            _ => None,
        }
    }

    /// Takes a chain of operators apart: puts the operators at the end of a list, the one that is applied first last, and
    /// gives the number of the first operand. An expression that is no chain is its own first operand.
    pub fn operands(&self, id: u32, links: &mut Items<Link>) -> Result<u32, AllocError>
        ensures { IfOk result (λ first. (expr_at self.now id ≡ linked (part_at self.now) (drop (length links.old) links.new) (expr_at self.now first)) × (first ≤ id) × (take (length links.old) links.new ≡ links.old) × AreBelow id (drop (length links.old) links.new) × (is_chain (expr_at self.now first) ≡ false)) }
    {
        let mut first = id;
        while let Some((link, left)) = self.link(first) {
            links.push(link)?;
            first = left;
        }
        Ok(first)
    }
}
