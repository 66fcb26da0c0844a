//! Which static part of an expression of a universal type is no number of a modular type (3.5.4).

ghost use Rattle.std.specs.Prelude.{◌≡◌, ◌<◌, ◌∷◌, IfOk, MatchOption, nat_lt};
ghost use Rattle.ada_base.specs.Operation.{digits, modulus};
ghost use Rattle.typed_tree.specs.Classes.{beyond_digits, sooner};
ghost use Rattle.typed_tree.specs.Decoded.{as_expr, part_at};
ghost use Rattle.typed_tree.specs.Latest.{pop, top};
ghost use Rattle.typed_parts.specs.DigitChains.{beyond_before, beyond_behind, beyond_here, Ends, GoesOn};
ghost use Rattle.typed_parts.specs.Stack.{parts};

use crate::parts::Parts;
use ada_base::{Op, digits};
use std::alloc::AllocError;
use typed_tree::Expr;

impl Parts {
    /// The first static part of the latest expression that is no number of so many binary digits. An Err is want of
    /// memory.
    pub fn beyond_digits(&mut self, size: u8) -> Result<Option<u32>, AllocError>
        ensures { IfOk result (λ at. (at ≡ beyond_digits size (as_expr (top (parts self.old)))) × (parts self.new ≡ top (parts self.old) ∷ pop (parts self.old))) }
    {
        let id = self.take();
        let found = self.beyond(id, size);
        self.hold(id)?;
        Ok(found)
    }

    /// The first such part of the expression of a number. A chain of operators or of conditional expressions is gone
    /// through without recursion.
    #[cycle(beyond)]
    fn beyond(&self, id: u32, size: u8) -> Option<u32>
        ensures { result ≡ beyond_digits size (as_expr (part_at self.now.nodes id)) }
    {
        let mut last = id;
        let mut before = None;
        let mut behind = None;
        'next: while let Some(next) = self.next_part(last) {
            before = sooner(before, self.beyond_before(last, size));
            behind = sooner(self.beyond_behind(last, size), behind);
            last = next;
        }
        let here = self.beyond_here(last, size);
        sooner(before, sooner(here, behind))
    }

    /// The part of an expression that its chain goes on with: the left operand, what follows `else`, or the value of a
    /// reduction.
    fn next_part(&self, id: u32) -> Option<u32>
        ensures { MatchOption result (Ends (part_at self.now.nodes) id) (λ next. (next < id) × GoesOn (part_at self.now.nodes) id next) }
    {
        match self.expr(id) {
            Expr::Group { inside } => Some(inside),
            Expr::Unary { operand, .. } => Some(operand),
            Expr::Binary { left, .. } => Some(left),
            Expr::If { otherwise, .. } => Some(otherwise),
            Expr::Reduction { value, .. } => Some(value),
            _ => None,
        }
    }

    /// The first such part before what the chain goes on with.
    #[cycle(beyond)]
    fn beyond_before(&self, id: u32, size: u8) -> Option<u32>
        ensures { result ≡ beyond_before size (as_expr (part_at self.now.nodes id)) }
    {
        match self.expr(id) {
            Expr::If { value, .. } => self.beyond(value, size),
            _ => None,
        }
    }

    /// The first such part behind what the chain goes on with. An exponent has a type of its own.
    #[cycle(beyond)]
    fn beyond_behind(&self, id: u32, size: u8) -> Option<u32>
        ensures { result ≡ beyond_behind size (as_expr (part_at self.now.nodes id)) }
    {
        match self.expr(id) {
            Expr::Binary { op, right, .. } => match op {
                Op::Pow => None,
                _ => self.beyond(right, size),
            },
            Expr::Reduction { initial, .. } => self.beyond(initial, size),
            _ => None,
        }
    }

    /// A static expression's token, where it is such a part itself.
    fn beyond_here(&self, id: u32, size: u8) -> Option<u32>
        ensures { result ≡ beyond_here size (as_expr (part_at self.now.nodes id)) }
    {
        match self.expr(id) {
            Expr::Static { at, value, .. } => {
                if has_digits(size, value) {
                    None
                } else {
                    Some(at)
                }
            }
            _ => None,
        }
    }
}

fn has_digits(size: u8, value: i64) -> bool
    ensures { result ≡ nat_lt (digits value) (modulus size) }
{
    64 <= size || digits(value) < 1_u64 << size
}

fn sooner(first: Option<u32>, second: Option<u32>) -> Option<u32>
    ensures { result ≡ sooner first second }
{
    match first {
        None => second,
        Some(at) => Some(at),
    }
}
