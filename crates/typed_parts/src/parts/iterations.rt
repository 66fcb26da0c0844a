//! Iterations, chunk specifications (5.5) and reducers (4.5.10).

ghost use Rattle.std.specs.Prelude.{◌≡◌, ◌∷◌, OnOk};
ghost use Rattle.typed_tree.specs.Decoded.{ACheck, AChunk, AReducer, AnIteration, as_check, as_expr, as_optional, as_scalar, as_selections};
ghost use Rattle.typed_tree.specs.declared.expressions.Reducer.TheVariants as reducer;
ghost use Rattle.typed_tree.specs.Syntax as syntax;
ghost use Rattle.typed_tree.specs.Latest.{fourth, pop, second, third, top};
ghost use Rattle.typed_parts.specs.Stack.{parts};

use crate::parts::Parts;
use ada_base::Op;
use std::alloc::AllocError;
use typed_tree::{Check, Chunk, Class, Fold, Iteration, Node, Root};

impl Parts {
    /// `I in [reverse] L .. H when F` (5.5). Joined of L, H, the check of the bounds or nothing, and F or nothing in
    /// this order.
    pub fn range(&mut self, parameter: u32, reverse: bool) -> Result<(), AllocError>
        ensures { OnOk result (parts self.new ≡ AnIteration (syntax.Range parameter reverse (as_expr (fourth (parts self.old))) (as_expr (third (parts self.old))) (as_check (second (parts self.old))) (as_optional (top (parts self.old)))) ∷ pop (pop (pop (pop (parts self.old))))) }
    {
        let filter = self.take();
        let check = self.take();
        let high = self.take();
        let low = self.take();
        self.put(Node::Iteration(Iteration::Range {
            parameter,
            reverse,
            low,
            high,
            check,
            filter,
        }))
    }

    /// `X of A when F` (5.5.2): `count` components, each `stride` cells from the one before it, of an array with so many
    /// dimensions. Joined of the list of A's selections, and F or nothing.
    pub fn components(
        &mut self,
        item: u32,
        constant: bool,
        at: u32,
        root: Root,
        count: u32,
        stride: u32,
        dimensions: u32,
    ) -> Result<(), AllocError>
        ensures { OnOk result (parts self.new ≡ AnIteration (syntax.Components item constant at root (as_selections (second (parts self.old))) count stride dimensions (as_optional (top (parts self.old)))) ∷ pop (pop (parts self.old))) }
    {
        let filter = self.take();
        let selections = self.take();
        self.put(Node::Iteration(Iteration::Components {
            item,
            constant,
            at,
            root,
            selections,
            count,
            stride,
            dimensions,
            filter,
        }))
    }

    /// A number of chunks, of its expression.
    pub fn chunk_count(&mut self) -> Result<(), AllocError>
        ensures { OnOk result (parts self.new ≡ AChunk (syntax.Count (as_expr (top (parts self.old)))) ∷ pop (parts self.old)) }
    {
        let value = self.take();
        self.put(Node::Chunk(Chunk::Count { value }))
    }

    /// `C in L .. H` of chunks. Joined of L, H, and the check of the bounds or nothing in this order.
    pub fn chunk_each(&mut self, parameter: u32) -> Result<(), AllocError>
        ensures { OnOk result (parts self.new ≡ AChunk (syntax.Each parameter (as_expr (third (parts self.old))) (as_expr (second (parts self.old))) (as_check (top (parts self.old)))) ∷ pop (pop (pop (parts self.old)))) }
    {
        let check = self.take();
        let high = self.take();
        let low = self.take();
        self.put(Node::Chunk(Chunk::Each {
            parameter,
            low,
            high,
            check,
        }))
    }

    /// A reducer that is an operator, `S'Max` or `S'Min`.
    pub fn fold_operator(&mut self, at: u32, op: Op, class: Class) -> Result<(), AllocError>
        ensures { OnOk result (parts self.new ≡ AReducer (reducer.Operator at op class) ∷ parts self.old) }
    {
        self.put(Node::Fold(Fold::Operator { at, op, class }))
    }

    /// A reducer that is a declared function. Joined of the subtypes of its accumulator and of its value in this order.
    pub fn fold_function(&mut self, at: u32, sub: u32) -> Result<(), AllocError>
        ensures { OnOk result (parts self.new ≡ AReducer (reducer.Function at sub (as_scalar (second (parts self.old))) (as_scalar (top (parts self.old)))) ∷ pop (pop (parts self.old))) }
    {
        let value = self.take();
        let accumulator = self.take();
        self.put(Node::Fold(Fold::Function {
            at,
            sub,
            accumulator,
            value,
        }))
    }

    /// The check of a range's bounds.
    pub fn check(&mut self, check: Check) -> Result<(), AllocError>
        ensures { OnOk result (parts self.new ≡ ACheck check ∷ parts self.old) }
    {
        self.put(Node::Check(check))
    }
}
