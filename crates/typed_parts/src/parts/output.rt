//! Pieces of output (A.10).

ghost use Rattle.std.specs.Prelude.{◌≡◌, ◌∷◌, OnOk};
ghost use Rattle.typed_tree.specs.Decoded.{APiece, as_bytes, as_expr};
ghost use Rattle.typed_tree.specs.Syntax as syntax;
ghost use Rattle.typed_tree.specs.Latest.{pop, second, top};
ghost use Rattle.typed_parts.specs.Stack.{parts};

use crate::parts::Parts;
use std::alloc::AllocError;
use typed_tree::{Class, Node, Piece};

impl Parts {
    /// A text, of the list of its bytes.
    pub fn piece_text(&mut self) -> Result<(), AllocError>
        ensures { OnOk result (parts self.new ≡ APiece (syntax.Text (as_bytes (top (parts self.old)))) ∷ pop (parts self.old)) }
    {
        let bytes = self.take();
        self.put(Node::Piece(Piece::Text { bytes }))
    }

    /// `S'Image (X)` (4.10) of an expression of a class.
    pub fn piece_image(&mut self, class: Class) -> Result<(), AllocError>
        ensures { OnOk result (parts self.new ≡ APiece (syntax.Image class (as_expr (top (parts self.old)))) ∷ pop (parts self.old)) }
    {
        let value = self.take();
        self.put(Node::Piece(Piece::Image { class, value }))
    }

    /// A number in a field of places (A.10.8). Joined of the number and then its width.
    pub fn piece_padded(&mut self, class: Class) -> Result<(), AllocError>
        ensures { OnOk result (parts self.new ≡ APiece (syntax.Padded class (as_expr (second (parts self.old))) (as_expr (top (parts self.old)))) ∷ pop (pop (parts self.old))) }
    {
        let width = self.take();
        let value = self.take();
        self.put(Node::Piece(Piece::Padded {
            class,
            value,
            width,
        }))
    }
}
