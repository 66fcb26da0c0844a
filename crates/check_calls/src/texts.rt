//! Pieces of output (A.10) and declarations (3.11).

ghost use Rattle.std.specs.Prelude.{◌≡◌};
ghost use Rattle.typed_tree.specs.Decoded.{as_decl, as_piece, decls_at, part_at, pieces_at};
ghost use Rattle.typed_tree.specs.Syntax.{Decls, Pieces};
ghost use Rattle.check_calls.specs.First as spec;
ghost use Rattle.check_calls.specs.Words.{rule_of};

use crate::calls::Breach;
use crate::exprs::{expr, exprs, value};
use typed_tree::{Decl, Piece, Typed};

/// Pieces of output.
#[tactic(auto, unfolding(crate::specs::First::first_pieces))]
pub fn pieces(typed: &Typed, id: u32, blocking: bool, found: Option<Breach>) -> Option<Breach>
    ensures { result ≡ spec.first_pieces (rule_of typed.now) (pieces_at typed.now.nodes id) blocking found }
{
    let mut at = id;
    let mut all = found;
    while let Some(cell) = typed.nodes.pieces(at) {
        all = piece(typed, cell.first, blocking, all);
        at = cell.rest;
    }
    all
}

#[tactic(auto, unfolding(crate::specs::First::first_pieces))]
fn piece(typed: &Typed, id: u32, blocking: bool, found: Option<Breach>) -> Option<Breach>
    ensures { (rest : Pieces) → spec.first_pieces (rule_of typed.now) rest blocking result ≡ spec.first_pieces (rule_of typed.now) (as_piece (part_at typed.now.nodes id) rest) blocking found }
{
    match typed.nodes.piece(id) {
        Some(Piece::Image { value: part, .. }) => expr(typed, part, blocking, found),
        Some(
            Piece::Padded {
                value: part,
                width,
                ..
            },
        ) => {
            let first = expr(typed, part, blocking, found);
            expr(typed, width, blocking, first)
        }
        Some(Piece::Text { .. }) | None => found,
    }
}

/// Declarations.
#[tactic(auto, unfolding(crate::specs::First::first_decls))]
pub fn decls(typed: &Typed, id: u32, blocking: bool, found: Option<Breach>) -> Option<Breach>
    ensures { result ≡ spec.first_decls (rule_of typed.now) (decls_at typed.now.nodes id) blocking found }
{
    let mut at = id;
    let mut all = found;
    while let Some(cell) = typed.nodes.decls(at) {
        all = decl(typed, cell.first, blocking, all);
        at = cell.rest;
    }
    all
}

#[tactic(auto, unfolding(crate::specs::First::first_decls))]
fn decl(typed: &Typed, id: u32, blocking: bool, found: Option<Breach>) -> Option<Breach>
    ensures { (rest : Decls) → spec.first_decls (rule_of typed.now) rest blocking result ≡ spec.first_decls (rule_of typed.now) (as_decl (part_at typed.now.nodes id) rest) blocking found }
{
    match typed.nodes.decl(id) {
        Some(Decl::Variable { initial, .. } | Decl::Constant { initial, .. }) => {
            value(typed, initial, blocking, found)
        }
        Some(Decl::Mentions { exprs: parts }) => exprs(typed, parts, blocking, found),
        Some(Decl::Default { .. }) | None => found,
    }
}
