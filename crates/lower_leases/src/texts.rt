//! The parallel constructs in pieces of output (A.10) and in declarations (3.11).

ghost use Rattle.std.specs.Prelude.{◌≡◌, IsTrue};
ghost use Rattle.typed_tree.specs.Decoded.{as_decl, as_piece, decls_at, part_at, pieces_at};
ghost use Rattle.typed_tree.specs.Syntax.{Decls, Pieces};
ghost use Rattle.ada_lower.specs.Standings as spec;
ghost use Rattle.lower_leases.specs.Words.{Finds};

use crate::exprs::{expr, value};
use crate::standings::Finding;
use typed_tree::{Decl, Nodes, Piece};

/// Pieces of output.
#[tactic(auto, unfolding(ada_lower::specs::Standings::pieces_standings))]
pub fn pieces(nodes: &Nodes, depth: u32, id: u32, out: &mut Finding)
    ensures { Finds (spec.pieces_standings depth (pieces_at nodes.now id) out.old.found) out.old out.new }
{
    let mut at = id;
    while let Some(cell) = nodes.pieces(at) {
        piece(nodes, depth, cell.first, out);
        at = cell.rest;
    }
}

#[tactic(auto, unfolding(ada_lower::specs::Standings::pieces_standings))]
fn piece(nodes: &Nodes, depth: u32, id: u32, out: &mut Finding)
    ensures { IsTrue out.new.whole → IsTrue out.old.whole × ((rest : Pieces) → spec.pieces_standings depth rest out.new.found ≡ spec.pieces_standings depth (as_piece (part_at nodes.now id) rest) out.old.found) }
{
    match nodes.piece(id) {
        Some(Piece::Image { value: part, .. } | Piece::Padded { value: part, .. }) => {
            expr(nodes, depth, part, out)
        }
        Some(Piece::Text { .. }) | None => {}
    }
}

/// Declarations.
#[tactic(auto, unfolding(ada_lower::specs::Standings::decls_standings))]
pub fn decls(nodes: &Nodes, depth: u32, id: u32, out: &mut Finding)
    ensures { Finds (spec.decls_standings depth (decls_at nodes.now id) out.old.found) out.old out.new }
{
    let mut at = id;
    while let Some(cell) = nodes.decls(at) {
        decl(nodes, depth, cell.first, out);
        at = cell.rest;
    }
}

#[tactic(auto, unfolding(ada_lower::specs::Standings::decls_standings))]
fn decl(nodes: &Nodes, depth: u32, id: u32, out: &mut Finding)
    ensures { IsTrue out.new.whole → IsTrue out.old.whole × ((rest : Decls) → spec.decls_standings depth rest out.new.found ≡ spec.decls_standings depth (as_decl (part_at nodes.now id) rest) out.old.found) }
{
    match nodes.decl(id) {
        Some(Decl::Variable { initial, .. } | Decl::Constant { initial, .. }) => {
            value(nodes, depth, initial, out)
        }
        Some(Decl::Mentions { .. } | Decl::Default { .. }) | None => {}
    }
}
