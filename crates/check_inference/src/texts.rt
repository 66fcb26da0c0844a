//! Pieces of output (A.10) and declarations (3.11).

ghost use Rattle.std.specs.Prelude.{◌≡◌, OnOk};
ghost use Rattle.typed_tree.specs.Decoded.{as_decl, as_piece, decls_at, part_at, pieces_at};
ghost use Rattle.typed_tree.specs.Syntax.{Decls, Pieces};
ghost use Rattle.check_inference.specs.Gather as spec;
ghost use Rattle.check_inference.specs.Paths.{place_of};

use crate::environment::Environment;
use crate::exprs::{expr, exprs, value};
use crate::gathering::Gathered;
use crate::source::Source;
use ada_base::Items;
use std::alloc::AllocError;
use typed_tree::{Decl, Piece};

/// Pieces of output. An Err is want of memory.
#[tactic(auto, unfolding(crate::specs::Gather::gather_pieces))]
pub fn pieces(
    source: Source<'_>,
    env: Environment<'_>,
    id: u32,
    out: &mut Gathered,
) -> Result<(), AllocError>
    ensures { OnOk result (out.new ≡ spec.gather_pieces (place_of env.entry) (pieces_at source.entry.typed.now.nodes id) out.old) }
{
    let mut at = id;
    while let Some(cell) = source.typed.nodes.pieces(at) {
        piece(source, env, cell.first, out)?;
        at = cell.rest;
    }
    Ok(())
}

#[tactic(auto, unfolding(crate::specs::Gather::gather_pieces))]
fn piece(
    source: Source<'_>,
    env: Environment<'_>,
    id: u32,
    out: &mut Gathered,
) -> Result<(), AllocError>
    ensures { OnOk result ((rest : Pieces) → spec.gather_pieces (place_of env.entry) rest out.new ≡ spec.gather_pieces (place_of env.entry) (as_piece (part_at source.entry.typed.now.nodes id) rest) out.old) }
{
    match source.typed.nodes.piece(id) {
        Some(Piece::Image { value: part, .. }) => expr(source, env, part, out),
        Some(
            Piece::Padded {
                value: part,
                width,
                ..
            },
        ) => {
            expr(source, env, part, out)?;
            expr(source, env, width, out)
        }
        Some(Piece::Text { .. }) | None => Ok(()),
    }
}

/// Declarations, each of which is seen by the text behind it: `hidden` lists the variables that are declared around, and
/// those that these declare join it. An Err is want of memory.
#[tactic(auto, unfolding(crate::specs::Gather::gather_decls, crate::specs::Gather::hidden_with))]
pub fn declared(
    source: Source<'_>,
    env: Environment<'_>,
    id: u32,
    hidden: &mut Items<u32>,
    out: &mut Gathered,
) -> Result<(), AllocError>
    ensures { OnOk result ((hidden.new ≡ spec.hidden_with (decls_at source.entry.typed.now.nodes id) hidden.old) × (out.new ≡ spec.gather_decls (record (place_of env.entry) { hidden = hidden.old }) (decls_at source.entry.typed.now.nodes id) out.old)) }
{
    let mut at = id;
    while let Some(cell) = source.typed.nodes.decls(at) {
        declaration(source, env, cell.first, hidden, out)?;
        at = cell.rest;
    }
    Ok(())
}

#[tactic(auto, unfolding(crate::specs::Gather::gather_decls, crate::specs::Gather::hidden_with))]
fn declaration(
    source: Source<'_>,
    env: Environment<'_>,
    id: u32,
    hidden: &mut Items<u32>,
    out: &mut Gathered,
) -> Result<(), AllocError>
    ensures { OnOk result ((rest : Decls) → (spec.hidden_with rest hidden.new ≡ spec.hidden_with (as_decl (part_at source.entry.typed.now.nodes id) rest) hidden.old) × (spec.gather_decls (record (place_of env.entry) { hidden = hidden.new }) rest out.new ≡ spec.gather_decls (record (place_of env.entry) { hidden = hidden.old }) (as_decl (part_at source.entry.typed.now.nodes id) rest) out.old)) }
{
    match source.typed.nodes.decl(id) {
        Some(Decl::Default { object }) => hidden.push(object),
        Some(Decl::Variable { object, initial }) => {
            let around = Environment {
                hidden: hidden.as_slice(),
                ..env
            };
            value(source, around, initial, out)?;
            hidden.push(object)
        }
        Some(Decl::Constant { initial, .. }) => {
            let around = Environment {
                hidden: hidden.as_slice(),
                ..env
            };
            value(source, around, initial, out)
        }
        Some(Decl::Mentions { exprs: parts }) => {
            let around = Environment {
                hidden: hidden.as_slice(),
                ..env
            };
            exprs(source, around, parts, out)
        }
        None => Ok(()),
    }
}
