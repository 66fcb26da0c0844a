//! The texts of a program (A.10.7), gathered in the order in which they stand.

ghost use Rattle.std.specs.Prelude.{◌≡◌, ◌<◌, ◌+◌, ◌∷◌, [], ◌&&◌, IfSome};
ghost use Rattle.typed_tree.specs.Decoded.{alternatives_at, arms_at, as_bytes, body_at, handlers_at, part_at, pieces_at, stmt_at, stmts_at};
ghost use Rattle.lower_emission.specs.Texts as spec;
ghost use Rattle.lower_code.specs.Gathered.{Counts, Gathers};
ghost use Rattle.lower_values.specs.Words.{is_narrow, program_of};

use lower_values::texts::{Texts, bytes_of};
use std::alloc::Global;
use typed_tree::{Handler, Piece, Stmt, Typed};

/// The texts that were gathered, if all of them had room.
#[derive(Drop)]
pub struct Gathering {
    pub texts: Texts,
    pub whole: bool,
}

/// The text of a piece.
fn note(typed: &Typed, bytes: u32, out: &mut Gathering)
    ensures { Gathers (as_bytes (part_at typed.now.nodes bytes) ∷ []) out.old out.new }
{
    let noted = match bytes_of(typed, bytes, out.texts.alloc()) {
        Ok(text) => out.texts.note(text),
        Err(error) => Err(error),
    };
    if noted.is_err() {
        out.whole = false;
    }
}

/// The texts among pieces.
fn of_pieces(typed: &Typed, id: u32, out: &mut Gathering)
    ensures { Gathers (spec.pieces_texts (pieces_at typed.now.nodes id)) out.old out.new }
{
    if let Some(cell) = typed.nodes.pieces(id) {
        match typed.nodes.piece(cell.first) {
            Some(Piece::Text { bytes }) => {
                note(typed, bytes, out);
                of_pieces(typed, cell.rest, out);
            }
            None | Some(Piece::Image { .. } | Piece::Padded { .. }) => {
                of_pieces(typed, cell.rest, out);
            }
        }
    }
}

#[cycle(texts)]
#[inline(never)]
#[tactic(auto, using(crate::proofs::Gathered::gathered_both), unfolding(lower_emission::specs::Texts::stmt_texts))]
fn of_stmt(typed: &Typed, id: u32, out: &mut Gathering)
    ensures { Gathers (spec.stmt_texts (stmt_at typed.now.nodes id)) out.old out.new }
{
    match typed.nodes.stmt(id) {
        Stmt::If {
            stmts,
            otherwise,
            ..
        } => {
            of_stmts(typed, stmts, out);
            of_stmts(typed, otherwise, out);
        }
        Stmt::Case { alternatives, .. } => of_alternatives(typed, alternatives, out),
        Stmt::Loop { stmts, .. } | Stmt::For { stmts, .. } | Stmt::ParallelFor { stmts, .. } => {
            of_stmts(typed, stmts, out);
        }
        Stmt::Parallel { arms, .. } => of_arms(typed, arms, out),
        Stmt::Block {
            stmts,
            handlers,
            ..
        } => {
            of_stmts(typed, stmts, out);
            of_handlers(typed, handlers, out);
        }
        Stmt::Put { pieces, .. } => of_pieces(typed, pieces, out),
        _ => {}
    }
}

/// The texts in statements.
#[cycle(texts)]
#[inline(never)]
#[tactic(auto, using(crate::proofs::Gathered::gathered_both), unfolding(lower_emission::specs::Texts::stmt_texts))]
fn of_stmts(typed: &Typed, id: u32, out: &mut Gathering)
    ensures { Gathers (spec.texts_in (stmts_at typed.now.nodes id)) out.old out.new }
{
    if let Some(cell) = typed.nodes.stmts(id) {
        of_stmt(typed, cell.first, out);
        of_stmts(typed, cell.rest, out);
    }
}

#[cycle(texts)]
#[inline(never)]
#[tactic(auto, using(crate::proofs::Gathered::gathered_both), unfolding(lower_emission::specs::Texts::stmt_texts))]
fn of_alternatives(typed: &Typed, id: u32, out: &mut Gathering)
    ensures { Gathers (spec.case_texts (alternatives_at typed.now.nodes id)) out.old out.new }
{
    if let Some(cell) = typed.nodes.alternatives(id) {
        match typed.nodes.alternative(cell.first) {
            None => of_alternatives(typed, cell.rest, out),
            Some(alternative) => {
                of_stmts(typed, alternative.stmts, out);
                of_alternatives(typed, cell.rest, out);
            }
        }
    }
}

#[cycle(texts)]
#[inline(never)]
#[tactic(auto, using(crate::proofs::Gathered::gathered_both), unfolding(lower_emission::specs::Texts::stmt_texts))]
fn of_arms(typed: &Typed, id: u32, out: &mut Gathering)
    ensures { Gathers (spec.arm_texts (arms_at typed.now.nodes id)) out.old out.new }
{
    if let Some(cell) = typed.nodes.arms(id) {
        of_stmts(typed, cell.first, out);
        of_arms(typed, cell.rest, out);
    }
}

#[cycle(texts)]
#[inline(never)]
#[tactic(auto, using(crate::proofs::Gathered::gathered_both), unfolding(lower_emission::specs::Texts::stmt_texts))]
fn of_handlers(typed: &Typed, id: u32, out: &mut Gathering)
    ensures { Gathers (spec.handler_texts (handlers_at typed.now.nodes id)) out.old out.new }
{
    if let Some(cell) = typed.nodes.handlers(id) {
        match typed.nodes.handler(cell.first) {
            None => of_handlers(typed, cell.rest, out),
            Some(Handler::Others { stmts } | Handler::Reasons { stmts, .. }) => {
                of_stmts(typed, stmts, out);
                of_handlers(typed, cell.rest, out);
            }
        }
    }
}

/// The texts of a body.
#[tactic(auto, using(crate::proofs::Gathered::gathered_both))]
fn of_body(typed: &Typed, id: u32, out: &mut Gathering)
    ensures { Gathers (spec.body_texts (body_at typed.now.nodes id)) out.old out.new }
{
    match typed.nodes.body(id) {
        None => {
            out.whole = false;
        }
        Some(parts) => {
            of_stmts(typed, parts.stmts, out);
            of_handlers(typed, parts.handlers, out);
        }
    }
}

/// The number behind one, if there is room for it.
#[tactic(auto, using(crate::proofs::Narrow::flag_kept, crate::proofs::Narrow::flag_lost))]
fn next(number: u32, out: &mut Gathering) -> u32
    ensures counts { Counts number out.old result out.new }
    ensures fits { out.new.whole ≡ (out.old.whole && is_narrow (number + 1)) }
{
    match number.checked_add(1) {
        Some(found) => found,
        None => {
            out.whole = false;
            0
        }
    }
}

/// The texts of all subprograms.
#[tactic(auto, using(crate::proofs::Programs::subs_within, crate::proofs::Gathered::subs_last))]
fn of_subs(typed: &Typed, out: &mut Gathering)
    ensures { Gathers (spec.subs_texts (program_of typed.now).subs) out.old out.new }
{
    let mut number = 0;
    while let Some(sub) = typed.sub(number) {
        of_body(typed, sub.body, out);
        number = next(number, out);
        if !out.whole {
            return;
        }
    }
}

/// The texts of a program, each once, or None where they don't fit into memory.
#[tactic(auto, using(crate::proofs::Programs::main_body, crate::proofs::Gathered::gathered_both))]
pub fn texts_of(typed: &Typed, alloc: Global) -> Option<Texts>
    ensures { IfSome result (λ texts. texts ≡ spec.texts_of (program_of typed.now)) }
{
    let mut out = Gathering {
        texts: Texts::new(alloc),
        whole: true,
    };
    of_body(typed, typed.body, &mut out);
    of_subs(typed, &mut out);
    if out.whole { Some(out.texts) } else { None }
}
