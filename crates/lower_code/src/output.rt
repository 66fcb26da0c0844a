//! Output (A.10).

ghost use Rattle.std.specs.Prelude.{◌≡◌, ◌<◌, ◌+◌};
ghost use Rattle.typed_tree.specs.Decoded.{as_bytes, expr_at, part_at, pieces_at};
ghost use Rattle.lower_emission.specs.Emission.{emit};
ghost use Rattle.lower_emission.specs.Statements as spec;
ghost use Rattle.lower_emission.specs.Scope.{◌⨟◌, keep, one, taking};
ghost use Rattle.lower_values.specs.Words.{env_of, is_narrow, nodes, place, tables, Emits, Finds, Fits, Learns};

use ada_base::Base;
use lower_values::exprs::emit;
use lower_values::texts::bytes_of;
use lower_values::types::{Emitter, Env};
use stack_code::Instr;
use typed_tree::{Class, Expr, Piece};

/// A line, or a part of one, is put out.
pub fn put_line(env: &Env<'_>, pieces: u32, line: bool, out: &mut Emitter)
    ensures { Emits (spec.piece_values (tables env.now) (env_of env.now) (pieces_at (nodes env.now) pieces) ⨟ spec.piece_texts (env_of env.now) env.now.free (pieces_at (nodes env.now) pieces) ⨟ one (env_of env.now) 0 (spec.send_instr line)) out.old out.new }
{
    values(env, pieces, out);
    texts(env, env.free, pieces, out);
    let instr = if line { Instr::SendLn } else { Instr::Send };
    out.put(env, 0, instr);
}

#[cycle(values)]
#[tactic(auto, unfolding(lower_emission::specs::Statements::piece_values))]
fn values(env: &Env<'_>, id: u32, out: &mut Emitter)
    ensures { Emits (spec.piece_values (tables env.now) (env_of env.now) (pieces_at (nodes env.now) id)) out.old out.new }
{
    if let Some(cell) = env.typed.nodes.pieces(id) {
        match env.typed.nodes.piece(cell.first) {
            None | Some(Piece::Text { .. }) => values(env, cell.rest, out),
            Some(Piece::Image { value, .. }) => value_and_rest(env, value, cell.rest, out),
            Some(Piece::Padded { value, .. }) => value_and_rest(env, value, cell.rest, out),
        }
    }
}

/// The value of a piece, and those of the pieces behind it.
#[cycle(values)]
fn value_and_rest(env: &Env<'_>, value: u32, rest: u32, out: &mut Emitter)
    ensures { Emits (emit (tables env.now) (env_of env.now) 0 (expr_at (nodes env.now) value) ⨟ keep (env_of env.now) 1 env.now.free ⨟ spec.piece_values (tables env.now) (taking 1 (env_of env.now)) (pieces_at (nodes env.now) rest)) out.old out.new }
{
    emit(env, 0, value, out);
    out.keep(env, 0, env.free);
    let free = out.sum(env.free, 1);
    values(&env.with_free(free), rest, out);
}

fn image_instr(class: Class) -> Instr
    ensures { result ≡ spec.image_instr class }
{
    match class {
        Class::Boolean => Instr::Bool,
        Class::Integer(Base::Modulo(_)) => Instr::UImg,
        Class::Integer(_) | Class::Universal => Instr::Img,
    }
}

/// A static width.
#[tactic(auto, using(lower_values::proofs::Fitting::fits_kept, lower_values::proofs::Fitting::fits_lost))]
fn width_of(env: &Env<'_>, id: u32, out: &mut Emitter) -> u32
    ensures finds { Finds (spec.width_of (expr_at (nodes env.now) id)) out.old result out.new }
    ensures fits { Fits (is_narrow (spec.width_of (expr_at (nodes env.now) id))) out.old out.new }
{
    match env.typed.nodes.expr(id) {
        Expr::Static { value, .. } => {
            if value < 0 {
                return 0;
            }
            match u32::try_from(value) {
                Ok(width) => width,
                Err(_) => {
                    out.whole = false;
                    0
                }
            }
        }
        _ => 0,
    }
}

fn texts(env: &Env<'_>, d: u32, id: u32, out: &mut Emitter)
    ensures { Emits (spec.piece_texts (env_of env.now) d (pieces_at (nodes env.now) id)) out.old out.new }
{
    if let Some(cell) = env.typed.nodes.pieces(id) {
        match env.typed.nodes.piece(cell.first) {
            None => texts(env, d, cell.rest, out),
            Some(Piece::Text { bytes }) => {
                let number = text_number(env, bytes, out);
                out.put(env, 0, Instr::Words(number));
                texts(env, d, cell.rest, out);
            }
            Some(Piece::Image { class, .. }) => {
                let next = out.sum(d, 1);
                out.put(env, 0, Instr::LoadL(d));
                out.put(env, 1, image_instr(class));
                texts(env, next, cell.rest, out);
            }
            Some(Piece::Padded { width, .. }) => {
                let next = out.sum(d, 1);
                let cells = width_of(env, width, out);
                out.put(env, 0, Instr::LoadL(d));
                out.put(env, 1, Instr::Wide(cells));
                texts(env, next, cell.rest, out);
            }
        }
    }
}

/// The number of a text.
#[tactic(auto, using(lower_values::proofs::Fitting::fits_kept, lower_values::proofs::Fitting::fits_lost))]
fn place_of(env: &Env<'_>, text: &Vec<u8>, out: &mut Emitter) -> u32
    ensures finds { Finds (place env.now.texts.now text.now.items) out.old result out.new }
    ensures fits { Fits (is_narrow (place env.now.texts.now text.now.items)) out.old out.new }
{
    match env.texts.place(text) {
        Ok(number) => number,
        Err(_) => {
            out.whole = false;
            0
        }
    }
}

/// The number of the text of a piece.
#[tactic(auto, using(lower_values::proofs::Fitting::fits_short))]
fn text_number(env: &Env<'_>, bytes: u32, out: &mut Emitter) -> u32
    ensures finds { Finds (place env.now.texts.now (as_bytes (part_at (nodes env.now) bytes))) out.old result out.new }
    ensures fits { Fits (is_narrow (place env.now.texts.now (as_bytes (part_at (nodes env.now) bytes)))) out.old out.new }
{
    match bytes_of(env.typed, bytes, env.texts.alloc()) {
        Ok(text) => place_of(env, &text, out),
        Err(_) => {
            out.whole = false;
            out.short = true;
            0
        }
    }
}
