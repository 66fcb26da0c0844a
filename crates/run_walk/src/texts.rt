//! Output and input (A.10.6 to A.10.8).

ghost use Rattle.std.specs.Prelude.{◌≡◌, ◌<◌, []};
ghost use Rattle.typed_tree.specs.Decoded.{bytes_in, expr_at, leaves_at, pieces_at, selections_at};
ghost use Rattle.run_store.specs.Environment.{env_of};
ghost use Rattle.run_store.specs.Shows.{Shows};
ghost use Rattle.run_walk.specs.Walk as spec;
ghost use Rattle.run_parts.specs.Words.{nodes_of};

use crate::exprs::eval;
use crate::names::select;
use ada_base::{Items, Reason};
use run_outside::Port;
use run_parts::{Work, with_field, with_image, with_line, with_text};
use run_store::{Env, Store};
use run_values::{End, Leave, is_in};
use typed_tree::{Class, Piece, Root, Scalar};

/// `Put`, `Put_Line`, `New_Line`: all pieces are evaluated, and then put out as one.
#[cycle(walk)]
#[inline(never)]
pub fn put<P: Port + Drop>(
    work: &Work<'_>,
    calls: u32,
    pieces: u32,
    line: bool,
    env: &Env<'_>,
    store: &mut Store<P>,
) -> Result<(), End>
    ensures { Shows P.Tells (spec.put work.now calls (pieces_at (nodes_of work.now) pieces) line (env_of env.now)) result store.old store.new }
{
    let bytes = written(work, calls, pieces, env, Items::new(work.alloc), store)?;
    let text = with_line(bytes, line)?;
    store.put(text.as_slice())?;
    Ok(())
}

// the bytes of pieces, behind others
#[cycle(walk)]
#[inline(never)]
#[tactic(auto, unfolding(ada_meaning::specs::Stored::bind, ada_meaning::specs::Stored::ret, ada_meaning::specs::Stored::leaves, ada_meaning::specs::Stored::spent, ada_meaning::specs::Stored::handles, crate::specs::Walk::written, crate::specs::Walk::eval))]
fn written<P: Port + Drop>(
    work: &Work<'_>,
    calls: u32,
    id: u32,
    env: &Env<'_>,
    out: Items<u8>,
    store: &mut Store<P>,
) -> Result<Items<u8>, End>
    ensures { Shows P.Tells (spec.written work.now calls (pieces_at (nodes_of work.now) id) (env_of env.now) out) result store.old store.new }
{
    match work.typed.nodes.pieces(id) {
        None => Ok(out),
        Some(cell) => match work.typed.nodes.piece(cell.first) {
            None => {
                let all = written_rest(work, calls, cell.rest, env, out, store)?;
                Ok(all)
            }
            Some(Piece::Text { bytes }) => {
                let all = text(work, calls, bytes, cell.rest, env, out, store)?;
                Ok(all)
            }
            Some(Piece::Image { class, value }) => {
                let all = image(work, calls, class, value, cell.rest, env, out, store)?;
                Ok(all)
            }
            Some(Piece::Padded { value, width, .. }) => {
                let all = field(work, calls, value, width, cell.rest, env, out, store)?;
                Ok(all)
            }
        },
    }
}

// the bytes of the pieces behind one, one frame deeper
#[cycle(walk)]
fn written_rest<P: Port + Drop>(
    work: &Work<'_>,
    calls: u32,
    id: u32,
    env: &Env<'_>,
    out: Items<u8>,
    store: &mut Store<P>,
) -> Result<Items<u8>, End>
    ensures { Shows P.Tells (spec.written work.now calls (pieces_at (nodes_of work.now) id) (env_of env.now) out) result store.old store.new }
{
    store.take_room()?;
    let all = written(work, calls, id, env, out, store);
    store.give_room();
    all
}

#[cycle(walk)]
#[inline(never)]
fn text<P: Port + Drop>(
    work: &Work<'_>,
    calls: u32,
    bytes: u32,
    rest: u32,
    env: &Env<'_>,
    out: Items<u8>,
    store: &mut Store<P>,
) -> Result<Items<u8>, End>
    ensures { Shows P.Tells (spec.text work.now calls (bytes_in (leaves_at (nodes_of work.now) bytes)) (pieces_at (nodes_of work.now) rest) (env_of env.now) out) result store.old store.new }
{
    let more = with_text(work, out, bytes)?;
    let all = written_rest(work, calls, rest, env, more, store)?;
    Ok(all)
}

#[cycle(walk)]
#[inline(never)]
fn image<P: Port + Drop>(
    work: &Work<'_>,
    calls: u32,
    class: Class,
    value: u32,
    rest: u32,
    env: &Env<'_>,
    out: Items<u8>,
    store: &mut Store<P>,
) -> Result<Items<u8>, End>
    ensures { Shows P.Tells (spec.image work.now calls class (expr_at (nodes_of work.now) value) (pieces_at (nodes_of work.now) rest) (env_of env.now) out) result store.old store.new }
{
    let x = eval(work, calls, value, env, store)?;
    let more = with_image(out, class, x)?;
    let all = written_rest(work, calls, rest, env, more, store)?;
    Ok(all)
}

#[cycle(walk)]
#[inline(never)]
fn field<P: Port + Drop>(
    work: &Work<'_>,
    calls: u32,
    value: u32,
    width: u32,
    rest: u32,
    env: &Env<'_>,
    out: Items<u8>,
    store: &mut Store<P>,
) -> Result<Items<u8>, End>
    ensures { Shows P.Tells (spec.number_field work.now calls (expr_at (nodes_of work.now) value) (expr_at (nodes_of work.now) width) (pieces_at (nodes_of work.now) rest) (env_of env.now) out) result store.old store.new }
{
    let x = eval(work, calls, value, env, store)?;
    let places = eval(work, calls, width, env, store)?;
    let more = with_field(out, x, places)?;
    let all = written_rest(work, calls, rest, env, more, store)?;
    Ok(all)
}

/// `Get (X);`: the number is read and checked, and then X gets it.
#[cycle(walk)]
#[inline(never)]
#[tactic(auto, unfolding(ada_meaning::specs::Stored::bind, ada_meaning::specs::Stored::ret, ada_meaning::specs::Stored::leaves, ada_meaning::specs::Stored::spent, ada_meaning::specs::Stored::handles, crate::specs::Walk::select))]
pub fn get<P: Port + Drop>(
    work: &Work<'_>,
    calls: u32,
    first: u32,
    root: Root,
    selections: u32,
    scalar: Scalar,
    env: &Env<'_>,
    store: &mut Store<P>,
) -> Result<(), End>
    ensures { Shows P.Tells (spec.get work.now calls first root (selections_at (nodes_of work.now) selections) scalar (env_of env.now)) result store.old store.new }
{
    let _ = first;
    let part = select(work, calls, selections, env, env.variable_root(root), store)?;
    let value = store.get(work.limit)?;
    if is_in(scalar, value) {
        store.write(part.object, part.offset, value)?;
        Ok(())
    } else {
        Err(End::Left(Leave::Raises(Reason::ConstraintError)))
    }
}
