//! Bodies: declarations (3.11), statements and handlers (11.2, 11.4).

ghost use Rattle.std.specs.Prelude.{◌≡◌, ◌<◌, IfSome, option_map};
ghost use Rattle.typed_tree.specs.Decoded.{body_at, decls_at, handlers_at, leaves_at, reasons_in, stmts_at};
ghost use Rattle.ada_meaning.specs.Values.{has_reason, reason_eq};
ghost use Rattle.run_store.specs.Environment.{env_of};
ghost use Rattle.run_store.specs.Shows.{Shows, region_of};
ghost use Rattle.run_values.specs.Values.{OrNoMemory};
ghost use Rattle.run_parts.specs.Found.{found_handler};
ghost use Rattle.run_walk.specs.Walk as spec;
ghost use Rattle.run_parts.specs.Words.{nodes_of};

use crate::stmts::exec_all;
use crate::values::cells;
use run_outside::Port;
use run_parts::{Work, find_handler, first_cells};
use run_store::{Env, Object, Region, Store};
use run_values::{End, Leave};
use typed_tree::Decl;

/// A body.
#[cycle(walk)]
#[inline(never)]
#[tactic(auto, unfolding(ada_meaning::specs::Stored::bind, ada_meaning::specs::Stored::ret, ada_meaning::specs::Stored::leaves, ada_meaning::specs::Stored::spent, ada_meaning::specs::Stored::handles, crate::specs::Walk::block, crate::specs::Walk::exec_all, crate::specs::Walk::exec_handler))]
pub fn body<P: Port + Drop>(
    work: &Work<'_>,
    calls: u32,
    id: u32,
    region: Region,
    env: &Env<'_>,
    store: &mut Store<P>,
) -> Result<(), End>
    ensures { Shows P.Tells (spec.body work.now calls (body_at (nodes_of work.now) id) (region_of region) (env_of env.now)) result store.old store.new }
{
    match work.typed.nodes.body(id) {
        None => Ok(()),
        Some(parts) => {
            block(
                work,
                calls,
                parts.decls,
                region,
                parts.stmts,
                parts.handlers,
                env,
                store,
            )?;
            Ok(())
        }
    }
}

/// Declarations, and what follows them and sees their objects.
#[cycle(walk)]
#[inline(never)]
#[tactic(auto, unfolding(ada_meaning::specs::Stored::bind, ada_meaning::specs::Stored::ret, ada_meaning::specs::Stored::leaves, ada_meaning::specs::Stored::spent, ada_meaning::specs::Stored::handles, crate::specs::Walk::block, crate::specs::Walk::cells))]
pub fn block<P: Port + Drop>(
    work: &Work<'_>,
    calls: u32,
    decls: u32,
    region: Region,
    stmts: u32,
    handlers: u32,
    env: &Env<'_>,
    store: &mut Store<P>,
) -> Result<(), End>
    ensures { Shows P.Tells (spec.block work.now calls (decls_at (nodes_of work.now) decls) (region_of region) (stmts_at (nodes_of work.now) stmts) (handlers_at (nodes_of work.now) handlers) (env_of env.now)) result store.old store.new }
{
    match work.typed.nodes.decls(decls) {
        None => {
            guarded(work, calls, stmts, handlers, env, store)?;
            Ok(())
        }
        Some(cell) => match work.typed.nodes.decl(cell.first) {
            None | Some(Decl::Mentions { .. }) => {
                block_rest(work, calls, cell.rest, region, stmts, handlers, env, store)?;
                Ok(())
            }
            Some(Decl::Default { object }) => {
                let values = first_cells(work, object)?;
                let mark = store.begin(region, Object::Variable(object), values.as_slice())?;
                let result = block(work, calls, cell.rest, region, stmts, handlers, env, store);
                store.end(region, Object::Variable(object), mark);
                result
            }
            Some(Decl::Variable { object, initial }) => {
                let values = cells(work, calls, initial, env, store)?;
                let mark = store.begin(region, Object::Variable(object), values.as_slice())?;
                let result = block(work, calls, cell.rest, region, stmts, handlers, env, store);
                store.end(region, Object::Variable(object), mark);
                result
            }
            Some(Decl::Constant { object, initial }) => {
                let values = cells(work, calls, initial, env, store)?;
                let mark = store.begin(region, Object::Constant(object), values.as_slice())?;
                let result = block(work, calls, cell.rest, region, stmts, handlers, env, store);
                store.end(region, Object::Constant(object), mark);
                result
            }
        },
    }
}

// declarations behind one that has no object, one frame deeper
#[cycle(walk)]
fn block_rest<P: Port + Drop>(
    work: &Work<'_>,
    calls: u32,
    decls: u32,
    region: Region,
    stmts: u32,
    handlers: u32,
    env: &Env<'_>,
    store: &mut Store<P>,
) -> Result<(), End>
    ensures { Shows P.Tells (spec.block work.now calls (decls_at (nodes_of work.now) decls) (region_of region) (stmts_at (nodes_of work.now) stmts) (handlers_at (nodes_of work.now) handlers) (env_of env.now)) result store.old store.new }
{
    store.take_room()?;
    let result = block(work, calls, decls, region, stmts, handlers, env, store);
    store.give_room();
    result
}

// statements whose exceptions are handled (11.4)
#[cycle(walk)]
#[inline(never)]
fn guarded<P: Port + Drop>(
    work: &Work<'_>,
    calls: u32,
    stmts: u32,
    handlers: u32,
    env: &Env<'_>,
    store: &mut Store<P>,
) -> Result<(), End>
    ensures { Shows P.Tells (spec.guarded work.now calls (stmts_at (nodes_of work.now) stmts) (handlers_at (nodes_of work.now) handlers) (env_of env.now)) result store.old store.new }
{
    match exec_all(work, calls, stmts, env, store) {
        Err(End::Left(Leave::Raises(reason))) => match find_handler(work, handlers, reason) {
            None => Err(End::Left(Leave::Raises(reason))),
            Some(found) => {
                let inner = Env::Handled {
                    reason,
                    outer: &*env,
                };
                exec_all(work, calls, found, &inner, store)
            }
        },
        result => result,
    }
}
