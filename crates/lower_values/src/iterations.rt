//! What iterations go through (5.5, 5.5.2), and the chunks of parallel ones (5.5).

ghost use Rattle.std.specs.Prelude.{◌≡◌, ◌<◌, ◌+◌, pos, cond, nat_eq};
ghost use Rattle.typed_tree.specs.Decoded.{check_at, chunk_at, expr_at, iteration_at, selections_at};
ghost use Rattle.typed_tree.specs.Syntax.{Count};
ghost use Rattle.ada_meaning.specs.Meaning.{most_threads};
ghost use Rattle.lower_emission.specs.Emission as spec;
ghost use Rattle.lower_emission.specs.Scope.{◌⨟◌, array_root_of, keep, one, taking};
ghost use Rattle.lower_values.specs.Words.{env_of, is_narrow, nodes, tables, Emits, Finds, Fits};
ghost use Rattle.stack_code.specs.declared.instr.Instr.TheVariants as i;

use crate::aggregates::{Components, own};
use crate::exprs::{address, checked, emit, selected};
use crate::types::{Emitter, Env};
use ada_base::Reason;
use ada_meaning::MOST_THREADS;
use stack_code::Instr;
use typed_tree::{Chunk, Iteration, Root};

/// Whether the number of a cell is at most that of the next.
pub fn ascending(env: &Env<'_>, h: u32, d: u32, out: &mut Emitter)
    ensures { Emits (spec.ascending (env_of env.now) h d) out.old out.new }
{
    let d1 = out.sum(d, 1);
    out.operate(env, h, Instr::LoadL(d), Instr::LoadL(d1), Instr::Le);
}

/// The bounds that stand in a cell and the next one are checked.
pub fn bounds_code(env: &Env<'_>, h: u32, d: u32, check: u32, out: &mut Emitter)
    ensures { Emits (spec.bounds_code (env_of env.now) h d (check_at (nodes env.now) check)) out.old out.new }
{
    if let Some(found) = env.typed.nodes.check(check) {
        let d1 = out.sum(d, 1);
        out.put(env, h, Instr::LoadL(d));
        checked(env, h, found.scalar, out);
        out.put_above(env, h, 1, Instr::Pop);
        out.put(env, h, Instr::LoadL(d1));
        checked(env, h, found.scalar, out);
        out.put_above(env, h, 1, Instr::Pop);
    }
}

/// Two values go to the first free cells.
#[cycle(emit)]
#[inline(never)]
pub fn bounds(env: &Env<'_>, h: u32, low: u32, high: u32, out: &mut Emitter)
    ensures { Emits (spec.emit (tables env.now) (env_of env.now) h (expr_at (nodes env.now) low) ⨟ keep (env_of env.now) (h + 1) env.now.free ⨟ spec.emit (tables env.now) (taking 1 (env_of env.now)) h (expr_at (nodes env.now) high) ⨟ keep (env_of env.now) (h + 1) (env.now.free + 1)) out.old out.new }
{
    let free1 = out.sum(env.free, 1);
    emit(env, h, low, out);
    out.keep(env, h, env.free);
    emit(&env.with_free(free1), h, high, out);
    out.keep(env, h, free1);
}

/// A range of values, up or down.
#[derive(Clone, Copy)]
pub struct Counted {
    pub reverse: bool,
    pub first: u32,
}

/// A turn of a loop over a range ends.
pub fn counting(env: &Env<'_>, h: u32, counted: Counted, head: u32, out: &mut Emitter)
    ensures { Emits (one (env_of env.now) h (spec.counting counted.reverse counted.first head)) out.old out.new }
{
    let last = out.sum(counted.first, 1);
    if counted.reverse {
        out.put(env, h, Instr::Prior(last, counted.first, head));
    } else {
        out.put(env, h, Instr::Next(counted.first, last, head));
    }
}

/// The cell of a range's parameter.
#[tactic(auto, using(crate::proofs::Fitting::fits_kept))]
pub fn first_parameter(counted: Counted, out: &mut Emitter) -> u32
    ensures finds { Finds (spec.first_parameter counted.reverse counted.first) out.old result out.new }
    ensures fits { Fits (is_narrow (spec.first_parameter counted.reverse counted.first)) out.old out.new }
{
    if counted.reverse {
        out.sum(counted.first, 1)
    } else {
        counted.first
    }
}

/// An array that a loop goes through.
#[derive(Clone, Copy)]
pub struct Array {
    pub constant: bool,
    pub root: Root,
    pub selections: u32,
}

/// The address of an array goes to the first free cell.
#[cycle(emit)]
#[inline(never)]
pub fn array_address(env: &Env<'_>, h: u32, array: Array, out: &mut Emitter)
    ensures { Emits (spec.address (env_of env.now) h (array_root_of array.constant (env_of env.now) array.root) ⨟ spec.selected (tables env.now) (env_of env.now) (h + 1) (selections_at (nodes env.now) array.selections) ⨟ keep (env_of env.now) (h + 1) env.now.free) out.old out.new }
{
    let h1 = out.sum(h, 1);
    let found = env.root(array.constant, array.root, out);
    address(env, h, found, out);
    selected(env, h1, array.selections, out);
    out.keep(env, h, env.free);
}

/// The first and the last position of an array go to the cells behind that of its address.
pub fn positions(env: &Env<'_>, h: u32, count: u32, out: &mut Emitter)
    ensures { Emits (one (env_of env.now) h (i.Push (pos 1)) ⨟ keep (env_of env.now) (h + 1) (env.now.free + 1) ⨟ one (env_of env.now) h (i.Push (pos count)) ⨟ keep (env_of env.now) (h + 1) (env.now.free + 1 + 1)) out.old out.new }
{
    let free1 = out.sum(env.free, 1);
    let free2 = out.sum(free1, 1);
    out.put(env, h, Instr::Push(1));
    out.keep(env, h, free1);
    out.put(env, h, Instr::Push(i64::from(count)));
    out.keep(env, h, free2);
}

fn raise_above(env: &Env<'_>, h: u32, d: u32, out: &mut Emitter)
    ensures { Emits (spec.raise_above (env_of env.now) h d) out.old out.new }
{
    let d1 = out.sum(d, 1);
    out.operate(env, h, Instr::LoadL(d), Instr::LoadL(d1), Instr::Gt);
    let over = out.gap(env, h);
    out.put(env, h, Instr::Raise(Reason::ProgramError));
    out.aim_false(env, h, over);
}

/// More chunks than `MOST_THREADS` raise Storage_Error.
fn raise_beyond(env: &Env<'_>, h: u32, out: &mut Emitter)
    ensures { Emits (spec.raise_beyond (env_of env.now) h) out.old out.new }
{
    let free1 = out.sum(env.free, 1);
    out.operate(
        env,
        h,
        Instr::LoadL(env.free),
        Instr::LoadL(free1),
        Instr::Far(MOST_THREADS),
    );
    let over = out.gap(env, h);
    out.put(env, h, Instr::Raise(Reason::StorageError));
    out.aim_false(env, h, over);
}

/// The numbers of as many threads as an expression says, or of `MOST_THREADS`, go to the first free cells.
#[cycle(emit)]
#[inline(never)]
#[tactic(auto, unfolding(lower_emission::specs::Emission::chunk_code))]
pub fn thread_numbers(env: &Env<'_>, h: u32, count: u32, out: &mut Emitter)
    ensures { Emits (spec.chunk_code (tables env.now) (env_of env.now) h (Count (expr_at (nodes env.now) count))) out.old out.new }
{
    let free1 = out.sum(env.free, 1);
    out.put(env, h, Instr::Push(1));
    out.keep(env, h, env.free);
    emit(&env.with_free(free1), h, count, out);
    out.put_above(env, h, 1, Instr::Push(i64::from(MOST_THREADS)));
    out.put_above(env, h, 2, Instr::Min);
    out.keep(env, h, free1);
    raise_above(env, h, env.free, out);
}

/// The numbers of `MOST_THREADS` threads go to the first free cells.
pub fn all_threads(env: &Env<'_>, h: u32, out: &mut Emitter)
    ensures { Emits (one (env_of env.now) h (i.Push (pos 1)) ⨟ keep (env_of env.now) (h + 1) env.now.free ⨟ one (env_of env.now) h (i.Push (pos most_threads)) ⨟ keep (env_of env.now) (h + 1) (env.now.free + 1)) out.old out.new }
{
    let free1 = out.sum(env.free, 1);
    out.put(env, h, Instr::Push(1));
    out.keep(env, h, env.free);
    out.put(env, h, Instr::Push(i64::from(MOST_THREADS)));
    out.keep(env, h, free1);
}

/// The first and the last chunk value, or the numbers of threads, go to the first free cells.
#[cycle(emit)]
#[inline(never)]
#[tactic(auto, unfolding(lower_emission::specs::Emission::chunk_code))]
pub fn chunk_code(env: &Env<'_>, h: u32, chunk: u32, out: &mut Emitter)
    ensures { Emits (spec.chunk_code (tables env.now) (env_of env.now) h (chunk_at (nodes env.now) chunk)) out.old out.new }
{
    match env.typed.nodes.chunk(chunk) {
        None => all_threads(env, h, out),
        Some(Chunk::Count { value }) => thread_numbers(env, h, value, out),
        Some(
            Chunk::Each {
                low,
                high,
                check,
                ..
            },
        ) => {
            bounds(env, h, low, high, out);
            raise_above(env, h, env.free, out);
            bounds_code(env, h, env.free, check, out);
            raise_beyond(env, h, out);
        }
    }
}

/// The first and the last loop value go to the first free cells, or the address of an array to the first.
#[cycle(emit)]
#[inline(never)]
#[tactic(auto, unfolding(lower_emission::specs::Emission::course_code))]
pub fn course_code(env: &Env<'_>, h: u32, iteration: u32, out: &mut Emitter)
    ensures { Emits (spec.course_code (tables env.now) (env_of env.now) h (iteration_at (nodes env.now) iteration)) out.old out.new }
{
    match env.typed.nodes.iteration(iteration) {
        Some(
            Iteration::Range {
                low,
                high,
                check,
                ..
            },
        ) => {
            bounds(env, h, low, high, out);
            ascending(env, h, env.free, out);
            let over = out.gap(env, h);
            bounds_code(env, h, env.free, check, out);
            out.aim_false(env, h, over);
        }
        Some(
            Iteration::Components {
                constant,
                root,
                selections,
                ..
            },
        ) => {
            let array = Array {
                constant,
                root,
                selections,
            };
            array_address(env, h, array, out);
        }
        None => {
            out.whole = false;
        }
    }
}

/// The first and the last loop value or position are pushed.
pub fn ends_code(env: &Env<'_>, h: u32, iteration: u32, out: &mut Emitter)
    ensures { Emits (spec.ends_code (env_of env.now) h (iteration_at (nodes env.now) iteration)) out.old out.new }
{
    match env.typed.nodes.iteration(iteration) {
        Some(Iteration::Range { .. }) => {
            let free1 = out.sum(env.free, 1);
            out.put(env, h, Instr::LoadL(env.free));
            out.put_above(env, h, 1, Instr::LoadL(free1));
        }
        Some(Iteration::Components { count, .. }) => {
            out.put(env, h, Instr::Push(1));
            out.put_above(env, h, 1, Instr::Push(i64::from(count)));
        }
        None => {
            out.whole = false;
        }
    }
}

/// What threads see with the parameter of their chunks.
pub fn chunk_env<'a>(env: &'a Env<'_>, chunk: u32) -> Env<'a>
    ensures { (env_of result ≡ spec.chunk_scope (chunk_at (nodes env.now) chunk) (env_of env.now)) × ((result.typed ≡ env.now.typed) × (result.free ≡ env.now.free)) }
{
    match env.typed.nodes.chunk(chunk) {
        Some(Chunk::Each { parameter, .. }) => env.with_parameter(parameter, own(0), env.free),
        _ => env.with_free(env.free),
    }
}

/// The component of the first position, of which the address of the array is in a cell of the body around, is the first
/// item of a thread.
pub fn first_item(env: &Env<'_>, h: u32, around: u32, components: Components, out: &mut Emitter)
    ensures { Emits (one (env_of env.now) h (i.LoadO 1 around) ⨟ one (env_of env.now) (h + 1) (i.LoadL env.now.free) ⨟ one (env_of env.now) (h + 1 + 1) (i.Index (pos 1) (pos components.count) components.size) ⨟ keep (env_of env.now) (h + 1) (env.now.free + 1 + 1)) out.old out.new }
{
    let free1 = out.sum(env.free, 1);
    let free2 = out.sum(free1, 1);
    out.put(env, h, Instr::LoadO(1, around));
    out.put_above(env, h, 1, Instr::LoadL(env.free));
    let index = Instr::Index(1, i64::from(components.count), components.size);
    out.put_above(env, h, 2, index);
    out.keep(env, h, free2);
}
