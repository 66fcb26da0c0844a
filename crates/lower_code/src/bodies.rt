//! Bodies (6): the main procedure, and behind it the subprograms.

ghost use Rattle.std.specs.Prelude.{◌≡◌, ◌<◌, ◌+◌, ◌∷◌, [], ℕ, length};
ghost use Rattle.ada_meaning.specs.Meaning.{object_layout};
ghost use Rattle.behaviours.specs.Paths.{VariableOf};
ghost use Rattle.typed_tree.specs.Decoded.{decls_at, value_at};
ghost use Rattle.typed_tree.specs.Programs.{formals_at, sub_of};
ghost use Rattle.lower_emission.specs.Bodies as spec;
ghost use Rattle.lower_emission.specs.Emission as emission;
ghost use Rattle.lower_emission.specs.Emission.{put_into, shapes, width};
ghost use Rattle.typed_tree.specs.Syntax.{NoDecl, Program};
ghost use Rattle.lower_emission.specs.Statements.{defaulted};
ghost use Rattle.lower_emission.specs.Emits.{written};
ghost use Rattle.lower_emission.specs.Programs as programs;
ghost use Rattle.lower_emission.specs.Scope.{◌⨟◌, none, taking};
ghost use Rattle.lower_code.specs.Starts as starts;
ghost use Rattle.lower_code.specs.Starts.{Begins};
ghost use Rattle.lower_values.specs.Words.{env_of, entity, nodes, tables, Emits};

use crate::blocks::{block, body as main_body};
use crate::body_tables::Start;
use crate::defaults::defaulted;
use ada_base::{Items, Reason};
use lower_emission::types::{Leaving, Level, Named, Need, Where};
use lower_values::aggregates::held;
use lower_values::cells::{cells_from, object_cells, width};
use lower_values::exprs::put_into;
use lower_values::types::{Emitter, Env, Link, Names};
use stack_code::{Around, Instr};
use typed_tree::{Decl, Leaf, Mode, Scalar, Sub};

/// A function that reaches its end raises Program_Error (6.5).
fn ending(env: &Env<'_>, given: Option<Scalar>, out: &mut Emitter)
    ensures { Emits (spec.ending (env_of env.now) given) out.old out.new }
{
    match given {
        None => out.put(env, 0, Instr::Ret),
        Some(_) => out.put(env, 0, Instr::Raise(Reason::ProgramError)),
    }
}

/// The body of a subprogram, whose formals are in sight.
fn body(env: &Env<'_>, sub: Sub, out: &mut Emitter)
    ensures { Emits (spec.sub_code (tables env.now) (env_of env.now) (sub_of (nodes env.now) sub)) out.old out.new }
{
    match env.typed.nodes.body(sub.body) {
        None => {
            out.whole = false;
        }
        Some(parts) => {
            block(env, parts.decls, parts.stmts, parts.handlers, out);
            ending(env, sub.result, out);
        }
    }
}

fn lead(mode: Mode) -> u32
    ensures { (p : Program) → (x : ℕ) → emission.lead (emission.shape_by p x mode).back ≡ result }
{
    match mode {
        Mode::In => 0,
        Mode::InOut | Mode::Out => 1,
    }
}

fn is_in(mode: Mode) -> bool
    ensures { (p : Program) → (x : ℕ) → (emission.shape_by p x mode).formal ≡ entity result x }
{
    match mode {
        Mode::In => true,
        Mode::InOut | Mode::Out => false,
    }
}

/// A subprogram, from one of its formals on, whose cells begin at a cell.
#[tactic(auto, using(crate::proofs::Programs::shape_cells))]
fn with_formals(env: &Env<'_>, id: u32, cell: u32, sub: Sub, out: &mut Emitter)
    ensures { Emits (spec.sub_code (tables env.now) (spec.placed (shapes (tables env.now) (formals_at (nodes env.now) id)) cell (env_of env.now)) (sub_of (nodes env.now) sub)) out.old out.new }
{
    match env.typed.nodes.leaf(id) {
        None => body(env, sub, out),
        Some(found) => match found.leaf {
            Leaf::Formal(formal) => {
                let cells = object_cells(env, formal.object, out);
                let first = out.sum(cell, lead(formal.mode));
                let next = out.sum(first, cells);
                let held = held(first, cells);
                let inner = env.with_object(is_in(formal.mode), formal.object, held, env.free);
                with_formals(&inner, found.rest, next, sub, out);
            }
            _ => with_formals(env, found.rest, cell, sub, out),
        },
    }
}

/// A subprogram of a number, in the scope of the main procedure's objects.
fn subprogram(env: &Env<'_>, number: u32, sub: Sub, out: &mut Emitter)
    ensures { Emits (spec.sub_code (tables env.now) (spec.sub_scope (tables env.now) (env_of env.now) number (sub_of (nodes env.now) sub)) (sub_of (nodes env.now) sub)) out.old out.new }
{
    let leaving = match sub.result {
        None => Leaving::ByReturn,
        Some(_) => Leaving::ByValue,
    };
    let free = cells_from(env, sub.formals, out);
    let place = out.sum(number, 1);
    let inner = Env {
        free,
        leaving,
        body: Around::Sub(place),
        ..*env
    };
    with_formals(&inner, sub.formals, 0, sub, out);
}

/// A subprogram begins at what comes next.
fn start(env: &Env<'_>, sub: Sub, out: &mut Emitter, subs: &mut Items<Start>)
    ensures { Begins none (λ c. starts.sub_start (tables env.now) (sub_of (nodes env.now) sub) c ∷ []) out.old out.new subs.old subs.new }
{
    let cells = cells_from(env, sub.formals, out);
    let entry = out.here();
    let need = Need { cells, height: 0 };
    let begun = Start {
        entry,
        need,
        gives: has_result(sub.result),
    };
    if subs.push(begun).is_err() {
        out.whole = false;
        out.short = true;
    }
}

fn has_result(given: Option<Scalar>) -> bool
    ensures { result ≡ programs.has_result given }
{
    match given {
        None => false,
        Some(_) => true,
    }
}

/// All subprograms.
#[tactic(auto, using(crate::proofs::Programs::subs_within, crate::proofs::Programs::subs_last, crate::proofs::Starting::starts_last))]
fn subprograms(env: &Env<'_>, out: &mut Emitter, subs: &mut Items<Start>)
    ensures { Begins (spec.subs_code (tables env.now) (env_of env.now) 0 (tables env.now).subs) (λ c. starts.subs_starts (tables env.now) (env_of env.now) 0 (tables env.now).subs c) out.old out.new subs.old subs.new }
{
    let mut number = 0;
    while let Some(sub) = env.typed.sub(number) {
        start(env, sub, out, subs);
        subprogram(env, number, sub, out);
        number = out.sum(number, 1);
        if !out.whole {
            return;
        }
    }
}

/// The statements of the main procedure, and the subprograms.
#[tactic(auto, using(crate::proofs::Programs::main_body))]
fn behind_main(env: &Env<'_>, out: &mut Emitter, subs: &mut Items<Start>)
    ensures { Begins (spec.behind_main (tables env.now) (env_of env.now)) (λ c. starts.main_starts (tables env.now) (env_of env.now) NoDecl c) out.old out.new subs.old subs.new }
{
    match env.typed.nodes.body(env.typed.body) {
        None => {
            out.whole = false;
        }
        Some(parts) => {
            main_body(env, parts.stmts, parts.handlers, out);
            out.put(env, 0, Instr::Halt);
            subprograms(env, out, subs);
        }
    }
}

/// The main procedure, from one of its declarations on.
#[cycle(main)]
#[inline(never)]
pub fn main_declared(env: &Env<'_>, id: u32, out: &mut Emitter, subs: &mut Items<Start>)
    ensures { Begins (spec.main_declared (tables env.now) (env_of env.now) (decls_at (nodes env.now) id) (spec.behind_main (tables env.now))) (λ c. starts.main_starts (tables env.now) (env_of env.now) (decls_at (nodes env.now) id) c) out.old out.new subs.old subs.new }
{
    match env.typed.nodes.decls(id) {
        None => behind_main(env, out, subs),
        Some(cell) => match env.typed.nodes.decl(cell.first) {
            None | Some(Decl::Mentions { .. }) => main_declared(env, cell.rest, out, subs),
            Some(Decl::Variable { object, initial }) => {
                let declared = Declared {
                    constant: false,
                    object,
                };
                declare(env, declared, initial, cell.rest, out, subs);
            }
            Some(Decl::Constant { object, initial }) => {
                let declared = Declared {
                    constant: true,
                    object,
                };
                declare(env, declared, initial, cell.rest, out, subs);
            }
            Some(Decl::Default { object }) => declare_default(env, object, cell.rest, out, subs),
        },
    }
}

/// A constant or a variable of the main procedure.
#[derive(Clone, Copy)]
struct Declared {
    constant: bool,
    object: u32,
}

#[cycle(main)]
#[inline(never)]
fn declare(
    env: &Env<'_>,
    declared: Declared,
    initial: u32,
    rest: u32,
    out: &mut Emitter,
    subs: &mut Items<Start>,
)
    ensures { Begins (put_into (tables env.now) (taking (width (tables env.now) (value_at (nodes env.now) initial)) (env_of env.now)) 0 env.now.free (value_at (nodes env.now) initial) ⨟ spec.main_declared (tables env.now) (spec.main_object (env_of env.now) (entity declared.constant declared.object) (width (tables env.now) (value_at (nodes env.now) initial))) (decls_at (nodes env.now) rest) (spec.behind_main (tables env.now))) (λ c. starts.main_starts (tables env.now) (spec.main_object (env_of env.now) (entity declared.constant declared.object) (width (tables env.now) (value_at (nodes env.now) initial))) (decls_at (nodes env.now) rest) (written (put_into (tables env.now) (taking (width (tables env.now) (value_at (nodes env.now) initial)) (env_of env.now)) 0 env.now.free (value_at (nodes env.now) initial)) c)) out.old out.new subs.old subs.new }
{
    let cells = width(env, initial, out);
    let free = out.sum(env.free, cells);
    put_into(&env.with_free(free), 0, env.free, initial, out);
    let names = Names::And {
        link: Link::Object {
            constant: declared.constant,
            object: declared.object,
            named: global(env.free, cells),
        },
        outer: &env.names,
    };
    let inner = Env {
        names,
        free,
        ..*env
    };
    main_declared(&inner, rest, out, subs);
}

#[cycle(main)]
#[inline(never)]
fn declare_default(
    env: &Env<'_>,
    object: u32,
    rest: u32,
    out: &mut Emitter,
    subs: &mut Items<Start>,
)
    ensures { Begins (defaulted (tables env.now) (env_of env.now) env.now.free object ⨟ spec.main_declared (tables env.now) (spec.main_object (env_of env.now) (VariableOf object) (length (object_layout (tables env.now) object))) (decls_at (nodes env.now) rest) (spec.behind_main (tables env.now))) (λ c. starts.main_starts (tables env.now) (spec.main_object (env_of env.now) (VariableOf object) (length (object_layout (tables env.now) object))) (decls_at (nodes env.now) rest) (written (defaulted (tables env.now) (env_of env.now) env.now.free object) c)) out.old out.new subs.old subs.new }
{
    let cells = object_cells(env, object, out);
    let free = out.sum(env.free, cells);
    defaulted(env, env.free, object, out);
    let names = Names::And {
        link: Link::Object {
            constant: false,
            object,
            named: global(env.free, cells),
        },
        outer: &env.names,
    };
    let inner = Env {
        names,
        free,
        ..*env
    };
    main_declared(&inner, rest, out, subs);
}

fn global(cell: u32, cells: u32) -> Named
    ensures { result ≡ spec.main_named cell cells }
{
    Named {
        through: false,
        place: Where {
            level: Level::Main,
            cell,
        },
        cells,
    }
}
