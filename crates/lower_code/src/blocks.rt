//! Blocks (5.6) with their declarations (3.11) and handlers (11.2), and case statements (5.4).

ghost use Rattle.std.specs.Prelude.{◌≡◌, ◌<◌, ◌+◌, length, pos};
ghost use Rattle.ada_meaning.specs.Meaning.{object_layout};
ghost use Rattle.behaviours.specs.Paths.{VariableOf};
ghost use Rattle.typed_tree.specs.Decoded.{alternatives_at, as_reasons, as_spans, decls_at, expr_at, handlers_at, part_at, stmts_at, value_at};
ghost use Rattle.typed_tree.specs.Syntax.{Block, NoDecl};
ghost use Rattle.lower_emission.specs.Emission as value;
ghost use Rattle.lower_emission.specs.Statements as spec;
ghost use Rattle.lower_emission.specs.Scope as scope;
ghost use Rattle.lower_emission.specs.Scope.{◌⨟◌, keep, one, own, taking, with_handled};
ghost use Rattle.stack_code.specs.Listing.{reason_number};
ghost use Rattle.stack_code.specs.declared.instr.Instr.TheVariants as i;
ghost use Rattle.lower_values.specs.Words.{env_of, entity, nodes, tables, Emits};

use crate::defaults::defaulted;
use crate::stmts::all;
use ada_base::Reason;
use lower_values::aggregates::{held, own};
use lower_values::cells::{object_cells, width};
use lower_values::exprs::put_into;
use lower_values::types::{Emitter, Env, Link, Names};
use stack_code::{Instr, reason_number};
use typed_tree::{Decl, Handler, Leaf};

/// A block, from one of its declarations on.
#[cycle(stmt)]
#[inline(never)]
#[tactic(auto, unfolding(lower_emission::specs::Statements::stmt))]
pub fn block(env: &Env<'_>, decls: u32, stmts: u32, handlers: u32, out: &mut Emitter)
    ensures { Emits (spec.stmt (tables env.now) (env_of env.now) (Block (decls_at (nodes env.now) decls) (stmts_at (nodes env.now) stmts) (handlers_at (nodes env.now) handlers))) out.old out.new }
{
    match env.typed.nodes.decls(decls) {
        None => body(env, stmts, handlers, out),
        Some(cell) => {
            let rest = Rest {
                decls: cell.rest,
                stmts,
                handlers,
            };
            match env.typed.nodes.decl(cell.first) {
                None | Some(Decl::Mentions { .. }) => block(env, cell.rest, stmts, handlers, out),
                Some(Decl::Variable { object, initial }) => {
                    declare(env, false, object, initial, rest, out);
                }
                Some(Decl::Constant { object, initial }) => {
                    declare(env, true, object, initial, rest, out);
                }
                Some(Decl::Default { object }) => declare_default(env, object, rest, out),
            }
        }
    }
}

/// What follows a declaration in its scope.
#[derive(Clone, Copy)]
struct Rest {
    decls: u32,
    stmts: u32,
    handlers: u32,
}

#[cycle(stmt)]
#[inline(never)]
fn declare(env: &Env<'_>, constant: bool, object: u32, initial: u32, rest: Rest, out: &mut Emitter)
    ensures { Emits (value.put_into (tables env.now) (taking (value.width (tables env.now) (value_at (nodes env.now) initial)) (env_of env.now)) 0 env.now.free (value_at (nodes env.now) initial) ⨟ spec.stmt (tables env.now) (spec.object_here (env_of env.now) (entity constant object) (value.width (tables env.now) (value_at (nodes env.now) initial))) (Block (decls_at (nodes env.now) rest.decls) (stmts_at (nodes env.now) rest.stmts) (handlers_at (nodes env.now) rest.handlers))) out.old out.new }
{
    let cells = width(env, initial, out);
    let free = out.sum(env.free, cells);
    put_into(&env.with_free(free), 0, env.free, initial, out);
    let names = Names::And {
        link: Link::Object {
            constant,
            object,
            named: held(env.free, cells),
        },
        outer: &env.names,
    };
    let inner = Env {
        names,
        free,
        ..*env
    };
    block(&inner, rest.decls, rest.stmts, rest.handlers, out);
}

#[cycle(stmt)]
#[inline(never)]
fn declare_default(env: &Env<'_>, object: u32, rest: Rest, out: &mut Emitter)
    ensures { Emits (spec.defaulted (tables env.now) (env_of env.now) env.now.free object ⨟ spec.stmt (tables env.now) (spec.object_here (env_of env.now) (VariableOf object) (length (object_layout (tables env.now) object))) (Block (decls_at (nodes env.now) rest.decls) (stmts_at (nodes env.now) rest.stmts) (handlers_at (nodes env.now) rest.handlers))) out.old out.new }
{
    let cells = object_cells(env, object, out);
    let free = out.sum(env.free, cells);
    defaulted(env, env.free, object, out);
    let names = Names::And {
        link: Link::Object {
            constant: false,
            object,
            named: held(env.free, cells),
        },
        outer: &env.names,
    };
    let inner = Env {
        names,
        free,
        ..*env
    };
    block(&inner, rest.decls, rest.stmts, rest.handlers, out);
}

fn no_handler(env: &Env<'_>, id: u32) -> bool
    ensures { result ≡ spec.no_handler (handlers_at (nodes env.now) id) }
{
    let mut at = id;
    while let Some(cell) = env.typed.nodes.handlers(at) {
        match env.typed.nodes.handler(cell.first) {
            None => {
                at = cell.rest;
            }
            Some(_) => {
                return false;
            }
        }
    }
    true
}

/// Statements with their handlers.
#[cycle(stmt)]
#[inline(never)]
#[tactic(auto, unfolding(lower_emission::specs::Statements::stmt))]
pub fn body(env: &Env<'_>, stmts: u32, handlers: u32, out: &mut Emitter)
    ensures { Emits (spec.stmt (tables env.now) (env_of env.now) (Block NoDecl (stmts_at (nodes env.now) stmts) (handlers_at (nodes env.now) handlers))) out.old out.new }
{
    if no_handler(env, handlers) {
        all(env, stmts, out);
    } else {
        guarded(env, stmts, handlers, out);
    }
}

/// Statements, and their handlers behind them.
#[cycle(stmt)]
#[inline(never)]
fn guarded(env: &Env<'_>, stmts: u32, handlers: u32, out: &mut Emitter)
    ensures { Emits (scope.guarded (env_of env.now) (keep (env_of env.now) 1 env.now.free ⨟ spec.handling (tables env.now) (with_handled (own env.now.free) (taking 1 (env_of env.now))) env.now.free (handlers_at (nodes env.now) handlers)) (λ handler. spec.all (tables env.now) (scope.with_entry handler (env_of env.now)) (stmts_at (nodes env.now) stmts))) out.old out.new }
{
    let enter = out.gap(env, 0);
    let landmark = out.gap(env, 1);
    let start = out.here();
    out.aim_at(env, 0, enter, start);
    let entry = Some(landmark);
    all(&Env { entry, ..*env }, stmts, out);
    let over = out.gap(env, 0);
    out.aim(env, 1, landmark);
    handlers_of(env, handlers, out);
    out.aim(env, 0, over);
}

/// Handlers, with what is handled on the stack.
#[cycle(stmt)]
#[inline(never)]
fn handlers_of(env: &Env<'_>, id: u32, out: &mut Emitter)
    ensures { Emits (keep (env_of env.now) 1 env.now.free ⨟ spec.handling (tables env.now) (with_handled (own env.now.free) (taking 1 (env_of env.now))) env.now.free (handlers_at (nodes env.now) id)) out.old out.new }
{
    let free = out.sum(env.free, 1);
    out.keep(env, 0, env.free);
    let names = Names::And {
        link: Link::Handled {
            place: own(env.free),
        },
        outer: &env.names,
    };
    handling(
        &Env {
            names,
            free,
            ..*env
        },
        env.free,
        id,
        out,
    );
}

#[cycle(stmt)]
#[inline(never)]
#[tactic(auto, unfolding(lower_emission::specs::Statements::handling))]
fn handling(env: &Env<'_>, d: u32, id: u32, out: &mut Emitter)
    ensures { Emits (spec.handling (tables env.now) (env_of env.now) d (handlers_at (nodes env.now) id)) out.old out.new }
{
    match env.typed.nodes.handlers(id) {
        None => {
            out.put(env, 0, Instr::LoadL(d));
            out.put(env, 1, Instr::Reraise);
        }
        Some(cell) => match env.typed.nodes.handler(cell.first) {
            None => handling(env, d, cell.rest, out),
            Some(Handler::Others { stmts }) => all(env, stmts, out),
            Some(Handler::Reasons { reasons, stmts }) => {
                has_reason(env, d, reasons, out);
                let first = out.gap(env, 0);
                all(env, stmts, out);
                let second = out.gap(env, 0);
                out.aim_false(env, 0, first);
                handling(env, d, cell.rest, out);
                out.aim(env, 0, second);
            }
        },
    }
}

fn push_reason(env: &Env<'_>, reason: Reason, out: &mut Emitter)
    ensures { Emits (one (env_of env.now) 1 (i.Push (pos (reason_number reason)))) out.old out.new }
{
    out.put(env, 1, Instr::Push(reason_number(reason) as i64));
}

/// Whether the number in a cell is that of one of some reasons.
fn has_reason(env: &Env<'_>, d: u32, id: u32, out: &mut Emitter)
    ensures { Emits (spec.has_reason (env_of env.now) d (as_reasons (part_at (nodes env.now) id))) out.old out.new }
{
    match env.typed.nodes.leaf(id) {
        None => out.put(env, 0, Instr::Push(0)),
        Some(cell) => match cell.leaf {
            Leaf::Reason(reason) => {
                out.put(env, 0, Instr::LoadL(d));
                push_reason(env, reason, out);
                out.put(env, 2, Instr::Eq);
                let first = out.gap(env, 0);
                out.put(env, 0, Instr::Push(1));
                let second = out.gap(env, 0);
                out.aim_false(env, 0, first);
                has_reason(env, d, cell.rest, out);
                out.aim(env, 1, second);
            }
            _ => has_reason(env, d, cell.rest, out),
        },
    }
}

/// Whether the number in a cell is one of some choices.
fn chosen(env: &Env<'_>, d: u32, id: u32, out: &mut Emitter)
    ensures { Emits (spec.chosen (env_of env.now) d (as_spans (part_at (nodes env.now) id))) out.old out.new }
{
    match env.typed.nodes.leaf(id) {
        None => out.put(env, 0, Instr::Push(0)),
        Some(cell) => match cell.leaf {
            Leaf::Span(span) => {
                in_span(env, d, span.low, span.high, out);
                let first = out.gap(env, 0);
                out.put(env, 0, Instr::Push(1));
                let second = out.gap(env, 0);
                out.aim_false(env, 0, first);
                chosen(env, d, cell.rest, out);
                out.aim(env, 1, second);
            }
            _ => chosen(env, d, cell.rest, out),
        },
    }
}

fn in_span(env: &Env<'_>, d: u32, low: i64, high: i64, out: &mut Emitter)
    ensures { Emits (spec.in_span (env_of env.now) d low high) out.old out.new }
{
    out.operate(env, 0, Instr::LoadL(d), Instr::Push(low), Instr::Ge);
    out.operate(env, 1, Instr::LoadL(d), Instr::Push(high), Instr::Le);
    out.put(env, 2, Instr::Min);
}

/// The alternatives of a case statement, whose value is in a cell.
#[cycle(stmt)]
#[inline(never)]
#[tactic(auto, unfolding(lower_emission::specs::Statements::cases))]
pub fn cases(env: &Env<'_>, id: u32, d: u32, out: &mut Emitter)
    ensures { Emits (spec.cases (tables env.now) (env_of env.now) d (alternatives_at (nodes env.now) id)) out.old out.new }
{
    match env.typed.nodes.alternatives(id) {
        None => out.put(env, 0, Instr::Raise(Reason::ConstraintError)),
        Some(cell) => match env.typed.nodes.alternative(cell.first) {
            None => cases(env, cell.rest, d, out),
            Some(alternative) => {
                if alternative.others {
                    all(env, alternative.stmts, out);
                } else {
                    chosen(env, d, alternative.choices, out);
                    let first = out.gap(env, 0);
                    all(env, alternative.stmts, out);
                    let second = out.gap(env, 0);
                    out.aim_false(env, 0, first);
                    cases(env, cell.rest, d, out);
                    out.aim(env, 0, second);
                }
            }
        },
    }
}
