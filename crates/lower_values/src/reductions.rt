//! Reductions (4.5.10).

ghost use Rattle.std.specs.Prelude.{◌≡◌, ◌<◌, ◌+◌, None, Some, true, false};
ghost use Rattle.typed_tree.specs.Decoded.{check_at, chunk_at, expr_at, iteration_at, optional_at, reducer_at, selections_at};
ghost use Rattle.typed_tree.specs.Syntax.{Reduction};
ghost use Rattle.lower_emission.specs.Emission as spec;
ghost use Rattle.lower_emission.specs.Scope.{◌⨟◌, forks, looped, nested, one, keep, taking, thread_scope};
ghost use Rattle.lower_values.specs.Words.{env_of, nodes, tables, Emits};
ghost use Rattle.stack_code.specs.declared.instr.Instr.TheVariants as i;
ghost use Rattle.ada_base.specs.declared.operation.Comparison.TheVariants as comparison;

use crate::aggregates::{self, Steps, own, reached, stepping};
use crate::exprs::{checked, emit};
use crate::instrs::{binary_instr, compare_instr};
use crate::iterations::{
    Array, Counted, array_address, ascending, bounds, bounds_code, chunk_code, chunk_env, counting,
    course_code, ends_code, first_item, first_parameter, positions,
};
use crate::kinds::reduction_kind;
use crate::types::{Emitter, Env};
use ada_base::Comparison;
use stack_code::{Instr, SiteKind};
use typed_tree::{Expr, Iteration, Reducer, Scalar};

/// What is folded, and by what.
#[derive(Clone, Copy)]
struct Fold {
    value: u32,
    by: Reducer,
}

/// A parallel reduction, with its tokens.
#[derive(Clone, Copy)]
struct Forked {
    at: u32,
    attribute: u32,
    chunk: u32,
    iteration: u32,
}

/// A reduction.
#[cycle(emit)]
#[inline(never)]
pub fn reduction(env: &Env<'_>, h: u32, id: u32, out: &mut Emitter)
    ensures { Emits (spec.emit (tables env.now) (env_of env.now) h (expr_at (nodes env.now) id)) out.old out.new }
{
    if let Expr::Reduction {
        at,
        attribute,
        reducer,
        initial,
        site,
        chunk,
        iteration,
        value,
    } = env.typed.nodes.expr(id)
    {
        let fold = Fold {
            value,
            by: env.typed.nodes.reducer(reducer),
        };
        let forked = Forked {
            at,
            attribute,
            chunk,
            iteration,
        };
        match site {
            None => ordered(env, h, initial, forked, fold, out),
            Some(site) => {
                let parallel = Parallel { site, initial };
                fork(env, h, parallel, forked, fold, out);
            }
        }
    } else {
        out.whole = false;
    }
}

/// A reduction in order.
#[cycle(emit)]
#[inline(never)]
#[tactic(auto, unfolding(lower_emission::specs::Emission::emit))]
fn ordered(env: &Env<'_>, h: u32, initial: u32, forked: Forked, fold: Fold, out: &mut Emitter)
    ensures { Emits (spec.emit (tables env.now) (env_of env.now) h (Reduction forked.at forked.attribute fold.by (expr_at (nodes env.now) initial) None (chunk_at (nodes env.now) forked.chunk) (iteration_at (nodes env.now) forked.iteration) (expr_at (nodes env.now) fold.value))) out.old out.new }
{
    emit(env, h, initial, out);
    folded(env, h, forked.iteration, fold, out);
}

/// The site of a parallel reduction, and its initial value.
#[derive(Clone, Copy)]
struct Parallel {
    site: u32,
    initial: u32,
}

/// The number on the stack is folded into the one below it.
fn folding(env: &Env<'_>, h: u32, by: Reducer, out: &mut Emitter)
    ensures { Emits (spec.folding (env_of env.now) h by) out.old out.new }
{
    let h1 = out.sum(h, 1);
    match by {
        Reducer::Operator { op, class, .. } => out.put_above(env, h, 2, binary_instr(op, class)),
        Reducer::Function {
            sub,
            accumulator,
            value,
            ..
        } => {
            let free1 = out.sum(env.free, 1);
            let number = out.sum(sub, 1);
            out.keep(env, h1, free1);
            out.keep_checked(env, h, accumulator, env.free);
            out.put(env, h, Instr::LoadL(free1));
            checked(env, h, value, out);
            out.put(env, h1, Instr::Pop);
            out.put(env, h, Instr::CallAt(number, env.free));
        }
    }
}

/// A value is folded where the filter passes.
#[cycle(emit)]
#[inline(never)]
#[tactic(auto, using(crate::proofs::Reading::present_is), unfolding(lower_emission::specs::Emission::filtered))]
fn fold_turn(env: &Env<'_>, h: u32, filter: u32, fold: Fold, out: &mut Emitter)
    ensures { Emits (spec.filtered (tables env.now) (env_of env.now) (h + 1) (optional_at (nodes env.now) filter) (spec.emit (tables env.now) (env_of env.now) (h + 1) (expr_at (nodes env.now) fold.value) ⨟ spec.folding (env_of env.now) h fold.by)) out.old out.new }
{
    let h1 = out.sum(h, 1);
    match env.typed.nodes.optional(filter) {
        None => {
            emit(env, h1, fold.value, out);
            folding(env, h, fold.by, out);
        }
        Some(_) => {
            emit(env, h1, filter, out);
            let over = out.gap(env, h1);
            emit(env, h1, fold.value, out);
            folding(env, h, fold.by, out);
            out.aim_false(env, h1, over);
        }
    }
}

/// The turns of a reduction in order.
#[cycle(emit)]
#[inline(never)]
#[tactic(auto, unfolding(lower_emission::specs::Emission::iterated))]
fn folded(env: &Env<'_>, h: u32, iteration: u32, fold: Fold, out: &mut Emitter)
    ensures { Emits (spec.iterated (tables env.now) (env_of env.now) (h + 1) None (iteration_at (nodes env.now) iteration) (λ t. spec.emit (tables env.now) t (h + 1) (expr_at (nodes env.now) fold.value) ⨟ spec.folding t h fold.by)) out.old out.new }
{
    let h1 = out.sum(h, 1);
    match env.typed.nodes.iteration(iteration) {
        Some(
            Iteration::Range {
                parameter,
                reverse,
                low,
                high,
                check,
                filter,
            },
        ) => {
            bounds(env, h1, low, high, out);
            ascending(env, h1, env.free, out);
            let over = out.gap(env, h1);
            bounds_code(env, h1, env.free, check, out);
            let turns = Turns { filter, fold };
            range_folds(env, h, parameter, reverse, turns, out);
            out.aim_false(env, h1, over);
        }
        Some(
            Iteration::Components {
                item,
                constant,
                root,
                selections,
                count,
                stride,
                filter,
                ..
            },
        ) => {
            let array = Array {
                constant,
                root,
                selections,
            };
            array_address(env, h1, array, out);
            if count != 0 {
                positions(env, h1, count, out);
                let turns = Turns { filter, fold };
                let through = Through {
                    item,
                    constant,
                    stride,
                };
                item_folds(env, h, through, turns, out);
            }
        }
        None => {
            out.whole = false;
        }
    }
}

/// What is done in each turn.
#[derive(Clone, Copy)]
struct Turns {
    filter: u32,
    fold: Fold,
}

#[cycle(emit)]
#[inline(never)]
fn range_folds(
    env: &Env<'_>,
    h: u32,
    parameter: u32,
    reverse: bool,
    turns: Turns,
    out: &mut Emitter,
)
    ensures { Emits (looped (env_of env.now) (h + 1) true (λ exit. one (env_of env.now) (h + 1) i.Turn ⨟ spec.filtered (tables env.now) (spec.range_scope (env_of env.now) None parameter reverse exit) (h + 1) (optional_at (nodes env.now) turns.filter) (spec.emit (tables env.now) (spec.range_scope (env_of env.now) None parameter reverse exit) (h + 1) (expr_at (nodes env.now) turns.fold.value) ⨟ spec.folding (spec.range_scope (env_of env.now) None parameter reverse exit) h turns.fold.by)) (λ head. one (env_of env.now) (h + 1) (spec.counting reverse env.now.free head))) out.old out.new }
{
    let h1 = out.sum(h, 1);
    let counted = Counted {
        reverse,
        first: env.free,
    };
    let begun = out.begin(env, h1);
    let cell = first_parameter(counted, out);
    let free = out.sum(env.free, 2);
    let inner = env.with_parameter(parameter, own(cell), free);
    fold_turn(&inner, h, turns.filter, turns.fold, out);
    out.aim_at(env, h1, begun.enter, begun.head);
    counting(env, h1, counted, begun.head, out);
    out.aim(env, h1, begun.leave);
}

/// What a loop goes through: its item, and how far the next is.
#[derive(Clone, Copy)]
struct Through {
    item: u32,
    constant: bool,
    stride: u32,
}

#[cycle(emit)]
#[inline(never)]
fn item_folds(env: &Env<'_>, h: u32, through: Through, turns: Turns, out: &mut Emitter)
    ensures { Emits (looped (env_of env.now) (h + 1) true (λ exit. one (env_of env.now) (h + 1) i.Turn ⨟ spec.filtered (tables env.now) (spec.item_scope (env_of env.now) None through.constant through.item through.stride exit) (h + 1) (optional_at (nodes env.now) turns.filter) (spec.emit (tables env.now) (spec.item_scope (env_of env.now) None through.constant through.item through.stride exit) (h + 1) (expr_at (nodes env.now) turns.fold.value) ⨟ spec.folding (spec.item_scope (env_of env.now) None through.constant through.item through.stride exit) h turns.fold.by)) (λ head. spec.stepping (env_of env.now) (h + 1) env.now.free through.stride (env.now.free + 1) head)) out.old out.new }
{
    let h1 = out.sum(h, 1);
    let first = out.sum(env.free, 1);
    let free = out.sum(env.free, 3);
    let begun = out.begin(env, h1);
    let reached = reached(env.free, through.stride);
    let inner = env.with_item(through.constant, through.item, reached, free);
    fold_turn(&inner, h, turns.filter, turns.fold, out);
    out.aim_at(env, h1, begun.enter, begun.head);
    let steps = Steps {
        address: env.free,
        stride: through.stride,
        first,
    };
    stepping(env, h1, steps, begun.head, out);
    out.aim(env, h1, begun.leave);
}

/// A parallel reduction.
#[cycle(emit)]
#[inline(never)]
#[tactic(auto, unfolding(lower_emission::specs::Emission::emit))]
fn fork(env: &Env<'_>, h: u32, parallel: Parallel, forked: Forked, fold: Fold, out: &mut Emitter)
    ensures { Emits (spec.emit (tables env.now) (env_of env.now) h (Reduction forked.at forked.attribute fold.by (expr_at (nodes env.now) parallel.initial) (Some parallel.site) (chunk_at (nodes env.now) forked.chunk) (iteration_at (nodes env.now) forked.iteration) (expr_at (nodes env.now) fold.value))) out.old out.new }
{
    let h1 = out.sum(h, 1);
    let free = out.sum(env.free, 1);
    let nest = out.sum(env.nest, 1);
    opened(env, h, parallel.initial, out);
    let inside = env.with_free(free).with_nest(nest);
    let question = Question {
        site: parallel.site,
        kind: reduction_kind(env.typed, fold.by, forked.chunk),
        initial: Instr::LoadL(env.free),
    };
    forking(&inside, h, forked.chunk, forked.iteration, question, out);
    let over = out.gap(&inside, h1);
    thread(env, parallel.site, forked, fold, out);
    out.aim(&inside, h1, over);
    out.put(&inside, h1, Instr::Unnest);
    together(&env.with_free(free), h, fold.by, out);
}

/// The initial value goes to a cell of the frame, and a construct is begun.
#[cycle(emit)]
#[inline(never)]
fn opened(env: &Env<'_>, h: u32, initial: u32, out: &mut Emitter)
    ensures { Emits (spec.emit (tables env.now) (env_of env.now) h (expr_at (nodes env.now) initial) ⨟ keep (env_of env.now) (h + 1) env.now.free ⨟ one (env_of env.now) h i.Nest) out.old out.new }
{
    emit(env, h, initial, out);
    out.keep(env, h, env.free);
    out.put(env, h, Instr::Nest);
}

/// Combines the accumulators of threads, where the chunks and the course have two cells each.
fn together(env: &Env<'_>, h: u32, by: Reducer, out: &mut Emitter)
    ensures { Emits (spec.combined (taking 2 (taking 2 (env_of env.now))) h by) out.old out.new }
{
    let course = out.sum(env.free, 2);
    let behind = out.sum(course, 2);
    combined(&env.with_free(behind), h, by, out);
}

/// The fork of a loop or a reduction, with what it is asked.
#[cycle(emit)]
#[inline(never)]
pub fn forking(
    env: &Env<'_>,
    h: u32,
    chunk: u32,
    iteration: u32,
    question: Question,
    out: &mut Emitter,
)
    ensures { Emits (spec.chunk_code (tables env.now) (env_of env.now) h (chunk_at (nodes env.now) chunk) ⨟ spec.course_code (tables env.now) (taking 2 (env_of env.now)) h (iteration_at (nodes env.now) iteration) ⨟ spec.ends_code (taking 2 (env_of env.now)) h (iteration_at (nodes env.now) iteration)
        ⨟ one (env_of env.now) (h + 1 + 1) (i.LoadL env.now.free) ⨟ one (env_of env.now) (h + 1 + 1 + 1) (i.LoadL (env.now.free + 1)) ⨟ one (env_of env.now) (h + 1 + 1 + 1 + 1) question.initial ⨟ forks (env_of env.now) (h + 1 + 1 + 1 + 1 + 1) question.kind question.site) out.old out.new }
{
    let free = out.sum(env.free, 2);
    chunk_code(env, h, chunk, out);
    let course = env.with_free(free);
    course_code(&course, h, iteration, out);
    ends_code(&course, h, iteration, out);
    ask(env, h, question, out);
}

/// Combines the accumulators of threads: an operator has done so at the fork, a function is called for each that is kept.
fn combined(env: &Env<'_>, h: u32, by: Reducer, out: &mut Emitter)
    ensures { Emits (spec.combined (env_of env.now) h by) out.old out.new }
{
    match by {
        Reducer::Operator { .. } => {}
        Reducer::Function {
            sub,
            accumulator,
            value,
            ..
        } => {
            let h2 = out.sum(h, 2);
            let number = out.sum(sub, 1);
            let head = out.here();
            out.put_above(env, h, 1, Instr::Part);
            let none = out.gap(env, h2);
            reducing(env, h, accumulator, value, out);
            out.put_above(env, h, 1, Instr::CallTo(number, env.free, head));
            out.aim_false(env, h2, none);
            out.put(env, h2, Instr::Pop);
        }
    }
}

/// The accumulator and the part go to the cells of the formals, and are tested.
fn reducing(env: &Env<'_>, h: u32, accumulator: Scalar, value: Scalar, out: &mut Emitter)
    ensures { Emits (spec.reducing (env_of env.now) h accumulator value) out.old out.new }
{
    let h1 = out.sum(h, 1);
    let free1 = out.sum(env.free, 1);
    out.keep(env, h1, free1);
    out.keep(env, h, env.free);
    ranged(env, h, env.free, accumulator, out);
    ranged(env, h1, free1, value, out);
    out.put_above(env, h, 2, Instr::Min);
}

/// Tests whether the number in a cell is at least the subtype's first one.
fn at_least(env: &Env<'_>, h: u32, cell: u32, subtype: Scalar, out: &mut Emitter)
    ensures { Emits (one (env_of env.now) h (i.LoadL cell) ⨟ one (env_of env.now) (h + 1) (i.Push subtype.low) ⨟ one (env_of env.now) (h + 1 + 1) (spec.compare_instr comparison.AtLeast subtype.class)) out.old out.new }
{
    let instr = compare_instr(Comparison::AtLeast, subtype.class);
    out.operate(env, h, Instr::LoadL(cell), Instr::Push(subtype.low), instr);
}

/// Tests whether it is at most the last one.
fn at_most(env: &Env<'_>, h: u32, cell: u32, subtype: Scalar, out: &mut Emitter)
    ensures { Emits (one (env_of env.now) h (i.LoadL cell) ⨟ one (env_of env.now) (h + 1) (i.Push subtype.high) ⨟ one (env_of env.now) (h + 1 + 1) (spec.compare_instr comparison.AtMost subtype.class)) out.old out.new }
{
    let instr = compare_instr(Comparison::AtMost, subtype.class);
    out.operate(env, h, Instr::LoadL(cell), Instr::Push(subtype.high), instr);
}

/// Tests whether the number in a cell is one of the subtype's.
fn ranged(env: &Env<'_>, h: u32, cell: u32, subtype: Scalar, out: &mut Emitter)
    ensures { Emits (spec.ranged (env_of env.now) h cell subtype) out.old out.new }
{
    let h1 = out.sum(h, 1);
    at_least(env, h, cell, subtype, out);
    at_most(env, h1, cell, subtype, out);
    out.put_above(env, h, 2, Instr::Min);
}

/// A fork's site, what it begins, and the instruction that gives its initial value.
#[derive(Clone, Copy)]
pub struct Question {
    pub site: u32,
    pub kind: SiteKind,
    pub initial: Instr,
}

/// A fork, whose first and last chunk value are in the first free cells, with what it is asked.
pub fn ask(env: &Env<'_>, h: u32, question: Question, out: &mut Emitter)
    ensures { Emits (one (env_of env.now) (h + 1 + 1) (i.LoadL env.now.free) ⨟ one (env_of env.now) (h + 1 + 1 + 1) (i.LoadL (env.now.free + 1)) ⨟ one (env_of env.now) (h + 1 + 1 + 1 + 1) question.initial ⨟ forks (env_of env.now) (h + 1 + 1 + 1 + 1 + 1) question.kind question.site) out.old out.new }
{
    let h5 = out.sum(h, 5);
    let free1 = out.sum(env.free, 1);
    out.put_above(env, h, 2, Instr::LoadL(env.free));
    out.put_above(env, h, 3, Instr::LoadL(free1));
    out.put_above(env, h, 4, question.initial);
    out.fork(env, h5, question.kind, question.site);
}

/// The threads of a parallel reduction.
#[cycle(emit)]
#[inline(never)]
#[tactic(auto, unfolding(lower_emission::specs::Emission::threaded))]
fn thread(env: &Env<'_>, site: u32, forked: Forked, fold: Fold, out: &mut Emitter)
    ensures { Emits (one (spec.chunk_scope (chunk_at (nodes env.now) forked.chunk) (taking 2 (thread_scope site (env_of env.now)))) 0 (i.LoadL 1)
        ⨟ spec.threaded (tables env.now) (thread_scope site (env_of env.now)) 1 (chunk_at (nodes env.now) forked.chunk) (env.now.free + 1 + 1 + 1) (iteration_at (nodes env.now) forked.iteration) (λ u. spec.emit (tables env.now) u 1 (expr_at (nodes env.now) fold.value) ⨟ spec.folding u 0 fold.by)
        ⨟ one (spec.chunk_scope (chunk_at (nodes env.now) forked.chunk) (taking 2 (thread_scope site (env_of env.now)))) 1 i.EndV) out.old out.new }
{
    let free1 = out.sum(env.free, 1);
    let free2 = out.sum(free1, 1);
    let around = out.sum(free2, 1);
    let outer = env.in_threads(site, 2);
    let inner = chunk_env(&outer, forked.chunk);
    out.put(&inner, 0, Instr::LoadL(1));
    match env.typed.nodes.iteration(forked.iteration) {
        Some(
            Iteration::Range {
                parameter,
                filter,
                ..
            },
        ) => {
            let turns = Turns { filter, fold };
            range_thread(&inner, parameter, turns, out);
        }
        Some(
            Iteration::Components {
                item,
                constant,
                count,
                stride,
                filter,
                ..
            },
        ) => {
            let turns = Turns { filter, fold };
            let through = Through {
                item,
                constant,
                stride,
            };
            item_thread(&inner, around, count, through, turns, out);
        }
        None => {
            out.whole = false;
        }
    }
    out.put(&inner, 1, Instr::EndV);
}

#[cycle(emit)]
#[inline(never)]
fn range_thread(env: &Env<'_>, parameter: u32, turns: Turns, out: &mut Emitter)
    ensures { Emits (spec.turns_code (env_of env.now) 1 env.now.free (one (env_of env.now) 1 i.Turn ⨟ spec.filtered (tables env.now) (spec.range_scope (env_of env.now) None parameter false 0) 1 (optional_at (nodes env.now) turns.filter) (spec.emit (tables env.now) (spec.range_scope (env_of env.now) None parameter false 0) 1 (expr_at (nodes env.now) turns.fold.value) ⨟ spec.folding (spec.range_scope (env_of env.now) None parameter false 0) 0 turns.fold.by))) out.old out.new }
{
    ascending(env, 1, env.free, out);
    let over = out.gap(env, 1);
    range_folds(env, 0, parameter, false, turns, out);
    out.aim_false(env, 1, over);
}

#[cycle(emit)]
#[inline(never)]
fn item_thread(
    env: &Env<'_>,
    around: u32,
    count: u32,
    through: Through,
    turns: Turns,
    out: &mut Emitter,
)
    ensures { Emits (spec.items_code (env_of env.now) 1 env.now.free around through.stride count (one (env_of env.now) 1 i.Turn ⨟ spec.filtered (tables env.now) (spec.turn_item (env_of env.now) through.constant through.item through.stride) 1 (optional_at (nodes env.now) turns.filter) (spec.emit (tables env.now) (spec.turn_item (env_of env.now) through.constant through.item through.stride) 1 (expr_at (nodes env.now) turns.fold.value) ⨟ spec.folding (spec.turn_item (env_of env.now) through.constant through.item through.stride) 0 turns.fold.by))) out.old out.new }
{
    let free1 = out.sum(env.free, 1);
    let free2 = out.sum(free1, 1);
    let free = out.sum(env.free, 3);
    ascending(env, 1, env.free, out);
    let over = out.gap(env, 1);
    let components = aggregates::Components {
        size: through.stride,
        count,
    };
    first_item(env, 1, around, components, out);
    let begun = out.begin(env, 1);
    let reached = reached(free2, through.stride);
    let inner = env.with_item(through.constant, through.item, reached, free);
    fold_turn(&inner, 0, turns.filter, turns.fold, out);
    out.aim_at(env, 1, begun.enter, begun.head);
    let steps = Steps {
        address: free2,
        stride: through.stride,
        first: env.free,
    };
    stepping(env, 1, steps, begun.head, out);
    out.aim(env, 1, begun.leave);
    out.aim_false(env, 1, over);
}
