//! Expressions (4.4).

ghost use Rattle.std.specs.Prelude.{◌≡◌, ◌<◌, ◌+◌, Option};
ghost use Rattle.typed_tree.specs.Decoded.{actuals_at, associations_at, as_runs, check_at, chunk_at, composite_at, part_at, expr_at, iteration_at, optional_at, reducer_at, selections_at, value_at};
ghost use Rattle.typed_tree.specs.Syntax.{Membership};
ghost use Rattle.lower_emission.specs.Emission as spec;
ghost use Rattle.lower_emission.specs.Scope.{◌⨟◌, one, choose, keep, taking};
ghost use Rattle.lower_values.specs.Words.{env_of, nodes, tables, Emits, Learns};
ghost use Rattle.stack_code.specs.declared.instr.Instr.TheVariants as i;

use crate::aggregates::composed;
use crate::calls::call;
use crate::instrs::{
    address_of, binary_instr, check_instr, compare_instr, fixed_instr, load_of, main_named,
    own_named, own_where, unary_instr,
};
use crate::reductions::reduction;
use crate::types::{Emitter, Env, Index};
use ada_base::{Comparison, Op, Reason};
use lower_emission::types::{Named, Where};
use stack_code::Instr;
use typed_tree::{Class, Expr, Scalar, Selection, Value};

/// What no accepted program reaches.
pub fn lost(env: &Env<'_>, h: u32, out: &mut Emitter)
    ensures { Emits (spec.lost (env_of env.now) h) out.old out.new }
{
    out.put(env, h, Instr::Raise(Reason::ProgramError));
}

/// The number above that height is checked.
pub fn checked(env: &Env<'_>, h: u32, scalar: Scalar, out: &mut Emitter)
    ensures { Emits (spec.checked (env_of env.now) (h + 1) scalar) out.old out.new }
{
    out.put_above(env, h, 1, check_instr(scalar));
}

fn load(env: &Env<'_>, h: u32, found: Option<Named>, out: &mut Emitter)
    ensures { Emits (spec.load_named (env_of env.now) h found) out.old out.new }
{
    match found {
        None => lost(env, h, out),
        Some(named) => {
            out.put(env, h, load_of(named.place));
            if named.through {
                out.put_above(env, h, 1, Instr::Load);
            }
        }
    }
}

fn load_where(env: &Env<'_>, h: u32, found: Option<Where>, out: &mut Emitter)
    ensures { Emits (spec.load_where (env_of env.now) h found) out.old out.new }
{
    match found {
        None => lost(env, h, out),
        Some(place) => out.put(env, h, load_of(place)),
    }
}

/// The address of what is named.
pub fn address(env: &Env<'_>, h: u32, found: Option<Named>, out: &mut Emitter)
    ensures { Emits (spec.address (env_of env.now) h found) out.old out.new }
{
    match found {
        None => lost(env, h, out),
        Some(named) => out.put(env, h, address_of(named)),
    }
}

/// Whether a name has no selections.
pub fn is_whole(env: &Env<'_>, id: u32) -> bool
    ensures { result ≡ spec.is_whole (selections_at (nodes env.now) id) }
{
    let mut at = id;
    while let Some(cell) = env.typed.nodes.selections(at) {
        match env.typed.nodes.selection(cell.first) {
            None => {
                at = cell.rest;
            }
            Some(_) => {
                return false;
            }
        }
    }
    true
}

/// The cell of the own frame in which a value lies that a name gives, if it is such a value.
fn own_cell(env: &Env<'_>, id: u32, out: &mut Emitter) -> Option<u32>
    ensures { Learns (spec.own_cell (env_of env.now) (expr_at (nodes env.now) id)) out.old result out.new }
{
    match env.typed.nodes.expr(id) {
        Expr::Variable {
            root,
            selections,
            ..
        } => {
            let found = env.root(false, root, out);
            if is_whole(env, selections) {
                own_named(found)
            } else {
                None
            }
        }
        Expr::Constant {
            root,
            selections,
            ..
        } => {
            let found = env.root(true, root, out);
            if is_whole(env, selections) {
                own_named(found)
            } else {
                None
            }
        }
        Expr::Parameter { parameter, .. } => {
            let found = env.names.parameter(parameter, out);
            own_where(found)
        }
        _ => None,
    }
}

/// The instruction of an operator and its right operand, where that is static and stands in it.
fn static_instr(env: &Env<'_>, op: Op, class: Class, right: u32) -> Option<Instr>
    ensures { result ≡ spec.static_instr op class (expr_at (nodes env.now) right) }
{
    match env.typed.nodes.expr(right) {
        Expr::Static { value, .. } => fixed_instr(op, class, value),
        _ => None,
    }
}

/// Pushes the value of an expression.
#[cycle(emit)]
#[tactic(auto, unfolding(lower_emission::specs::Emission::emit))]
pub fn emit(env: &Env<'_>, h: u32, id: u32, out: &mut Emitter)
    ensures { Emits (spec.emit (tables env.now) (env_of env.now) h (expr_at (nodes env.now) id)) out.old out.new }
{
    match env.typed.nodes.expr(id) {
        Expr::Static { value, .. } => out.put(env, h, Instr::Push(value)),
        Expr::Variable {
            root,
            selections,
            ..
        } => {
            let found = env.root(false, root, out);
            named(env, h, found, selections, out);
        }
        Expr::Constant {
            root,
            selections,
            ..
        } => {
            let found = env.root(true, root, out);
            named(env, h, found, selections, out);
        }
        Expr::Parameter { parameter, .. } => {
            let found = env.names.parameter(parameter, out);
            load_where(env, h, found, out);
        }
        Expr::Target { .. } => {
            let found = env.names.target(out);
            load(env, h, found, out);
        }
        Expr::Group { inside } => emit(env, h, inside, out),
        Expr::Unary {
            sign,
            class,
            operand,
            ..
        } => {
            emit(env, h, operand, out);
            out.put_above(env, h, 1, unary_instr(sign, class));
        }
        Expr::Binary {
            op,
            class,
            left,
            right,
            ..
        } => match static_instr(env, op, class, right) {
            Some(fixed) => applied(env, h, left, fixed, out),
            None => two(env, h, left, right, binary_instr(op, class), out),
        },
        Expr::AndThen { left, right } => and_then(env, h, left, right, out),
        Expr::OrElse { left, right } => or_else(env, h, left, right, out),
        Expr::Relation {
            comparison,
            class,
            left,
            right,
        } => two(env, h, left, right, compare_instr(comparison, class), out),
        Expr::Membership {
            negated,
            class,
            value,
            low,
            high,
            ..
        } => {
            between(env, h, class, value, low, high, out);
            if negated {
                out.put_above(env, h, 1, Instr::Flip);
            }
        }
        Expr::If {
            condition,
            value,
            otherwise,
        } => conditional(env, h, condition, value, otherwise, out),
        Expr::Convert { check, value } => {
            emit(env, h, value, out);
            checked(env, h, check.scalar, out);
        }
        Expr::Call { sub, actuals, .. } => call(env, h, sub, actuals, out),
        Expr::Reduction { .. } => reduction(env, h, id, out),
    }
}

/// Pushes the value of what is named, or of the part that selections lead to.
#[cycle(emit)]
#[inline(never)]
#[tactic(auto, unfolding(lower_emission::specs::Emission::named_value))]
fn named(env: &Env<'_>, h: u32, found: Option<Named>, id: u32, out: &mut Emitter)
    ensures { Emits (spec.named_value (tables env.now) (env_of env.now) h found (selections_at (nodes env.now) id)) out.old out.new }
{
    match env.typed.nodes.selections(id) {
        None => load(env, h, found, out),
        Some(cell) => match env.typed.nodes.selection(cell.first) {
            None => named(env, h, found, cell.rest, out),
            Some(Selection::Field { offset, .. }) => {
                address(env, h, found, out);
                let h1 = out.sum(h, 1);
                out.put(env, h1, Instr::Field(offset));
                read(env, h1, cell.rest, out);
            }
            Some(
                Selection::Index {
                    index,
                    low,
                    high,
                    stride,
                    ..
                },
            ) => {
                let index = Index {
                    index,
                    low,
                    high,
                    stride,
                };
                if is_whole(env, cell.rest) {
                    component_value(env, h, found, index, out);
                } else {
                    component_address(env, h, found, index, out);
                    let h1 = out.sum(h, 1);
                    read(env, h1, cell.rest, out);
                }
            }
        },
    }
}

/// The address of a component of what is named.
#[cycle(emit)]
#[inline(never)]
fn component_address(env: &Env<'_>, h: u32, found: Option<Named>, by: Index, out: &mut Emitter)
    ensures { Emits (spec.component_address (env_of env.now) h found (spec.main_named found) (spec.own_cell (env_of env.now) (expr_at (nodes env.now) by.index)) by.low by.high by.stride (spec.emit (tables env.now) (env_of env.now) (h + 1) (expr_at (nodes env.now) by.index))) out.old out.new }
{
    if let Some(first) = main_named(found) {
        if let Some(own) = own_cell(env, by.index, out) {
            out.put(
                env,
                h,
                Instr::IndexG(first, by.low, by.high, by.stride, own),
            );
            return;
        }
    }
    address(env, h, found, out);
    let h1 = out.sum(h, 1);
    indexed(env, h1, by.index, by.low, by.high, by.stride, out);
}

/// A component of what is named is read.
#[cycle(emit)]
#[inline(never)]
fn component_value(env: &Env<'_>, h: u32, found: Option<Named>, by: Index, out: &mut Emitter)
    ensures { Emits (spec.component_value (env_of env.now) h found (spec.main_named found) (spec.own_cell (env_of env.now) (expr_at (nodes env.now) by.index)) by.low by.high by.stride (spec.emit (tables env.now) (env_of env.now) (h + 1) (expr_at (nodes env.now) by.index))) out.old out.new }
{
    if let Some(first) = main_named(found) {
        if let Some(own) = own_cell(env, by.index, out) {
            out.put(env, h, Instr::ItemG(first, by.low, by.high, by.stride, own));
            return;
        }
    }
    address(env, h, found, out);
    let h1 = out.sum(h, 1);
    item(env, h1, by.index, by.low, by.high, by.stride, out);
}

/// The address on the stack is moved by an index.
#[cycle(emit)]
#[inline(never)]
fn indexed(env: &Env<'_>, h: u32, index: u32, low: i64, high: i64, stride: u32, out: &mut Emitter)
    ensures { Emits (spec.indexed_by (env_of env.now) h (spec.own_cell (env_of env.now) (expr_at (nodes env.now) index)) low high stride (spec.emit (tables env.now) (env_of env.now) h (expr_at (nodes env.now) index))) out.old out.new }
{
    match own_cell(env, index, out) {
        Some(own) => out.put(env, h, Instr::IndexL(own, low, high, stride)),
        None => {
            emit(env, h, index, out);
            out.put_above(env, h, 1, Instr::Index(low, high, stride));
        }
    }
}

/// The component at an index from the address on the stack is read.
#[cycle(emit)]
#[inline(never)]
fn item(env: &Env<'_>, h: u32, index: u32, low: i64, high: i64, stride: u32, out: &mut Emitter)
    ensures { Emits (spec.item_by (env_of env.now) h (spec.own_cell (env_of env.now) (expr_at (nodes env.now) index)) low high stride (spec.emit (tables env.now) (env_of env.now) h (expr_at (nodes env.now) index))) out.old out.new }
{
    match own_cell(env, index, out) {
        Some(own) => out.put(env, h, Instr::ItemL(own, low, high, stride)),
        None => {
            emit(env, h, index, out);
            out.put_above(env, h, 1, Instr::Item(low, high, stride));
        }
    }
}

/// The address on the stack is moved by selections.
#[cycle(emit)]
#[inline(never)]
#[tactic(auto, unfolding(lower_emission::specs::Emission::selected))]
pub fn selected(env: &Env<'_>, h: u32, id: u32, out: &mut Emitter)
    ensures { Emits (spec.selected (tables env.now) (env_of env.now) h (selections_at (nodes env.now) id)) out.old out.new }
{
    if let Some(cell) = env.typed.nodes.selections(id) {
        match env.typed.nodes.selection(cell.first) {
            None => selected(env, h, cell.rest, out),
            Some(Selection::Field { offset, .. }) => {
                out.put(env, h, Instr::Field(offset));
                selected(env, h, cell.rest, out);
            }
            Some(
                Selection::Index {
                    index,
                    low,
                    high,
                    stride,
                    ..
                },
            ) => {
                indexed(env, h, index, low, high, stride, out);
                selected(env, h, cell.rest, out);
            }
        }
    }
}

/// What selections lead to from the address on the stack is read.
#[cycle(emit)]
#[inline(never)]
#[tactic(auto, unfolding(lower_emission::specs::Emission::read))]
fn read(env: &Env<'_>, h: u32, id: u32, out: &mut Emitter)
    ensures { Emits (spec.read (tables env.now) (env_of env.now) h (selections_at (nodes env.now) id)) out.old out.new }
{
    match env.typed.nodes.selections(id) {
        None => out.put(env, h, Instr::Load),
        Some(cell) => match env.typed.nodes.selection(cell.first) {
            None => read(env, h, cell.rest, out),
            Some(Selection::Field { offset, .. }) => {
                out.put(env, h, Instr::Field(offset));
                read(env, h, cell.rest, out);
            }
            Some(
                Selection::Index {
                    index,
                    low,
                    high,
                    stride,
                    ..
                },
            ) => {
                if is_whole(env, cell.rest) {
                    item(env, h, index, low, high, stride, out);
                } else {
                    indexed(env, h, index, low, high, stride, out);
                    read(env, h, cell.rest, out);
                }
            }
        },
    }
}

/// Pushes the value of an operand, on which an instruction works.
#[cycle(emit)]
#[inline(never)]
fn applied(env: &Env<'_>, h: u32, operand: u32, instr: Instr, out: &mut Emitter)
    ensures { Emits (spec.emit (tables env.now) (env_of env.now) h (expr_at (nodes env.now) operand) ⨟ one (env_of env.now) (h + 1) instr) out.old out.new }
{
    emit(env, h, operand, out);
    out.put_above(env, h, 1, instr);
}

#[cycle(emit)]
#[inline(never)]
fn two(env: &Env<'_>, h: u32, left: u32, right: u32, instr: Instr, out: &mut Emitter)
    ensures { Emits (spec.emit (tables env.now) (env_of env.now) h (expr_at (nodes env.now) left) ⨟ spec.emit (tables env.now) (env_of env.now) (h + 1) (expr_at (nodes env.now) right) ⨟ one (env_of env.now) (h + 1 + 1) instr) out.old out.new }
{
    emit(env, h, left, out);
    let h1 = out.sum(h, 1);
    emit(env, h1, right, out);
    out.put_above(env, h, 2, instr);
}

#[cycle(emit)]
#[inline(never)]
fn and_then(env: &Env<'_>, h: u32, left: u32, right: u32, out: &mut Emitter)
    ensures { Emits (spec.emit (tables env.now) (env_of env.now) h (expr_at (nodes env.now) left) ⨟ choose (env_of env.now) h (h + 1) (spec.emit (tables env.now) (env_of env.now) h (expr_at (nodes env.now) right)) (spec.falsity (env_of env.now) h)) out.old out.new }
{
    let h1 = out.sum(h, 1);
    emit(env, h, left, out);
    let first = out.gap(env, h);
    emit(env, h, right, out);
    let second = out.gap(env, h);
    out.aim_false(env, h, first);
    out.put(env, h, Instr::Push(0));
    out.aim(env, h1, second);
}

#[cycle(emit)]
#[inline(never)]
fn or_else(env: &Env<'_>, h: u32, left: u32, right: u32, out: &mut Emitter)
    ensures { Emits (spec.emit (tables env.now) (env_of env.now) h (expr_at (nodes env.now) left) ⨟ choose (env_of env.now) h (h + 1) (spec.truth (env_of env.now) h) (spec.emit (tables env.now) (env_of env.now) h (expr_at (nodes env.now) right))) out.old out.new }
{
    let h1 = out.sum(h, 1);
    emit(env, h, left, out);
    let first = out.gap(env, h);
    out.put(env, h, Instr::Push(1));
    let second = out.gap(env, h);
    out.aim_false(env, h, first);
    emit(env, h, right, out);
    out.aim(env, h1, second);
}

#[cycle(emit)]
#[inline(never)]
fn conditional(env: &Env<'_>, h: u32, condition: u32, value: u32, otherwise: u32, out: &mut Emitter)
    ensures { Emits (spec.emit (tables env.now) (env_of env.now) h (expr_at (nodes env.now) condition) ⨟ choose (env_of env.now) h (h + 1) (spec.emit (tables env.now) (env_of env.now) h (expr_at (nodes env.now) value)) (spec.emit (tables env.now) (env_of env.now) h (expr_at (nodes env.now) otherwise))) out.old out.new }
{
    let h1 = out.sum(h, 1);
    emit(env, h, condition, out);
    let first = out.gap(env, h);
    emit(env, h, value, out);
    let second = out.gap(env, h);
    out.aim_false(env, h, first);
    emit(env, h, otherwise, out);
    out.aim(env, h1, second);
}

/// Whether a value lies between two others.
#[cycle(emit)]
#[inline(never)]
fn between(env: &Env<'_>, h: u32, class: Class, value: u32, low: u32, high: u32, out: &mut Emitter)
    ensures { Emits (spec.emit (tables env.now) (env_of env.now) h (expr_at (nodes env.now) value) ⨟ keep (env_of env.now) (h + 1) env.now.free ⨟ spec.emit (tables env.now) (taking 1 (env_of env.now)) h (expr_at (nodes env.now) low) ⨟ keep (env_of env.now) (h + 1) (env.now.free + 1) ⨟ spec.emit (tables env.now) (taking 2 (env_of env.now)) h (expr_at (nodes env.now) high) ⨟ spec.within (env_of env.now) h class env.now.free) out.old out.new }
{
    let free1 = out.sum(env.free, 1);
    let free2 = out.sum(env.free, 2);
    emit(env, h, value, out);
    out.keep(env, h, env.free);
    emit(&env.with_free(free1), h, low, out);
    out.keep(env, h, free1);
    emit(&env.with_free(free2), h, high, out);
    within(env, h, class, env.free, out);
}

fn within(env: &Env<'_>, h: u32, class: Class, d: u32, out: &mut Emitter)
    ensures { Emits (spec.within (env_of env.now) h class d) out.old out.new }
{
    let h1 = out.sum(h, 1);
    let d1 = out.sum(d, 1);
    out.put(env, h1, Instr::LoadL(d));
    out.put_above(env, h, 2, compare_instr(Comparison::AtLeast, class));
    let at_most = compare_instr(Comparison::AtMost, class);
    out.operate(env, h1, Instr::LoadL(d1), Instr::LoadL(d), at_most);
    out.put_above(env, h, 2, Instr::Min);
}

/// A value goes to the cells of the frame from one on.
#[cycle(emit)]
#[inline(never)]
#[tactic(auto, unfolding(lower_emission::specs::Emission::put_into))]
pub fn put_into(env: &Env<'_>, h: u32, to: u32, id: u32, out: &mut Emitter)
    ensures { Emits (spec.put_into (tables env.now) (env_of env.now) h to (value_at (nodes env.now) id)) out.old out.new }
{
    match env.typed.nodes.value(id) {
        Some(Value::Number { check, value }) => {
            emit(env, h, value, out);
            out.keep_checked(env, h, check.scalar, to);
        }
        Some(Value::Cells { composite }) => composed(env, h, to, composite, out),
        None => {
            out.whole = false;
        }
    }
}
