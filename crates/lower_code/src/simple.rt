//! Statements without statements within: assignments (5.2), calls (6.4), exits (5.7), returns (6.5), raises (11.3), input
//! (A.10.8).

ghost use Rattle.std.specs.Prelude.{◌≡◌, ◌<◌, ◌+◌, true};
ghost use Rattle.behaviours.specs.Paths.{VariableOf};
ghost use Rattle.typed_tree.specs.Decoded.{actuals_at, composite_at, expr_at, selections_at, optional_at, stmts_at, value_at};
ghost use Rattle.typed_tree.specs.Syntax.{CallProcedure, Exit, ReturnValue};
ghost use Rattle.lower_emission.specs.Statements as spec;
ghost use Rattle.lower_emission.specs.Emission as value;
ghost use Rattle.lower_emission.specs.Emission.{address, cells_of, checked, composed, composite_width, emit, passed, passing, selected};
ghost use Rattle.lower_emission.specs.Scope as scope;
ghost use Rattle.lower_emission.specs.Scope.{◌⨟◌, keep, one, own, taking, with_target};
ghost use Rattle.lower_values.specs.Words.{env_of, nodes, tables, Emits};
ghost use Rattle.stack_code.specs.declared.instr.Instr.TheVariants as i;

use lower_emission::types::{Leaving, Level, Named, Where};
use lower_values::aggregates::{composed, reached};
use lower_values::calls::{Window, call, target_cell};
use lower_values::cells::{cells_of, composite_width};
use lower_values::exprs::{address, checked, emit, is_whole, lost, selected};
use lower_values::instrs::{address_of, load_of, set_instr, store_at};
use lower_values::types::{Emitter, Env};
use stack_code::{Around, Instr};
use typed_tree::{Actual, Check, Scalar, Value};

/// A scalar is assigned to a part of what is named.
pub fn assign_number(
    env: &Env<'_>,
    found: Option<Named>,
    selections: u32,
    check: Check,
    id: u32,
    out: &mut Emitter,
)
    ensures { Emits (spec.assigned (env_of env.now) found (value.is_whole (selections_at (nodes env.now) selections)) check.scalar (selected (tables env.now) (env_of env.now) 1 (selections_at (nodes env.now) selections)) (λ t h. emit (tables env.now) t h (expr_at (nodes env.now) id))) out.old out.new }
{
    match found {
        None => lost(env, 0, out),
        Some(named) => {
            if is_whole(env, selections) && !named.through {
                assign_whole(env, named, check, id, out);
            } else {
                assign_part(env, named, selections, check, id, out);
            }
        }
    }
}

fn assign_whole(env: &Env<'_>, named: Named, check: Check, id: u32, out: &mut Emitter)
    ensures { Emits (emit (tables env.now) (with_target named (env_of env.now)) 0 (expr_at (nodes env.now) id) ⨟ spec.store_checked (env_of env.now) check.scalar named.place.level named.place.cell) out.old out.new }
{
    emit(&env.with_target(named, env.free), 0, id, out);
    match named.place.level {
        Level::Own => {
            out.put(env, 1, set_instr(check.scalar, named.place.cell));
        }
        Level::Around(_) | Level::Main => {
            checked(env, 0, check.scalar, out);
            out.put(env, 1, store_at(named.place));
        }
    }
}

fn assign_part(
    env: &Env<'_>,
    named: Named,
    selections: u32,
    check: Check,
    id: u32,
    out: &mut Emitter,
)
    ensures { Emits (one (env_of env.now) 0 (scope.address_of named) ⨟ selected (tables env.now) (env_of env.now) 1 (selections_at (nodes env.now) selections) ⨟ one (env_of env.now) 1 i.Dup ⨟ keep (env_of env.now) (1 + 1) env.now.free
        ⨟ emit (tables env.now) (with_target (record { through = true; place = own env.now.free; cells = 1 }) (taking 1 (env_of env.now))) 1 (expr_at (nodes env.now) id) ⨟ checked (env_of env.now) (1 + 1) check.scalar ⨟ one (env_of env.now) (1 + 1) i.Store) out.old out.new }
{
    let free = out.sum(env.free, 1);
    out.put(env, 0, address_of(named));
    selected(env, 1, selections, out);
    out.put(env, 1, Instr::Dup);
    out.keep(env, 1, env.free);
    emit(&env.with_target(reached(env.free, 1), free), 1, id, out);
    checked(env, 1, check.scalar, out);
    out.put(env, 2, Instr::Store);
}

/// An array or record is assigned, by way of cells of its own.
pub fn assign_cells(
    env: &Env<'_>,
    found: Option<Named>,
    selections: u32,
    composite: u32,
    out: &mut Emitter,
)
    ensures { Emits (address (env_of env.now) 0 found ⨟ selected (tables env.now) (env_of env.now) 1 (selections_at (nodes env.now) selections) ⨟ keep (env_of env.now) 1 env.now.free
        ⨟ composed (tables env.now) (with_target (record { through = true; place = own env.now.free; cells = composite_width (tables env.now) (composite_at (nodes env.now) composite) }) (taking (composite_width (tables env.now) (composite_at (nodes env.now) composite)) (taking 1 (env_of env.now)))) 0 (env.now.free + 1) (composite_at (nodes env.now) composite)
        ⨟ one (env_of env.now) 0 (i.LoadL env.now.free) ⨟ one (env_of env.now) 1 (i.Local (env.now.free + 1)) ⨟ one (env_of env.now) 2 (i.Copy (composite_width (tables env.now) (composite_at (nodes env.now) composite)))) out.old out.new }
{
    let cells = composite_width(env, composite, out);
    let first = out.sum(env.free, 1);
    let free = out.sum(first, cells);
    address(env, 0, found, out);
    selected(env, 1, selections, out);
    out.keep(env, 0, env.free);
    let inner = env.with_target(reached(env.free, cells), free);
    composed(&inner, 0, first, composite, out);
    out.operate(
        env,
        0,
        Instr::LoadL(env.free),
        Instr::Local(first),
        Instr::Copy(cells),
    );
}

/// A call of a procedure, and what it copies back.
#[tactic(auto, unfolding(lower_emission::specs::Statements::stmt))]
pub fn procedure(env: &Env<'_>, sub: u32, actuals: u32, out: &mut Emitter)
    ensures { Emits (passed (tables env.now) (passing (tables env.now) sub (env_of env.now)) 0 sub env.now.free (actuals_at (nodes env.now) actuals) ⨟ one (env_of env.now) 0 (i.CallAt (sub + 1) env.now.free) ⨟ spec.back_code (tables env.now) (env_of env.now) sub env.now.free (actuals_at (nodes env.now) actuals)) out.old out.new }
{
    call(env, 0, sub, actuals, out);
    let window = Window {
        sub,
        first: env.free,
    };
    back(env, window, actuals, out);
}

/// What is copied back.
#[tactic(auto, unfolding(lower_emission::specs::Statements::back_code))]
fn back(env: &Env<'_>, window: Window, id: u32, out: &mut Emitter)
    ensures { Emits (spec.back_code (tables env.now) (env_of env.now) window.sub window.first (actuals_at (nodes env.now) id)) out.old out.new }
{
    if let Some(cell) = env.typed.nodes.actuals(id) {
        match env.typed.nodes.actual(cell.first) {
            None | Some(Actual::In { .. }) => back(env, window, cell.rest, out),
            Some(
                Actual::InOut {
                    formal,
                    outside,
                    ..
                }
                | Actual::Out {
                    formal,
                    outside,
                    ..
                },
            ) => {
                let from = target_cell(env, window, formal, out);
                back_one(env, from, env.typed.nodes.scalar(outside), out);
                back(env, window, cell.rest, out);
            }
            Some(
                Actual::CompositeInOut {
                    formal,
                    subtype,
                    ..
                }
                | Actual::CompositeOut {
                    formal,
                    subtype,
                    ..
                },
            ) => {
                let from = target_cell(env, window, formal, out);
                back_cells(env, from, subtype, out);
                back(env, window, cell.rest, out);
            }
        }
    }
}

fn back_one(env: &Env<'_>, from: u32, outside: Scalar, out: &mut Emitter)
    ensures { Emits (spec.back_one (tables env.now) (env_of env.now) from outside) out.old out.new }
{
    let value = out.sum(from, 1);
    out.put(env, 0, Instr::LoadL(from));
    out.put(env, 1, Instr::LoadL(value));
    checked(env, 1, outside, out);
    out.put(env, 2, Instr::Store);
}

fn back_cells(env: &Env<'_>, from: u32, subtype: u32, out: &mut Emitter)
    ensures { Emits (spec.back_cells (tables env.now) (env_of env.now) from subtype) out.old out.new }
{
    let value = out.sum(from, 1);
    let cells = cells_of(env, subtype, out);
    out.operate(
        env,
        0,
        Instr::LoadL(from),
        Instr::Local(value),
        Instr::Copy(cells),
    );
}

/// A loop is left.
pub fn exiting(env: &Env<'_>, number: u32, out: &mut Emitter)
    ensures { Emits (spec.exiting (env_of env.now) number ((env_of env.now).exits number)) out.old out.new }
{
    match env.names.exit(number) {
        None => match env.body {
            Around::Sub(_) => lost(env, 0, out),
            Around::Site(_) => out.put(env, 0, Instr::Exit(number)),
        },
        Some(to) => out.put(env, 0, Instr::Jump(to)),
    }
}

/// A loop is left, where a condition holds.
#[tactic(auto, using(crate::proofs::Reading::present_is), unfolding(lower_emission::specs::Statements::stmt))]
pub fn exit(env: &Env<'_>, number: u32, condition: u32, out: &mut Emitter)
    ensures { Emits (spec.stmt (tables env.now) (env_of env.now) (Exit number (optional_at (nodes env.now) condition))) out.old out.new }
{
    match env.typed.nodes.optional(condition) {
        None => exiting(env, number, out),
        Some(_) => {
            emit(env, 0, condition, out);
            let at = out.gap(env, 0);
            exiting(env, number, out);
            out.aim_false(env, 0, at);
        }
    }
}

/// A return without a value.
pub fn returning(env: &Env<'_>, h: u32, out: &mut Emitter)
    ensures { Emits (spec.returning (env_of env.now) h (env_of env.now).leaving) out.old out.new }
{
    match env.leaving {
        Leaving::ByReturn => out.put(env, h, Instr::Ret),
        Leaving::ByValue => {
            out.put(env, h, Instr::Push(0));
            out.put_above(env, h, 1, Instr::RetV);
        }
        Leaving::ByEnd => out.put(env, h, Instr::Halt),
        Leaving::ByLeave => out.put(env, h, Instr::Leave),
    }
}

/// A return of the value on the stack.
pub fn returning_value(env: &Env<'_>, out: &mut Emitter)
    ensures { Emits (spec.returning_value (env_of env.now) (env_of env.now).leaving) out.old out.new }
{
    let instr = match env.leaving {
        Leaving::ByReturn => Instr::Ret,
        Leaving::ByValue => Instr::RetV,
        Leaving::ByEnd => Instr::Halt,
        Leaving::ByLeave => Instr::LeaveV,
    };
    out.put(env, 1, instr);
}

/// A return with a value.
#[tactic(auto, unfolding(lower_emission::specs::Statements::stmt))]
pub fn return_value(env: &Env<'_>, id: u32, out: &mut Emitter)
    ensures { Emits (spec.stmt (tables env.now) (env_of env.now) (ReturnValue (value_at (nodes env.now) id))) out.old out.new }
{
    match env.typed.nodes.value(id) {
        Some(Value::Number { check, value }) => {
            emit(env, 0, value, out);
            checked(env, 0, check.scalar, out);
            returning_value(env, out);
        }
        _ => lost(env, 0, out),
    }
}

/// What is handled is raised again.
pub fn reraise(env: &Env<'_>, found: Option<Where>, out: &mut Emitter)
    ensures { Emits (spec.handled_target (env_of env.now) found) out.old out.new }
{
    match found {
        None => lost(env, 0, out),
        Some(place) => {
            out.put(env, 0, load_of(place));
            out.put(env, 1, Instr::Reraise);
        }
    }
}

/// A number is read into a variable.
pub fn get(env: &Env<'_>, found: Option<Named>, selections: u32, scalar: Scalar, out: &mut Emitter)
    ensures { Emits (address (env_of env.now) 0 found ⨟ selected (tables env.now) (env_of env.now) 1 (selections_at (nodes env.now) selections) ⨟ one (env_of env.now) 1 i.Get ⨟ checked (env_of env.now) 2 scalar ⨟ one (env_of env.now) 2 i.Store) out.old out.new }
{
    address(env, 0, found, out);
    selected(env, 1, selections, out);
    out.put(env, 1, Instr::Get);
    checked(env, 1, scalar, out);
    out.put(env, 2, Instr::Store);
}

/// Whether a list of statements is empty.
pub fn is_end(env: &Env<'_>, id: u32) -> bool
    ensures { result ≡ spec.is_end (stmts_at (nodes env.now) id) }
{
    match env.typed.nodes.stmts(id) {
        None => true,
        Some(_) => false,
    }
}
