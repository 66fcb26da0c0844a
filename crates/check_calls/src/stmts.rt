//! Statements (5.1).

ghost use Rattle.std.specs.Prelude.{◌≡◌, ◌<◌, MatchOption};
ghost use Rattle.typed_tree.specs.Decoded.{alternatives_at, arms_at, as_alternative, as_handler, decls_at, handlers_at, part_at, stmt_at, stmts_at};
ghost use Rattle.typed_tree.specs.Syntax.{Alternatives, End, Handlers, Then};
ghost use Rattle.check_calls.specs.First as spec;
ghost use Rattle.check_calls.specs.Words.{rule_of, stmt_left, IsBelow};

use crate::calls::{Breach, Step, call, left, port, whole};
use crate::exprs::{actuals, chunk, expr, exprs, iteration, optional, selections, value};
use crate::texts::{decls, pieces};
use typed_tree::{Handler, Stmt, Typed};

/// A statement. A statement that stands alone after `else`, as one made of `elsif` does, is gone through by a loop.
#[cycle(body)]
fn stmt(typed: &Typed, id: u32, blocking: bool, found: Option<Breach>) -> Option<Breach>
    ensures { result ≡ spec.first_stmt (rule_of typed.now) (stmt_at typed.now.nodes id) blocking found }
{
    let mut step = left(found, id);
    while let Some(at) = step.rest {
        step = stmt_step(typed, at, blocking, step.found);
    }
    step.found
}

/// All of a statement but one statement that may be left.
#[cycle(body)]
#[inline(never)]
#[tactic(auto, unfolding(crate::specs::First::first_stmt))]
fn stmt_step(typed: &Typed, id: u32, blocking: bool, found: Option<Breach>) -> Step
    ensures { (stmt_left typed.now blocking result.found result.rest ≡ spec.first_stmt (rule_of typed.now) (stmt_at typed.now.nodes id) blocking found) × IsBelow id result.rest }
{
    match typed.nodes.stmt(id) {
        Stmt::Null | Stmt::Return | Stmt::Raise { .. } | Stmt::Reraise => whole(found),
        Stmt::Assign {
            selections: parts,
            value: part,
            ..
        } => {
            let first = selections(typed, parts, blocking, found);
            whole(value(typed, part, blocking, first))
        }
        Stmt::Call {
            at,
            callee,
            sub,
            actuals: parts,
        } => {
            let first = call(typed, blocking, sub, at, callee, found);
            whole(actuals(typed, parts, blocking, first))
        }
        Stmt::Exit { condition, .. } => whole(optional(typed, condition, blocking, found)),
        Stmt::ReturnValue { value: part } => whole(value(typed, part, blocking, found)),
        Stmt::If {
            condition,
            stmts: then,
            otherwise,
        } => {
            let first = expr(typed, condition, blocking, found);
            let second = stmts(typed, then, blocking, first);
            match alone(typed, otherwise) {
                Some(rest) => left(second, rest),
                None => whole(stmts(typed, otherwise, blocking, second)),
            }
        }
        Stmt::Case {
            value: part,
            alternatives: parts,
        } => {
            let first = expr(typed, part, blocking, found);
            whole(alternatives(typed, parts, blocking, first))
        }
        Stmt::Loop {
            condition,
            stmts: parts,
            ..
        } => {
            let first = optional(typed, condition, blocking, found);
            whole(stmts(typed, parts, blocking, first))
        }
        Stmt::For {
            iteration: course,
            stmts: parts,
            ..
        } => {
            let first = iteration(typed, course, blocking, found);
            whole(stmts(typed, parts, blocking, first))
        }
        Stmt::ParallelFor {
            chunk: specification,
            iteration: course,
            stmts: parts,
            ..
        } => {
            let first = chunk(typed, specification, false, found);
            let second = iteration(typed, course, false, first);
            whole(stmts(typed, parts, false, second))
        }
        Stmt::Parallel {
            count,
            arms: parts,
            ..
        } => {
            let first = optional(typed, count, false, found);
            whole(arms(typed, parts, false, first))
        }
        Stmt::Block {
            decls,
            stmts,
            handlers,
        } => { whole(block(typed, decls, stmts, handlers, blocking, found)) }
        Stmt::Put {
            at,
            callee,
            pieces: parts,
            ..
        } => {
            let first = pieces(typed, parts, blocking, found);
            whole(port(blocking, at, callee, first))
        }
        Stmt::Get {
            at,
            callee,
            selections: parts,
            ..
        } => {
            let first = selections(typed, parts, blocking, found);
            whole(port(blocking, at, callee, first))
        }
    }
}

/// The statement of a list of one.
fn alone(typed: &Typed, id: u32) -> Option<u32>
    ensures { MatchOption result (Unit {0}) (λ first. (stmts_at typed.now.nodes id ≡ Then (stmt_at typed.now.nodes first) End) × (first < id)) }
{
    match typed.nodes.stmts(id) {
        None => None,
        Some(cell) => match typed.nodes.stmts(cell.rest) {
            None => Some(cell.first),
            Some(_) => None,
        },
    }
}

/// Declarations, statements and handlers.
#[cycle(body)]
#[inline(never)]
pub fn block(
    typed: &Typed,
    declarations: u32,
    statements: u32,
    handled: u32,
    blocking: bool,
    found: Option<Breach>,
) -> Option<Breach>
    ensures { result ≡ spec.first_handlers (rule_of typed.now) (handlers_at typed.now.nodes handled) blocking (spec.first_stmts (rule_of typed.now) (stmts_at typed.now.nodes statements) blocking (spec.first_decls (rule_of typed.now) (decls_at typed.now.nodes declarations) blocking found)) }
{
    let first = decls(typed, declarations, blocking, found);
    let second = stmts(typed, statements, blocking, first);
    handlers(typed, handled, blocking, second)
}

/// Statements one after the other.
#[cycle(body)]
#[inline(never)]
#[tactic(auto, unfolding(crate::specs::First::first_stmts))]
fn stmts(typed: &Typed, id: u32, blocking: bool, found: Option<Breach>) -> Option<Breach>
    ensures { result ≡ spec.first_stmts (rule_of typed.now) (stmts_at typed.now.nodes id) blocking found }
{
    let mut at = id;
    let mut all = found;
    while let Some(cell) = typed.nodes.stmts(at) {
        all = stmt(typed, cell.first, blocking, all);
        at = cell.rest;
    }
    all
}

/// Alternatives of a case statement (5.4).
#[cycle(body)]
#[inline(never)]
#[tactic(auto, unfolding(crate::specs::First::first_alternatives))]
fn alternatives(typed: &Typed, id: u32, blocking: bool, found: Option<Breach>) -> Option<Breach>
    ensures { result ≡ spec.first_alternatives (rule_of typed.now) (alternatives_at typed.now.nodes id) blocking found }
{
    let mut at = id;
    let mut all = found;
    while let Some(cell) = typed.nodes.alternatives(at) {
        all = alternative(typed, cell.first, blocking, all);
        at = cell.rest;
    }
    all
}

#[cycle(body)]
#[tactic(auto, unfolding(crate::specs::First::first_alternatives))]
fn alternative(typed: &Typed, id: u32, blocking: bool, found: Option<Breach>) -> Option<Breach>
    ensures { (rest : Alternatives) → spec.first_alternatives (rule_of typed.now) rest blocking result ≡ spec.first_alternatives (rule_of typed.now) (as_alternative (part_at typed.now.nodes id) rest) blocking found }
{
    match typed.nodes.alternative(id) {
        None => found,
        Some(part) => {
            let first = exprs(typed, part.mentions, blocking, found);
            stmts(typed, part.stmts, blocking, first)
        }
    }
}

/// The arms of a parallel block (5.6.1).
#[cycle(body)]
#[inline(never)]
#[tactic(auto, unfolding(crate::specs::First::first_arms))]
fn arms(typed: &Typed, id: u32, blocking: bool, found: Option<Breach>) -> Option<Breach>
    ensures { result ≡ spec.first_arms (rule_of typed.now) (arms_at typed.now.nodes id) blocking found }
{
    let mut at = id;
    let mut all = found;
    while let Some(cell) = typed.nodes.arms(at) {
        all = stmts(typed, cell.first, blocking, all);
        at = cell.rest;
    }
    all
}

/// Handlers (11.2).
#[cycle(body)]
#[inline(never)]
#[tactic(auto, unfolding(crate::specs::First::first_handlers))]
fn handlers(typed: &Typed, id: u32, blocking: bool, found: Option<Breach>) -> Option<Breach>
    ensures { result ≡ spec.first_handlers (rule_of typed.now) (handlers_at typed.now.nodes id) blocking found }
{
    let mut at = id;
    let mut all = found;
    while let Some(cell) = typed.nodes.handlers(at) {
        all = handler(typed, cell.first, blocking, all);
        at = cell.rest;
    }
    all
}

#[cycle(body)]
#[tactic(auto, unfolding(crate::specs::First::first_handlers))]
fn handler(typed: &Typed, id: u32, blocking: bool, found: Option<Breach>) -> Option<Breach>
    ensures { (rest : Handlers) → spec.first_handlers (rule_of typed.now) rest blocking result ≡ spec.first_handlers (rule_of typed.now) (as_handler (part_at typed.now.nodes id) rest) blocking found }
{
    match typed.nodes.handler(id) {
        None => found,
        Some(Handler::Others { stmts: parts } | Handler::Reasons { stmts: parts, .. }) => {
            stmts(typed, parts, blocking, found)
        }
    }
}
