//! Calls that break the rule on nonblocking text (9.5).

ghost use Rattle.std.specs.Prelude.{◌≡◌, ◌||◌};
ghost use Rattle.typed_tree.specs.Decoded.{reducer_at};
ghost use Rattle.check_calls.specs.First as spec;
ghost use Rattle.check_calls.specs.Words.{rule_of};

use typed_tree::{Reducer, Typed};

/// A call that breaks the rule: the first token of the called name or of the reducer, and the last identifier of that
/// name.
#[derive(Clone, Copy)]
pub struct Breach {
    pub at: u32,
    pub callee: u32,
}

/// What was found so far, and the number of a part that is still to be gone through, if there is one.
#[derive(Clone, Copy)]
pub struct Step {
    pub found: Option<Breach>,
    pub rest: Option<u32>,
}

/// A part of which nothing is left.
pub fn whole(found: Option<Breach>) -> Step
    ensures { (result.found ≡ found) × (result.rest ≡ None) }
{
    Step { found, rest: None }
}

/// A part of which another part is left.
pub fn left(found: Option<Breach>, rest: u32) -> Step
    ensures { (result.found ≡ found) × (result.rest ≡ Some rest) }
{
    Step {
        found,
        rest: Some(rest),
    }
}

fn is_before(first: Breach, second: Breach) -> bool
    ensures { result ≡ spec.is_before first second }
{
    first.at < second.at || (first.at == second.at && first.callee < second.callee)
}

/// The one of two calls that stands first in the text.
fn least(breach: Breach, found: Option<Breach>) -> Option<Breach>
    ensures { result ≡ spec.least breach found }
{
    match found {
        None => Some(breach),
        Some(other) => {
            if is_before(breach, other) {
                Some(breach)
            } else {
                Some(other)
            }
        }
    }
}

/// A call of what may block.
pub fn port(blocking: bool, at: u32, callee: u32, found: Option<Breach>) -> Option<Breach>
    ensures { result ≡ spec.first_port blocking at callee found }
{
    if blocking {
        found
    } else {
        least(Breach { at, callee }, found)
    }
}

fn is_nonblocking(typed: &Typed, sub: u32) -> bool
    ensures { result ≡ rule_of typed.now sub }
{
    match typed.sub(sub) {
        None => false,
        Some(found) => found.nonblocking,
    }
}

/// A call of a subprogram.
pub fn call(
    typed: &Typed,
    blocking: bool,
    sub: u32,
    at: u32,
    callee: u32,
    found: Option<Breach>,
) -> Option<Breach>
    ensures { result ≡ spec.first_call (rule_of typed.now) blocking sub at callee found }
{
    if is_nonblocking(typed, sub) {
        found
    } else {
        port(blocking, at, callee, found)
    }
}

/// The calls of a reducer where a reduction stands (4.5.10).
pub fn reducer(typed: &Typed, id: u32, blocking: bool, found: Option<Breach>) -> Option<Breach>
    ensures { result ≡ spec.first_reducer (rule_of typed.now) blocking (reducer_at typed.now.nodes id) found }
{
    match typed.nodes.reducer(id) {
        Reducer::Operator { .. } => found,
        Reducer::Function { at, sub, .. } => call(typed, blocking, sub, at, at, found),
    }
}
