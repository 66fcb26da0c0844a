//! Whether unwind entries guard what they hold, from what each stretch of instructions leaves to them.

ghost use Rattle.std.specs.Prelude.{◌≡◌, ◌+◌, ◌<◌, ◌≤◌, ◌↔◌, ℕ, length, slice_get, Some, IsTrue};
ghost use Rattle.stack_code.specs.declared.code.Unwind.{Unwind};
ghost use Rattle.stack_code.specs.Operands.{takes};
ghost use Rattle.stack_code.specs.Valid.{Each, Has, Guarded, GuardsIn, IsUpTo};
ghost use Rattle.code_validity.specs.Slack.{Admits, AllGuarded, AreFit, IsSlackOf};

use crate::operands::takes_of;
use stack_code::{Around, Code, Instr, Spot, Unwind};

/// What a stretch of instructions leaves to the unwind entries that hold all of it: the least height below the
/// operands taken, the least number of constructs begun, the one body that all stand in, and the last of the entries
/// that first hold one.
#[derive(Clone, Copy)]
pub struct Slack {
    pub room: u32,
    pub nest: u32,
    pub body: Option<Around>,
    pub held: Option<u32>,
}

fn slack_of(code: &Code, instr: Instr, spot: Spot) -> Slack
    requires { takes code.now instr ≤ spot.stack }
    ensures { (k : ℕ) (u : Unwind) → Admits code.now k u result ↔ Guarded code.now k u instr spot }
{
    Slack {
        room: spot.stack - takes_of(code, instr),
        nest: spot.nest,
        body: Some(spot.body),
        held: spot.held,
    }
}

fn common(a: Option<Around>, b: Option<Around>) -> Option<Around>
    ensures { (x : Around) → (result ≡ Some x) ↔ ((a ≡ Some x) × (b ≡ Some x)) }
{
    if a == b { a } else { None }
}

fn later(a: Option<u32>, b: Option<u32>) -> Option<u32>
    ensures { (k : ℕ) → IsUpTo k result ↔ (IsUpTo k a × IsUpTo k b) }
{
    match (a, b) {
        (Some(x), Some(y)) => Some(x.max(y)),
        _ => None,
    }
}

fn joined(code: &Code, a: Slack, b: Slack) -> Slack
    ensures { (k : ℕ) (u : Unwind) → Admits code.now k u result ↔ (Admits code.now k u a × Admits code.now k u b) }
{
    Slack {
        room: a.room.min(b.room),
        nest: a.nest.min(b.nest),
        body: common(a.body, b.body),
        held: later(a.held, b.held),
    }
}

fn admits(code: &Code, number: usize, entry: Unwind, slack: Slack) -> bool
    ensures { IsTrue result ↔ Admits code.now number entry slack }
{
    stands_with(code, entry.handler, slack.body)
        && entry.nest <= slack.nest
        && entry.depth <= slack.room
        && is_up_to(number, slack.held)
}

fn stands_with(code: &Code, handler: u32, body: Option<Around>) -> bool
    ensures { IsTrue result ↔ Has code.now.spots handler (λ h. body ≡ Some h.body) }
{
    match code.spots.get(handler as usize) {
        Some(spot) => body == Some(spot.body),
        None => false,
    }
}

fn is_up_to(number: usize, held: Option<u32>) -> bool
    ensures { IsTrue result ↔ IsUpTo number held }
{
    match held {
        Some(first) => first as usize <= number,
        None => false,
    }
}

fn slack_at(code: &Code, at: usize) -> Slack
    requires long { length code.now.spots ≡ length code.now.instrs }
    requires within { at < length code.now.instrs }
    requires fit { AreFit code.now }
    ensures { IsSlackOf code.now at (at + 1) result }
{
    let instr = code.instrs.as_slice()[at];
    let spot = code.spots.as_slice()[at];
    slack_of(code, instr, spot)
}

fn slack_from(code: &Code, from: usize, to: usize) -> Slack
    requires long { length code.now.spots ≡ length code.now.instrs }
    requires some { from < to }
    requires within { to ≤ length code.now.instrs }
    requires fit { AreFit code.now }
    ensures { IsSlackOf code.now from to result }
{
    let mut all = slack_at(code, from);
    for at in from + 1..to {
        let one = slack_at(code, at);
        all = joined(code, all, one);
    }
    all
}

fn guards_each(code: &Code, number: usize, entry: Unwind, from: usize, to: usize) -> bool
    requires long { length code.now.spots ≡ length code.now.instrs }
    requires order { from ≤ to }
    requires within { to ≤ length code.now.instrs }
    requires fit { AreFit code.now }
    ensures { IsTrue result ↔ AllGuarded code.now from to number entry }
{
    for at in from..to {
        let slack = slack_at(code, at);
        if !admits(code, number, entry, slack) {
            return false;
        }
    }
    true
}

fn guards(code: &Code, number: usize, entry: Unwind, from: usize, to: usize, all: Slack) -> bool
    requires long { length code.now.spots ≡ length code.now.instrs }
    requires within { to ≤ length code.now.instrs }
    requires fit { AreFit code.now }
    requires all { IsSlackOf code.now from to all }
    ensures { IsTrue result ↔ GuardsIn code.now from to number entry }
{
    let first = from.max(entry.from as usize);
    let end = to.min(entry.to as usize);
    if end <= first {
        true
    } else if first == from && end == to {
        admits(code, number, entry, all)
    } else {
        guards_each(code, number, entry, first, end)
    }
}

fn block_guards(code: &Code, from: usize, to: usize) -> bool
    requires long { length code.now.spots ≡ length code.now.instrs }
    requires some { from < to }
    requires within { to ≤ length code.now.instrs }
    requires fit { AreFit code.now }
    ensures { IsTrue result ↔ Each code.now.unwind (GuardsIn code.now from to) }
{
    let all = slack_from(code, from, to);
    let entries = code.unwind.as_slice();
    for number in 0..entries.len() {
        let entry = entries[number];
        if !guards(code, number, entry, from, to, all) {
            return false;
        }
    }
    true
}

// about the square root, so that neither blocks nor places in one are many
fn block_size(long: usize) -> usize
    ensures { 1 ≤ result }
{
    let mut size = 1;
    while size < 65536 && size * size < long {
        size *= 2;
    }
    size
}

/// Whether each unwind entry guards what it holds.
pub(crate) fn guards_fit(code: &Code) -> bool
    requires long { length code.now.spots ≡ length code.now.instrs }
    requires fit { AreFit code.now }
    ensures { IsTrue result ↔ Each code.now.unwind (GuardsIn code.now 0 (length code.now.instrs)) }
{
    let long = code.instrs.len();
    let size = block_size(long);
    let mut from = 0;
    while from < long {
        let to = if size < long - from {
            from + size
        } else {
            long
        };
        if !block_guards(code, from, to) {
            return false;
        }
        from = to;
    }
    true
}
