// What instructions do to a machine beyond operands and cells.
ghost use Rattle.std.specs.Prelude.{◌≡◌, ◌+◌, ◌-◌, ◌^◌, ◌<◌, ◌≤◌, ◌∷◌, [], ℕ, ℤ, List, length, reverse, vec_len, vec_capacity, Some, None, pos, IsOk, OnOk, OnErr};
ghost use Rattle.ada_base.specs.Cells.{Cell};
ghost use Rattle.stack_code.specs.Listing.{reason_number};
ghost use Rattle.stack_code.specs.Machine.{cut, on, entered, ended, pushed_for, handled, failed, rounding, Goes};
ghost use Rattle.ada_machine.specs.Places.{Stays};
ghost use Rattle.ada_machine.specs.States.{state_of, frame_of, frames_of};

use crate::cells::Cells;
use crate::machine::{Aside, Machine, Waiting};
use crate::operands::put;
use ada_base::Reason;
use stack_code::path::Round;
use stack_code::{Unwind, reason_number};
use std::alloc::AllocError;

pub(crate) fn begin_construct(m: &mut Machine)
    requires few { m.old.nested < 16 }
    requires within { m.old.nest ≤ m.old.nested }
    requires next { m.old.pc < usize.MAX }
    ensures state { (cells : List Cell) → state_of m.new cells ≡ on (reverse m.old.stack.items) (record (state_of m.old cells) { nest = m.old.nest + 1; nested = m.old.nested + 1 }) }
    ensures same { (vec_capacity m.new.stack ≡ vec_capacity m.old.stack) × (m.new.base ≡ m.old.base) × (m.new.waiting ≡ m.old.waiting) × (m.new.outward ≡ m.old.outward) }
    ensures looks { m.new.looks ≡ m.old.looks }
{
    m.nest += 1;
    m.nested += 1;
    m.pc += 1;
}

pub(crate) fn end_construct(m: &mut Machine)
    requires begun { 1 ≤ m.old.nest }
    requires within { m.old.nest ≤ m.old.nested }
    requires next { m.old.pc < usize.MAX }
    ensures state { (cells : List Cell) → state_of m.new cells ≡ on (reverse m.old.stack.items) (record (state_of m.old cells) { nest = m.old.nest - 1; nested = m.old.nested - 1 }) }
    ensures same { (vec_capacity m.new.stack ≡ vec_capacity m.old.stack) × (m.new.base ≡ m.old.base) × (m.new.waiting ≡ m.old.waiting) × (m.new.outward ≡ m.old.outward) }
    ensures looks { m.new.looks ≡ m.old.looks }
{
    m.nest -= 1;
    m.nested -= 1;
    m.pc += 1;
}

// A part begins that is done so many times. An Err leaves all as it was.
#[tactic(auto, using(crate::proofs::Rounding::begun))]
pub(crate) fn begin_part(m: &mut Machine, count: u64) -> Result<(), AllocError>
    requires next { m.old.pc < usize.MAX }
    ensures ok { OnOk result ((cells : List Cell) → state_of m.new cells ≡ on (reverse m.old.stack.items) (record (state_of m.old cells) { rounds = record { more = count - 1; head = m.old.pc + 1 } ∷ reverse m.old.rounds.items })) }
    ensures err { OnErr result ((cells : List Cell) → state_of m.new cells ≡ state_of m.old cells) }
    ensures room { vec_capacity m.new.stack ≡ vec_capacity m.old.stack }
    ensures looks { m.new.looks ≡ m.old.looks }
{
    m.rounds.reserve(1)?;
    let head = m.pc + 1;
    m.rounds.push_reserved(Round {
        more: count.saturating_sub(1),
        head,
    });
    m.pc = head;
    Ok(())
}

// A round ends: where another one follows, and rounds begin at that instruction, it begins; else the part is done.
pub(crate) fn end_round(m: &mut Machine, to: usize)
    requires next { m.old.pc < usize.MAX }
    ensures state { (limit : ℕ) (cells : List Cell) → rounding limit to (reverse m.old.rounds.items) (state_of m.old cells) ≡ Goes (state_of m.new cells) }
    ensures same { (vec_capacity m.new.stack ≡ vec_capacity m.old.stack) × (m.new.base ≡ m.old.base) × (m.new.waiting ≡ m.old.waiting) × (m.new.outward ≡ m.old.outward) }
    ensures calm { m.new.raising ≡ m.old.raising }
    ensures looks { m.new.looks ≡ m.old.looks }
{
    if m.rounds.len() == 0 {
        m.pc += 1;
        return;
    }
    let round = m.rounds.take_last();
    if 0 < round.more && round.head == to {
        m.rounds.push_reserved(Round {
            more: round.more - 1,
            head: to,
        });
        m.pc = to;
    } else {
        m.pc += 1;
    }
}

// Cuts the stack to a height.
#[tactic(auto, using(crate::proofs::Changes::cut_take))]
fn cut_to(stack: &mut Vec<i64>, height: usize)
    requires { height ≤ vec_len stack.old }
    ensures stack { reverse stack.new.items ≡ cut height (reverse stack.old.items) }
    ensures len { vec_len stack.new ≡ height }
    ensures room { vec_capacity stack.new ≡ vec_capacity stack.old }
{
    stack.truncate(height);
}

// An exception is raised, with that many operands left.
#[tactic(auto, using(crate::proofs::Changes::failed_by))]
pub(crate) fn fail(m: &mut Machine, reason: Reason, height: usize)
    requires { height ≤ vec_len m.old.stack }
    ensures state { (cells : List Cell) → state_of m.new cells ≡ failed reason (cut height (reverse m.old.stack.items)) (state_of m.old cells) }
    ensures same { (vec_capacity m.new.stack ≡ vec_capacity m.old.stack) × (m.new.base ≡ m.old.base) × (m.new.waiting ≡ m.old.waiting) × (m.new.outward ≡ m.old.outward) }
    ensures looks { m.new.looks ≡ m.old.looks }
{
    cut_to(&mut m.stack, height);
    m.raising = Some(reason);
}

fn number_of(reason: Reason) -> i64
    ensures { result ≡ pos (reason_number reason) }
{
    reason_number(reason) as i64
}

// An unwind entry takes a raise.
#[tactic(auto, using(crate::proofs::Changes::handled_by))]
pub(crate) fn handle(m: &mut Machine, entry: Unwind, reason: Reason)
    requires depth { m.old.floor + entry.depth ≤ vec_len m.old.stack }
    requires room { m.old.floor + entry.depth < vec_capacity m.old.stack }
    requires nest { entry.nest ≤ m.old.nest }
    requires nested { m.old.nest ≤ m.old.nested }
    ensures state { (cells : List Cell) → state_of m.new cells ≡ handled entry reason (state_of m.old cells) }
    ensures same { (vec_capacity m.new.stack ≡ vec_capacity m.old.stack) × (m.new.base ≡ m.old.base) × (m.new.waiting ≡ m.old.waiting) × (m.new.outward ≡ m.old.outward) }
    ensures looks { m.new.looks ≡ m.old.looks }
{
    let height = m.floor + entry.depth as usize;
    cut_to(&mut m.stack, height);
    put(&mut m.stack, number_of(reason));
    m.nested -= m.nest - entry.nest;
    m.nest = entry.nest;
    m.kept.clear();
    m.rounds.clear();
    m.pc = entry.handler as usize;
    m.raising = None;
}

// What a body that waited had set aside is back.
#[inline(never)]
fn take_back(m: &mut Machine, aside: Box<Aside>)
    ensures { m.new ≡ record m.old { kept = aside.value.kept; rounds = aside.value.rounds } }
{
    let Aside { kept, rounds } = Box::into_inner(aside);
    m.kept = kept;
    m.rounds = rounds;
}

// A body that was called has ended, and the caller, which was taken off, goes on there.
#[inline(always)]
#[tactic(auto, using(crate::proofs::Changes::ended_by))]
pub(crate) fn leave_frame<C: Cells>(m: &mut Machine, view: &mut C, caller: Waiting, to: usize)
    requires floor { m.old.floor ≤ vec_len m.old.stack }
    requires within { m.old.nest ≤ m.old.nested }
    requires whole { C.whole view.old }
    requires own { C.floor view.old ≤ caller.top }
    requires there { caller.top ≤ length (C.cells view.old) }
    ensures state { state_of m.new (C.cells view.new) ≡ ended (frame_of caller) (frames_of m.old.waiting.items) to (cut m.old.floor (reverse m.old.stack.items)) (state_of m.old (C.cells view.old)) }
    ensures len { vec_len m.new.stack ≡ m.old.floor }
    ensures same { (vec_capacity m.new.stack ≡ vec_capacity m.old.stack) × (m.new.base ≡ caller.base) × (m.new.waiting ≡ m.old.waiting) × (m.new.outward ≡ m.old.outward) }
    ensures stays { Stays C.floor C.whole C.place view.old view.new }
    ensures looks { m.new.looks ≡ m.old.looks }
{
    let Waiting {
        at: _,
        to: _,
        floor,
        base,
        nest,
        aside,
        top,
    } = caller;
    let height = m.floor;
    cut_to(&mut m.stack, height);
    view.pop_frame(top);
    m.pc = to;
    m.floor = floor;
    m.nested -= m.nest;
    m.nest = nest;
    match aside {
        Some(aside) => take_back(m, aside),
        None => {
            m.kept.clear();
            m.rounds.clear();
        }
    }
    m.base = base;
    m.calls = m.calls.saturating_sub(1);
}
