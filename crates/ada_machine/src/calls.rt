// Calls and returns.
ghost use Rattle.std.specs.Prelude.{◌≡◌, ◌+◌, ◌-◌, ◌^◌, ◌<◌, ◌≤◌, ◌∷◌, [], ℕ, ℤ, List, length, reverse, vec_len, vec_capacity, Option, Some, None, IsSome, pos, IfOk, OnOk, OnErr, ◌++◌};
ghost use Rattle.ada_base.specs.Cells.{Cell, zeros};
ghost use Rattle.ada_base.specs.declared.reason.Reason.{Reason};
ghost use Rattle.stack_code.specs.Machine.{Frame, Goes, cut, entered, entered_at, ending, unwound};
ghost use Rattle.stack_code.specs.Tops.{IsTopped};
ghost use Rattle.ada_machine.specs.Places.{Stays};
ghost use Rattle.ada_machine.specs.States.{state_of, frame_of, frames_of, begins, IsEmpty, IsRoomFor};

use crate::cells::Cells;
use crate::effects::leave_frame;
use crate::machine::{Aside, Machine, Waiting};
use crate::operands::{put, take};
use stack_code::CodeSub;
use std::alloc::{AllocError, Global};
use std::mem;

const FARTHEST: u64 = 4_611_686_018_427_387_904;

// The innermost caller is taken off and goes on.
#[tactic(auto, using(crate::proofs::Callers::frames_last, crate::proofs::Callers::ending_by))]
pub(crate) fn return_to<C: Cells>(m: &mut Machine, view: &mut C, value: Option<i64>)
    requires called { 0 < vec_len m.old.waiting }
    requires floor { m.old.floor ≤ vec_len m.old.stack }
    requires room { IsSome value → m.old.floor < vec_capacity m.old.stack }
    requires within { m.old.nest ≤ m.old.nested }
    requires whole { C.whole view.old }
    requires tops { IsTopped (C.floor view.old) (state_of m.old (C.cells view.old)) }
    ensures state { ending 0 value (reverse m.old.stack.items) (frames_of m.old.waiting.items) (state_of m.old (C.cells view.old)) ≡ Goes (state_of m.new (C.cells view.new)) }
    ensures room { vec_capacity m.new.stack ≡ vec_capacity m.old.stack }
    ensures stays { Stays C.floor C.whole C.place view.old view.new }
    ensures looks { m.new.looks ≡ m.old.looks }
{
    let caller = m.waiting.take_last();
    let to = caller.to;
    leave_frame(m, view, caller, to);
    if let Some(v) = value {
        put(&mut m.stack, v);
    }
}

// The call of the innermost caller, which is taken off, raises the exception.
#[tactic(auto, using(crate::proofs::Callers::frames_last, crate::proofs::Callers::unwound_by))]
pub(crate) fn unwind_to<C: Cells>(m: &mut Machine, view: &mut C)
    requires called { 0 < vec_len m.old.waiting }
    requires floor { m.old.floor ≤ vec_len m.old.stack }
    requires within { m.old.nest ≤ m.old.nested }
    requires whole { C.whole view.old }
    requires tops { IsTopped (C.floor view.old) (state_of m.old (C.cells view.old)) }
    ensures state { (r : Reason) → unwound r (frames_of m.old.waiting.items) (state_of m.old (C.cells view.old)) ≡ Goes (state_of m.new (C.cells view.new)) }
    ensures room { vec_capacity m.new.stack ≡ vec_capacity m.old.stack }
    ensures fewer { vec_len m.old.waiting ≡ vec_len m.new.waiting + 1 }
    ensures stays { Stays C.floor C.whole C.place view.old view.new }
    ensures looks { m.new.looks ≡ m.old.looks }
{
    let caller = m.waiting.take_last();
    let to = caller.at;
    leave_frame(m, view, caller, to);
}

// Memory for what the own body keeps and repeats, none where that is nothing.
#[inline(always)]
fn room_aside(m: &Machine) -> Result<Option<Box<Aside>>, AllocError>
    ensures { IfOk result (λ aside. IsRoomFor aside m.now.kept.items m.now.rounds.items) }
{
    if m.kept.is_empty() && m.rounds.is_empty() {
        return Ok(None);
    }
    let aside = empty_aside(*m.kept.allocator())?;
    Ok(Some(aside))
}

#[inline(never)]
fn empty_aside(alloc: Global) -> Result<Box<Aside>, AllocError>
    ensures { IfOk result (λ aside. IsEmpty aside.value) }
{
    let aside = Box::new(
        alloc,
        Aside {
            kept: Vec::new(alloc),
            rounds: Vec::new(alloc),
        },
    )?;
    Ok(aside)
}

// What the own body keeps and repeats goes there.
#[inline(never)]
fn set_aside(m: &mut Machine, mut aside: Box<Aside>) -> Box<Aside>
    requires { IsEmpty aside.value }
    ensures kept { result.value.kept ≡ m.old.kept }
    ensures rounds { result.value.rounds ≡ m.old.rounds }
    ensures empty { (m.new.kept.items ≡ []) × (m.new.rounds.items ≡ []) }
    ensures rest { m.new ≡ record m.old { kept = m.new.kept; rounds = m.new.rounds } }
{
    mem::swap(&mut m.kept, &mut aside.kept);
    mem::swap(&mut m.rounds, &mut aside.rounds);
    aside
}

// Where a body begins: what waits for it goes on there, its operands stand from that height on, and its frame begins at that
// address, above so many cells.
#[derive(Clone, Copy)]
pub(crate) struct Entry {
    pub to: usize,
    pub floor: usize,
    pub base: u64,
    pub top: u64,
}

// A body begins, and the own one waits. Its cells are there already.
#[inline(always)]
#[tactic(auto, using(crate::proofs::Callers::frames_more))]
fn begin_body(m: &mut Machine, callee: CodeSub, entry: Entry, aside: Option<Box<Aside>>)
    requires aside { IsRoomFor aside m.old.kept.items m.old.rounds.items }
    requires room { vec_len m.old.waiting < vec_capacity m.old.waiting }
    requires turns { m.old.turns < 2 ^ 64 - 1 }
    requires calls { m.old.calls < 1000 }
    ensures state { (cells : List Cell) → state_of m.new cells ≡ begins callee entry (state_of m.old cells) }
    ensures floor { m.new.floor ≡ entry.floor }
    ensures base { m.new.base ≡ entry.base }
    ensures room { vec_capacity m.new.stack ≡ vec_capacity m.old.stack }
    ensures looks { m.new.looks ≡ m.old.looks }
{
    let aside = match aside {
        Some(aside) => Some(set_aside(m, aside)),
        None => None,
    };
    m.waiting.push_reserved(Waiting {
        at: m.pc,
        to: entry.to,
        floor: m.floor,
        base: m.base,
        nest: m.nest,
        aside,
        top: entry.top,
    });
    m.pc = callee.entry as usize;
    m.floor = entry.floor;
    m.nest = 0;
    m.base = entry.base;
    m.calls += 1;
    m.turns += 1;
}

// Room for a body's operands, and so many cells; it answers where these begin. An Err leaves all as it was.
#[inline(always)]
fn make_room<C: Cells>(
    m: &mut Machine,
    view: &mut C,
    height: u32,
    count: u32,
) -> Result<u64, AllocError>
    requires whole { C.whole view.old }
    ensures state { (cells : List Cell) → state_of m.new cells ≡ state_of m.old cells }
    ensures same { (m.new.turns ≡ m.old.turns) × (m.new.calls ≡ m.old.calls) × (m.new.pc ≡ m.old.pc) × (m.new.stack.items ≡ m.old.stack.items) × (m.new.kept ≡ m.old.kept) × (m.new.rounds ≡ m.old.rounds) }
    ensures room { vec_capacity m.old.stack ≤ vec_capacity m.new.stack }
    ensures ok { IfOk result (λ top. (top ≡ length (C.cells view.old)) × (C.cells view.new ≡ C.cells view.old ++ zeros count) × (vec_len m.new.stack + height ≤ vec_capacity m.new.stack) × (vec_len m.new.waiting < vec_capacity m.new.waiting)) }
    ensures err { OnErr result (C.cells view.new ≡ C.cells view.old) }
    ensures stays { Stays C.floor C.whole C.place view.old view.new }
    ensures looks { m.new.looks ≡ m.old.looks }
{
    m.stack.reserve(height as usize)?;
    m.waiting.reserve(1)?;
    let top = view.len();
    view.push_frame(count)?;
    Ok(top)
}

// A call, where there is memory for it; an Err leaves all as it was.
pub(crate) fn enter<C: Cells>(
    m: &mut Machine,
    view: &mut C,
    callee: CodeSub,
    to: usize,
) -> Result<(), AllocError>
    requires takes { callee.takes ≤ vec_len m.old.stack }
    requires turns { m.old.turns < 2 ^ 64 - 1 }
    requires calls { m.old.calls < 1000 }
    requires whole { C.whole view.old }
    ensures ok { OnOk result (state_of m.new (C.cells view.new) ≡ entered callee to (reverse m.old.kept.items) (record (state_of m.old (C.cells view.old)) { turns = m.old.turns + 1 })) }
    ensures fits { OnOk result (m.new.floor + callee.stack ≤ vec_capacity m.new.stack) }
    ensures near { OnOk result (m.new.base ≤ 2 ^ 62) }
    ensures err { OnErr result (state_of m.new (C.cells view.new) ≡ state_of m.old (C.cells view.old)) }
    ensures room { vec_capacity m.old.stack ≤ vec_capacity m.new.stack }
    ensures same { OnErr result ((m.new.stack.items ≡ m.old.stack.items) × (m.new.kept ≡ m.old.kept)) }
    ensures stays { Stays C.floor C.whole C.place view.old view.new }
    ensures looks { m.new.looks ≡ m.old.looks }
{
    let base = view.len();
    if FARTHEST < base {
        return Err(AllocError);
    }
    let aside = room_aside(m)?;
    let top = make_room(m, view, callee.stack, callee.frame)?;
    let floor = m.stack.len() - callee.takes as usize;
    begin_body(
        m,
        callee,
        Entry {
            to,
            floor,
            base,
            top,
        },
        aside,
    );
    Ok(())
}

// A call whose frame begins at a cell of the own one, where there is memory for it; an Err leaves all as it was.
pub(crate) fn enter_at<C: Cells>(
    m: &mut Machine,
    view: &mut C,
    callee: CodeSub,
    cell: u32,
    to: usize,
) -> Result<(), AllocError>
    requires near { m.old.base ≤ 2 ^ 62 }
    requires turns { m.old.turns < 2 ^ 64 - 1 }
    requires calls { m.old.calls < 1000 }
    requires whole { C.whole view.old }
    ensures ok { OnOk result (state_of m.new (C.cells view.new) ≡ entered_at callee cell to (record (state_of m.old (C.cells view.old)) { turns = m.old.turns + 1 })) }
    ensures fits { OnOk result (m.new.floor + callee.stack ≤ vec_capacity m.new.stack) }
    ensures near { OnOk result (m.new.base ≤ 2 ^ 62) }
    ensures err { OnErr result (state_of m.new (C.cells view.new) ≡ state_of m.old (C.cells view.old)) }
    ensures room { vec_capacity m.old.stack ≤ vec_capacity m.new.stack }
    ensures stays { Stays C.floor C.whole C.place view.old view.new }
    ensures looks { m.new.looks ≡ m.old.looks }
{
    let base = m.base + u64::from(cell);
    if FARTHEST < base {
        return Err(AllocError);
    }
    let end = base + u64::from(callee.frame);
    let count = match u32::try_from(end.saturating_sub(view.len())) {
        Ok(count) => count,
        Err(_) => return Err(AllocError),
    };
    let aside = room_aside(m)?;
    let top = make_room(m, view, callee.stack, count)?;
    let floor = m.stack.len();
    begin_body(
        m,
        callee,
        Entry {
            to,
            floor,
            base,
            top,
        },
        aside,
    );
    Ok(())
}
