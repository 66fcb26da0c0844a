// The instructions that ask for more than operands and cells.
ghost use Rattle.std.specs.Prelude.{◌≡◌, ◌+◌, ◌-◌, ◌^◌, ◌<◌, ◌≤◌, ◌∷◌, ℕ, ℤ, pos, List, Some, None, length, reverse, slice_get, vec_len, vec_capacity, OnOk, OnErr};
ghost use Rattle.ada_base.specs.Cells.{Cell};
ghost use Rattle.stack_code.specs.Runs.{NeverStuck};
ghost use Rattle.stack_code.specs.Tops.{IsTopped};
ghost use Rattle.ada_machine.specs.Places.{Stays};
ghost use Rattle.stack_code.specs.Looks.{looks_of, kept_looks};
ghost use Rattle.stack_code.specs.Machine.{entered, failed, on};
ghost use Rattle.ada_machine.specs.States.{state_of, more, Ready, Steps, LooksBy, HeedsBy};
ghost use Rattle.ada_machine.specs.Strides.{IsHandedOn, IsRare};

use crate::calls::{enter, enter_at, return_to};
use crate::cells::Cells;
use crate::effects::{begin_construct, begin_part, end_construct, end_round, fail};
use crate::lines::{add_image, add_number_image, add_padded, add_truth, add_words, ask, give_line};
use crate::machine::{Machine, Stop, Went};
use crate::operands::{put, take, truth};
use ada_base::Reason;
use leave_board::Halt;
use stack_code::{Code, CodeSub, Instr, Io, Leave};
use std::alloc::AllocError;

// Calls and constructs that may be active (13.7).
const MOST_CALLS: u32 = 1000;

const MOST_NESTED: u32 = 16;

fn unnest(code: &Code, m: &mut Machine, limit: u64) -> Went
    requires ready { (cells : List Cell) × Ready code.now m.old cells }
    requires calm { m.old.raising ≡ None }
    requires at { slice_get code.now.instrs m.old.pc ≡ Some Instr.Unnest }
    requires within { m.old.turns ≤ limit }
    requires next { m.old.pc < usize.MAX }
    ensures steps { (cells : List Cell) → Ready code.now m.old cells → Steps limit code.now result m.old cells m.new cells }
    ensures paused { result ≡ Went.Stopped Stop.Paused → ⊥ }
    ensures looks { m.new.looks ≡ m.old.looks }
{
    let _ = code;
    let _ = limit;
    end_construct(m);
    Went::On
}

fn nest<H: Halt>(code: &Code, m: &mut Machine, limit: u64, halt: &mut H) -> Went
    requires ready { (cells : List Cell) × Ready code.now m.old cells }
    requires calm { m.old.raising ≡ None }
    requires at { slice_get code.now.instrs m.old.pc ≡ Some Instr.Nest }
    requires within { m.old.turns ≤ limit }
    requires next { m.old.pc < usize.MAX }
    ensures steps { (cells : List Cell) → Ready code.now m.old cells → Steps limit code.now result m.old cells m.new cells }
    ensures paused { result ≡ Went.Stopped Stop.Paused → H.told halt.new }
    ensures halts { (H.kept halt.new ≡ H.kept halt.old) × (H.told halt.old → H.told halt.new) }
    ensures heeds { HeedsBy result (H.told halt.old) (H.told halt.new) m.old.looks m.new.looks }
    ensures looks { LooksBy result m.old.looks m.new.looks 1 }
{
    let _ = code;
    let _ = limit;
    if halt.asked() {
        return Went::Stopped(Stop::Paused);
    }
    if MOST_NESTED <= m.nested {
        m.looks = m.looks.saturating_add(1);
        m.raising = Some(Reason::StorageError);
        return Went::Raising;
    }
    m.looks = m.looks.saturating_add(1);
    begin_construct(m);
    Went::On
}

fn leave_with(code: &Code, m: &mut Machine, limit: u64) -> Went
    requires ready { (cells : List Cell) × Ready code.now m.old cells }
    requires calm { m.old.raising ≡ None }
    requires at { slice_get code.now.instrs m.old.pc ≡ Some Instr.LeaveV }
    requires within { m.old.turns ≤ limit }
    requires next { m.old.pc < usize.MAX }
    ensures steps { (cells : List Cell) → Ready code.now m.old cells → Steps limit code.now result m.old cells m.new cells }
    ensures paused { result ≡ Went.Stopped Stop.Paused → ⊥ }
    ensures looks { m.new.looks ≡ m.old.looks }
{
    let _ = code;
    let _ = limit;
    let value = take(&mut m.stack);
    Went::Stopped(Stop::Left(Leave::Return(Some(value))))
}

fn end_with(code: &Code, m: &mut Machine, limit: u64) -> Went
    requires ready { (cells : List Cell) × Ready code.now m.old cells }
    requires calm { m.old.raising ≡ None }
    requires at { slice_get code.now.instrs m.old.pc ≡ Some Instr.EndV }
    requires within { m.old.turns ≤ limit }
    requires next { m.old.pc < usize.MAX }
    ensures steps { (cells : List Cell) → Ready code.now m.old cells → Steps limit code.now result m.old cells m.new cells }
    ensures paused { result ≡ Went.Stopped Stop.Paused → ⊥ }
    ensures looks { m.new.looks ≡ m.old.looks }
{
    let _ = code;
    let _ = limit;
    let value = take(&mut m.stack);
    Went::Stopped(Stop::Done(Some(value)))
}

fn fork(code: &Code, m: &mut Machine, limit: u64, site: u32) -> Went
    requires ready { (cells : List Cell) × Ready code.now m.old cells }
    requires calm { m.old.raising ≡ None }
    requires at { slice_get code.now.instrs m.old.pc ≡ Some (Instr.Fork site) }
    requires within { m.old.turns ≤ limit }
    requires next { m.old.pc < usize.MAX }
    ensures steps { (cells : List Cell) → Ready code.now m.old cells → Steps limit code.now result m.old cells m.new cells }
    ensures paused { result ≡ Went.Stopped Stop.Paused → ⊥ }
    ensures looks { m.new.looks ≡ m.old.looks }
{
    let _ = code;
    let _ = limit;
    match ask(&mut m.stack, site) {
        Some(asked) => Went::Stopped(Stop::Construct(asked)),
        None => {
            m.raising = Some(Reason::StorageError);
            Went::Raising
        }
    }
}

fn words(code: &Code, m: &mut Machine, limit: u64, number: u32) -> Went
    requires ready { (cells : List Cell) × Ready code.now m.old cells }
    requires calm { m.old.raising ≡ None }
    requires at { slice_get code.now.instrs m.old.pc ≡ Some (Instr.Words number) }
    requires within { m.old.turns ≤ limit }
    requires next { m.old.pc < usize.MAX }
    ensures steps { (cells : List Cell) → Ready code.now m.old cells → Steps limit code.now result m.old cells m.new cells }
    ensures paused { result ≡ Went.Stopped Stop.Paused → ⊥ }
    ensures looks { m.new.looks ≡ m.old.looks }
{
    let _ = limit;
    match code.texts.get(number as usize) {
        Some(text) => match add_words(m, text.as_slice()) {
            Ok(()) => Went::On,
            Err(_) => Went::Stopped(Stop::NoMemory),
        },
        None => Went::Stopped(Stop::NoMemory),
    }
}

fn put_image(code: &Code, m: &mut Machine, limit: u64) -> Went
    requires ready { (cells : List Cell) × Ready code.now m.old cells }
    requires calm { m.old.raising ≡ None }
    requires at { slice_get code.now.instrs m.old.pc ≡ Some Instr.Img }
    requires within { m.old.turns ≤ limit }
    requires next { m.old.pc < usize.MAX }
    ensures steps { (cells : List Cell) → Ready code.now m.old cells → Steps limit code.now result m.old cells m.new cells }
    ensures paused { result ≡ Went.Stopped Stop.Paused → ⊥ }
    ensures looks { m.new.looks ≡ m.old.looks }
{
    let _ = code;
    let _ = limit;
    match add_image(m) {
        Ok(()) => Went::On,
        Err(_) => Went::Stopped(Stop::NoMemory),
    }
}

fn put_number_image(code: &Code, m: &mut Machine, limit: u64) -> Went
    requires ready { (cells : List Cell) × Ready code.now m.old cells }
    requires calm { m.old.raising ≡ None }
    requires at { slice_get code.now.instrs m.old.pc ≡ Some Instr.UImg }
    requires within { m.old.turns ≤ limit }
    requires next { m.old.pc < usize.MAX }
    ensures steps { (cells : List Cell) → Ready code.now m.old cells → Steps limit code.now result m.old cells m.new cells }
    ensures paused { result ≡ Went.Stopped Stop.Paused → ⊥ }
    ensures looks { m.new.looks ≡ m.old.looks }
{
    let _ = code;
    let _ = limit;
    match add_number_image(m) {
        Ok(()) => Went::On,
        Err(_) => Went::Stopped(Stop::NoMemory),
    }
}

fn put_truth(code: &Code, m: &mut Machine, limit: u64) -> Went
    requires ready { (cells : List Cell) × Ready code.now m.old cells }
    requires calm { m.old.raising ≡ None }
    requires at { slice_get code.now.instrs m.old.pc ≡ Some Instr.Bool }
    requires within { m.old.turns ≤ limit }
    requires next { m.old.pc < usize.MAX }
    ensures steps { (cells : List Cell) → Ready code.now m.old cells → Steps limit code.now result m.old cells m.new cells }
    ensures paused { result ≡ Went.Stopped Stop.Paused → ⊥ }
    ensures looks { m.new.looks ≡ m.old.looks }
{
    let _ = code;
    let _ = limit;
    match add_truth(m) {
        Ok(()) => Went::On,
        Err(_) => Went::Stopped(Stop::NoMemory),
    }
}

fn put_padded(code: &Code, m: &mut Machine, limit: u64, width: u32) -> Went
    requires ready { (cells : List Cell) × Ready code.now m.old cells }
    requires calm { m.old.raising ≡ None }
    requires at { slice_get code.now.instrs m.old.pc ≡ Some (Instr.Wide width) }
    requires within { m.old.turns ≤ limit }
    requires next { m.old.pc < usize.MAX }
    ensures steps { (cells : List Cell) → Ready code.now m.old cells → Steps limit code.now result m.old cells m.new cells }
    ensures paused { result ≡ Went.Stopped Stop.Paused → ⊥ }
    ensures looks { m.new.looks ≡ m.old.looks }
{
    let _ = code;
    let _ = limit;
    match add_padded(m, width) {
        Ok(()) => Went::On,
        Err(_) => Went::Stopped(Stop::NoMemory),
    }
}

fn send(code: &Code, m: &mut Machine, limit: u64) -> Went
    requires ready { (cells : List Cell) × Ready code.now m.old cells }
    requires calm { m.old.raising ≡ None }
    requires at { slice_get code.now.instrs m.old.pc ≡ Some Instr.Send }
    requires within { m.old.turns ≤ limit }
    requires next { m.old.pc < usize.MAX }
    ensures steps { (cells : List Cell) → Ready code.now m.old cells → Steps limit code.now result m.old cells m.new cells }
    ensures paused { result ≡ Went.Stopped Stop.Paused → ⊥ }
    ensures looks { m.new.looks ≡ m.old.looks }
{
    let _ = code;
    let _ = limit;
    match give_line(m, false) {
        Ok(text) => Went::Stopped(Stop::Ask(Io::Write(text))),
        Err(_) => Went::Stopped(Stop::NoMemory),
    }
}

fn send_line(code: &Code, m: &mut Machine, limit: u64) -> Went
    requires ready { (cells : List Cell) × Ready code.now m.old cells }
    requires calm { m.old.raising ≡ None }
    requires at { slice_get code.now.instrs m.old.pc ≡ Some Instr.SendLn }
    requires within { m.old.turns ≤ limit }
    requires next { m.old.pc < usize.MAX }
    ensures steps { (cells : List Cell) → Ready code.now m.old cells → Steps limit code.now result m.old cells m.new cells }
    ensures paused { result ≡ Went.Stopped Stop.Paused → ⊥ }
    ensures looks { m.new.looks ≡ m.old.looks }
{
    let _ = code;
    let _ = limit;
    match give_line(m, true) {
        Ok(text) => Went::Stopped(Stop::Ask(Io::Write(text))),
        Err(_) => Went::Stopped(Stop::NoMemory),
    }
}

#[inline(always)]
fn return_plain<C: Cells>(code: &Code, m: &mut Machine, view: &mut C, limit: u64)
    requires ready { Ready code.now m.old (C.cells view.old) }
    requires calm { m.old.raising ≡ None }
    requires at { slice_get code.now.instrs m.old.pc ≡ Some Instr.Ret }
    requires within { m.old.turns ≤ limit }
    requires next { m.old.pc < usize.MAX }
    requires whole { C.whole view.old }
    requires tops { IsTopped (C.floor view.old) (state_of m.old (C.cells view.old)) }
    ensures steps { Steps limit code.now Went.On m.old (C.cells view.old) m.new (C.cells view.new) }
    ensures stays { Stays C.floor C.whole C.place view.old view.new }
    ensures looks { m.new.looks ≡ m.old.looks }
{
    let _ = code;
    let _ = limit;
    return_to(m, view, None);
}

#[inline(always)]
fn return_value<C: Cells>(code: &Code, m: &mut Machine, view: &mut C, limit: u64)
    requires ready { Ready code.now m.old (C.cells view.old) }
    requires calm { m.old.raising ≡ None }
    requires at { slice_get code.now.instrs m.old.pc ≡ Some Instr.RetV }
    requires within { m.old.turns ≤ limit }
    requires next { m.old.pc < usize.MAX }
    requires whole { C.whole view.old }
    requires tops { IsTopped (C.floor view.old) (state_of m.old (C.cells view.old)) }
    ensures steps { Steps limit code.now Went.On m.old (C.cells view.old) m.new (C.cells view.new) }
    ensures stays { Stays C.floor C.whole C.place view.old view.new }
    ensures looks { m.new.looks ≡ m.old.looks }
{
    let _ = code;
    let _ = limit;
    let value = take(&mut m.stack);
    return_to(m, view, Some(value));
}

fn sub_of(code: &Code, number: u32) -> CodeSub
    requires { number < length code.now.subs }
    ensures { slice_get code.now.subs number ≡ Some result }
{
    code.subs.as_slice()[number as usize]
}

fn call<C: Cells, H: Halt>(
    code: &Code,
    m: &mut Machine,
    view: &mut C,
    limit: u64,
    halt: &mut H,
    number: u32,
) -> Went
    requires ready { Ready code.now m.old (C.cells view.old) }
    requires calm { m.old.raising ≡ None }
    requires at { slice_get code.now.instrs m.old.pc ≡ Some (Instr.Call number) }
    requires within { m.old.turns ≤ limit }
    requires next { m.old.pc < usize.MAX }
    requires whole { C.whole view.old }
    ensures steps { Steps limit code.now result m.old (C.cells view.old) m.new (C.cells view.new) }
    ensures paused { result ≡ Went.Stopped Stop.Paused → H.told halt.new }
    ensures halts { (H.kept halt.new ≡ H.kept halt.old) × (H.told halt.old → H.told halt.new) }
    ensures heeds { HeedsBy result (H.told halt.old) (H.told halt.new) m.old.looks m.new.looks }
    ensures stays { Stays C.floor C.whole C.place view.old view.new }
    ensures looks { LooksBy result m.old.looks m.new.looks 1 }
{
    if halt.asked() {
        return Went::Stopped(Stop::Paused);
    }
    if m.turns == limit {
        m.looks = m.looks.saturating_add(1);
        return Went::Stopped(Stop::Spent);
    }
    let callee = sub_of(code, number);
    if MOST_CALLS <= m.calls {
        let height = m.stack.len() - callee.takes as usize;
        m.turns += 1;
        m.looks = m.looks.saturating_add(1);
        fail(m, Reason::StorageError, height);
        return Went::Raising;
    }
    let to = m.pc + 1;
    match enter(m, view, callee, to) {
        Ok(()) => {
            m.looks = m.looks.saturating_add(1);
            Went::On
        }
        Err(_) => Went::Stopped(Stop::NoMemory),
    }
}

// A subprogram, and the cell of the own frame at which its frame begins.
#[derive(Clone, Copy)]
struct Window {
    sub: u32,
    cell: u32,
}

// The same, and the instruction that the call comes back to.
#[derive(Clone, Copy)]
struct Return {
    sub: u32,
    cell: u32,
    to: u32,
}

// A call of a subprogram whose frame begins at a cell of the own one.
#[inline(always)]
fn call_at<C: Cells, H: Halt>(
    code: &Code,
    m: &mut Machine,
    view: &mut C,
    limit: u64,
    halt: &mut H,
    window: Window,
) -> Went
    requires ready { Ready code.now m.old (C.cells view.old) }
    requires calm { m.old.raising ≡ None }
    requires at { slice_get code.now.instrs m.old.pc ≡ Some (Instr.CallAt window.sub window.cell) }
    requires within { m.old.turns ≤ limit }
    requires next { m.old.pc < usize.MAX }
    requires whole { C.whole view.old }
    ensures steps { Steps limit code.now result m.old (C.cells view.old) m.new (C.cells view.new) }
    ensures paused { result ≡ Went.Stopped Stop.Paused → H.told halt.new }
    ensures halts { (H.kept halt.new ≡ H.kept halt.old) × (H.told halt.old → H.told halt.new) }
    ensures heeds { HeedsBy result (H.told halt.old) (H.told halt.new) m.old.looks m.new.looks }
    ensures stays { Stays C.floor C.whole C.place view.old view.new }
    ensures looks { LooksBy result m.old.looks m.new.looks 1 }
{
    if halt.asked() {
        return Went::Stopped(Stop::Paused);
    }
    if m.turns == limit {
        m.looks = m.looks.saturating_add(1);
        return Went::Stopped(Stop::Spent);
    }
    let callee = sub_of(code, window.sub);
    if MOST_CALLS <= m.calls {
        m.turns += 1;
        m.looks = m.looks.saturating_add(1);
        m.raising = Some(Reason::StorageError);
        return Went::Raising;
    }
    let to = m.pc + 1;
    match enter_at(m, view, callee, window.cell, to) {
        Ok(()) => {
            m.looks = m.looks.saturating_add(1);
            Went::On
        }
        Err(_) => Went::Stopped(Stop::NoMemory),
    }
}

// A call that begins a turn, and raises.
fn raise_call(m: &mut Machine, reason: Reason)
    requires { m.old.turns < 2 ^ 64 - 1 }
    ensures state { (cells : List Cell) → state_of m.new cells ≡ failed reason (reverse m.old.stack.items) (record (state_of m.old cells) { turns = m.old.turns + 1 }) }
    ensures room { vec_capacity m.new.stack ≡ vec_capacity m.old.stack }
    ensures looks { m.new.looks ≡ more m.old.looks 1 }
{
    m.turns += 1;
    m.looks = m.looks.saturating_add(1);
    m.raising = Some(reason);
}

// The same, which takes the top, raises where that is 0, and comes back to the instruction that it names.
fn call_to<C: Cells, H: Halt>(
    code: &Code,
    m: &mut Machine,
    view: &mut C,
    limit: u64,
    halt: &mut H,
    back: Return,
) -> Went
    requires ready { Ready code.now m.old (C.cells view.old) }
    requires calm { m.old.raising ≡ None }
    requires at { slice_get code.now.instrs m.old.pc ≡ Some (Instr.CallTo back.sub back.cell back.to) }
    requires within { m.old.turns ≤ limit }
    requires next { m.old.pc < usize.MAX }
    requires whole { C.whole view.old }
    ensures steps { Steps limit code.now result m.old (C.cells view.old) m.new (C.cells view.new) }
    ensures paused { result ≡ Went.Stopped Stop.Paused → H.told halt.new }
    ensures halts { (H.kept halt.new ≡ H.kept halt.old) × (H.told halt.old → H.told halt.new) }
    ensures heeds { HeedsBy result (H.told halt.old) (H.told halt.new) m.old.looks m.new.looks }
    ensures stays { Stays C.floor C.whole C.place view.old view.new }
    ensures looks { LooksBy result m.old.looks m.new.looks 1 }
{
    if halt.asked() {
        return Went::Stopped(Stop::Paused);
    }
    if m.turns == limit {
        m.looks = m.looks.saturating_add(1);
        return Went::Stopped(Stop::Spent);
    }
    let callee = sub_of(code, back.sub);
    let fit = take(&mut m.stack);
    if MOST_CALLS <= m.calls {
        raise_call(m, Reason::StorageError);
        return Went::Raising;
    }
    if !truth(fit) {
        raise_call(m, Reason::ConstraintError);
        return Went::Raising;
    }
    match enter_at(m, view, callee, back.cell, back.to as usize) {
        Ok(()) => {
            m.looks = m.looks.saturating_add(1);
            Went::On
        }
        Err(_) => {
            put(&mut m.stack, fit);
            Went::Stopped(Stop::NoMemory)
        }
    }
}

// Pushes both and goes on.
fn put_drawn(m: &mut Machine, part: i64, flag: i64)
    requires room { vec_len m.old.stack + 2 ≤ vec_capacity m.old.stack }
    requires next { m.old.pc < usize.MAX }
    ensures state { (cells : List Cell) → state_of m.new cells ≡ on (flag ∷ part ∷ reverse m.old.stack.items) (state_of m.old cells) }
    ensures room { vec_capacity m.new.stack ≡ vec_capacity m.old.stack }
    ensures looks { m.new.looks ≡ m.old.looks }
{
    put(&mut m.stack, part);
    put(&mut m.stack, flag);
    m.pc += 1;
}

// Takes off the next accumulator that is kept.
fn draw(code: &Code, m: &mut Machine, limit: u64) -> Went
    requires ready { (cells : List Cell) × Ready code.now m.old cells }
    requires calm { m.old.raising ≡ None }
    requires at { slice_get code.now.instrs m.old.pc ≡ Some Instr.Part }
    requires within { m.old.turns ≤ limit }
    requires next { m.old.pc < usize.MAX }
    ensures steps { (cells : List Cell) → Ready code.now m.old cells → Steps limit code.now result m.old cells m.new cells }
    ensures paused { result ≡ Went.Stopped Stop.Paused → ⊥ }
    ensures looks { m.new.looks ≡ m.old.looks }
{
    let _ = code;
    let _ = limit;
    if m.kept.len() == 0 {
        put_drawn(m, 0, 0);
        return Went::On;
    }
    let part = m.kept.take_last();
    put_drawn(m, part, 1);
    Went::On
}

// Begins a part that is done so many times.
fn repeat(code: &Code, m: &mut Machine, limit: u64, count: u64) -> Went
    requires ready { (cells : List Cell) × Ready code.now m.old cells }
    requires calm { m.old.raising ≡ None }
    requires at { slice_get code.now.instrs m.old.pc ≡ Some (Instr.Repeat count) }
    requires within { m.old.turns ≤ limit }
    requires next { m.old.pc < usize.MAX }
    ensures steps { (cells : List Cell) → Ready code.now m.old cells → Steps limit code.now result m.old cells m.new cells }
    ensures paused { result ≡ Went.Stopped Stop.Paused → ⊥ }
    ensures looks { m.new.looks ≡ m.old.looks }
{
    let _ = code;
    let _ = limit;
    match begin_part(m, count) {
        Ok(()) => Went::On,
        Err(_) => Went::Stopped(Stop::NoMemory),
    }
}

// Ends a round of one.
fn again(code: &Code, m: &mut Machine, limit: u64, to: u32) -> Went
    requires ready { (cells : List Cell) × Ready code.now m.old cells }
    requires calm { m.old.raising ≡ None }
    requires at { slice_get code.now.instrs m.old.pc ≡ Some (Instr.Again to) }
    requires within { m.old.turns ≤ limit }
    requires next { m.old.pc < usize.MAX }
    ensures steps { (cells : List Cell) → Ready code.now m.old cells → Steps limit code.now result m.old cells m.new cells }
    ensures paused { result ≡ Went.Stopped Stop.Paused → ⊥ }
    ensures looks { m.new.looks ≡ m.old.looks }
{
    let _ = code;
    let _ = limit;
    end_round(m, to as usize);
    Went::On
}

// The call of a function with the next accumulator that is kept, which comes back to where it stands; an Err leaves all as it was.
fn enter_next<C: Cells>(m: &mut Machine, view: &mut C, callee: CodeSub) -> Result<(), AllocError>
    requires kept { 0 < vec_len m.old.kept }
    requires takes { callee.takes ≤ vec_len m.old.stack + 1 }
    requires turns { m.old.turns < 2 ^ 64 - 1 }
    requires calls { m.old.calls < 1000 }
    requires whole { C.whole view.old }
    ensures ok { OnOk result ((part : ℤ) × (parts : List ℤ) × (reverse m.old.kept.items ≡ part ∷ parts) × (state_of m.new (C.cells view.new) ≡ entered callee m.old.pc parts (record (state_of m.old (C.cells view.old)) { turns = m.old.turns + 1; stack = part ∷ reverse m.old.stack.items }))) }
    ensures fits { OnOk result (m.new.floor + callee.stack ≤ vec_capacity m.new.stack) }
    ensures near { OnOk result (m.new.base ≤ 2 ^ 62) }
    ensures err { OnErr result (state_of m.new (C.cells view.new) ≡ state_of m.old (C.cells view.old)) }
    ensures room { vec_capacity m.old.stack ≤ vec_capacity m.new.stack }
    ensures stays { Stays C.floor C.whole C.place view.old view.new }
    ensures looks { m.new.looks ≡ m.old.looks }
{
    m.stack.reserve(1)?;
    let part = m.kept.take_last();
    put(&mut m.stack, part);
    let to = m.pc;
    match enter(m, view, callee, to) {
        Ok(()) => Ok(()),
        Err(error) => {
            let _ = take(&mut m.stack);
            m.kept.push_reserved(part);
            Err(error)
        }
    }
}

fn combine<C: Cells, H: Halt>(
    code: &Code,
    m: &mut Machine,
    view: &mut C,
    limit: u64,
    halt: &mut H,
    number: u32,
) -> Went
    requires ready { Ready code.now m.old (C.cells view.old) }
    requires calm { m.old.raising ≡ None }
    requires at { slice_get code.now.instrs m.old.pc ≡ Some (Instr.Combine number) }
    requires within { m.old.turns ≤ limit }
    requires next { m.old.pc < usize.MAX }
    requires whole { C.whole view.old }
    ensures steps { Steps limit code.now result m.old (C.cells view.old) m.new (C.cells view.new) }
    ensures paused { result ≡ Went.Stopped Stop.Paused → H.told halt.new }
    ensures halts { (H.kept halt.new ≡ H.kept halt.old) × (H.told halt.old → H.told halt.new) }
    ensures heeds { HeedsBy result (H.told halt.old) (H.told halt.new) m.old.looks m.new.looks }
    ensures stays { Stays C.floor C.whole C.place view.old view.new }
    ensures looks { LooksBy result m.old.looks m.new.looks (kept_looks (reverse m.old.kept.items)) }
{
    if m.kept.len() == 0 {
        m.pc += 1;
        return Went::On;
    }
    if halt.asked() {
        return Went::Stopped(Stop::Paused);
    }
    if m.turns == limit {
        m.looks = m.looks.saturating_add(1);
        return Went::Stopped(Stop::Spent);
    }
    let callee = sub_of(code, number);
    if MOST_CALLS <= m.calls {
        let height = m.stack.len() - 1;
        m.turns += 1;
        m.looks = m.looks.saturating_add(1);
        fail(m, Reason::StorageError, height);
        return Went::Raising;
    }
    match enter_next(m, view, callee) {
        Ok(()) => {
            m.looks = m.looks.saturating_add(1);
            Went::On
        }
        Err(_) => Went::Stopped(Stop::NoMemory),
    }
}

fn rare_effect<C: Cells, H: Halt>(
    code: &Code,
    m: &mut Machine,
    view: &mut C,
    limit: u64,
    halt: &mut H,
    instr: Instr,
) -> Went
    requires ready { Ready code.now m.old (C.cells view.old) }
    requires calm { m.old.raising ≡ None }
    requires at { slice_get code.now.instrs m.old.pc ≡ Some instr }
    requires more { IsRare instr }
    requires within { m.old.turns ≤ limit }
    requires next { m.old.pc < usize.MAX }
    requires whole { C.whole view.old }
    ensures steps { Steps limit code.now result m.old (C.cells view.old) m.new (C.cells view.new) }
    ensures paused { result ≡ Went.Stopped Stop.Paused → H.told halt.new }
    ensures halts { (H.kept halt.new ≡ H.kept halt.old) × (H.told halt.old → H.told halt.new) }
    ensures heeds { HeedsBy result (H.told halt.old) (H.told halt.new) m.old.looks m.new.looks }
    ensures stays { Stays C.floor C.whole C.place view.old view.new }
    ensures looks { LooksBy result m.old.looks m.new.looks (looks_of code.now (state_of m.old (C.cells view.old))) }
{
    match instr {
        Instr::Call(number) => call(code, m, view, limit, halt, number),
        Instr::CallTo(sub, cell, to) => {
            call_to(code, m, view, limit, halt, Return { sub, cell, to })
        }
        Instr::Part => draw(code, m, limit),
        Instr::Repeat(count) => repeat(code, m, limit, count),
        Instr::Again(to) => again(code, m, limit, to),
        Instr::Exit(number) => Went::Stopped(Stop::Left(Leave::Exit(number))),
        Instr::Leave => Went::Stopped(Stop::Left(Leave::Return(None))),
        Instr::LeaveV => leave_with(code, m, limit),
        Instr::Fork(site) => fork(code, m, limit, site),
        Instr::Nest => nest(code, m, limit, halt),
        Instr::Unnest => unnest(code, m, limit),
        Instr::Words(number) => words(code, m, limit, number),
        Instr::Img => put_image(code, m, limit),
        Instr::UImg => put_number_image(code, m, limit),
        Instr::Bool => put_truth(code, m, limit),
        Instr::Wide(width) => put_padded(code, m, limit, width),
        Instr::Send => send(code, m, limit),
        Instr::SendLn => send_line(code, m, limit),
        Instr::Get => Went::Stopped(Stop::Ask(Io::Take)),
        Instr::End => Went::Stopped(Stop::Done(None)),
        Instr::EndV => end_with(code, m, limit),
        Instr::Halt => Went::Stopped(Stop::Done(None)),
        Instr::Combine(number) => combine(code, m, view, limit, halt, number),
        _ => Went::Stopped(Stop::NoMemory),
    }
}

// Does an instruction that asks for more than operands, cells and turns. LLVM puts it into the loop; Rattle's own compiler doesn't.
#[inline(always)]
pub(crate) fn effect<C: Cells, H: Halt>(
    code: &Code,
    m: &mut Machine,
    view: &mut C,
    limit: u64,
    halt: &mut H,
    instr: &Instr,
) -> Went
    requires ready { Ready code.now m.old (C.cells view.old) }
    requires calm { m.old.raising ≡ None }
    requires at { slice_get code.now.instrs m.old.pc ≡ Some instr.now }
    requires more { IsHandedOn instr.now }
    requires within { m.old.turns ≤ limit }
    requires next { m.old.pc < usize.MAX }
    requires whole { C.whole view.old }
    requires tops { IsTopped (C.floor view.old) (state_of m.old (C.cells view.old)) }
    ensures steps { Steps limit code.now result m.old (C.cells view.old) m.new (C.cells view.new) }
    ensures paused { result ≡ Went.Stopped Stop.Paused → H.told halt.new }
    ensures halts { (H.kept halt.new ≡ H.kept halt.old) × (H.told halt.old → H.told halt.new) }
    ensures heeds { HeedsBy result (H.told halt.old) (H.told halt.new) m.old.looks m.new.looks }
    ensures stays { Stays C.floor C.whole C.place view.old view.new }
    ensures looks { LooksBy result m.old.looks m.new.looks (looks_of code.now (state_of m.old (C.cells view.old))) }
{
    match *instr {
        Instr::CallAt(sub, cell) => call_at(code, m, view, limit, halt, Window { sub, cell }),
        Instr::Ret => {
            return_plain(code, m, view, limit);
            Went::On
        }
        Instr::RetV => {
            return_value(code, m, view, limit);
            Went::On
        }
        _ => rare_effect(code, m, view, limit, halt, *instr),
    }
}
