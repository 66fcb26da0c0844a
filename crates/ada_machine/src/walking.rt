// One instruction after another.
ghost use Rattle.std.specs.Prelude.{◌≡◌, ◌≢◌, ◌+◌, ◌<◌, ◌≤◌, ◌∷◌, ℕ, ℤ, pos, List, Some, None, length, reverse, slice_get, vec_len, vec_capacity, true, false};
ghost use Rattle.stack_code.specs.Machine.{entry_of, Goes, step, Comes};
ghost use Rattle.stack_code.specs.Runs.{NeverStuck};
ghost use Rattle.stack_code.specs.Valid.{IsValid};
ghost use Rattle.stack_code.specs.Tops.{IsTopped};
ghost use Rattle.ada_machine.specs.Places.{Stays};
ghost use Rattle.stack_code.specs.Looks.{raise_looks};
ghost use Rattle.ada_machine.specs.States.{state_of, Ready, Steps, Unwinds, StopsAt, ReadyAfter, LooksBy, Unlooked, TookLooks, HeedsAt, HeedsBy, HeedsThen};
ghost use Rattle.ada_machine.specs.Strides.{Strides};

use crate::calls::unwind_to;
use crate::cells::Cells;
use crate::computing::{Frames, compute};
use crate::effecting::effect;
use crate::effects::handle;
use crate::machine::{Machine, Stop, Went};
use crate::operands::Computed;
use ada_base::Reason;
use leave_board::Halt;
use stack_code::{Code, Instr, Leave, Unwind};

// The instruction there, by reference: each arm reads the operands that it has.
#[inline(always)]
fn instr_at(instrs: &[Instr], pc: usize) -> &Instr
    requires { pc < length instrs.now }
    ensures instr { slice_get instrs.now pc ≡ Some result.now }
    ensures near { pc < usize.MAX }
{
    let _long = instrs.len();
    &instrs[pc]
}

pub(crate) fn fetch(code: &Code, pc: usize) -> Instr
    requires { pc < length code.now.instrs }
    ensures instr { slice_get code.now.instrs pc ≡ Some result }
    ensures near { pc < usize.MAX }
{
    *instr_at(code.instrs.as_slice(), pc)
}

// The first unwind entry that holds the instruction, which its spot names.
fn holder(code: &Code, pc: usize) -> Option<Unwind>
    requires valid { IsValid code.now }
    requires here { pc < length code.now.instrs }
    ensures { result ≡ entry_of code.now.unwind pc }
{
    match code.spots.as_slice()[pc].held {
        Some(number) => match code.unwind.get(number as usize) {
            Some(entry) => Some(*entry),
            None => None,
        },
        None => None,
    }
}

// A step of a raise: the first entry that holds the instruction takes it, after a poll; or the call raises it.
fn raise<C: Cells, H: Halt>(
    code: &Code,
    m: &mut Machine,
    view: &mut C,
    limit: u64,
    halt: &mut H,
    reason: Reason,
) -> Went
    requires ready { Ready code.now m.old (C.cells view.old) }
    requires raising { m.old.raising ≡ Some reason }
    requires within { m.old.turns ≤ limit }
    requires whole { C.whole view.old }
    requires tops { IsTopped (C.floor view.old) (state_of m.old (C.cells view.old)) }
    ensures steps { Steps limit code.now result m.old (C.cells view.old) m.new (C.cells view.new) }
    ensures paused { result ≡ Went.Stopped Stop.Paused → H.told halt.new }
    ensures halts { (H.kept halt.new ≡ H.kept halt.old) × (H.told halt.old → H.told halt.new) }
    ensures heeds { HeedsBy result (H.told halt.old) (H.told halt.new) m.old.looks m.new.looks }
    ensures stays { Stays C.floor C.whole C.place view.old view.new }
    ensures looks { LooksBy result m.old.looks m.new.looks (raise_looks (entry_of code.now.unwind m.old.pc)) }
{
    match holder(code, m.pc) {
        Some(entry) => {
            if halt.asked() {
                return Went::Stopped(Stop::Paused);
            }
            m.looks = m.looks.saturating_add(1);
            handle(m, entry, reason);
            Went::Raising
        }
        None => {
            if m.waiting.is_empty() {
                return Went::Stopped(Stop::Left(Leave::Raise(reason)));
            }
            unwind_to(m, view);
            Went::Raising
        }
    }
}

// Until no exception is raised any more.
fn unwind<C: Cells, H: Halt>(
    code: &Code,
    m: &mut Machine,
    view: &mut C,
    limit: u64,
    halt: &mut H,
) -> Option<Stop>
    requires ready { Ready code.now m.old (C.cells view.old) }
    requires within { m.old.turns ≤ limit }
    requires whole { C.whole view.old }
    requires tops { IsTopped (C.floor view.old) (state_of m.old (C.cells view.old)) }
    ensures unwinds { Unwinds limit code.now result m.old (C.cells view.old) m.new (C.cells view.new) }
    ensures paused { result ≡ Some Stop.Paused → H.told halt.new }
    ensures halts { (H.kept halt.new ≡ H.kept halt.old) × (H.told halt.old → H.told halt.new) }
    ensures heeds { HeedsThen result (H.told halt.old) (H.told halt.new) m.old.looks m.new.looks }
    ensures stays { Stays C.floor C.whole C.place view.old view.new }
    ensures looks { Unlooked limit code.now result m.old.looks m.new.looks (state_of m.old (C.cells view.old)) (state_of m.new (C.cells view.new)) }
{
    loop {
        match m.raising {
            None => return None,
            Some(reason) => match raise(code, m, view, limit, halt, reason) {
                Went::On => {}
                Went::Raising => {}
                Went::Stopped(stop) => return Some(stop),
            },
        }
    }
}

// Writes back what a stretch has in registers.
#[inline(always)]
fn keep(m: &mut Machine, pc: usize, turns: u64, looks: u64)
    ensures { m.new ≡ record m.old { pc = pc; turns = turns; looks = looks } }
{
    m.pc = pc;
    m.turns = turns;
    m.looks = looks;
}

// Instructions one after another, until an exception is being raised or the machine stops. Results stay in registers, and so do
// where the own frame begins, the number of the next instruction, the turns and the looks: they are written back before an
// instruction that asks for more than operands, cells and turns, and at the end.
#[inline(always)]
fn stride<C: Cells, H: Halt>(
    code: &Code,
    m: &mut Machine,
    view: &mut C,
    limit: u64,
    halt: &mut H,
) -> Option<Stop>
    requires ready { Ready code.now m.old (C.cells view.old) }
    requires calm { m.old.raising ≡ None }
    requires clear { NeverStuck limit code.now (state_of m.old (C.cells view.old)) }
    requires within { m.old.turns ≤ limit }
    requires whole { C.whole view.old }
    requires tops { IsTopped (C.floor view.old) (state_of m.old (C.cells view.old)) }
    ensures strides { Strides limit code.now result m.old (C.cells view.old) m.new (C.cells view.new) }
    ensures paused { result ≡ Some Stop.Paused → H.told halt.new }
    ensures halts { (H.kept halt.new ≡ H.kept halt.old) × (H.told halt.old → H.told halt.new) }
    ensures heeds { HeedsThen result (H.told halt.old) (H.told halt.new) m.old.looks m.new.looks }
    ensures stays { Stays C.floor C.whole C.place view.old view.new }
    ensures looks { Unlooked limit code.now result m.old.looks m.new.looks (state_of m.old (C.cells view.old)) (state_of m.new (C.cells view.new)) }
{
    let instrs = code.instrs.as_slice();
    let mut base = m.base;
    let mut pc = m.pc;
    let mut turns = m.turns;
    let mut looks = m.looks;
    loop {
        let instr = instr_at(instrs, pc);
        let _height = m.stack.len();
        let frames = Frames {
            base,
            outward: m.outward.as_slice(),
        };
        match compute::<C, H>(code, instr, pc, &mut m.stack, frames, view) {
            Computed::To(to) => pc = to,
            Computed::Failed(reason) => {
                keep(m, pc, turns, looks);
                m.raising = Some(reason);
                return None;
            }
            Computed::Beyond => {
                keep(m, pc, turns, looks);
                return Some(Stop::NoMemory);
            }
            Computed::Other => match *instr {
                Instr::Turn => {
                    if halt.asked() {
                        keep(m, pc, turns, looks);
                        return Some(Stop::Paused);
                    }
                    looks = looks.saturating_add(1);
                    if turns == limit {
                        keep(m, pc, turns, looks);
                        return Some(Stop::Spent);
                    }
                    turns += 1;
                    pc += 1;
                }
                _ => {
                    keep(m, pc, turns, looks);
                    match effect(code, m, view, limit, halt, instr) {
                        Went::On => {
                            base = m.base;
                            pc = m.pc;
                            turns = m.turns;
                            looks = m.looks;
                        }
                        Went::Raising => return None,
                        Went::Stopped(stop) => return Some(stop),
                    }
                }
            },
        }
    }
}

/// Goes on until something stops the machine.
pub fn go<C: Cells, H: Halt>(
    code: &Code,
    m: &mut Machine,
    view: &mut C,
    limit: u64,
    halt: &mut H,
) -> Stop
    requires ready { Ready code.now m.old (C.cells view.old) }
    requires clear { NeverStuck limit code.now (state_of m.old (C.cells view.old)) }
    requires within { m.old.turns ≤ limit }
    requires whole { C.whole view.old }
    requires tops { IsTopped (C.floor view.old) (state_of m.old (C.cells view.old)) }
    ensures stops { StopsAt limit code.now result (state_of m.old (C.cells view.old)) (state_of m.new (C.cells view.new)) }
    ensures ready { ReadyAfter result code.now m.new (C.cells view.new) }
    ensures tops { IsTopped (C.floor view.new) (state_of m.new (C.cells view.new)) }
    ensures within { m.new.turns ≤ limit }
    ensures paused { result ≡ Stop.Paused → H.told halt.new }
    ensures halts { (H.kept halt.new ≡ H.kept halt.old) × (H.told halt.old → H.told halt.new) }
    ensures heeds { HeedsAt result (H.told halt.old) (H.told halt.new) m.old.looks m.new.looks }
    ensures stays { Stays C.floor C.whole C.place view.old view.new }
    ensures looks { TookLooks limit code.now result m.old.looks m.new.looks (state_of m.old (C.cells view.old)) (state_of m.new (C.cells view.new)) }
{
    loop {
        match unwind(code, m, view, limit, halt) {
            Some(stop) => return stop,
            None => {}
        }
        match stride(code, m, view, limit, halt) {
            Some(stop) => return stop,
            None => {}
        }
    }
}
