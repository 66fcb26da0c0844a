//! Whether an instruction may stand in its body: the cells, subprograms and sites that it names, and what has to stand before it.

ghost use Rattle.std.specs.Prelude.{◌≡◌, ◌<◌, ◌↔◌, true, slice_get, Some, IsTrue, IsSomeAnd};
ghost use Rattle.stack_code.specs.Valid.{Has, CallsFunction, ForksFold, FollowsFold, Belongs, HasFrame, outward};

use crate::bodies::{frame_exceeds, is_callee, is_thread, outward};
use crate::ranges::{are_digits, is_range};
use stack_code::{Around, Code, Instr, SiteKind};

fn calls_function(kind: SiteKind) -> bool
    ensures { IsTrue result ↔ CallsFunction kind }
{
    match kind {
        SiteKind::Reduction(None) | SiteKind::ChunkReduction(None) => true,
        _ => false,
    }
}

fn is_unnest(code: &Code, at: usize) -> bool
    ensures { IsTrue result ↔ (slice_get code.now.instrs at ≡ Some Instr.Unnest) }
{
    matches!(code.instrs.get(at), Some(Instr::Unnest))
}

fn is_fold(code: &Code, site: u32) -> bool
    ensures { IsTrue result ↔ Has code.now.sites site (λ s. CallsFunction s.kind) }
{
    match code.sites.get(site as usize) {
        Some(construct) => calls_function(construct.kind),
        None => false,
    }
}

fn forks_fold(code: &Code, at: usize) -> bool
    ensures { IsTrue result ↔ ForksFold code.now (slice_get code.now.instrs at) }
{
    match code.instrs.get(at) {
        Some(Instr::Fork(site)) => is_fold(code, *site),
        _ => false,
    }
}

fn follows_fold(code: &Code, at: usize) -> bool
    ensures { IsTrue result ↔ FollowsFold code.now at }
{
    let mut before = at;
    while 0 < before {
        before -= 1;
        if !is_unnest(code, before) {
            return forks_fold(code, before);
        }
    }
    false
}

fn takes_none(code: &Code, sub: u32) -> bool
    ensures { IsTrue result ↔ Has code.now.subs sub (λ s. s.takes ≡ 0) }
{
    match code.subs.get(sub as usize) {
        Some(callee) => callee.takes == 0,
        None => false,
    }
}

fn folds(code: &Code, sub: u32) -> bool
    ensures { IsTrue result ↔ Has code.now.subs sub (λ s. (s.takes ≡ 2) × (s.gives ≡ true)) }
{
    match code.subs.get(sub as usize) {
        Some(callee) => callee.takes == 2 && callee.gives,
        None => false,
    }
}

fn stands_around(code: &Code, site: u32, body: Around) -> bool
    ensures { IsTrue result ↔ Has code.now.sites site (λ s. s.around ≡ body) }
{
    match code.sites.get(site as usize) {
        Some(construct) => construct.around == body,
        None => false,
    }
}

fn outer_exceeds(code: &Code, body: Around, steps: u32, cell: u32) -> bool
    ensures { IsTrue result ↔ IsSomeAnd (outward code.now (Some body) steps) (λ b. HasFrame code.now b (λ cells. cell < cells)) }
{
    match outward(code, body, steps) {
        Some(reached) => frame_exceeds(code, reached, cell),
        None => false,
    }
}

/// Whether an instruction may stand in that body at that place.
pub(crate) fn belongs(code: &Code, at: usize, body: Around, instr: Instr) -> bool
    ensures { IsTrue result ↔ Belongs code.now at body instr }
{
    match instr {
        Instr::Local(cell)
        | Instr::LoadL(cell)
        | Instr::StoreL(cell)
        | Instr::SetL(cell, _, _)
        | Instr::USetL(cell, _, _)
        | Instr::IndexL(cell, _, _, _)
        | Instr::ItemL(cell, _, _, _) => frame_exceeds(code, body, cell),
        Instr::Outer(steps, cell) | Instr::LoadO(steps, cell) | Instr::StoreO(steps, cell) => {
            0 < steps && outer_exceeds(code, body, steps, cell)
        }
        Instr::Global(cell) | Instr::LoadG(cell) | Instr::StoreG(cell) => {
            frame_exceeds(code, Around::Sub(0), cell)
        }
        Instr::IndexG(object, _, _, _, cell) | Instr::ItemG(object, _, _, _, cell) => {
            frame_exceeds(code, Around::Sub(0), object) && frame_exceeds(code, body, cell)
        }
        Instr::Next(counter, last, _) | Instr::Prior(counter, last, _) => {
            frame_exceeds(code, body, counter) && frame_exceeds(code, body, last)
        }
        Instr::Call(sub) => 0 < sub && (sub as usize) < code.subs.len(),
        Instr::CallAt(sub, _) | Instr::CallTo(sub, _, _) => 0 < sub && takes_none(code, sub),
        Instr::Combine(sub) => folds(code, sub) && follows_fold(code, at),
        Instr::Fork(site) => stands_around(code, site, body),
        Instr::Words(number) => (number as usize) < code.texts.len(),
        Instr::Exit(_) | Instr::Leave | Instr::LeaveV | Instr::End => is_thread(code, body, false),
        Instr::EndV => is_thread(code, body, true),
        Instr::Ret => is_callee(code, body, false),
        Instr::RetV => is_callee(code, body, true),
        Instr::Halt => body == Around::Sub(0),
        Instr::Add(base)
        | Instr::Sub(base)
        | Instr::Mul(base)
        | Instr::Div(base)
        | Instr::Mod(base)
        | Instr::Rem(base)
        | Instr::Pow(base)
        | Instr::Neg(base)
        | Instr::Abs(base)
        | Instr::AddI(_, base)
        | Instr::SubI(_, base)
        | Instr::MulI(_, base)
        | Instr::ModI(_, base) => is_range(base),
        Instr::BNot(digits) => are_digits(digits),
        _ => true,
    }
}
