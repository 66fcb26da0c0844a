//! What an instruction takes from the stack and gives to it, and where control goes behind it.

ghost use Rattle.std.specs.Prelude.{◌≡◌, ◌+◌, ◌-◌, ◌≤◌, ℕ, slice_get};
ghost use Rattle.stack_code.specs.Operands.{takes, pushes, ends_of, nest_after, flow_of, is_reduction};

use stack_code::{Code, Flow, Instr, SiteKind};

pub(crate) fn is_reduction(kind: SiteKind) -> bool
    ensures { result ≡ is_reduction kind }
{
    match kind {
        SiteKind::Loop | SiteKind::ChunkLoop | SiteKind::Block(_) => false,
        SiteKind::Reduction(_) | SiteKind::ChunkReduction(_) => true,
    }
}

fn taken_by(code: &Code, sub: u32) -> u32
    ensures { result ≡ takes code.now (Instr.Call sub) }
{
    match code.subs.get(sub as usize) {
        Some(callee) => callee.takes,
        None => 0,
    }
}

fn given_by(code: &Code, sub: u32) -> u32
    ensures same { result ≡ pushes code.now (Instr.Call sub) }
    ensures few { result ≤ 2 }
{
    match code.subs.get(sub as usize) {
        Some(callee) => { if callee.gives { 1 } else { 0 } }
        None => 0,
    }
}

fn answered_by(code: &Code, site: u32) -> u32
    ensures same { result ≡ pushes code.now (Instr.Fork site) }
    ensures few { result ≤ 2 }
{
    match code.sites.get(site as usize) {
        Some(construct) => { if is_reduction(construct.kind) { 1 } else { 2 } }
        None => 0,
    }
}

/// How many operands an instruction takes.
pub(crate) fn takes_of(code: &Code, instr: Instr) -> u32
    ensures { result ≡ takes code.now instr }
{
    match instr {
        Instr::Pop
        | Instr::Dup
        | Instr::Field(_)
        | Instr::Load
        | Instr::Fill(_, _)
        | Instr::Neg(_)
        | Instr::Abs(_)
        | Instr::Not
        | Instr::Range(_, _)
        | Instr::JFalse(_)
        | Instr::JTrue(_)
        | Instr::RetV
        | Instr::Reraise
        | Instr::LeaveV
        | Instr::Img
        | Instr::Bool
        | Instr::Wide(_)
        | Instr::EndV
        | Instr::CallTo(_, _, _)
        | Instr::Combine(_)
        | Instr::StoreL(_)
        | Instr::StoreO(_, _)
        | Instr::StoreG(_)
        | Instr::SetL(_, _, _)
        | Instr::AddI(_, _)
        | Instr::SubI(_, _)
        | Instr::MulI(_, _)
        | Instr::ModI(_, _)
        | Instr::IndexL(_, _, _, _)
        | Instr::ItemL(_, _, _, _)
        | Instr::Flip
        | Instr::BNot(_)
        | Instr::URange(_, _)
        | Instr::USetL(_, _, _)
        | Instr::UImg => 1,
        Instr::Item(_, _, _)
        | Instr::Differ
        | Instr::JfEq(_)
        | Instr::JfNe(_)
        | Instr::JfLt(_)
        | Instr::JfLe(_)
        | Instr::JfGt(_)
        | Instr::JfGe(_)
        | Instr::Swap
        | Instr::Index(_, _, _)
        | Instr::Store
        | Instr::Copy(_)
        | Instr::Add(_)
        | Instr::Sub(_)
        | Instr::Mul(_)
        | Instr::Div(_)
        | Instr::Mod(_)
        | Instr::Rem(_)
        | Instr::Pow(_)
        | Instr::Max
        | Instr::Min
        | Instr::Eq
        | Instr::Ne
        | Instr::Lt
        | Instr::Le
        | Instr::Gt
        | Instr::Ge
        | Instr::Far(_)
        | Instr::And
        | Instr::Or
        | Instr::Xor
        | Instr::ULt
        | Instr::ULe
        | Instr::UGt
        | Instr::UGe
        | Instr::UMax
        | Instr::UMin => 2,
        Instr::Fork(_) => 5,
        Instr::Call(sub) => taken_by(code, sub),
        _ => 0,
    }
}

/// How many operands an instruction pushes.
pub(crate) fn pushes_of(code: &Code, instr: Instr) -> u32
    ensures same { result ≡ pushes code.now instr }
    ensures few { result ≤ 2 }
{
    match instr {
        Instr::Push(_)
        | Instr::Local(_)
        | Instr::Outer(_, _)
        | Instr::Global(_)
        | Instr::Index(_, _, _)
        | Instr::Field(_)
        | Instr::Load
        | Instr::Add(_)
        | Instr::Sub(_)
        | Instr::Mul(_)
        | Instr::Div(_)
        | Instr::Mod(_)
        | Instr::Rem(_)
        | Instr::Pow(_)
        | Instr::Neg(_)
        | Instr::Abs(_)
        | Instr::Max
        | Instr::Min
        | Instr::Eq
        | Instr::Ne
        | Instr::Lt
        | Instr::Le
        | Instr::Gt
        | Instr::Ge
        | Instr::Far(_)
        | Instr::And
        | Instr::Or
        | Instr::Xor
        | Instr::Not
        | Instr::Range(_, _)
        | Instr::Get
        | Instr::Combine(_)
        | Instr::LoadL(_)
        | Instr::LoadO(_, _)
        | Instr::LoadG(_)
        | Instr::AddI(_, _)
        | Instr::SubI(_, _)
        | Instr::MulI(_, _)
        | Instr::ModI(_, _)
        | Instr::IndexL(_, _, _, _)
        | Instr::Item(_, _, _)
        | Instr::ItemL(_, _, _, _)
        | Instr::IndexG(_, _, _, _, _)
        | Instr::ItemG(_, _, _, _, _)
        | Instr::Flip
        | Instr::Differ
        | Instr::BNot(_)
        | Instr::ULt
        | Instr::ULe
        | Instr::UGt
        | Instr::UGe
        | Instr::UMax
        | Instr::UMin
        | Instr::URange(_, _) => 1,
        Instr::Dup | Instr::Swap | Instr::Part => 2,
        Instr::Call(sub) | Instr::CallAt(sub, _) | Instr::CallTo(sub, _, _) => given_by(code, sub),
        Instr::Fork(site) => answered_by(code, site),
        _ => 0,
    }
}

/// How many constructs must have been begun before an instruction.
pub(crate) fn ends_of(instr: Instr) -> u32
    ensures { result ≡ ends_of instr }
{
    match instr {
        Instr::Unnest | Instr::Fork(_) => 1,
        _ => 0,
    }
}

/// The constructs begun after an instruction.
pub(crate) fn nest_after(instr: Instr, nest: u32) -> u64
    ensures { result ≡ nest_after instr nest }
{
    match instr {
        Instr::Nest => u64::from(nest) + 1,
        Instr::Unnest => u64::from(nest.saturating_sub(1)),
        _ => u64::from(nest),
    }
}

/// What may follow an instruction.
pub(crate) fn flow_of(instr: Instr) -> Flow
    ensures { result ≡ flow_of instr }
{
    match instr {
        Instr::Jump(to) => Flow::To(to),
        Instr::JFalse(to)
        | Instr::JTrue(to)
        | Instr::JfEq(to)
        | Instr::JfNe(to)
        | Instr::JfLt(to)
        | Instr::JfLe(to)
        | Instr::JfGt(to)
        | Instr::JfGe(to)
        | Instr::Next(_, _, to)
        | Instr::Prior(_, _, to) => Flow::Branch(to),
        Instr::CallTo(_, _, to) => Flow::Back(to),
        Instr::Again(to) => Flow::Round(to),
        Instr::Ret
        | Instr::RetV
        | Instr::Raise(_)
        | Instr::Reraise
        | Instr::Exit(_)
        | Instr::Leave
        | Instr::LeaveV
        | Instr::End
        | Instr::EndV
        | Instr::Halt => Flow::Ends,
        _ => Flow::On,
    }
}
