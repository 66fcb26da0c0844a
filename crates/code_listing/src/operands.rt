// What follows the name of an instruction in its line: numbers, and then a base range.
ghost use Rattle.std.specs.Prelude.{◌≡◌, ◌≤◌, length};
ghost use Rattle.stack_code.specs.Listing.{base_in, operands_of};
ghost use Rattle.code_listing.specs.Shown.{numbers_of};

use ada_base::Base;
use stack_code::{Instr, reason_number};

/// The numbers that follow the name of an instruction in its line.
#[derive(Clone, Copy)]
pub enum Operands {
    /// Nothing.
    Nothing,
    /// A number of a table, a cell or a count.
    Number(u64),
    /// Any number.
    Signed(i64),
    /// Two numbers of tables or cells.
    Two(u32, u32),
    /// Three of them.
    Three(u32, u32, u32),
    /// Any two numbers.
    Both(i64, i64),
    /// A cell, and the least and the greatest number that may be written to it.
    Bounded(u32, i64, i64),
    /// The bounds of an index, and the cells of a component.
    Indexed(i64, i64, u32),
    /// A cell, the bounds of an index, and the cells of a component.
    Found(u32, i64, i64, u32),
    /// The same, and a cell that has the index.
    FoundBy(u32, i64, i64, u32, u32),
}

/// The base range in which an instruction's result lies, which stands behind its numbers.
pub(crate) fn base_in(instr: Instr) -> Option<Base>
    ensures { result ≡ base_in instr }
{
    match instr {
        Instr::Add(base)
        | Instr::Sub(base)
        | Instr::Mul(base)
        | Instr::Div(base)
        | Instr::Mod(base)
        | Instr::Rem(base)
        | Instr::Pow(base)
        | Instr::Neg(base)
        | Instr::Abs(base)
        | Instr::AddI(_, base)
        | Instr::SubI(_, base)
        | Instr::MulI(_, base)
        | Instr::ModI(_, base) => Some(base),
        _ => None,
    }
}

// The operand of an instruction that has one at most.
fn operand_of(instr: Instr) -> Operands
    requires { length (operands_of instr) ≤ 1 }
    ensures { numbers_of result ≡ operands_of instr }
{
    match instr {
        Instr::Push(v) => Operands::Signed(v),
        Instr::Repeat(count) => Operands::Number(count),
        Instr::Local(n)
        | Instr::Global(n)
        | Instr::Field(n)
        | Instr::Far(n)
        | Instr::Copy(n)
        | Instr::Jump(n)
        | Instr::JFalse(n)
        | Instr::JTrue(n)
        | Instr::Call(n)
        | Instr::Exit(n)
        | Instr::Fork(n)
        | Instr::Words(n)
        | Instr::Wide(n)
        | Instr::Combine(n)
        | Instr::LoadL(n)
        | Instr::LoadG(n)
        | Instr::StoreL(n)
        | Instr::StoreG(n)
        | Instr::JfEq(n)
        | Instr::JfNe(n)
        | Instr::JfLt(n)
        | Instr::JfLe(n)
        | Instr::JfGt(n)
        | Instr::JfGe(n)
        | Instr::Again(n) => Operands::Number(u64::from(n)),
        Instr::BNot(digits) => Operands::Number(u64::from(digits)),
        Instr::AddI(v, _) | Instr::SubI(v, _) | Instr::MulI(v, _) | Instr::ModI(v, _) =>
            Operands::Signed(v),
        Instr::Raise(reason) => Operands::Number(reason_number(reason)),
        _ => Operands::Nothing,
    }
}

/// The operands of an instruction.
pub(crate) fn operands_of(instr: Instr) -> Operands
    ensures { numbers_of result ≡ operands_of instr }
{
    match instr {
        Instr::Outer(a, b) | Instr::CallAt(a, b) | Instr::LoadO(a, b) | Instr::StoreO(a, b) =>
            Operands::Two(a, b),
        Instr::CallTo(a, b, c) | Instr::Next(a, b, c) | Instr::Prior(a, b, c) => {
            Operands::Three(a, b, c)
        }
        Instr::Fill(n, v) => Operands::Both(i64::from(n), v),
        Instr::Range(lo, hi) | Instr::URange(lo, hi) => Operands::Both(lo, hi),
        Instr::SetL(n, lo, hi) | Instr::USetL(n, lo, hi) => Operands::Bounded(n, lo, hi),
        Instr::Index(lo, hi, size) | Instr::Item(lo, hi, size) => Operands::Indexed(lo, hi, size),
        Instr::IndexL(n, lo, hi, size) | Instr::ItemL(n, lo, hi, size) => {
            Operands::Found(n, lo, hi, size)
        }
        Instr::IndexG(g, lo, hi, size, n) | Instr::ItemG(g, lo, hi, size, n) => {
            Operands::FoundBy(g, lo, hi, size, n)
        }
        _ => operand_of(instr),
    }
}
