// The lines of a listing.
ghost use Rattle.std.specs.Prelude.{◌≡◌, ◌++◌, ◌∷◌, [], ℤ, pos, codes, decimal, string_bytes, IfOk, OnOk};
ghost use Rattle.stack_code.specs.Listing.{one_or_zero, spaced, base_after, line, instr_line, unwind_line, site_line, sub_line, lines_from, listing_of};
ghost use Rattle.code_listing.specs.Shown.{numbers_of};

use crate::names::name_of;
use crate::operands::{Operands, base_in, operands_of};
use ada_base::Base;
use stack_code::{Code, CodeSite, CodeSub, Instr, Unwind};
use std::alloc::{AllocError, Global};

fn put_number(text: &mut String, value: u64) -> Result<(), AllocError>
    ensures { OnOk result (string_bytes text.new ≡ string_bytes text.old ++ spaced (pos value ∷ [])) }
{
    write!(text, " {value}")
}

fn put_signed(text: &mut String, value: i64) -> Result<(), AllocError>
    ensures { OnOk result (string_bytes text.new ≡ string_bytes text.old ++ spaced (value ∷ [])) }
{
    write!(text, " {value}")
}

fn put_numbers(text: &mut String, numbers: &[i64]) -> Result<(), AllocError>
    ensures { OnOk result (string_bytes text.new ≡ string_bytes text.old ++ spaced numbers.now) }
{
    for at in 0..numbers.len() {
        put_signed(text, numbers[at])?;
    }
    Ok(())
}

fn put_operands(text: &mut String, operands: Operands) -> Result<(), AllocError>
    ensures { OnOk result (string_bytes text.new ≡ string_bytes text.old ++ spaced (numbers_of operands)) }
{
    match operands {
        Operands::Nothing => Ok(()),
        Operands::Number(n) => put_number(text, n),
        Operands::Signed(v) => put_signed(text, v),
        Operands::Two(a, b) => put_numbers(text, &[i64::from(a), i64::from(b)]),
        Operands::Three(a, b, c) => {
            put_numbers(text, &[i64::from(a), i64::from(b), i64::from(c)])
        }
        Operands::Both(a, b) => put_numbers(text, &[a, b]),
        Operands::Bounded(n, lo, hi) => put_numbers(text, &[i64::from(n), lo, hi]),
        Operands::Indexed(lo, hi, size) => put_numbers(text, &[lo, hi, i64::from(size)]),
        Operands::Found(n, lo, hi, size) => {
            put_numbers(text, &[i64::from(n), lo, hi, i64::from(size)])
        }
        Operands::FoundBy(g, lo, hi, size, n) => {
            put_numbers(text, &[i64::from(g), lo, hi, i64::from(size), i64::from(n)])
        }
    }
}

fn put_base(text: &mut String, base: Option<Base>) -> Result<(), AllocError>
    ensures { OnOk result (string_bytes text.new ≡ string_bytes text.old ++ base_after base) }
{
    match base {
        Some(Base::Narrow) => text.push_str(" 32"),
        Some(Base::Wide) => text.push_str(" 64"),
        Some(Base::Modulo(digits)) => write!(text, " m{digits}"),
        None => Ok(()),
    }
}

fn put_instr(text: &mut String, number: usize, instr: Instr) -> Result<(), AllocError>
    ensures { OnOk result (string_bytes text.new ≡ string_bytes text.old ++ instr_line number instr) }
{
    let operands = operands_of(instr);
    write!(text, "{number} ")?;
    text.push_str(name_of(instr, operands))?;
    put_operands(text, operands)?;
    put_base(text, base_in(instr))?;
    text.push('\n')
}

fn put_unwind(text: &mut String, entry: Unwind) -> Result<(), AllocError>
    ensures { OnOk result (string_bytes text.new ≡ string_bytes text.old ++ unwind_line 0 entry) }
{
    let numbers = [
        i64::from(entry.from),
        i64::from(entry.to),
        i64::from(entry.handler),
        i64::from(entry.depth),
        i64::from(entry.nest),
    ];
    text.push_str("UNWIND")?;
    put_numbers(text, &numbers)?;
    text.push('\n')
}

// The line of an entry of a table, which begins with the table's word and the entry's number.
fn put_entry(
    text: &mut String,
    word: &str,
    number: usize,
    numbers: &[i64],
) -> Result<(), AllocError>
    ensures { OnOk result (string_bytes text.new ≡ string_bytes text.old ++ line word.now (pos number ∷ numbers.now)) }
{
    text.push_str(word)?;
    put_number(text, number as u64)?;
    put_numbers(text, numbers)?;
    text.push('\n')
}

fn put_site(text: &mut String, number: usize, site: &CodeSite) -> Result<(), AllocError>
    ensures { OnOk result (string_bytes text.new ≡ string_bytes text.old ++ site_line number site.now) }
{
    let numbers = [
        i64::from(site.entry),
        i64::from(site.frame),
        i64::from(site.stack),
    ];
    put_entry(text, "SITE", number, &numbers)
}

fn one_or_zero(holds: bool) -> i64
    ensures { result ≡ pos (one_or_zero holds) }
{
    if holds { 1 } else { 0 }
}

fn put_sub(text: &mut String, number: usize, sub: CodeSub) -> Result<(), AllocError>
    ensures { OnOk result (string_bytes text.new ≡ string_bytes text.old ++ sub_line number sub) }
{
    let numbers = [
        i64::from(sub.entry),
        i64::from(sub.frame),
        i64::from(sub.stack),
        i64::from(sub.takes),
        one_or_zero(sub.gives),
    ];
    put_entry(text, "SUB", number, &numbers)
}

fn put_instrs(text: &mut String, code: &Code) -> Result<(), AllocError>
    ensures { OnOk result (string_bytes text.new ≡ string_bytes text.old ++ lines_from instr_line 0 code.now.instrs) }
{
    let instrs = code.instrs.as_slice();
    for number in 0..instrs.len() {
        put_instr(text, number, instrs[number])?;
    }
    Ok(())
}

fn put_unwinds(text: &mut String, code: &Code) -> Result<(), AllocError>
    ensures { OnOk result (string_bytes text.new ≡ string_bytes text.old ++ lines_from unwind_line 0 code.now.unwind) }
{
    let entries = code.unwind.as_slice();
    for number in 0..entries.len() {
        put_unwind(text, entries[number])?;
    }
    Ok(())
}

fn put_sites(text: &mut String, code: &Code) -> Result<(), AllocError>
    ensures { OnOk result (string_bytes text.new ≡ string_bytes text.old ++ lines_from site_line 0 code.now.sites) }
{
    let sites = code.sites.as_slice();
    for number in 0..sites.len() {
        put_site(text, number, &sites[number])?;
    }
    Ok(())
}

fn put_subs(text: &mut String, code: &Code) -> Result<(), AllocError>
    ensures { OnOk result (string_bytes text.new ≡ string_bytes text.old ++ lines_from sub_line 0 code.now.subs) }
{
    let subs = code.subs.as_slice();
    for number in 0..subs.len() {
        put_sub(text, number, subs[number])?;
    }
    Ok(())
}

/// The listing: a line for each instruction, unwind entry, construct and subprogram. The error is for want of memory.
pub fn listing(alloc: Global, code: &Code) -> Result<String, AllocError>
    ensures { IfOk result (λ text. string_bytes text ≡ listing_of code.now) }
{
    let mut text = String::new(alloc);
    put_instrs(&mut text, code)?;
    put_unwinds(&mut text, code)?;
    put_sites(&mut text, code)?;
    put_subs(&mut text, code)?;
    Ok(text)
}
