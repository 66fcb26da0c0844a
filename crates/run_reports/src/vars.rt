//! The lines of the variables of the main procedure.

ghost use Rattle.std.specs.Prelude.{◌≡◌, ◌∷◌, ◌++◌, take, drop, length, IfOk};
ghost use Rattle.ada_meaning.specs.Meaning.{object_layout};
ghost use Rattle.ada_meaning.specs.Stored.{filled, final_of, finals_of};
ghost use Rattle.typed_tree.specs.Programs.{program};
ghost use Rattle.run_reports.specs.Ends.{values_of};
ghost use Rattle.run_reports.specs.Puts.{Puts};
ghost use Rattle.run_reports.specs.Rows.{GreatestDigits, ThreeCells, TwoLines};
ghost use Rattle.run_reports.specs.Vars.{cell_text, cells_text, first_or_zero, vars_line, vars_lines};
ghost use Rattle.run_reports.specs.declared.ends.CellKind.TheVariants as cell_kinds;

use crate::ends::{CellKind, Final, Finals};
use ada_base::{Base, Items, number};
use ada_io::truth_image;
use ada_meaning::Variable;
use ada_port::Sink;
use run_values::{cells_of, is_true};
use std::alloc::{AllocError, Global};
use typed_tree::Typed;

/// Why not all was put.
#[derive(Clone, Copy)]
pub enum Unput {
    Failed,
    OutOfMemory,
}

/// Puts a line for each variable of the main procedure that was elaborated.
pub fn put_vars<O: Sink>(
    alloc: Global,
    typed: &Typed,
    variables: &Items<Final>,
    finals: &Finals,
    out: &mut O,
) -> Result<(), Unput>
    ensures { Puts (vars_lines variables.now (values_of (program typed.now) finals.now)) result (O.state out.old) (O.state out.new) }
{
    let n = variables.len();
    let mut i = 0;
    while i < n {
        let Some(variable) = variables.get(i) else {
            return Ok(());
        };
        let Some(place) = finals.declared.get(i) else {
            return Ok(());
        };
        if let Err(fault) = put_line(alloc, typed, finals, variable, *place, out) {
            return Err(fault);
        }
        i += 1;
    }
    Ok(())
}

fn put_line<O: Sink>(
    alloc: Global,
    typed: &Typed,
    finals: &Finals,
    variable: &Final,
    place: Variable,
    out: &mut O,
) -> Result<(), Unput>
    ensures { Puts (vars_line variable.now (final_of (program typed.now) finals.now.kept place)) result (O.state out.old) (O.state out.new) }
{
    let Ok(line) = line_of(alloc, typed, variable, place, finals.kept.as_slice()) else {
        return Err(Unput::OutOfMemory);
    };
    match out.put(line.as_slice()) {
        Ok(()) => Ok(()),
        Err(_) => Err(Unput::Failed),
    }
}

fn line_of(
    alloc: Global,
    typed: &Typed,
    variable: &Final,
    place: Variable,
    kept: &[i64],
) -> Result<Items<u8>, AllocError>
    ensures { IfOk result (λ line. line ≡ vars_line variable.now (final_of (program typed.now) kept.now place)) }
{
    let cells = size_of(typed, place.object)?;
    let values = front(from(kept, place.address), place.cells);
    let mut line = Items::new(alloc);
    line.extend(variable.name.as_slice())?;
    line.extend(b" =")?;
    push_cells(alloc, variable.kinds.as_slice(), cells, values, &mut line)?;
    line.push(b'\n')?;
    Ok(line)
}

/// How many cells an object has.
fn size_of(typed: &Typed, object: u32) -> Result<u64, AllocError>
    ensures { IfOk result (λ n. n ≡ length (object_layout (program typed.now) object)) }
{
    match typed.objects.get(object as usize) {
        None => Ok(0),
        Some(found) => match cells_of(typed, found.subtype) {
            Ok(cells) => Ok(cells),
            Err(_) => Err(AllocError),
        },
    }
}

fn from(cells: &[i64], address: u64) -> &[i64]
    ensures { result.now ≡ drop address cells.now }
{
    if address < cells.len() as u64 {
        &cells[address as usize..]
    } else {
        &[]
    }
}

fn front(cells: &[i64], count: u64) -> &[i64]
    ensures { result.now ≡ take count cells.now }
{
    if count < cells.len() as u64 {
        &cells[..count as usize]
    } else {
        cells
    }
}

/// So many of the values, and zeros where there are no more, as texts behind others, one for each cell.
fn push_cells(
    alloc: Global,
    kinds: &[CellKind],
    cells: u64,
    values: &[i64],
    line: &mut Items<u8>,
) -> Result<(), AllocError>
    ensures { IfOk result (λ u. line.new ≡ line.old ++ cells_text kinds.now (filled cells values.now)) }
{
    let mut left = cells;
    let mut rest = values;
    for kind in kinds {
        if left == 0 {
            return Ok(());
        }
        push_first(alloc, *kind, rest, line)?;
        left -= 1;
        rest = behind(rest);
    }
    Ok(())
}

fn first(values: &[i64]) -> i64
    ensures { result ≡ first_or_zero values.now }
{
    match values {
        [] => 0,
        [value, ..] => *value,
    }
}

fn behind(values: &[i64]) -> &[i64]
    ensures { result.now ≡ drop 1 values.now }
{
    match values {
        [] => values,
        [_, more @ ..] => more,
    }
}

/// One space, and the first of the values.
fn push_first(
    alloc: Global,
    kind: CellKind,
    values: &[i64],
    line: &mut Items<u8>,
) -> Result<(), AllocError>
    ensures { IfOk result (λ u. line.new ≡ line.old ++ 32 ∷ cell_text kind (first_or_zero values.now)) }
{
    let value = first(values);
    push_cell(alloc, kind, value, line)?;
    Ok(())
}

/// One space, and a cell's value.
fn push_cell(
    alloc: Global,
    kind: CellKind,
    value: i64,
    line: &mut Items<u8>,
) -> Result<(), AllocError>
    ensures { IfOk result (λ u. line.new ≡ line.old ++ 32 ∷ cell_text kind value) }
{
    line.push(b' ')?;
    match kind {
        CellKind::Truth => {
            line.extend(truth_text(value))?;
            Ok(())
        }
        CellKind::Number => {
            let text = format!(in alloc; "{value}")?;
            line.extend(text.as_bytes())?;
            Ok(())
        }
        CellKind::Digits => {
            let number = number(Base::Modulo(64), value);
            let text = format!(in alloc; "{number}")?;
            line.extend(text.as_bytes())?;
            Ok(())
        }
    }
}

fn truth_text(value: i64) -> &'static [u8]
    ensures { result.now ≡ cell_text cell_kinds.Truth value }
{
    truth_image(is_true(value))
}

/// Variables have the lines that are said of them in `specs/Rows.antt`. It has no body: its contract is what is proved.
pub fn rows()
    ensures three_cells { ThreeCells }
    ensures two_lines { TwoLines }
    ensures greatest_digits { GreatestDigits }
{}
