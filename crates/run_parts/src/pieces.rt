//! Pieces of output (A.10.6 to A.10.8).

ghost use Rattle.std.specs.Prelude.{◌≡◌, ◌++◌, ◌∷◌, [], cond};
ghost use Rattle.ada_base.specs.Image.{image, padded};
ghost use Rattle.typed_tree.specs.Decoded.{bytes_in, leaves_at};
ghost use Rattle.ada_meaning.specs.Values.{image_of, to_nat};
ghost use Rattle.run_values.specs.Values.{OrNoMemory};
ghost use Rattle.run_parts.specs.Words.{nodes_of, text_with};

use crate::work::Work;
use ada_base::{Base, Items, digits};
use ada_io::{append_digits, append_image, append_padded, truth_image};
use run_values::{End, is_true};
use typed_tree::{Class, Leaf};

/// The bytes of a text, behind others.
pub fn with_text(work: &Work<'_>, out: Items<u8>, id: u32) -> Result<Items<u8>, End>
    ensures { OrNoMemory (λ text. text ≡ out ++ bytes_in (leaves_at (nodes_of work.now) id)) result }
{
    let mut text = out;
    let mut at = id;
    while let Some(cell) = work.typed.nodes.leaf(at) {
        push_leaf(&mut text, cell.leaf)?;
        at = cell.rest;
    }
    Ok(text)
}

fn push_leaf(text: &mut Items<u8>, leaf: Leaf) -> Result<(), End>
    ensures { OrNoMemory (λ done. text.new ≡ text_with text.old leaf) result }
{
    match leaf {
        Leaf::Byte(byte) => match text.push(byte) {
            Ok(()) => Ok(()),
            Err(_) => Err(End::NoMemory),
        },
        _ => Ok(()),
    }
}

/// The image of a value (4.10), behind other bytes.
pub fn with_image(out: Items<u8>, class: Class, value: i64) -> Result<Items<u8>, End>
    ensures { OrNoMemory (λ text. text ≡ out ++ image_of class value) result }
{
    match class {
        Class::Boolean => {
            let text = with_bytes(out, truth_image(is_true(value)))?;
            Ok(text)
        }
        Class::Integer(Base::Modulo(_)) => {
            let mut text = out;
            match append_digits(&mut text, digits(value)) {
                Ok(()) => Ok(text),
                Err(_) => Err(End::NoMemory),
            }
        }
        Class::Integer(Base::Narrow | Base::Wide) | Class::Universal => {
            let text = with_number(out, value)?;
            Ok(text)
        }
    }
}

fn with_bytes(out: Items<u8>, bytes: &[u8]) -> Result<Items<u8>, End>
    ensures { OrNoMemory (λ text. text ≡ out ++ bytes.now) result }
{
    let mut text = out;
    match text.extend(bytes) {
        Ok(()) => Ok(text),
        Err(_) => Err(End::NoMemory),
    }
}

fn with_number(out: Items<u8>, value: i64) -> Result<Items<u8>, End>
    ensures { OrNoMemory (λ text. text ≡ out ++ image value) result }
{
    let mut text = out;
    match append_image(&mut text, value) {
        Ok(()) => Ok(text),
        Err(_) => Err(End::NoMemory),
    }
}

/// A number in a field of so many places (A.10.8), behind other bytes.
pub fn with_field(out: Items<u8>, value: i64, width: i64) -> Result<Items<u8>, End>
    ensures { OrNoMemory (λ text. text ≡ out ++ padded value (to_nat width)) result }
{
    let places = places(width)?;
    let mut text = out;
    match append_padded(&mut text, value, places) {
        Ok(()) => Ok(text),
        Err(_) => Err(End::NoMemory),
    }
}

fn places(width: i64) -> Result<u32, End>
    ensures { OrNoMemory (λ n. n ≡ to_nat width) result }
{
    if width < 0 {
        Ok(0)
    } else {
        match u32::try_from(width) {
            Ok(n) => Ok(n),
            Err(_) => Err(End::NoMemory),
        }
    }
}

/// A text, with the end of its line where it has one.
pub fn with_line(out: Items<u8>, line: bool) -> Result<Items<u8>, End>
    ensures { OrNoMemory (λ text. text ≡ cond line (out ++ 10 ∷ []) out) result }
{
    let mut text = out;
    if line {
        match text.push(b'\n') {
            Ok(()) => Ok(text),
            Err(_) => Err(End::NoMemory),
        }
    } else {
        Ok(text)
    }
}
