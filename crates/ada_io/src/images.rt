ghost use Rattle.std.specs.Prelude.{◌≡◌, ◌++◌, pos, length, replicate, take, IfOk, OnErr, OnOk};
ghost use Rattle.ada_base.specs.Operation.{number};
ghost use Rattle.ada_base.specs.Image.{image, padded, truth_image};

use ada_base::{Base, Items, digits};
use itoa::Buffer;
use std::alloc::{AllocError, Global};

/// The image of an integer (4.10): its decimal digits after a minus sign, or after a space where it isn't negative. An
/// Err is want of memory.
pub fn image(alloc: Global, value: i64) -> Result<Items<u8>, AllocError>
    ensures { IfOk result (λ text. text ≡ image value) }
{
    let mut text = Items::new(alloc);
    append_image(&mut text, value)?;
    Ok(text)
}

/// Appends the image of an integer (4.10) to a text. An Err is want of memory, and leaves the text as it was.
pub fn append_image(text: &mut Items<u8>, value: i64) -> Result<(), AllocError>
    ensures ok { OnOk result (text.new ≡ text.old ++ image value) }
    ensures err { OnErr result (text.new ≡ text.old) }
{
    let mut buffer = Buffer::new();
    let number = buffer.format(value).as_bytes();
    append_field(text, usize::from(value >= 0), number)
}

/// The image of the number that is kept in a cell of a base range (4.10). An Err is want of memory.
pub fn image_of(alloc: Global, base: Base, kept: i64) -> Result<Items<u8>, AllocError>
    ensures { IfOk result (λ text. text ≡ image (number base kept)) }
{
    match base {
        Base::Modulo(_) => {
            let mut text = Items::new(alloc);
            append_digits(&mut text, digits(kept))?;
            Ok(text)
        }
        Base::Narrow => image(alloc, kept),
        Base::Wide => image(alloc, kept),
    }
}

/// Appends the image of a number of a modular type (4.10) to a text. An Err is want of memory, and leaves the text as it
/// was.
pub fn append_digits(text: &mut Items<u8>, value: u64) -> Result<(), AllocError>
    ensures ok { OnOk result (text.new ≡ text.old ++ image (pos value)) }
    ensures err { OnErr result (text.new ≡ text.old) }
{
    let mut buffer = Buffer::new();
    let number = buffer.format(value).as_bytes();
    append_field(text, 1, number)
}

/// An integer as Put writes it (A.10.8): at the right end of `width` places, or whole where it needs more. An Err is want
/// of memory.
pub fn padded(alloc: Global, value: i64, width: u32) -> Result<Items<u8>, AllocError>
    ensures { IfOk result (λ text. text ≡ padded value width) }
{
    let mut text = Items::new(alloc);
    append_padded(&mut text, value, width)?;
    Ok(text)
}

/// Appends an integer as Put writes it (A.10.8). An Err is want of memory, and leaves the text as it was.
pub fn append_padded(text: &mut Items<u8>, value: i64, width: u32) -> Result<(), AllocError>
    ensures ok { OnOk result (text.new ≡ text.old ++ padded value width) }
    ensures err { OnErr result (text.new ≡ text.old) }
{
    let mut buffer = Buffer::new();
    let number = buffer.format(value).as_bytes();
    append_field(text, (width as usize).saturating_sub(number.len()), number)
}

/// The image of a truth value (4.10).
pub fn truth_image(value: bool) -> &'static [u8]
    ensures { result.now ≡ truth_image value }
{
    if value { b"TRUE" } else { b"FALSE" }
}

// Appends so many spaces and then a number. An Err leaves the text as it was.
fn append_field(text: &mut Items<u8>, spaces: usize, number: &[u8]) -> Result<(), AllocError>
    ensures ok { OnOk result (text.new ≡ text.old ++ (replicate spaces 32 ++ number.now)) }
    ensures err { OnErr result (text.new ≡ text.old) }
{
    let before = text.len();
    let appended = push_field(text, spaces, number);
    if appended.is_err() {
        text.truncate(before);
    }
    appended
}

// The same, but that an Err may leave some of the spaces.
fn push_field(text: &mut Items<u8>, spaces: usize, number: &[u8]) -> Result<(), AllocError>
    ensures ok { OnOk result (text.new ≡ text.old ++ (replicate spaces 32 ++ number.now)) }
    ensures err { OnErr result (take (length text.old) text.new ≡ text.old) }
{
    for _ in 0..spaces {
        text.push(b' ')?;
    }
    text.extend(number)
}
