//! Cells of objects, many at a time.

ghost use Rattle.std.specs.Prelude.{◌≡◌, ◌+◌, ◌+ℤ◌, pos, [], ◌∷◌, ◌++◌, ◌<◌, length, slice_get, slice_set, IfSome};
ghost use Rattle.ada_meaning.specs.Values.{zeros, laid};
ghost use Rattle.ada_meaning.specs.Stored.{after_all, gathered};
ghost use Rattle.run_store.specs.Shows.{Shows, entity_of};
ghost use Rattle.run_values.specs.Values.{OrNoMemory};
ghost use Rattle.run_parts.specs.Passing.{shape_of};
ghost use Rattle.run_parts.specs.Words as spec;
ghost use Rattle.run_parts.specs.Words.{cells_at};

use crate::held::Cells;
use crate::passed::Shape;
use crate::work::Work;
use ada_base::Items;
use run_outside::Port;
use run_store::{Object, Store};
use run_values::{End, cells_of};

/// An iteration or a call begins.
#[tactic(auto, unfolding(ada_meaning::specs::Stored::bind, ada_meaning::specs::Stored::ret, ada_meaning::specs::Stored::turn))]
pub fn turned<P: Port + Drop>(work: &Work<'_>, store: &mut Store<P>) -> Result<(), End>
    ensures { Shows P.Tells (spec.turned work.now) result store.old store.new }
{
    store.turn(work.limit)?;
    Ok(())
}

/// The cells of an array or record from an offset on.
pub fn read_whole<P: Port + Drop>(
    work: &Work<'_>,
    object: Object,
    offset: u64,
    subtype: u32,
    store: &Store<P>,
) -> Result<Items<i64>, End>
    ensures { Shows P.Tells (spec.read_all work.now (entity_of object) offset [] (cells_at work.now subtype)) result store.now store.now }
{
    let count = cells_of(work.typed, subtype)?;
    let mut values = Items::new(work.alloc);
    let mut at = offset;
    for k in 0..count {
        let value = store.read(object, at)?;
        at = next_offset(at)?;
        push_value(&mut values, value)?;
    }
    Ok(values)
}

/// Cells of a variable from an offset on get values.
pub fn write_all<P: Port + Drop>(
    work: &Work<'_>,
    object: u32,
    offset: u64,
    values: &[i64],
    store: &mut Store<P>,
) -> Result<(), End>
    ensures { Shows P.Tells (spec.write_all work.now object offset values.now) result store.old store.new }
{
    let _ = work;
    let mut at = offset;
    let mut k = 0;
    while let Some(value) = value_at(values, k) {
        store.write(object, at, value)?;
        at = next_offset(at)?;
        k += 1;
    }
    Ok(())
}

fn next_offset(at: u64) -> Result<u64, End>
    ensures { OrNoMemory (λ next. next ≡ at + 1) result }
{
    match at.checked_add(1) {
        Some(next) => Ok(next),
        None => Err(End::NoMemory),
    }
}

/// Adds a value to a list.
pub fn push_value(values: &mut Items<i64>, value: i64) -> Result<(), End>
    ensures { OrNoMemory (λ done. values.new ≡ values.old ++ value ∷ []) result }
{
    match values.push(value) {
        Ok(()) => Ok(()),
        Err(_) => Err(End::NoMemory),
    }
}

/// The list of one value.
pub fn one(work: &Work<'_>, value: i64) -> Result<Cells, End>
    ensures { OrNoMemory (λ values. values ≡ value ∷ []) result }
{
    Ok(Cells::one(work.alloc, value))
}

/// A list of zeros.
pub fn zeros(work: &Work<'_>, count: u32) -> Result<Items<i64>, End>
    ensures { OrNoMemory (λ values. values ≡ zeros count) result }
{
    let mut values = Items::new(work.alloc);
    for _k in 0..count {
        push_value(&mut values, 0)?;
    }
    Ok(values)
}

/// Lays values over others, from a place on.
pub fn lay(out: &mut Items<i64>, first: u64, values: &[i64])
    ensures { out.new ≡ laid out.old first values.now }
{
    let mut k = 0;
    while let Some(value) = value_at(values, k) {
        put_value(out, first, k, value);
        k += 1;
    }
}

/// A value of a list.
pub fn value_at(values: &[i64], index: usize) -> Option<i64>
    ensures is { slice_get values.now index ≡ result }
    ensures within { IfSome result (λ value. index < length values.now) }
{
    values.get(index).copied()
}

/// The size of a chunk.
pub fn size_at(sizes: &[u64], index: usize) -> Option<u64>
    ensures is { slice_get sizes.now index ≡ result }
    ensures within { IfSome result (λ size. index < length sizes.now) }
{
    sizes.get(index).copied()
}

fn put_value(out: &mut Items<i64>, first: u64, index: usize, value: i64)
    ensures { out.new ≡ slice_set out.old (first + index) value }
{
    let length = out.len();
    if (first as usize) < length && index < length - first as usize {
        out.set(first as usize + index, value);
    }
}

/// The next component of a run.
pub fn further(first: u64, stride: u32) -> Result<u64, End>
    ensures { OrNoMemory (λ next. next ≡ first + stride) result }
{
    match first.checked_add(u64::from(stride)) {
        Some(next) => Ok(next),
        None => Err(End::NoMemory),
    }
}

/// The end of a chunk of so many iterations.
pub fn later(first: u64, size: u64) -> Result<u64, End>
    ensures { OrNoMemory (λ end. end ≡ first + size) result }
{
    match first.checked_add(size) {
        Some(end) => Ok(end),
        None => Err(End::NoMemory),
    }
}

/// Adds a value to a list, where there is one.
pub fn push_some(values: &mut Items<i64>, value: Option<i64>) -> Result<(), End>
    ensures { OrNoMemory (λ done. values.new ≡ gathered after_all values.old value) result }
{
    match value {
        None => Ok(()),
        Some(value) => {
            push_value(values, value)?;
            Ok(())
        }
    }
}

/// A value of an iterated association.
pub fn placed(first: i64, index: u64) -> Result<i64, End>
    ensures { OrNoMemory (λ place. place ≡ first +ℤ pos index) result }
{
    match i64::try_from(i128::from(first) + i128::from(index)) {
        Ok(place) => Ok(place),
        Err(_) => Err(End::NoMemory),
    }
}
