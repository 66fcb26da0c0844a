//! Parts of objects.

ghost use Rattle.std.specs.Prelude.{◌≡◌, ◌*◌, ◌-ℤ◌};
ghost use Rattle.ada_meaning.specs.Values.{to_nat};
ghost use Rattle.ada_meaning.specs.Meaning as meaning;
ghost use Rattle.run_store.specs.Environment.{part_of};
ghost use Rattle.run_values.specs.Values.{OrNoMemory};

use run_store::ObjectPart;
use run_values::End;

/// A part so many cells further on
pub fn moved(part: ObjectPart, count: u64) -> Result<ObjectPart, End>
    ensures { OrNoMemory (λ inner. part_of inner ≡ meaning.moved (part_of part) count) result }
{
    match part.offset.checked_add(count) {
        Some(offset) => Ok(ObjectPart {
            object: part.object,
            offset,
        }),
        None => Err(End::NoMemory),
    }
}

/// The component of an index.
pub fn component(part: ObjectPart, index: i64, low: i64, stride: u32) -> Result<ObjectPart, End>
    ensures { OrNoMemory (λ inner. part_of inner ≡ meaning.moved (part_of part) (to_nat (index -ℤ low) * stride)) result }
{
    let Ok(place) = u64::try_from(i128::from(index) - i128::from(low)) else {
        return Err(End::NoMemory);
    };
    match place.checked_mul(u64::from(stride)) {
        Some(count) => moved(part, count),
        None => Err(End::NoMemory),
    }
}
