//! What iterations go through (5.5, 5.5.2).

ghost use Rattle.std.specs.Prelude.{◌≡◌, ◌+◌, ◌+ℤ◌, ◌-ℤ◌, pos, cond, MatchOption};
ghost use Rattle.run_store.specs.Environment.{env_of, part_of};
ghost use Rattle.run_values.specs.Values.{OrNoMemory};
ghost use Rattle.run_parts.specs.Passing.{course_of};
ghost use Rattle.run_parts.specs.Words as spec;

use crate::offsets::moved;
use run_store::{Env, ObjectPart};
use run_values::{End, Range, count, is_in, last_of};
use typed_tree::Check;

/// What an iteration goes through, once that is evaluated: the values of a range, or components of an array.
#[derive(Clone, Copy)]
pub enum Course {
    Values {
        parameter: u32,
        reverse: bool,
        range: Range,
    },
    Components {
        item: u32,
        constant: bool,
        part: ObjectPart,
        count: u32,
        stride: u32,
    },
}

impl Course {
    /// The number of the last iteration, counted from 0; None where there is none.
    pub fn last(self) -> Option<u64>
        ensures { MatchOption result ((course_of self).count ≡ 0) (λ last. (course_of self).count ≡ last + 1) }
    {
        match self {
            Course::Values { range, .. } => last_of(range),
            Course::Components { count, .. } => {
                if count == 0 {
                    None
                } else {
                    Some(u64::from(count) - 1)
                }
            }
        }
    }

    /// How many iterations there are, where 64 bits hold that.
    pub fn count(self) -> Result<u64, End>
        ensures { OrNoMemory (λ n. n ≡ (course_of self).count) result }
    {
        match self {
            Course::Values { range, .. } => {
                let n = count(range)?;
                Ok(n)
            }
            Course::Components { count, .. } => Ok(u64::from(count)),
        }
    }

    /// What is bound in an iteration.
    pub fn bound<'a>(self, index: u64, outer: &'a Env<'a>) -> Result<Env<'a>, End>
        ensures { OrNoMemory (λ env. env_of env ≡ (course_of self).bound index (env_of outer.now)) result }
    {
        match self {
            Course::Values {
                parameter,
                reverse,
                range,
            } => {
                let value = placed(reverse, range, index)?;
                Ok(Env::Parameter {
                    number: parameter,
                    value,
                    outer,
                })
            }
            Course::Components {
                item,
                constant,
                part,
                stride,
                ..
            } => {
                let Some(offset) = index.checked_mul(u64::from(stride)) else {
                    return Err(End::NoMemory);
                };
                let part = moved(part, offset)?;
                Ok(Env::Item {
                    constant,
                    number: item,
                    part,
                    outer,
                })
            }
        }
    }
}

// a number of a range, from one end or the other
fn placed(reverse: bool, range: Range, index: u64) -> Result<i64, End>
    ensures { OrNoMemory (λ value. value ≡ cond reverse (range.high -ℤ pos index) (range.low +ℤ pos index)) result }
{
    let value = if reverse {
        i128::from(range.high) - i128::from(index)
    } else {
        i128::from(range.low) + i128::from(index)
    };
    match i64::try_from(value) {
        Ok(value) => Ok(value),
        Err(_) => Err(End::NoMemory),
    }
}

/// Whether the bounds of a range that has a value are in its subtype (3.5).
pub fn bounds_hold(check: Option<Check>, range: Range) -> bool
    ensures { result ≡ spec.bounds_hold check range.low range.high }
{
    match check {
        None => true,
        Some(check) => {
            if range.low <= range.high {
                is_in(check.scalar, range.low) && is_in(check.scalar, range.high)
            } else {
                true
            }
        }
    }
}
