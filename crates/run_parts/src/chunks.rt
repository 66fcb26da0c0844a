//! Chunk specifications (5.5), once they are evaluated.

ghost use Rattle.std.specs.Prelude.{◌≡◌, ◌<ℤ◌, int_le, nat_le, pos, min, MatchOption, true, false};
ghost use Rattle.ada_meaning.specs.Meaning.{most_threads};
ghost use Rattle.ada_meaning.specs.Values.{count, to_nat};
ghost use Rattle.run_store.specs.Environment.{env_of};
ghost use Rattle.run_store.specs.Shows.{Shows, ShowsAs};
ghost use Rattle.run_values.specs.Values.{OrNoMemory};
ghost use Rattle.run_parts.specs.Dealing.{chunking_of};
ghost use Rattle.run_parts.specs.Dealing as spec;

use crate::cells::placed;
use crate::courses::bounds_hold;
use crate::work::Work;
use ada_base::Reason;
use ada_meaning::MOST_THREADS;
use run_outside::Port;
use run_store::{Env, Store};
use run_values::{End, Leave, Range, last_of};
use typed_tree::Check;

/// How many threads a loop or a reduction has: by the plan, and no more than so many; or one for each value of a chunk
/// parameter.
#[derive(Clone, Copy)]
pub enum Chunking {
    ByPlan {
        most: u32,
    },
    Each {
        parameter: u32,
        low: i64,
        chunks: u32,
    },
}

impl Chunking {
    /// What is bound in a thread.
    pub fn bound<'a>(self, number: u64, outer: &'a Env<'a>) -> Result<Env<'a>, End>
        ensures { OrNoMemory (λ env. env_of env ≡ (chunking_of self).bound number (env_of outer.now)) result }
    {
        match self {
            Chunking::ByPlan { .. } => Ok(*outer),
            Chunking::Each { parameter, low, .. } => {
                let value = placed(low, number)?;
                Ok(Env::Parameter {
                    number: parameter,
                    value,
                    outer,
                })
            }
        }
    }
}

/// The greatest number of threads that a value asks for (5.5, 5.6.1).
pub fn most_of<P: Port + Drop>(work: &Work<'_>, value: i64, store: &Store<P>) -> Result<u32, End>
    ensures { Shows P.Tells (spec.most_of work.now value) result store.now store.now }
{
    if value <= 0 {
        Err(End::Left(Leave::Raises(Reason::ProgramError)))
    } else {
        Ok(fewest(value))
    }
}

fn fewest(value: i64) -> u32
    requires { pos 0 <ℤ value }
    ensures { result ≡ min (to_nat value) most_threads }
{
    if value < i64::from(MOST_THREADS) {
        value as u32
    } else {
        MOST_THREADS
    }
}

/// The chunks for the values of a range, whose bounds are checked (5.5).
pub fn each_chunk<P: Port + Drop>(
    work: &Work<'_>,
    parameter: u32,
    check: Option<Check>,
    range: Range,
    store: &Store<P>,
) -> Result<Chunking, End>
    ensures { ShowsAs chunking_of P.Tells (spec.each_chunk work.now parameter check range.low range.high) result store.now store.now }
{
    if !bounds_hold(check, range) {
        return Err(End::Left(Leave::Raises(Reason::ConstraintError)));
    }
    if ordered(range) {
        match few(range) {
            Some(chunks) => Ok(Chunking::Each {
                parameter,
                low: range.low,
                chunks,
            }),
            None => Err(End::Left(Leave::Raises(Reason::StorageError))),
        }
    } else {
        Err(End::Left(Leave::Raises(Reason::ProgramError)))
    }
}

fn ordered(range: Range) -> bool
    ensures { result ≡ int_le range.low range.high }
{
    range.low <= range.high
}

// how many numbers a range has, where those are few enough
fn few(range: Range) -> Option<u32>
    ensures { MatchOption result (nat_le (count range.low range.high) most_threads ≡ false) (λ n. (nat_le (count range.low range.high) most_threads ≡ true) × (n ≡ count range.low range.high)) }
{
    match last_of(range) {
        None => Some(0),
        Some(last) => {
            if last < u64::from(MOST_THREADS) {
                Some(last as u32 + 1)
            } else {
                None
            }
        }
    }
}
