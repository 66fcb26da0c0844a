//! Parallel constructs (5.5, 5.6.1): where they begin, and their arms.

ghost use Rattle.std.specs.Prelude.{◌≡◌, ◌+◌, ◌<◌, ◌||◌, IfSome, option_map};
ghost use Rattle.run_parts.specs.Dealing.{spent};
ghost use Rattle.typed_tree.specs.Decoded.{arms_at, stmts_at};
ghost use Rattle.ada_meaning.specs.Meaning.{arms_of};
ghost use Rattle.ada_meaning.specs.Meaning as meaning;
ghost use Rattle.run_store.specs.Environment.{env_of};
ghost use Rattle.run_store.specs.Shows.{Shows};
ghost use Rattle.run_values.specs.Values.{OrNoMemory};
ghost use Rattle.run_parts.specs.Dealing.{found_arm};
ghost use Rattle.run_parts.specs.Dealing as spec;
ghost use Rattle.run_parts.specs.Passing.{course_of};
ghost use Rattle.run_parts.specs.Words.{nodes_of};

use crate::courses::Course;
use crate::work::Work;
use ada_base::Reason;
use run_outside::Port;
use run_store::{Env, Store};
use run_values::{End, Leave};

// iterations that a construct may have
const MOST_ITERATIONS: u64 = 4_611_686_018_427_387_904;

/// Whether one more construct may be active (5.5).
pub fn opened<P: Port + Drop>(work: &Work<'_>, env: &Env<'_>, store: &Store<P>) -> Result<(), End>
    ensures { Shows P.Tells (spec.opened work.now (env_of env.now)) result store.now store.now }
{
    if env.nested() < 16 {
        Ok(())
    } else {
        Err(End::Left(Leave::Raises(Reason::StorageError)))
    }
}

/// What names stand for in a construct's threads.
pub fn inside<'a>(outer: &'a Env<'a>) -> Result<Env<'a>, End>
    ensures { OrNoMemory (λ env. env_of env ≡ meaning.inside (env_of outer.now)) result }
{
    match outer.nested().checked_add(1) {
        Some(nested) => Ok(Env::Inside { nested, outer }),
        None => Err(End::NoMemory),
    }
}

/// Whether a construct may have so many iterations (5.5).
pub fn check_count<P: Port + Drop>(
    work: &Work<'_>,
    course: Course,
    store: &Store<P>,
) -> Result<(), End>
    ensures { Shows P.Tells (spec.count_checked work.now (course_of course).count) result store.now store.now }
{
    match course.last() {
        None => Ok(()),
        Some(last) => {
            if last < MOST_ITERATIONS {
                Ok(())
            } else {
                Err(End::Left(Leave::Raises(Reason::StorageError)))
            }
        }
    }
}

/// How many arms a parallel block has.
pub fn count_arms(work: &Work<'_>, id: u32) -> Result<u32, End>
    ensures { OrNoMemory (λ n. n ≡ arms_of (arms_at (nodes_of work.now) id)) result }
{
    let mut count: u32 = 0;
    let mut at = id;
    while let Some(cell) = work.typed.nodes.arms(at) {
        count = one_more(count)?;
        at = cell.rest;
    }
    Ok(count)
}

fn one_more(count: u32) -> Result<u32, End>
    ensures { OrNoMemory (λ next. next ≡ count + 1) result }
{
    match count.checked_add(1) {
        Some(next) => Ok(next),
        None => Err(End::NoMemory),
    }
}

/// The statements of an arm, counted from 0.
#[tactic(auto, using(crate::proofs::Dealt::arm_here, crate::proofs::Dealt::arm_next, crate::proofs::Dealt::arm_over))]
pub fn find_arm(work: &Work<'_>, id: u32, index: u64) -> Option<u32>
    ensures is { option_map (stmts_at (nodes_of work.now)) result ≡ found_arm (arms_at (nodes_of work.now) id) index }
    ensures below { IfSome result (λ stmts. stmts < id) }
{
    let mut left = index;
    let mut at = id;
    while let Some(cell) = work.typed.nodes.arms(at) {
        if left == 0 {
            return Some(cell.first);
        }
        left -= 1;
        at = cell.rest;
    }
    None
}

/// Whether the turns of a thread before, or of this one, are spent.
pub fn either(before: bool, now: bool) -> bool
    ensures { result ≡ (before || now) }
{
    before || now
}

/// Whether a thread has no value, since its turns are spent.
pub fn is_spent(value: Option<i64>) -> bool
    ensures { result ≡ spent value }
{
    value.is_none()
}
