//! Whether a program keeps the rules on conflicts (9.10.1).

ghost use Rattle.typed_tree.specs.Programs.{program};
ghost use Rattle.check_effects.specs.Backwards.{CallsBackwards};
ghost use Rattle.check_inference.specs.Exact.{AreEffects};
ghost use Rattle.check_conflicts.specs.Answer.{Answers};
ghost use Rattle.check_conflicts.specs.Judged.{Judges};

use crate::faults::ConflictFault;
use check_clashes::breaches::{Pair, clash_by, touched_by};
use check_clashes::effects::Effects;
use check_clashes::granted::{Grants, grants_of};
use std::alloc::Global;
use typed_tree::Typed;

/// Judges effects by the strict rule, where it is asked for, and then by the disjoint rule.
fn judge(strict: bool, effects: &Effects, alloc: Global) -> Result<(), ConflictFault>
    ensures { Judges strict effects.now result }
{
    match touched_by(strict, effects, alloc) {
        Err(_) => Err(ConflictFault::OutOfMemory),
        Ok(Some(Pair { first, second })) => Err(ConflictFault::GlobalTouched {
            at: first,
            object: second,
        }),
        Ok(None) => match clash_by(effects, alloc) {
            Err(_) => Err(ConflictFault::OutOfMemory),
            Ok(Some(Pair { first, second })) => Err(ConflictFault::Clash {
                at: first,
                other: second,
            }),
            Ok(None) => Ok(()),
        },
    }
}

/// What the threads of the parallel constructs of a program of these effects may write, if it keeps the rules on conflicts
/// (9.10.1): the strict rule where it is asked for, and that no two effects in different threads of a construct clash. Then,
/// where the program is formed and no call breaks the rule on nonblocking text, no two threads have a race, and no thread
/// touches a cell that another one is granted. An Err tells the least breach, of the strict rule before that of the other; or it is want of memory,
/// OutOfMemory.
pub fn accept(typed: &Typed, effects: &Effects, alloc: Global) -> Result<Grants, ConflictFault>
    ensures { AreEffects (program typed.now) effects.now → CallsBackwards (program typed.now) → Answers (program typed.now) result }
{
    match judge(typed.strict, effects, alloc) {
        Err(fault) => Err(fault),
        Ok(()) => match grants_of(effects, alloc) {
            Err(_) => Err(ConflictFault::OutOfMemory),
            Ok(grants) => Ok(grants),
        },
    }
}
