//! Runs of whole programs.

ghost use Rattle.std.specs.Prelude.{◌≡◌, ℕ};
ghost use Rattle.ada_meaning.specs.Stored.{outset};
ghost use Rattle.run_store.specs.Shows.{Shows};
ghost use Rattle.run_walk.specs.Run.{IsRun};
ghost use Rattle.run_walk.specs.Run as spec;

use crate::bodies::body;
use run_outside::Port;
use run_parts::Work;
use run_store::{Env, Region, Store};
use run_values::{End, Leave};

// How many calls may be active at once (11.1).
const MOST_CALLS: u32 = 1000;

/// Runs a program, from a state in which no run has begun.
pub fn run<P: Port + Drop>(work: &Work<'_>, store: &mut Store<P>) -> Result<(), End>
    ensures { IsRun P.Tells work.now result store.old store.new }
{
    let result = main(work, store);
    result
}

// the main procedure (10.2), which only an exception leaves
fn main<P: Port + Drop>(work: &Work<'_>, store: &mut Store<P>) -> Result<(), End>
    ensures { Shows P.Tells (spec.main work.now) result store.old store.new }
{
    let env = Env::Outset { nested: 0 };
    let how = body(
        work,
        MOST_CALLS,
        work.typed.body,
        Region::Everywhere,
        &env,
        store,
    );
    main_ended(how)
}

fn main_ended(how: Result<(), End>) -> Result<(), End>
    ensures { result ≡ spec.main_ended how }
{
    match how {
        Ok(()) => Ok(()),
        Err(End::Left(Leave::Exits(_))) => Ok(()),
        Err(End::Left(Leave::Returns(_))) => Ok(()),
        Err(end) => Err(end),
    }
}
