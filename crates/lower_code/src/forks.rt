//! Which constructs have a fork in code.

ghost use Rattle.std.specs.Prelude.{◌≡◌, IfOk};
ghost use Rattle.lower_code.specs.BodyTables as spec;
ghost use Rattle.lower_code.specs.BodyTables.{each};

use ada_base::Items;
use lower_emission::types::Placed;
use stack_code::Instr;
use std::alloc::{AllocError, Global};

/// A construct has a fork where an instruction begins it.
fn flag_fork(flags: &mut Items<bool>, placed: Placed)
    ensures { flags.new ≡ each (λ k b. spec.flagging placed k b) 0 flags.old }
{
    if let Instr::Fork(number) = placed.instr {
        if let Some(_flag) = flags.get(number as usize) {
            flags.set(number as usize, true);
        }
    }
}

/// Constructs by all instructions.
fn flag_forks(code: &[Placed], flags: &mut Items<bool>)
    ensures { flags.new ≡ each (λ k b. spec.flag_after code.now k b) 0 flags.old }
{
    for placed in code {
        flag_fork(flags, *placed);
    }
}

/// Which of so many constructs have a fork, by their numbers. An Err is want of memory.
pub fn forks_of(code: &[Placed], count: usize, alloc: Global) -> Result<Items<bool>, AllocError>
    ensures { IfOk result (λ all. all ≡ spec.fork_flags code.now count) }
{
    let mut flags = Items::from_vec(vec![in alloc; false; count]?);
    flag_forks(code, &mut flags);
    Ok(flags)
}
