// Output and input that the machine asks for.
ghost use Rattle.std.specs.Prelude.{◌≡◌, ◌-◌, ◌≤◌, IfOk, OnOk, OnErr, slice_get};
ghost use Rattle.ada_port.specs.Ports.{IsTold};
ghost use Rattle.ada_machine.specs.States.{Awaits};
ghost use Rattle.run_outside.specs.Outside.{MayBe, HasPut, HasGot};
ghost use Rattle.run_machine.specs.Running.{IsGetting, IsSending};
ghost use Rattle.run_machine.specs.Asked.{HasAnswered, ReadTo};

use ada_base::Items;
use ada_io::{GetEnd, Got};
use ada_machine::Machine;
use ada_port::{Failed, Sink, Source};
use ada_threads::Team;
use run_outside::{Port, Ports};
use stack_code::{Gave, Leave};
use std::alloc::AllocError;

/// Puts a piece out for which the machine asks, and goes on.
pub(crate) fn put<I: Source + Drop, O: Sink + Drop>(
    team: &Team<'_>,
    machine: &mut Machine,
    ports: &mut Ports<I, O>,
    piece: &[u8],
) -> Result<(), Failed>
    requires awaits { Awaits team.now.code.now machine.old }
    requires sends { IsSending (slice_get team.now.code.now.instrs machine.old.pc) }
    ensures put { HasPut (MayBe ((s : I) → IsTold (I.state s))) piece.now result ports.old ports.new }
    ensures resumed { OnOk result (HasAnswered team.now.code.now Gave.Nothing machine.old machine.new) }
{
    match ports.put(piece) {
        Ok(()) => {
            machine.resume_after(team.code, Gave::Nothing);
            Ok(())
        }
        Err(failed) => Err(failed),
    }
}

/// Reads a number for which the machine asks, and goes on with that or with the exception that is raised. An Err is want of
/// memory; nothing was read then.
pub(crate) fn get<I: Source + Drop, O: Sink + Drop>(
    team: &Team<'_>,
    machine: &mut Machine,
    ports: &mut Ports<I, O>,
) -> Result<Got, AllocError>
    requires awaits { Awaits team.now.code.now machine.old }
    requires gets { IsGetting (slice_get team.now.code.now.instrs machine.old.pc) }
    requires within { machine.old.turns ≤ team.now.limit }
    ensures got { IfOk result (λ got. HasGot (MayBe ((s : I) → IsTold (I.state s))) (team.now.limit - machine.old.turns) got ports.old ports.new) }
    ensures read { IfOk result (λ got. ReadTo team.now.code.now got machine.old machine.new) }
    ensures short { OnErr result (ports.new ≡ ports.old) }
{
    let mut numbers = Items::new(team.alloc);
    numbers.push(0)?;
    let got = ports.get(team.limit - machine.turns);
    machine.turns += got.took;
    match got.end {
        GetEnd::Number { value } => {
            numbers.set(0, value);
            machine.resume_after(team.code, Gave::Numbers(numbers));
            Ok(got)
        }
        GetEnd::Raise { reason } => {
            machine.resume_after(team.code, Gave::Left(Leave::Raise(reason)));
            Ok(got)
        }
        GetEnd::Spent => Ok(got),
        GetEnd::ReadFault => Ok(got),
    }
}
