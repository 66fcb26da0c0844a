//! Lowering: the code that is listed for a typed program does what the program's run does; with where variables lie in the frames of
//! code, and which cells the threads of parallel constructs are lent. No function here has a body: its contract is what is proved.
#![tactic(auto)]

ghost use Rattle.ada_lower.specs.HomesLaw.{HomesLaw, LocalLaw};
ghost use Rattle.ada_lower.specs.Law.{ForwardLaw, TablesLaw, ValidLaw, ValueLaw, ViewLaw, WholeLaw};
ghost use Rattle.ada_lower.specs.LeaseRows.{LeaseRows};

pub mod types;

/// Laws of all programs with their code, as `IsLowered` of `specs/Law.antt` says; the run is that by notes (9.5, 5.5), with
/// its threads on one memory.
/// - whole: the machine on the code lands where the run ends.
/// - value: where the run gives a value, the machine is done, with the same output, turns and variables.
/// - view: on the code of an accepted program threads of each outermost construct go well on the cells that the leases of its
///   site lend them.
/// - forward: the code is forward, so the machine comes to an end.
/// - valid: the code is valid, with tables as `HasTables` of `specs/HasTables.antt` says, so the machine never goes astray.
/// - tables: the whole code of a program, by its definition, has those tables.
/// - leases: the threads of programs are lent the cells that are written by hand beside their code in `specs` of lower_emission.
/// - homes: where no two declarations of a program are of one object (3.1), no variable is listed with two homes.
/// - local: there no formal parameter has the number of an object that the main procedure declares.
pub fn laws()
    ensures whole { WholeLaw }
    ensures value { ValueLaw }
    ensures view { ViewLaw }
    ensures forward { ForwardLaw }
    ensures valid { ValidLaw }
    ensures tables { TablesLaw }
    ensures leases { LeaseRows }
    ensures homes { HomesLaw }
    ensures local { LocalLaw }
{}
