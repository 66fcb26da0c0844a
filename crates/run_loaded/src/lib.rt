//! The law that code of accepted programs is loaded: that it has all that the laws of the machine on a program's code ask. The
//! function here has no body: its contract is what is proved.
#![tactic(auto)]

ghost use Rattle.run_loaded.specs.Law.{AcceptedLaw, LoadedLaw};

/// - loaded: the code of an accepted program, with leases of what is granted, is loaded (`IsLoaded` of run_machine_laws): it is
///   valid, its threads begin behind their forks and ask for no input or output (9.5), and runs by notes have room for its
///   objects. That no part of it is repeated too often for numbers of 64 bits is asked.
/// - accepted: so it is with what `accept` of check_conflicts grants.
pub fn laws()
    ensures loaded { LoadedLaw }
    ensures accepted { AcceptedLaw }
{}
