//! What a run of the machine on a program's code tells of the program's runs. No function here has a body: its contract is
//! what is proved.
#![tactic(auto)]

ghost use Rattle.run_machine_laws.specs.Law.{CalmLaw, EndLaw, ForkLaw, FrontLaw, GetLaw, MoveLaw, OneEndLaw, OnlyLaw, StopLaw};
ghost use Rattle.run_machine_laws.specs.Looping.{LoopLaw};
ghost use Rattle.run_machine_laws.specs.Telling.{TellLaw};

/// Laws of the loop that runs the machine on a program's code: it goes, its path is answered where it asks, and workers do the
/// threads of its constructs, which tell notes (5.5, 5.6.1, A.10).
/// - moves, stops, forks: each of these leads from a step to one that comes to the same ends.
/// - one_end: there is one.
/// - gets: a Get of the code is the one that the machine's path is given, with what that asks for.
/// - fronts: what was done outside up to a step is a front of what the program's run by these notes does; so a permitted run may
///   have been stopped anywhere in it, for want of memory or by a fault of a device.
/// - ends: where the machine stops by itself a permitted run ends so, with that output, those bytes taken, and finals that
///   stand in the machine's cells.
/// - calm: where the sequential run is calm a permitted run that ended by itself is that one, and the output of each is a
///   prefix of its output.
/// - tells: so an end of the machine's run, by itself, for want of memory or by a fault of a device, tells of a permitted run under
///   the setting, with any number of workers; behind a normal end its finals are what the main procedure's variables have in
///   the machine's cells.
/// - steps: from zeroed memory on, where the machine moves, puts a piece out, reads a number, or comes to a construct whose threads
///   a note tells of, the run stands where it did so; and where it stops, a device fails or memory is wanting, it ends so.
/// - only: where one left no construct early, each other that ended by itself is the same.
pub fn laws()
    ensures moves { MoveLaw }
    ensures stops { StopLaw }
    ensures forks { ForkLaw }
    ensures one_end { OneEndLaw }
    ensures gets { GetLaw }
    ensures fronts { FrontLaw }
    ensures ends { EndLaw }
    ensures calm { CalmLaw }
    ensures tells { TellLaw }
    ensures steps { LoopLaw }
    ensures only { OnlyLaw }
{}
