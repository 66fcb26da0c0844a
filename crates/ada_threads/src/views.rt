// What is proved of workers' views of the machine's threads.
ghost use Rattle.ada_threads.specs.Lent.{FineLaw};

/// The law of the views that workers give the threads of an outermost construct (5.5, 5.6.1): in valid, forward code whose
/// threads ask for nothing, where each thread goes well on the view of which the first thread whose regions have a cell is
/// the owner, each goes well on the view that workers give it.
pub fn laws()
    ensures { FineLaw }
{}
