//! What a run does, below any language: events, paths, memory, the runs that a part may have, shuffles of threads and
//! how threads are joined.
#![tactic(auto)]

ghost use Rattle.behaviours.specs.Memory.{ShuffleLaw};

/// Threads that share no place where one of them writes come to one memory in whatever order their events come.
pub fn shuffle_law()
    ensures { ShuffleLaw }
{}
