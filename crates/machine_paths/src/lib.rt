//! Threads of the machine on workers: what a thread's path does on its view, that it keeps to it, and that what workers
//! answer of a construct is what the machine does there, by notes or in order. No function here has a body: its contract is
//! what is proved.
#![tactic(auto)]

ghost use Rattle.machine_paths.specs.Law.{AnswerLaw, AskLaw, ConstructLaw, EndLaw, EnoughLaw, ForkLaw, FrameLaw, LeaveLaw, NestedLaw, NoteLaw, OrderLaw, RunLaw, StartLaw, StepLaw, StopLaw, WorldLaw};

/// Laws of a thread's path of the machine (5.5, 5.6.1, 9.5), which runs the constructs in it in order and does no input or
/// output: where it asks for some, it comes to nothing.
/// - frames: it touches no cell but those that its view lets it, and on a memory that has more it does the same.
/// - steps: more steps change no end, and where it comes to one, the machine's path that may ask comes to it too.
/// - worlds: it leaves its world as it was.
/// - ends: where it isn't stuck, there is one end.
/// - moves, stops, asks: where the machine comes, the path does; one that asks comes to nothing.
/// - starts: the machine's threads of a construct are such paths.
/// - notes, orders: what workers answer of threads is what the machine does by the note that is told, or in order.
/// - constructs, nested: so from a fork the path goes on with the answer that the workers gave.
/// - forks: what the threads of a fork come to by that note, and in order.
/// - enough: in valid, forward code whose threads ask for nothing, where the machine's thread comes to an end, this path
///   comes to it.
/// - leaves, answers: no other than a raise leaves a reduction's thread, and the answer of a construct is of its kind.
///
/// Of these, steps, worlds, moves, constructs, nested and leaves are results for a reader: the laws and the code above go by
/// the others.
pub fn laws()
    ensures frames { FrameLaw }
    ensures steps { StepLaw }
    ensures worlds { WorldLaw }
    ensures ends { EndLaw }
    ensures moves { RunLaw }
    ensures stops { StopLaw }
    ensures asks { AskLaw }
    ensures starts { StartLaw }
    ensures notes { NoteLaw }
    ensures orders { OrderLaw }
    ensures constructs { ConstructLaw }
    ensures nested { NestedLaw }
    ensures forks { ForkLaw }
    ensures enough { EnoughLaw }
    ensures leaves { LeaveLaw }
    ensures answers { AnswerLaw }
{}
