//! Laws of the statements in the typed programs that the rules of names make. The function here has no body: its contract
//! is what is proved.
#![tactic(auto)]

ghost use Rattle.name_flow.specs.Law.{FlowLaw, FreshLaw, ObjectsLaw};

/// In the typed program of every text without a fault no exit leaves the body that it stands in (5.7), threads take the
/// iterations of a parallel loop forward (5.5), `others` stands last among alternatives and handlers (5.4, 11.2), a parallel
/// block has 1 to 4096 arms (5.6.1), what is returned is a number (6.5), an exception is raised again in handlers alone
/// (11.3), the formal parameters of functions are of mode `in`, no object that is declared is in scope already, and none is
/// declared twice (3.1, 8.2).
pub fn laws()
    ensures flow { FlowLaw }
    ensures fresh { FreshLaw }
    ensures objects { ObjectsLaw }
{}
