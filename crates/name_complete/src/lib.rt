//! The law that every program has a typed program or a fault. The function here has no body: its contract is what is proved.
#![tactic(auto)]

ghost use Rattle.name_complete.specs.Law.{TypedOrFaultyLaw};

/// Each text for which the rules of names write no fault has a typed program: nothing is refused without a reason (1.1.5).
pub fn laws()
    ensures complete { TypedOrFaultyLaw }
{}
