//! The law that static expressions have the values that their texts have. The function here has no body: its contract is
//! what is proved.
#![tactic(auto)]

ghost use Rattle.name_statics.specs.Law.{StaticValuesLaw};

/// The static value of an expression or a bound is the exact one of its whole text, by recursion on that, with the values
/// of the constants and the bounds that are declared around it (4.9). What stands in its place in the typed program is
/// that value, as a cell of the place's type keeps it, and is no value where the expression isn't static, but for First and
/// Last of a modular subtype alone, whose bound stands there (3.5). The static value of a constant's initial value and of a
/// named number is that of its expression (3.3.1, 3.3.2).
pub fn laws()
    ensures statics { StaticValuesLaw }
{}
