//! Laws of the typed programs that the rules of names make. Every function here has no body: its contract is what is proved.
#![tactic(auto)]

ghost use Rattle.name_formed.specs.Law.{FormedProgramsLaw};

/// The typed program of every text without a fault is formed, as the laws of runs ask: each name, down to the part that it
/// selects, follows the layout of its object and spans enough of its cells (3.6, 3.8, 4.1), a subprogram calls itself and
/// earlier ones alone (3.1), every operator has found its type (3.4.1), and each subtype stands on earlier ones.
pub fn laws()
    ensures formed { FormedProgramsLaw }
{}
