//! Laws of the typed programs that the rules of names make. The function here has no body: its contract is what is proved.
#![tactic(auto)]

ghost use Rattle.name_scopes.specs.Law.{NamedProgramsLaw, ScopedProgramsLaw};

/// In the typed program of every text without a fault each object, parameter, item and target that is named is in scope
/// there (8.2, 8.3), with as many cells as what it goes to (3.6, 3.8, 5.2, 6.4.1): actual parameters fit their formals, the
/// runs of an aggregate lie among its components (4.3), an array that is gone through has a component (5.5.2), threads take
/// the iterations of a reduction forward (4.5.10), a subprogram's outer objects are there where it is called (6.4), and the
/// statements stand in order, with objects that are new. And all that lowering asks of names holds of it.
pub fn laws()
    ensures scoped { ScopedProgramsLaw }
    ensures named { NamedProgramsLaw }
{}
